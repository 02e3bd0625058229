//! How many lines readings skipped.

ghost use Rattle.std.specs.Prelude.{◌≡◌, ◌+◌};
ghost use Rattle.source_feeds.specs.Feeding.{counted};
ghost use Rattle.source_feeds.specs.Joining.{skipped_in, skipped_told};

use osq_value::Reading;

/// How many lines a reading skipped.
fn skipped_in(reading: &Reading) -> u64
    ensures { result ≡ skipped_in reading.now }
{
    match reading {
        Reading::Events {
            taken: _,
            events: _,
            skipped,
        } => *skipped,
        Reading::Table {
            taken: _,
            table: _,
            rows: _,
        } => 0,
    }
}

/// A count of skipped lines with those of these readings. It stops at the last value of its type.
#[tactic(auto, using(crate::proofs::Joins::skipped_next))]
pub(crate) fn skipped_with(before: u64, readings: &[Reading]) -> u64
    ensures { result ≡ counted (before + skipped_told readings.now) }
{
    let mut skipped = before;
    for reading in readings {
        skipped = skipped.saturating_add(skipped_in(reading));
    }
    skipped
}
