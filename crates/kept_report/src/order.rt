//! The order in which queries are told.

ghost use Rattle.std.specs.Prelude.{◌≡◌, IfOk};
ghost use Rattle.kept_report.specs.Ordered.{IsOrdered, mode_word, run_order};

use entry_model::restored::{Run, RunList};
use osq_value::NoMemory;
use pack_rules::schedule::Mode;
use std::cmp::Ordering;

/// The word for a mode.
pub(crate) fn word_of(mode: Mode) -> &'static str
    ensures { result.now ≡ mode_word mode }
{
    match mode {
        Mode::Evented => "evented",
        Mode::Snapshot => "snapshot",
    }
}

/// Which of two queries is told first: the names, the texts and the words for the modes are compared by their bytes.
fn order(left: &Run, right: &Run) -> Ordering
    ensures { result ≡ run_order left.now right.now }
{
    let names = left
        .key
        .name
        .as_str()
        .as_bytes()
        .cmp(right.key.name.as_str().as_bytes());
    let texts = left
        .key
        .text
        .as_str()
        .as_bytes()
        .cmp(right.key.text.as_str().as_bytes());
    let modes = word_of(left.key.mode)
        .as_bytes()
        .cmp(word_of(right.key.mode).as_bytes());
    names.then(texts.then(modes))
}

/// The queries in that order. They are moved.
pub(crate) fn ordered(runs: RunList) -> Result<RunList, NoMemory>
    ensures { IfOk result (IsOrdered runs) }
{
    let mut runs = runs.into_vec();
    runs.sort_by(|left, right| order(left, right))?;
    Ok(RunList::from_vec(runs))
}
