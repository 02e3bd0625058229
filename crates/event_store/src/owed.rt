//! Which events are to expire, and in what order events came.

ghost use Rattle.std.specs.Prelude.{◌≡◌, ◌-◌, ◌<◌, ◌≤◌, ◌&&◌, ◌||◌, ℕ, nat_le, true, slice_index_or, IfSome};
ghost use Rattle.entry_model.specs.Fits.{IsRisingFrom};
ghost use Rattle.event_store.specs.Owed.{owed_of};
ghost use Rattle.event_store.specs.Orders.{IsInOrder};
ghost use Rattle.event_store.specs.Segments.{live_in, IsSound};

use crate::segments::Segments;
use entry_model::restored::Live;

/// How long and how many events are kept.
#[derive(Clone, Copy)]
pub(crate) struct Limits {
    /// After how many seconds an event is old.
    pub expiry: u64,
    /// How many events of the table may stay.
    pub max: u64,
    /// The present moment.
    pub moment: u64,
    /// Up to which number the old ones need not be kept any more.
    pub reached: u64,
}

/// The event is old and its number has been reached, or as many as may be kept come later.
fn must_go(event: &Live, later: u64, limits: Limits) -> bool
    ensures { result ≡ (nat_le limits.expiry (limits.moment - event.now.moment) && nat_le event.now.number limits.reached || nat_le limits.max later) }
{
    let is_old = limits.moment.saturating_sub(event.moment) >= limits.expiry;
    is_old && event.number <= limits.reached || later >= limits.max
}

/// The number of the last event of the table that must go: one that is old and has been reached, or after which come as many
/// as may be kept. Where the moments are in order it looks at no more than one event that may stay: none behind that one is
/// older or has a lesser number.
pub(crate) fn floor_owed(
    segments: &Segments,
    table: usize,
    in_order: bool,
    limits: Limits,
) -> Option<u64>
    requires sound { IsSound segments.now }
    requires table { table < 3 }
    requires rising { IsRisingFrom 0 (live_in segments.now table) }
    requires order { in_order ≡ true → (latest : ℕ) × IsInOrder 0 latest (live_in segments.now table) }
    ensures { result ≡ owed_of limits.expiry limits.max limits.moment limits.reached (live_in segments.now table) }
{
    let count = segments.len(table);
    let mut later = count;
    let mut owed = None;
    for at in 0..count {
        let event = segments.event(table, at);
        later -= 1;
        if must_go(event, later as u64, limits) {
            owed = Some(event.number);
        } else if in_order {
            return owed;
        }
    }
    owed
}

/// The moments of the events are in order, and the last of them.
pub(crate) fn order_of(events: &[Live]) -> (bool, u64)
    ensures { result.0 ≡ true → IsInOrder 0 result.1 events.now }
{
    let mut in_order = true;
    let mut latest = 0;
    for event in events {
        in_order &= latest <= event.moment;
        latest = event.moment;
    }
    (in_order, latest)
}
