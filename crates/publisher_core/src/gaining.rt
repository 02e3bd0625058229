//! What a callback gives for a record.

ghost use Rattle.std.specs.Prelude.{◌≡◌, ◌++◌, List, IfOk, OnOk};
ghost use Rattle.std.specs.Option.{option_to_list};
ghost use Rattle.publisher_core.specs.Found.{IsEventOfItem, IsGiven, item_of};
ghost use Rattle.publisher_core.specs.declared.record.Record.{Record};

use crate::record::{Found, Gain, Raw, ReadRecord, Record};
use crate::subscription::{Callback, Subscription};
use crate::watching::Watcher;
use osq_value::{Event, NoMemory};
use std::alloc::Global;

/// What is given for what was found. The watcher sees a record before the callback is asked about it.
pub fn given<C: Callback, W: Watcher>(
    alloc: Global,
    subscription: &Subscription<C>,
    watcher: &mut W,
    one: Found,
) -> Result<ReadRecord, NoMemory>
    ensures given { IfOk result (λ piece. IsGiven subscription.now.paths one piece) }
    ensures seen { (seen : List Record) → W.saw watcher.old seen → OnOk result (W.saw watcher.new (seen ++ item_of one)) }
{
    match one {
        Found::Table(piece) => Ok(piece),
        Found::Record(raw) => {
            let Raw { item, skipped, end } = raw;
            match item_event(alloc, subscription, watcher, item) {
                Err(NoMemory) => Err(NoMemory),
                Ok(event) => {
                    let gain = Gain::Event { event, skipped };
                    Ok(ReadRecord { gain, end })
                }
            }
        }
    }
}

/// The event of a record, by the callback. A skipped line by itself is neither seen nor asked about.
fn item_event<C: Callback, W: Watcher>(
    alloc: Global,
    subscription: &Subscription<C>,
    watcher: &mut W,
    item: Option<Record>,
) -> Result<Option<Event>, NoMemory>
    ensures event { IfOk result (λ event. IsEventOfItem subscription.now.paths item event) }
    ensures seen { (seen : List Record) → W.saw watcher.old seen → OnOk result (W.saw watcher.new (seen ++ option_to_list item)) }
{
    match item {
        None => Ok(None),
        Some(item) => {
            let Ok(()) = watcher.see(alloc, &item) else {
                return Err(NoMemory);
            };
            subscription.event_of(alloc, item)
        }
    }
}
