//! What is done with each record.

ghost use Rattle.std.specs.Prelude.{◌≡◌, IfOk};
ghost use Rattle.publisher_core.specs.Records.{IsEventOfRecord};

use crate::record::Record;
use audit_records::group_event;
use change_records::change_event;
use osq_value::{CategoryList, Event, NoMemory};
use std::alloc::Global;

/// A callback that gives the event of each record: of a group by its audit lines, of a change by the first category that takes its path.
/// Whoever implements it proves just that; want of memory is its only other answer.
pub trait Callback: Drop {
    /// The event of the record, none where it has none. `paths` are the categories that take the paths of changes.
    fn event_of(
        &self,
        alloc: Global,
        item: Record,
        paths: &CategoryList,
    ) -> Result<Option<Event>, NoMemory>
        ensures { IfOk result (λ event. IsEventOfRecord paths.now item event) };
}

/// The readers of this house as a callback.
#[derive(Drop)]
pub struct Recorded;

impl Callback for Recorded {
    fn event_of(
        &self,
        alloc: Global,
        item: Record,
        paths: &CategoryList,
    ) -> Result<Option<Event>, NoMemory> {
        match item {
            Record::Group(group) => group_event(alloc, &group),
            Record::Change(change) => change_event(alloc, change, paths),
        }
    }
}

/// A callback, and the categories of paths that it is called with.
#[derive(Drop)]
pub struct Subscription<C> {
    callback: C,
    /// The categories that take the paths of changes.
    pub paths: CategoryList,
}

impl<C: Callback> Subscription<C> {
    /// A callback that is called with these categories.
    pub fn new(callback: C, paths: CategoryList) -> Self
        ensures { result.paths ≡ paths }
    {
        Subscription { callback, paths }
    }

    /// The event of a record, by the callback.
    pub fn event_of(&self, alloc: Global, item: Record) -> Result<Option<Event>, NoMemory>
        ensures { IfOk result (λ event. IsEventOfRecord self.now.paths item event) }
    {
        self.callback.event_of(alloc, item, &self.paths)
    }
}
