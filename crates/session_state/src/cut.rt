//! What a query is answered from.

ghost use Rattle.std.specs.Prelude.{◌≡◌};
ghost use Rattle.session_state.specs.Cut.{batch_of};

use entry_model::entry::Batch;
use event_store::CutView;
use osq_value::RowList;
use pack_rules::schedule::QueryKey;
use std::fmt;
use std::marker::Model;

/// A query with what it sees at a state. It is spent by a commit or a release; one that is dropped leaves its query
/// claimed.
#[derive(Drop)]
pub struct Cut {
    pub(crate) place: u32,
    pub(crate) key: QueryKey,
    /// The key once more, so that a commit takes no memory.
    pub(crate) spare: QueryKey,
    pub(crate) lo: u64,
    pub(crate) hi: u64,
    pub(crate) position: u64,
    pub(crate) moment: u64,
    pub(crate) last: u64,
    pub(crate) view: CutView,
}

impl Model for Cut {
    ghost use Rattle.std.specs.Prelude.{◌≡◌};
    ghost use Rattle.session_state.specs.Cut.{CutValue};

    ghost Value = { CutValue };

    ghost view = { λ c. record { place = c.place; key = c.key; lo = c.lo; hi = c.hi; position = c.position; moment = c.moment; last = c.last; view = c.view } };

    ghost invariant = { λ c. c.spare ≡ c.key };
}

/// The query and its slice; not what it sees.
impl fmt::Debug for Cut {
    fn fmt<W: fmt::Write>(&self, f: &mut fmt::Formatter<W>) -> fmt::Result {
        f.debug_struct("Cut")
            .field("query", &self.key.name)
            .field("lo", &self.lo)
            .field("hi", &self.hi)
            .finish_non_exhaustive()
    }
}

impl Cut {
    /// The query.
    pub fn key(&self) -> &QueryKey
        ensures { result.now ≡ self.now.key }
    {
        &self.key
    }

    /// The events of its view are those above this number.
    pub fn lo(&self) -> u64
        ensures { result ≡ self.now.lo }
    {
        self.lo
    }

    /// The number of the last event.
    pub fn hi(&self) -> u64
        ensures { result ≡ self.now.hi }
    {
        self.hi
    }

    /// How many entries its view is made from.
    pub fn position(&self) -> u64
        ensures { result ≡ self.now.position }
    {
        self.position
    }

    /// The moment of its view.
    pub fn moment(&self) -> u64
        ensures { result ≡ self.now.moment }
    {
        self.moment
    }

    /// The number of the query's last batch, 0 where it has none.
    pub fn last(&self) -> u64
        ensures { result ≡ self.now.last }
    {
        self.last
    }

    /// What the query sees.
    pub fn view(&self) -> &CutView
        ensures { result.now ≡ self.now.view }
    {
        &self.view
    }

    /// The place of the query in the schedule.
    pub(crate) fn place(&self) -> u32
        ensures { result ≡ self.now.place }
    {
        self.place
    }
}
