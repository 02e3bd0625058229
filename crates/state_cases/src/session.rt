//! A session and its open cuts.

ghost use Rattle.std.specs.Prelude.{◌≡◌, ◌<◌, ◌≤◌, IfOk, IfSome};
ghost use Rattle.osq_value.specs.declared.moment.TheConstants.{LAST_MOMENT};
ghost use Rattle.sql_texts.specs.Meaning.{meaning};
ghost use Rattle.pack_rules.specs.Sound.{IsSound};
ghost use Rattle.entry_model.specs.Fits.{Fits};
ghost use Rattle.event_store.specs.Contents.{rows_in};
ghost use Rattle.session_state.specs.Readings.{IsReading};
ghost use Rattle.session_state.specs.Cut.{CutValue};
ghost use Rattle.session_state.specs.CutOf.{IsCutOf};

use crate::ready::nothing;
use entry_model::entry::EntryList;
use entry_model::restored::Restored;
use event_store::Steps;
use osq_value::{NoMemory, Reading, RowList, Str, TextList};
use pack_rules::schedule::Schedule;
use session_state::{AppendError, CommitRefusal, Cut, State, TickRefusal};
use std::alloc::Global;
use std::marker::{Brand, Model};
use std::sync::ledger::{Blank, Ledger};

/// A session's state, and the cuts that it gave and that are not spent, in the order in which they were claimed.
#[derive(Drop)]
pub(crate) struct Session {
    state: State,
    cuts: Vec<Cut>,
}

impl Model for Session {
    ghost use Rattle.std.specs.Prelude.{All};
    ghost use Rattle.session_state.specs.Kept.{Kept};
    ghost use Rattle.session_state.specs.CutOf.{IsCutOf};

    ghost Value = { Kept };

    ghost view = { λ s. s.state };

    ghost invariant = { λ s. All (IsCutOf s.state) s.cuts.items };
}

/// Adds a reading, with steps that nobody counts.
fn append_counted<L: Ledger>(
    alloc: Global,
    state: &mut State,
    source: &Str,
    reading: Reading,
    blank: Blank,
) -> Result<(u64, u64), AppendError>
    requires reading { IsReading reading }
    requires name { blank.name ≡ L.name }
    requires parts { blank.parts ≡ L.parts }
    requires some { 0 < blank.parts }
    ensures { (cut : CutValue) → IsCutOf state.old cut → IsCutOf state.new cut }
{
    state.append(alloc, source, reading, &mut Steps::<L>::new(blank))
}

/// The next cut, with steps that nobody counts.
fn claim_counted<L: Ledger>(
    alloc: Global,
    state: &mut State,
    blank: Blank,
) -> Result<Option<Cut>, NoMemory>
    requires name { blank.name ≡ L.name }
    requires parts { blank.parts ≡ L.parts }
    requires some { 0 < blank.parts }
    ensures own { IfOk result (λ given. IfSome given (IsCutOf state.new)) }
    ensures cuts { (cut : CutValue) → IsCutOf state.old cut → IsCutOf state.new cut }
{
    state.claim_cut(alloc, &mut Steps::<L>::new(blank))
}

impl Session {
    /// Opens a session over these values.
    pub(crate) fn begin(alloc: Global, restored: Restored) -> Result<Session, NoMemory>
        requires { Fits restored }
    {
        let state = State::begin(alloc, restored)?;
        Ok(Session {
            state,
            cuts: Vec::new(alloc),
        })
    }

    /// Opens a session over an empty list.
    pub(crate) fn new(alloc: Global) -> Result<Session, NoMemory> {
        Session::begin(alloc, nothing(alloc))
    }

    /// The state.
    pub(crate) fn state(&self) -> &State {
        &self.state
    }

    /// The open cuts.
    pub(crate) fn cuts(&self) -> &[Cut] {
        self.cuts.as_slice()
    }

    /// Runs this schedule from now on.
    pub(crate) fn configure(
        &mut self,
        alloc: Global,
        schedule: Schedule,
        moment: u64,
    ) -> Result<(), NoMemory>
        requires sound { IsSound schedule }
        requires calendar { moment ≤ LAST_MOMENT }
    {
        self.state
            .configure(alloc, TextList::new(alloc), schedule, moment)
    }

    /// Begins a tick.
    pub(crate) fn tick(&mut self, moment: u64) -> Result<(), TickRefusal>
        requires { moment ≤ LAST_MOMENT }
    {
        self.state.tick(moment)
    }

    /// Adds a reading of the source, and gives the last number before and after.
    pub(crate) fn append(
        &mut self,
        alloc: Global,
        source: &Str,
        reading: Reading,
    ) -> Result<(u64, u64), AppendError>
        requires { IsReading reading }
    {
        append_counted::<Brand>(alloc, &mut self.state, source, reading, Blank::new(1))
    }

    /// Adds the expiries that are owed, and gives how many.
    pub(crate) fn expire(&mut self) -> Result<u32, NoMemory> {
        self.state.expire()
    }

    /// Adds an acknowledgement, and answers whether it did.
    pub(crate) fn acknowledge(&mut self, upto: u64) -> Result<bool, NoMemory> {
        self.state.acknowledge(upto)
    }

    /// Takes the entries off that are not sealed yet.
    pub(crate) fn take_tail(&mut self, alloc: Global) -> Result<EntryList, NoMemory> {
        self.state.take_tail(alloc)
    }

    /// Claims the next cut, which is then the last of the open ones. It answers whether there was one.
    pub(crate) fn claim(&mut self, alloc: Global) -> Result<bool, NoMemory> {
        self.cuts.reserve(1)?;
        match claim_counted::<Brand>(alloc, &mut self.state, Blank::new(1))? {
            Some(cut) => {
                self.cuts.push_reserved(cut);
                Ok(true)
            }
            None => Ok(false),
        }
    }

    /// Takes the open cut at this place out, where there is one.
    pub(crate) fn take_cut(&mut self, place: u64) -> Option<Cut>
        ensures own { IfSome result (IsCutOf self.new) }
        ensures same { self.new ≡ self.old }
    {
        let Ok(place) = usize::try_from(place) else {
            return None;
        };
        if place < self.cuts.len() {
            Some(self.cuts.remove(place))
        } else {
            None
        }
    }

    /// Adds the batch that answers a cut by these rows, and gives its number.
    pub(crate) fn commit(&mut self, cut: Cut, rows: RowList) -> Result<u64, CommitRefusal>
        requires cut { IsCutOf self.old cut }
        requires rows { rows ≡ meaning cut.key.text (rows_in cut.view) }
    {
        self.state.commit(cut, rows)
    }

    /// Gives a cut back.
    pub(crate) fn release(&mut self, cut: Cut) {
        self.state.release(cut);
    }
}
