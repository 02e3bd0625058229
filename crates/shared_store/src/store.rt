//! The store and its seats.
//!
//! Contracts speak of one list, which grows by what each turn notes: the entries that it added, a mark where it took the
//! tail, a cut where it gave one. Each stands beside the number of the seat whose turn it was. A seat has seen a beginning
//! of that list. Each call that makes a turn happens at a longer beginning, for which the state of that turn stands, and
//! which the seat has then seen, with what its call noted behind it. A call that is refused notes nothing.

ghost use Rattle.std.specs.Prelude.{◌≡◌, ◌≢◌, ◌+◌, ◌<◌, ◌≤◌, ◌++◌, ◌∷◌, ◌⊎◌, [], IfOk, IfSome, OnOk, OnErr};
ghost use Rattle.std.specs.List.{All};
ghost use Rattle.osq_value.specs.declared.moment.TheConstants.{LAST_MOMENT};
ghost use Rattle.sql_texts.specs.Meaning.{meaning};
ghost use Rattle.entry_model.specs.Fits.{Fits};
ghost use Rattle.pack_rules.specs.Sound.{IsSound};
ghost use Rattle.event_store.specs.Contents.{rows_in};
ghost use Rattle.session_state.specs.Readings.{IsReading, event_count};
ghost use Rattle.session_state.specs.StateOf.{Begins};
ghost use Rattle.turn_lock.specs.Turns.{Grows, stamp};
ghost use Rattle.shared_store.specs.Notes.{WasGiven, grown};
ghost use Rattle.shared_store.specs.Shares.{StandsFor, IsNoOlder};
ghost use Rattle.shared_store.specs.Turns.{notes_of, BeginsTurn, InTurn};

use crate::noted::{Gave, Grown, Took};
use crate::shared::Shared;
use entry_model::entry::EntryList;
use entry_model::restored::Restored;
use event_store::{CutView, Steps};
use osq_value::{NoMemory, Reading, RowList, Str, TextList};
use pack_rules::schedule::Schedule;
use session_state::{AppendError, CommitRefusal, Cut, State, TickRefusal};
use std::alloc::Global;
use std::snapshot::Snapshot;
use std::sync::Wait;
use std::sync::ledger::Ledger;
use turn_lock::{Turn, TurnLock, TurnSeat};

/// The right to make calls of a store. It has a number, and the list that its owner has seen.
pub type StoreSeat = TurnSeat<Shared>;

/// The store that threads share.
///
/// A call that makes a turn waits for it, and holds it for one call of the state. Such a call needs a seat of this store that
/// is at rest, and so is the seat afterwards.
#[derive(Drop)]
pub struct Store {
    lock: TurnLock<Shared>,
}

impl Store {
    ghost use Rattle.turn_lock.specs.Words.{number, seen, split_off, joined, seats_out, IsAtRest, IsFirst, IsInTurn, IsSame, Overhears};
    ghost use Rattle.shared_store.specs.Words.{start_of, most_seats, IsSeatOf};
    ghost use Rattle.shared_store.specs.Answers.{Acknowledges, Appends, CommitsAt, Configures, Cuts, Expires, Releases, Takes, Ticks, Views};

    /// Opens a session over these values, and gives its store and the first seat, of at most so many seats that are out at
    /// once. The list is empty: the entry that opens the session stands before it.
    pub fn begin(
        alloc: Global,
        restored: Restored,
        seats: u32,
    ) -> Result<(Store, StoreSeat), NoMemory>
        requires fits { Fits restored }
        requires seats { 1 ≤ seats }
        ensures store { IfOk result (λ r. Begins restored (start_of r.0) × (most_seats r.0 ≡ seats)) }
        ensures seat { IfOk result (λ r. IsSeatOf r.0 r.1 × IsAtRest r.1) }
        ensures first { IfOk result (λ r. (number r.1 ≡ 0) × (split_off r.1 ≡ 0) × (joined r.1 ≡ []) × (seen r.1 ≡ [])) }
    {
        let state = State::begin(alloc, restored)?;
        Store::over(alloc, state, seats)
    }

    /// A store over this state, and the first seat, of at most so many seats that are out at once. The list is empty: what the
    /// state stands for stands before it. Where memory is wanting the state is dropped.
    pub fn over(alloc: Global, state: State, seats: u32) -> Result<(Store, StoreSeat), NoMemory>
        requires { 1 ≤ seats }
        ensures store { IfOk result (λ r. (start_of r.0 ≡ state) × (most_seats r.0 ≡ seats)) }
        ensures seat { IfOk result (λ r. IsSeatOf r.0 r.1 × IsAtRest r.1) }
        ensures first { IfOk result (λ r. (number r.1 ≡ 0) × (split_off r.1 ≡ 0) × (joined r.1 ≡ []) × (seen r.1 ≡ [])) }
    {
        let start = Snapshot::of(&state);
        let (lock, seat) = TurnLock::make(alloc, Shared { state }, start, seats)?;
        Ok((Store { lock }, seat))
    }

    /// A new seat, which has seen what the first one has, and whose number nothing in that list has.
    ///
    /// The seat is the first one, and fewer seats are out than the store was opened for. Waits for nobody.
    pub fn split(&self, seat: &mut StoreSeat) -> Result<StoreSeat, NoMemory>
        requires seat { IsSeatOf self.now seat.old }
        requires rest { IsAtRest seat.old }
        requires first { IsFirst seat.old }
        requires room { seats_out seat.old < most_seats self.now }
        ensures seat { IsSeatOf self.now seat.new × IsAtRest seat.new × IsFirst seat.new }
        ensures counts { OnOk result ((split_off seat.new ≡ split_off seat.old + 1) × (joined seat.new ≡ joined seat.old) × (seen seat.new ≡ seen seat.old)) }
        ensures out { OnOk result (seats_out seat.new ≡ seats_out seat.old + 1) }
        ensures new { IfOk result (λ s. IsSeatOf self.now s × IsAtRest s) }
        ensures same { IfOk result (λ s. (number s ≡ split_off seat.new) × (seen s ≡ seen seat.old)) }
        ensures fresh { IfOk result (λ s. All (λ x. x.0 ≢ number s) (seen s)) }
        ensures refused { OnErr result (seat.new ≡ seat.old) }
    {
        self.lock.split(seat)
    }

    /// How many seats are out, by the first seat: itself and those that it split off and that were not joined.
    pub fn seats_out(&self, seat: &StoreSeat) -> u32
        requires { IsFirst seat.now }
        ensures { result ≡ seats_out seat.now }
    {
        self.lock.seats_out(seat)
    }

    /// The first seat takes in another and its number, and has then seen the longer of the two lists, which begins with
    /// the shorter one.
    ///
    /// Nothing of it behind the other's list has the other's number, and nothing behind the first seat's has the number of
    /// the first seat or of one that was joined before. Takes no memory, and waits for nobody.
    pub fn join(&self, seat: &mut StoreSeat, other: StoreSeat)
        requires seats { IsSeatOf self.now seat.old × IsSeatOf self.now other }
        requires rest { IsAtRest seat.old × IsAtRest other }
        requires first { IsFirst seat.old × (number other ≢ 0) }
        ensures seat { IsSeatOf self.now seat.new × IsAtRest seat.new × IsFirst seat.new }
        ensures counts { (split_off seat.new ≡ split_off seat.old) × (joined seat.new ≡ number other ∷ joined seat.old) }
        ensures out { seats_out seat.old ≡ seats_out seat.new + 1 }
        ensures one { (seen seat.new ≡ seen seat.old) ⊎ (seen seat.new ≡ seen other) }
        ensures own { Overhears seat.old seat.new }
        ensures theirs { Grows (λ n. n ≢ number other) (seen other) (seen seat.new) }
        ensures numbered { All (λ x. x.0 ≤ split_off seat.new) (seen seat.new) }
    {
        self.lock.join(seat, other);
    }

    /// The state, which stands for exactly the list that the first seat has seen. That seat alone is out.
    ///
    /// Takes no memory, and waits for nobody.
    pub fn close(self, seat: StoreSeat) -> State
        requires seat { IsSeatOf self seat }
        requires rest { IsAtRest seat }
        requires first { IsFirst seat }
        requires alone { seats_out seat ≡ 1 }
        ensures { StandsFor (start_of self) (notes_of seat) result }
    {
        let Store { lock } = self;
        let Shared { state } = lock.close(seat);
        state
    }

    /// Waits for a turn of the seat.
    fn turn<R: Wait>(&self, rt: &R, seat: &mut StoreSeat) -> Turn<Shared>
        requires { IsSeatOf self.now seat.old × IsAtRest seat.old }
        ensures turn { IsSeatOf self.now seat.new × IsInTurn seat.new }
        ensures begins { BeginsTurn (start_of self.now) seat.old seat.new result.value.state }
    {
        let turn = self.lock.turn(rt, seat);
        turn.value.state.is_state();
        turn
    }

    /// Ends a turn, and notes the entries by which the state's tail grew from that of `before`.
    fn end(&self, seat: &mut StoreSeat, turn: Turn<Shared>, before: Snapshot<State>)
        requires turn { IsSeatOf self.now seat.old × IsInTurn seat.old }
        requires stands { StandsFor (start_of self.now) (notes_of seat.old ++ grown before.value.tail turn.value.state.tail) turn.value.state }
        ensures seat { IsSame seat.old seat.new × IsAtRest seat.new }
        ensures seen { seen seat.new ≡ seen seat.old ++ stamp (number seat.old) (grown before.value.tail turn.value.state.tail) }
    {
        let after = Snapshot::of(&turn.value.state);
        self.lock
            .pass(seat, turn, Snapshot::of(&Grown { before, after }));
    }

    /// Runs this schedule from the turn on, at this moment or at the last one, whichever is later, and forgets all claims:
    /// `State::configure` in one turn.
    pub fn configure<R: Wait>(
        &self,
        rt: &R,
        alloc: Global,
        seat: &mut StoreSeat,
        document: TextList,
        schedule: Schedule,
        moment: u64,
    ) -> Result<(), NoMemory>
        requires seat { IsSeatOf self.now seat.old × IsAtRest seat.old }
        requires sound { IsSound schedule }
        requires calendar { moment ≤ LAST_MOMENT }
        ensures seat { IsSame seat.old seat.new × IsAtRest seat.new }
        ensures turn { InTurn (start_of self.now) seat.old seat.new (Configures document schedule moment result) }
    {
        let mut turn = self.turn(rt, seat);
        let before = Snapshot::of(&turn.value.state);
        let result = turn
            .value
            .state
            .configure(alloc, document, schedule, moment);
        self.end(seat, turn, before);
        result
    }

    /// Begins a tick, unless at the turn a query is due or events are to expire: `State::tick` in one turn.
    /// It refuses as `State::tick` does.
    pub fn tick<R: Wait>(
        &self,
        rt: &R,
        seat: &mut StoreSeat,
        moment: u64,
    ) -> Result<(), TickRefusal>
        requires seat { IsSeatOf self.now seat.old × IsAtRest seat.old }
        requires calendar { moment ≤ LAST_MOMENT }
        ensures seat { IsSame seat.old seat.new × IsAtRest seat.new }
        ensures turn { InTurn (start_of self.now) seat.old seat.new (Ticks moment result) }
    {
        let mut turn = self.turn(rt, seat);
        let before = Snapshot::of(&turn.value.state);
        let result = turn.value.state.tick(moment);
        self.end(seat, turn, before);
        result
    }

    /// Adds a reading of the source, all of it or nothing, and answers the last number before and after: `State::append`
    /// in one turn.
    /// It refuses as `State::append` does.
    pub fn append<R: Wait, L: Ledger>(
        &self,
        rt: &R,
        alloc: Global,
        seat: &mut StoreSeat,
        source: &Str,
        reading: Reading,
        steps: &mut Steps<L>,
    ) -> Result<(u64, u64), AppendError>
        requires seat { IsSeatOf self.now seat.old × IsAtRest seat.old }
        requires reading { IsReading reading }
        ensures seat { IsSame seat.old seat.new × IsAtRest seat.new }
        ensures all { OnOk result (steps.new ≡ steps.old + event_count reading) }
        ensures most { steps.new ≤ steps.old + event_count reading }
        ensures turn { InTurn (start_of self.now) seat.old seat.new (Appends source.now reading result) }
    {
        let mut turn = self.turn(rt, seat);
        let before = Snapshot::of(&turn.value.state);
        let result = turn.value.state.append(alloc, source, reading, steps);
        self.end(seat, turn, before);
        result
    }

    /// Gives the next cut, where at the turn a query is due, and none exactly where none is: `State::claim_cut` in one turn.
    ///
    /// The cut is made from entries that begin with those that the seat had seen.
    pub fn claim_cut<R: Wait, L: Ledger>(
        &self,
        rt: &R,
        alloc: Global,
        seat: &mut StoreSeat,
        steps: &mut Steps<L>,
    ) -> Result<Option<Cut>, NoMemory>
        requires { IsSeatOf self.now seat.old × IsAtRest seat.old }
        ensures seat { IsSame seat.old seat.new × IsAtRest seat.new }
        ensures turn { InTurn (start_of self.now) seat.old seat.new (Cuts steps.old steps.new result) }
        ensures given { IfOk result (λ given. IfSome given (λ cut. WasGiven cut (notes_of seat.new))) }
        ensures no_older { IfOk result (λ given. IfSome given (IsNoOlder (start_of self.now) (notes_of seat.old))) }
    {
        let mut turn = self.turn(rt, seat);
        let result = turn.value.state.claim_cut(alloc, steps);
        let said = Snapshot::of(&result);
        self.lock.pass(seat, turn, Snapshot::of(&Gave(said)));
        result
    }

    /// Adds the batch that answers a cut by these rows, and answers its number: `State::commit` in one turn. The seat has seen
    /// that the cut was given, by whichever seat. Takes no memory.
    /// It refuses as `State::commit` does.
    pub fn commit<R: Wait>(
        &self,
        rt: &R,
        seat: &mut StoreSeat,
        cut: Cut,
        rows: RowList,
    ) -> Result<u64, CommitRefusal>
        requires seat { IsSeatOf self.now seat.old × IsAtRest seat.old }
        requires given { WasGiven cut (notes_of seat.old) }
        requires rows { rows ≡ meaning cut.key.text (rows_in cut.view) }
        ensures seat { IsSame seat.old seat.new × IsAtRest seat.new }
        ensures turn { InTurn (start_of self.now) seat.old seat.new (CommitsAt cut rows result) }
    {
        let mut turn = self.turn(rt, seat);
        let before = Snapshot::of(&turn.value.state);
        let result = turn.value.state.commit(cut, rows);
        self.end(seat, turn, before);
        result
    }

    /// Gives a cut back: `State::release` in one turn. Takes no memory.
    pub fn release<R: Wait>(&self, rt: &R, seat: &mut StoreSeat, cut: Cut)
        requires { IsSeatOf self.now seat.old × IsAtRest seat.old }
        ensures seat { IsSame seat.old seat.new × IsAtRest seat.new }
        ensures turn { InTurn (start_of self.now) seat.old seat.new (Releases cut) }
    {
        let mut turn = self.turn(rt, seat);
        turn.value.state.release(cut);
        self.lock.pass(seat, turn, Snapshot::of(&()));
    }

    /// Adds an expiry for each table that owes one at the turn, and answers how many: `State::expire` in one turn.
    pub fn expire<R: Wait>(&self, rt: &R, seat: &mut StoreSeat) -> Result<u32, NoMemory>
        requires { IsSeatOf self.now seat.old × IsAtRest seat.old }
        ensures seat { IsSame seat.old seat.new × IsAtRest seat.new }
        ensures turn { InTurn (start_of self.now) seat.old seat.new (Expires result) }
    {
        let mut turn = self.turn(rt, seat);
        let before = Snapshot::of(&turn.value.state);
        let result = turn.value.state.expire();
        self.end(seat, turn, before);
        result
    }

    /// Adds an acknowledgement, and answers whether it did: `State::acknowledge` in one turn.
    pub fn acknowledge<R: Wait>(
        &self,
        rt: &R,
        seat: &mut StoreSeat,
        upto: u64,
    ) -> Result<bool, NoMemory>
        requires { IsSeatOf self.now seat.old × IsAtRest seat.old }
        ensures seat { IsSame seat.old seat.new × IsAtRest seat.new }
        ensures turn { InTurn (start_of self.now) seat.old seat.new (Acknowledges upto result) }
    {
        let mut turn = self.turn(rt, seat);
        let before = Snapshot::of(&turn.value.state);
        let result = turn.value.state.acknowledge(upto);
        self.end(seat, turn, before);
        result
    }

    /// Takes the entries behind the last mark, to be sealed, or where there is none the start's tail and all that were added, and leaves a mark:
    /// `State::take_tail` in one turn.
    pub fn take_tail<R: Wait>(
        &self,
        rt: &R,
        alloc: Global,
        seat: &mut StoreSeat,
    ) -> Result<EntryList, NoMemory>
        requires { IsSeatOf self.now seat.old × IsAtRest seat.old }
        ensures seat { IsSame seat.old seat.new × IsAtRest seat.new }
        ensures turn { InTurn (start_of self.now) seat.old seat.new (Takes result) }
    {
        let mut turn = self.turn(rt, seat);
        let result = turn.value.state.take_tail(alloc);
        let said = Snapshot::of(&result);
        self.lock.pass(seat, turn, Snapshot::of(&Took(said)));
        result
    }

    /// What a query sees at the turn and at this moment, where no event is new to it: `State::tables_view` in one turn.
    pub fn tables_view<R: Wait>(
        &self,
        rt: &R,
        alloc: Global,
        seat: &mut StoreSeat,
        moment: u64,
    ) -> Result<CutView, NoMemory>
        requires seat { IsSeatOf self.now seat.old × IsAtRest seat.old }
        requires calendar { moment ≤ LAST_MOMENT }
        ensures seat { IsSame seat.old seat.new × IsAtRest seat.new }
        ensures turn { InTurn (start_of self.now) seat.old seat.new (Views moment result) }
    {
        let turn = self.turn(rt, seat);
        let result = turn.value.state.tables_view(alloc, moment);
        self.lock.pass(seat, turn, Snapshot::of(&()));
        result
    }
}
