//! Which queries of a schedule read the events of each evented table.

ghost use Rattle.std.specs.Prelude.{◌≡◌, [], true, slice_index_or, IfOk};
ghost use Rattle.sql_texts.specs.Meaning.{names_table as names_there};
ghost use Rattle.entry_model.specs.Views.{is_evented_table, is_reader};
ghost use Rattle.session_state.specs.Readers.{readers_from, readers_of};

use osq_value::{NoMemory, Sequence, TableId};
use pack_rules::schedule::{Mode, Scheduled};
use sql_texts::text::TextError;
use sql_texts::{AcceptedQuery, QueryText};
use std::alloc::Global;
use std::marker::Model;

/// The places of a schedule's queries that read the events of each evented table.
#[derive(Drop)]
pub(crate) struct Readers {
    places: [Sequence<usize>; 3],
}

impl Model for Readers {
    ghost use Rattle.std.specs.Prelude.{List, ℕ};

    ghost Value = { List (List ℕ) };

    ghost view = { λ r. r.places };
}

/// Whether the text names the table. A text that was only read is looked at anew; one with a fault names none.
#[tactic(auto, unfolding(sql_texts::specs::Meaning::names_table))]
fn names_table(alloc: Global, text: &QueryText, table: TableId) -> Result<bool, NoMemory>
    ensures { IfOk result (λ names. names ≡ names_there text.now table.0) }
{
    if let Some(query) = text.query() {
        return Ok(query.names_table(table));
    }
    match AcceptedQuery::of(alloc, text.as_str()) {
        Ok(query) => Ok(query.names_table(table)),
        Err(TextError::NoMemory) => Err(NoMemory),
        Err(TextError::Parse(_)) => Ok(false),
        Err(TextError::Name(_)) => Ok(false),
    }
}

/// Whether the query reads the events of the table: a snapshot has no cursor, and so waits for none.
fn is_reader(alloc: Global, scheduled: &Scheduled, table: TableId) -> Result<bool, NoMemory>
    ensures { IfOk result (λ reads. reads ≡ is_reader table.0 scheduled.now) }
{
    match scheduled.key.mode {
        Mode::Evented => names_table(alloc, &scheduled.key.text, table),
        Mode::Snapshot => Ok(false),
    }
}

/// The places of the queries that read the events of the table.
fn readers_of(
    alloc: Global,
    queries: &[Scheduled],
    table: TableId,
) -> Result<Sequence<usize>, NoMemory>
    ensures { IfOk result (λ places. places ≡ readers_from table.0 0 queries.now) }
{
    let mut places = Sequence::new(alloc);
    for at in 0..queries.len() {
        if is_reader(alloc, &queries[at], table)? {
            places.push(at)?;
        }
    }
    Ok(places)
}

impl Readers {
    /// Those of no query. It takes no memory.
    pub fn none(alloc: Global) -> Readers
        ensures { result ≡ readers_of [] }
    {
        Readers {
            places: [
                Sequence::new(alloc),
                Sequence::new(alloc),
                Sequence::new(alloc),
            ],
        }
    }

    /// Those of these queries. Each is asked once for each evented table.
    pub fn of(alloc: Global, queries: &[Scheduled]) -> Result<Readers, NoMemory>
        ensures { IfOk result (λ readers. readers ≡ readers_of queries.now) }
    {
        let places = [
            readers_of(alloc, queries, TableId::PROCESS_EVENTS)?,
            readers_of(alloc, queries, TableId::SOCKET_EVENTS)?,
            readers_of(alloc, queries, TableId::FILE_EVENTS)?,
        ];
        Ok(Readers { places })
    }

    /// The places of the queries that read the events of the table.
    pub fn at(&self, table: TableId) -> &[usize]
        requires { is_evented_table table.0 ≡ true }
        ensures { result.now ≡ slice_index_or self.now table.0 [] }
    {
        self.places[table.0 as usize].as_slice()
    }
}
