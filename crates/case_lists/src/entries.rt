//! Entries by words.

use entry_model::entry::{Batch, Entry, EntryList};
use osq_value::{Event, EventList, NoMemory, Row, RowList, Str, TableId, TextList, Value};
use pack_rules::schedule::{Form, Mode, QueryKey, Schedule, ScheduledList};
use std::alloc::Global;

/// An event of a table.
fn event(alloc: Global, table: u8) -> Result<Event, NoMemory> {
    let mut row = Row::new(alloc);
    row.push(Value::Text(Str::of(alloc, "a")?))?;
    Ok(Event {
        table: TableId(table),
        row,
    })
}

/// Three events are appended, of which the second is no event of files.
fn appended(alloc: Global) -> Result<Entry, NoMemory> {
    let mut events = EventList::new(alloc);
    for table in [2, 0, 2] {
        events.push(event(alloc, table)?)?;
    }
    Ok(Entry::Appended {
        source: Str::of(alloc, "audit")?,
        taken: 40,
        events,
        skipped: 0,
        moment: 1000,
    })
}

/// So many events are appended, of processes and of files in turn. Their rows take some 60 bytes each.
fn many(alloc: Global, count: u64) -> Result<Entry, NoMemory> {
    let mut events = EventList::new(alloc);
    for at in 0..count {
        let table = if at % 2 == 0 { 0 } else { 2 };
        events.push(long_event(alloc, table)?)?;
    }
    Ok(Entry::Appended {
        source: Str::of(alloc, "audit")?,
        taken: 90,
        events,
        skipped: 0,
        moment: 1001,
    })
}

/// An event with values of each kind.
fn long_event(alloc: Global, table: u8) -> Result<Event, NoMemory> {
    let mut row = Row::new(alloc);
    row.push(Value::Null)?;
    row.push(Value::Int(i64::MIN))?;
    row.push(Value::Text(Str::of(alloc, "/etc/\"a\" \\ \n zażółć")?))?;
    Ok(Event {
        table: TableId(table),
        row,
    })
}

/// A row of this number alone.
fn numbered(alloc: Global, number: u32) -> Result<Row, NoMemory> {
    let mut row = Row::new(alloc);
    row.push(Value::Int(i64::from(number)))?;
    Ok(row)
}

/// A table is set to so many rows, which are numbered.
fn table_set(alloc: Global, table: TableId, count: u32) -> Result<Entry, NoMemory> {
    let mut rows = RowList::new(alloc);
    for number in 0..count {
        rows.push(numbered(alloc, number)?)?;
    }
    Ok(Entry::TableSet {
        source: Str::of(alloc, "tables")?,
        table,
        rows,
        taken: 7,
    })
}

/// A query of this name.
pub fn key_of(alloc: Global, name: &str) -> Result<QueryKey, NoMemory> {
    Ok(QueryKey::read(
        Str::of(alloc, name)?,
        Str::of(alloc, "SELECT * FROM users")?,
        Mode::Snapshot,
    ))
}

/// A batch without rows of the query of this name.
fn committed(
    alloc: Global,
    name: &str,
    number: u64,
    hi: u64,
    moment: u64,
) -> Result<Entry, NoMemory> {
    let batch = Batch {
        number,
        query: key_of(alloc, name)?,
        lo: 0,
        hi,
        cut: 3,
        moment,
        rows: RowList::new(alloc),
    };
    Ok(Entry::Committed { batch })
}

/// A row of this number with values of each kind.
fn long_row(alloc: Global, number: u64) -> Result<Row, NoMemory> {
    let mut row = Row::new(alloc);
    row.push(Value::Int(i64::try_from(number).unwrap_or(0)))?;
    row.push(Value::Null)?;
    row.push(Value::Int(i64::MIN))?;
    row.push(Value::Text(Str::of(alloc, "/etc/\"a\" \\ \n zażółć")?))?;
    Ok(row)
}

/// The batch of this number with so many rows. It answers one of two queries, and each of its numbers is another one.
fn batch_of(alloc: Global, number: u64, count: u64) -> Result<Batch, NoMemory> {
    let (name, mode) = if number % 2 == 0 {
        ("even", Mode::Snapshot)
    } else {
        ("odd", Mode::Evented)
    };
    let mut rows = RowList::new(alloc);
    for at in 0..count {
        rows.push(long_row(alloc, at)?)?;
    }
    Ok(Batch {
        number,
        query: QueryKey::read(
            Str::of(alloc, name)?,
            Str::of(alloc, "SELECT * FROM file_events")?,
            mode,
        ),
        lo: number.saturating_add(10),
        hi: number.saturating_add(20),
        cut: number.saturating_add(30),
        moment: number.saturating_add(1000),
        rows,
    })
}

/// The number behind the first letters of a word that begins with them.
fn number_behind(word: &str, front: &str) -> Option<u64> {
    let Some(rest) = word.strip_prefix(front) else {
        return None;
    };
    rest.parse::<u64>().ok()
}

/// The entry of a word that ends with a number: a batch with as many rows, one whose rows take three parts of some 64 kB, and what is
/// acknowledged.
fn numbered_entry(alloc: Global, word: &str) -> Result<Option<Entry>, NoMemory> {
    if let Some(number) = number_behind(word, "batch") {
        let batch = batch_of(alloc, number, number)?;
        return Ok(Some(Entry::Committed { batch }));
    }
    if let Some(number) = number_behind(word, "long") {
        let batch = batch_of(alloc, number, 2500)?;
        return Ok(Some(Entry::Committed { batch }));
    }
    Ok(number_behind(word, "acked").map(|upto| Entry::Acked { upto }))
}

/// Events of a table expire up to a number.
fn expired(table: TableId, floor: u64) -> Entry {
    Entry::Expired {
        table,
        floor,
        moment: 1000,
    }
}

/// A schedule without queries.
fn configured(alloc: Global) -> Entry {
    Entry::Configured {
        document: TextList::new(alloc),
        schedule: Schedule {
            queries: ScheduledList::new(alloc),
            events_expiry: 3600,
            events_max: 50000,
            form: Form::Event,
        },
        moment: 900,
    }
}

/// The entry of a word, at this place among the others.
fn entry_of(alloc: Global, word: &str, at: u64) -> Result<Option<Entry>, NoMemory> {
    Ok(Some(match word {
        "opened" => Entry::Opened {
            session: 1,
            rules: 1,
        },
        "configured" => configured(alloc),
        "ticked" => Entry::Ticked { moment: 1000 },
        "appended" => appended(alloc)?,
        "many" => many(alloc, 2200)?,
        "set" => table_set(alloc, TableId::USERS, 1)?,
        "reset" => table_set(alloc, TableId::USERS, 2)?,
        "emptied" => table_set(alloc, TableId::USERS, 0)?,
        "larger" => table_set(alloc, TableId::PROCESSES, 22000)?,
        "expired1" => expired(TableId::FILE_EVENTS, 1),
        "expired3" => expired(TableId::FILE_EVENTS, 3),
        "expired2000" => expired(TableId::FILE_EVENTS, 2000),
        "processes2" => expired(TableId::PROCESS_EVENTS, 2),
        "sockets1" => expired(TableId::SOCKET_EVENTS, 1),
        "committed" => committed(alloc, "q", at, 3, 1000)?,
        "recommitted" => committed(alloc, "q", at, 6, 1060)?,
        "answered" => committed(alloc, "r", at, 5, 1000)?,
        "acked" => Entry::Acked { upto: 1 },
        _ => return numbered_entry(alloc, word),
    }))
}

/// The entries of words; nothing where a word is none of an entry. A batch is numbered by its place among the entries, from 0.
pub fn entries_of(alloc: Global, words: &str) -> Result<Option<EntryList>, NoMemory> {
    entries_behind(alloc, 0, words)
}

/// The same behind so many entries, which the places count too.
pub fn entries_behind(
    alloc: Global,
    before: u64,
    words: &str,
) -> Result<Option<EntryList>, NoMemory> {
    let mut entries = EntryList::new(alloc);
    let mut at = before;
    for word in words.split_whitespace() {
        let Some(entry) = entry_of(alloc, word, at)? else {
            return Ok(None);
        };
        entries.push(entry)?;
        at = at.saturating_add(1);
    }
    Ok(Some(entries))
}
