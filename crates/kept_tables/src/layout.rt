//! The tables, and the statements that read them.

/// The number of this layout, which stands first in the one row of `kept`.
pub const LAYOUT: u64 = 2;

/// Shows a row for each table that there is.
pub const NAMES: &str = "SELECT name FROM sqlite_schema WHERE type = 'table'";

/// Shows the number of the layout.
pub const LAYOUT_OF: &str = "SELECT layout FROM kept";

/// Makes the tables, which then stand for the empty list. `kept` has the counts of the list, `run` the last batch of each query and
/// how many it has. An event lies in a part of `live`: some events of one table and one entry, their numbers and their rows each as a
/// list in JSON. `set_part` has the rows of the recorded tables, at least one part for each that was set, and `batch_part` those of
/// the batches.
pub const TABLES: &str = "
    CREATE TABLE kept (layout INTEGER NOT NULL, position INTEGER NOT NULL, sessions INTEGER NOT NULL, moment INTEGER NOT NULL, last INTEGER NOT NULL, floor0 INTEGER NOT NULL, floor1 INTEGER NOT NULL, floor2 INTEGER NOT NULL, batches INTEGER NOT NULL, acked INTEGER NOT NULL, parts INTEGER NOT NULL) STRICT;
    CREATE TABLE live (place INTEGER PRIMARY KEY, last INTEGER NOT NULL, tbl INTEGER NOT NULL, moment INTEGER NOT NULL, numbers TEXT NOT NULL, rows TEXT NOT NULL) STRICT;
    CREATE INDEX live_last ON live (tbl, last);
    CREATE TABLE taken (place INTEGER PRIMARY KEY, source TEXT NOT NULL UNIQUE, taken INTEGER NOT NULL) STRICT;
    CREATE TABLE set_part (place INTEGER PRIMARY KEY, tbl INTEGER NOT NULL, rows TEXT NOT NULL) STRICT;
    CREATE TABLE run (place INTEGER PRIMARY KEY, name TEXT NOT NULL, text TEXT NOT NULL, mode INTEGER NOT NULL, number INTEGER NOT NULL, hi INTEGER NOT NULL, moment INTEGER NOT NULL, count INTEGER NOT NULL, UNIQUE (name, text, mode)) STRICT;
    CREATE TABLE batch (number INTEGER PRIMARY KEY, run INTEGER NOT NULL, lo INTEGER NOT NULL, hi INTEGER NOT NULL, cut INTEGER NOT NULL, moment INTEGER NOT NULL) STRICT;
    CREATE TABLE batch_part (place INTEGER PRIMARY KEY, number INTEGER NOT NULL, rows TEXT NOT NULL) STRICT;
    CREATE INDEX batch_part_number ON batch_part (number);
    CREATE TABLE configured (place INTEGER PRIMARY KEY) STRICT;
    INSERT INTO kept VALUES (2, 0, 0, 0, 0, 0, 0, 0, 0, 0, 0);
";

/// Shows the counts.
pub const COUNTS: &str =
    "SELECT position, sessions, moment, last, floor0, floor1, floor2, batches, acked, parts FROM kept";

/// Shows the parts of live events, in the order in which they were added.
pub const LIVE: &str = "SELECT tbl, moment, numbers, rows FROM live ORDER BY place";

/// Shows the offsets of the sources, in the order in which they first gave something.
pub const TAKEN: &str = "SELECT source, taken FROM taken ORDER BY place";

/// Shows the parts of the recorded tables, in the order in which they were added.
pub const SET: &str = "SELECT tbl, rows FROM set_part ORDER BY place";

/// Shows the runs, in the order of the first batches of their queries.
pub const RUNS: &str = "SELECT name, text, mode, number, hi, moment, count FROM run ORDER BY place";

/// Shows the batch of a number without its rows, with what its query is known by.
pub const BATCH: &str =
    "SELECT name, text, mode, batch.number, lo, batch.hi, cut, batch.moment FROM batch JOIN run ON run.place = batch.run WHERE batch.number = ?1";

/// Shows the parts of that batch's rows, in the order in which they were added.
pub const BATCH_PARTS: &str = "SELECT rows FROM batch_part WHERE number = ?1 ORDER BY place";

pub(crate) const WRITE_COUNTS: &str =
    "UPDATE kept SET position = ?1, sessions = ?2, moment = ?3, last = ?4, floor0 = ?5, floor1 = ?6, floor2 = ?7, batches = ?8, acked = ?9, parts = ?10";

pub(crate) const ADD_CONFIGURED: &str = "INSERT INTO configured VALUES (?1)";

pub(crate) const NOTE_TAKEN: &str =
    "INSERT INTO taken (taken, source) VALUES (?1, ?2) ON CONFLICT (source) DO UPDATE SET taken = excluded.taken";

pub(crate) const ADD_EVENTS: &str =
    "INSERT INTO live (last, tbl, moment, numbers, rows) VALUES (?1, ?2, ?3, ?4, ?5)";

pub(crate) const EXPIRE: &str = "DELETE FROM live WHERE tbl = ?1 AND last <= ?2";

pub(crate) const UNSET: &str = "DELETE FROM set_part WHERE tbl = ?1";

pub(crate) const ADD_SET_PART: &str = "INSERT INTO set_part (tbl, rows) VALUES (?1, ?2)";

/// The order of its first parameters is that of `ADD_BATCH`.
pub(crate) const NOTE_RUN: &str =
    "INSERT INTO run (number, hi, moment, mode, name, text, count) VALUES (?1, ?2, ?3, ?4, ?5, ?6, 1) ON CONFLICT (name, text, mode) DO UPDATE SET number = excluded.number, hi = excluded.hi, moment = excluded.moment, count = count + 1";

pub(crate) const ADD_BATCH: &str =
    "INSERT INTO batch (number, run, lo, hi, cut, moment) SELECT ?1, place, ?4, ?2, ?5, ?3 FROM run WHERE mode = ?6 AND name = ?7 AND text = ?8";

pub(crate) const ADD_BATCH_PART: &str = "INSERT INTO batch_part VALUES (?1, ?2, ?3)";

pub(crate) const ACKNOWLEDGE: &str = "DELETE FROM batch_part WHERE number <= ?1";
