//! The laws of the tables, which speak of the definitions alone. `restored_of` and `batch_of` read what they say the rows show.

ghost use Rattle.kept_tables.specs.Archive.{ArchiveBegins, ArchiveShows, FetchIsKnown, SealArchives};
ghost use Rattle.kept_tables.specs.Keeps.{Begins, KeptShows, SealKeeps};
ghost use Rattle.kept_tables.specs.Worked.{Worked};

/// New tables have the rows of the empty list.
pub fn begins()
    ensures { Begins }
{}

/// Where the rows are those of a legal list, the statements of a seal make them those of that list with the seal's entries.
pub fn seals()
    ensures { SealKeeps }
{}

/// Rows of a legal list show its values.
pub fn shows()
    ensures { KeptShows }
{}

/// New tables have the batches of the empty list.
pub fn archive_begins()
    ensures { ArchiveBegins }
{}

/// Where the rows have the batches of a legal list, the statements of a seal make them have those of that list with the seal's entries.
pub fn seals_archive()
    ensures { SealArchives }
{}

/// What is shown of the batch of a number shows the batch that is fetched from the list.
pub fn archive_shows()
    ensures { ArchiveShows }
{}

/// The counts of a list tell which numbers are fetched from it.
pub fn fetch_is_known()
    ensures { FetchIsKnown }
{}

/// Seals that were worked out by hand have these statements, and leave these rows.
pub fn worked()
    ensures { Worked }
{}
