//! The laws of steps one after another, which speak of the definitions alone.

ghost use Rattle.source_feeds.specs.Laws.{CountLines, ReadOn, ReadOwn, RiseOn};

/// The readings of the steps of a session, one after another, are the reading of all its records, however they were divided among the
/// steps, and their offsets rise.
pub fn joining()
    ensures own { ReadOwn }
    ensures on { ReadOn }
    ensures rise { RiseOn }
{}

/// A step of a source of tables takes at least as many records as the lesser of what it may take and the number of line feeds in the
/// first 16777216 bytes behind its offset.
pub fn counting()
    ensures { CountLines }
{}
