//! A feed over a source.

ghost use Rattle.std.specs.Prelude.{◌≡◌, true, false, IfOk, OnOk};
ghost use Rattle.source_feeds.specs.Feeding.{IsOpen, SameFeed};

use crate::given::Given;
use crate::readings::{push_end, push_readings, push_refusal};
use crate::shown::Shown;
use crate::sips::Sips;
use osq_value::{NoMemory, ReadingList, SourceKind, Str};
use publisher_core::error::StepError;
use source_feeds::Feed;
use std::alloc::Global;

/// A feed that isn't begun, of the kept bytes and under the categories that the line gives.
fn opened(alloc: Global, given: Given<'_>, kind: SourceKind) -> Result<Feed, NoMemory>
    ensures { IfOk result (λ feed. IsOpen feed) }
{
    let paths = given.categories(alloc)?;
    let name = Str::of(alloc, "source")?;
    let kept = given.number("kept").unwrap_or(0);
    match Feed::open(alloc, name, kind, kept, paths) {
        Ok(feed) => Ok(feed),
        Err(NoMemory) => Err(NoMemory),
    }
}

/// Adds the readings of a step, how far the source is taken, and how many lines are skipped so far.
fn push_step(
    alloc: Global,
    text: &mut String,
    feed: &Feed,
    readings: &ReadingList,
    is_whole: bool,
) -> Result<(), NoMemory> {
    push_readings(alloc, text, readings, is_whole)?;
    write!(text, " ={}-{}", feed.taken(), feed.skipped())?;
    push_end(text, feed.at_end())
}

/// Takes a step, and adds the records that it shows where the line says so.
fn step(
    alloc: Global,
    text: &mut String,
    feed: &mut Feed,
    source: &mut Sips,
    given: Given<'_>,
) -> Result<ReadingList, StepError>
    requires { (feed.old.reader.is_begun ≡ true) × (feed.old.reader.is_spent ≡ false) }
    ensures { OnOk result (SameFeed feed.old feed.new) }
{
    let most = given.number("most").unwrap_or(1);
    if !given.is_set("is_shown") {
        return feed.step(source, most);
    }
    let mut shown = Shown {
        text: String::new(alloc),
    };
    let readings = match feed.step_seen(source, most, &mut shown) {
        Ok(readings) => readings,
        Err(error) => return Err(error),
    };
    write!(text, " <{}>", shown.text.as_str())?;
    Ok(readings)
}

/// Adds what so many steps give.
fn push_steps(
    alloc: Global,
    text: &mut String,
    feed: &mut Feed,
    source: &mut Sips,
    given: Given<'_>,
) -> Result<(), NoMemory>
    requires { (feed.old.reader.is_begun ≡ true) × (feed.old.reader.is_spent ≡ false) }
{
    for _ in 0..given.number("steps").unwrap_or(1) {
        match step(alloc, text, feed, source, given) {
            Ok(readings) => push_step(alloc, text, feed, &readings, given.is_set("is_whole"))?,
            Err(error) => return push_refusal(text, error),
        }
    }
    Ok(())
}

/// Starts a feed, and adds what it gives.
fn push_started(
    alloc: Global,
    text: &mut String,
    feed: &mut Feed,
    source: &mut Sips,
    given: Given<'_>,
) -> Result<(), NoMemory>
    requires { IsOpen feed.old }
{
    match feed.start(source) {
        Ok(()) => push_steps(alloc, text, feed, source, given),
        Err(error) => {
            text.push_str(" start")?;
            push_refusal(text, error)
        }
    }
}

/// Opens a feed, and adds what it gives of the source.
fn push_opened(
    alloc: Global,
    text: &mut String,
    source: &mut Sips,
    given: Given<'_>,
    kind: SourceKind,
) -> Result<(), NoMemory> {
    let mut feed = opened(alloc, given, kind)?;
    push_started(alloc, text, &mut feed, source, given)
}

/// Adds what a feed gives of the source by so many bytes.
fn push_run(
    alloc: Global,
    text: &mut String,
    given: Given<'_>,
    kind: SourceKind,
    width: usize,
) -> Result<(), NoMemory> {
    write!(text, "  by {width}:")?;
    let mut source = given.source(alloc, width)?;
    push_opened(alloc, text, &mut source, given, kind)?;
    Ok(text.push_str("\n")?)
}

/// Adds a line for each width.
pub(crate) fn push_feed(
    alloc: Global,
    text: &mut String,
    given: Given<'_>,
) -> Result<(), NoMemory> {
    let Some(kind) = given.kind("feed") else {
        return Ok(text.push_str("  no kind of source\n")?);
    };
    let widths = given.widths(alloc)?;
    for width in widths.as_slice() {
        push_run(alloc, text, given, kind, *width)?;
    }
    Ok(())
}
