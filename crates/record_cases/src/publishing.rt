//! A publisher over a source.

ghost use Rattle.std.specs.Prelude.{◌≡◌, true, false, IfOk};

use crate::given::Given;
use crate::readings::{push_end, push_readings, push_refusal};
use crate::sips::Sips;
use osq_value::{NoMemory, ReadingList, SourceKind, Str};
use publisher_core::error::StepError;
use publisher_core::publisher::Publisher;
use publisher_core::subscription::{Recorded, Subscription};
use std::alloc::Global;

/// A subscription under the categories that the line gives.
fn subscribed(alloc: Global, given: Given<'_>) -> Result<Subscription<Recorded>, NoMemory> {
    Ok(Subscription::new(Recorded, given.categories(alloc)?))
}

/// A publisher that isn't begun, of the kept bytes and under the categories that the line gives.
pub(crate) fn opened(
    alloc: Global,
    given: Given<'_>,
    kind: SourceKind,
) -> Result<Publisher<Recorded>, NoMemory>
    ensures { IfOk result (λ made. (made.is_begun ≡ false) × (made.is_spent ≡ false) × (made.kind ≡ kind)) }
{
    let subscription = subscribed(alloc, given)?;
    let name = Str::of(alloc, "source")?;
    let kept = given.number("kept").unwrap_or(0);
    match Publisher::new(alloc, name, kind, kept, subscription) {
        Ok(made) => Ok(made),
        Err(NoMemory) => Err(NoMemory),
    }
}

/// Adds why a publisher refused, its name, and whether it is spent.
pub(crate) fn push_spent(
    text: &mut String,
    publisher: &Publisher<Recorded>,
    error: StepError,
) -> Result<(), NoMemory> {
    push_refusal(text, error)?;
    let name = publisher.name().as_str();
    let state = if publisher.is_spent() {
        "spent"
    } else {
        "unspent"
    };
    Ok(write!(text, ", {name} {state}")?)
}

/// Adds the readings of a step, and how far the source is taken.
fn push_step(
    alloc: Global,
    text: &mut String,
    publisher: &Publisher<Recorded>,
    readings: &ReadingList,
    is_whole: bool,
) -> Result<(), NoMemory> {
    push_readings(alloc, text, readings, is_whole)?;
    write!(text, " ={}", publisher.taken())?;
    push_end(text, publisher.at_end())
}

/// Adds what so many steps give.
fn push_steps(
    alloc: Global,
    text: &mut String,
    publisher: &mut Publisher<Recorded>,
    source: &mut Sips,
    given: Given<'_>,
) -> Result<(), NoMemory>
    requires { (publisher.old.is_begun ≡ true) × (publisher.old.is_spent ≡ false) }
{
    let most = given.number("most").unwrap_or(1);
    for _ in 0..given.number("steps").unwrap_or(1) {
        match publisher.step(source, most) {
            Ok(readings) => {
                push_step(alloc, text, publisher, &readings, given.is_set("is_whole"))?
            }
            Err(error) => return push_spent(text, publisher, error),
        }
    }
    Ok(())
}

/// Starts a publisher, and adds what it gives.
fn push_started(
    alloc: Global,
    text: &mut String,
    publisher: &mut Publisher<Recorded>,
    source: &mut Sips,
    given: Given<'_>,
) -> Result<(), NoMemory>
    requires { (publisher.old.is_begun ≡ false) × (publisher.old.is_spent ≡ false) }
{
    match publisher.start(source) {
        Ok(()) => push_steps(alloc, text, publisher, source, given),
        Err(error) => {
            text.push_str(" start")?;
            push_spent(text, publisher, error)
        }
    }
}

/// Opens a publisher, and adds what it gives of the source.
fn push_opened(
    alloc: Global,
    text: &mut String,
    source: &mut Sips,
    given: Given<'_>,
    kind: SourceKind,
) -> Result<(), NoMemory> {
    let mut publisher = opened(alloc, given, kind)?;
    push_started(alloc, text, &mut publisher, source, given)
}

/// Adds what a publisher gives of the source by so many bytes.
fn push_run(
    alloc: Global,
    text: &mut String,
    given: Given<'_>,
    kind: SourceKind,
    width: usize,
) -> Result<(), NoMemory> {
    write!(text, "  by {width}:")?;
    let mut source = given.source(alloc, width)?;
    push_opened(alloc, text, &mut source, given, kind)?;
    Ok(text.push_str("\n")?)
}

/// Adds a line for each width.
pub(crate) fn push_published(
    alloc: Global,
    text: &mut String,
    given: Given<'_>,
) -> Result<(), NoMemory> {
    let Some(kind) = given.kind("publisher") else {
        return Ok(text.push_str("  no kind of source\n")?);
    };
    let widths = given.widths(alloc)?;
    for width in widths.as_slice() {
        push_run(alloc, text, given, kind, *width)?;
    }
    Ok(())
}
