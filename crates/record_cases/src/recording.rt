//! The records of a source, before a callback is asked about them.

ghost use Rattle.std.specs.Prelude.{◌≡◌, ◌≢◌, true, false};
ghost use Rattle.osq_value.specs.declared.source.SourceKind.TheVariants.{Tables};

use crate::given::Given;
use crate::publishing::{opened, push_spent};
use crate::readings::push_end;
use crate::shown::push_raw;
use crate::sips::Sips;
use osq_value::{NoMemory, SourceKind};
use publisher_core::publisher::Publisher;
use publisher_core::record::RecordList;
use publisher_core::subscription::Recorded;
use std::alloc::Global;

/// Adds the records of a step, and how far the source is taken.
fn push_records(
    text: &mut String,
    publisher: &Publisher<Recorded>,
    raws: &RecordList,
) -> Result<(), NoMemory> {
    for raw in raws.as_slice() {
        push_raw(text, raw)?;
    }
    write!(text, " ={}", publisher.taken())?;
    push_end(text, publisher.at_end())
}

/// Adds the records of so many steps.
fn push_steps(
    text: &mut String,
    publisher: &mut Publisher<Recorded>,
    source: &mut Sips,
    given: Given<'_>,
) -> Result<(), NoMemory>
    requires { (publisher.old.is_begun ≡ true) × (publisher.old.is_spent ≡ false) × (publisher.old.kind ≢ Tables) }
{
    let most = given.number("most").unwrap_or(1);
    for _ in 0..given.number("steps").unwrap_or(1) {
        match publisher.records(source, most) {
            Ok(raws) => push_records(text, publisher, &raws)?,
            Err(error) => return push_spent(text, publisher, error),
        }
    }
    Ok(())
}

/// Starts a publisher, and adds the records of its steps.
fn push_started(
    text: &mut String,
    publisher: &mut Publisher<Recorded>,
    source: &mut Sips,
    given: Given<'_>,
) -> Result<(), NoMemory>
    requires { (publisher.old.is_begun ≡ false) × (publisher.old.is_spent ≡ false) × (publisher.old.kind ≢ Tables) }
{
    match publisher.start(source) {
        Ok(()) => push_steps(text, publisher, source, given),
        Err(error) => {
            text.push_str(" start")?;
            push_spent(text, publisher, error)
        }
    }
}

/// Adds the records of the source by so many bytes.
fn push_run(
    alloc: Global,
    text: &mut String,
    given: Given<'_>,
    kind: SourceKind,
    width: usize,
) -> Result<(), NoMemory>
    requires { kind ≢ Tables }
{
    write!(text, "  by {width}:")?;
    let mut source = given.source(alloc, width)?;
    let mut publisher = opened(alloc, given, kind)?;
    push_started(text, &mut publisher, &mut source, given)?;
    Ok(text.push_str("\n")?)
}

/// Adds a line for each width. A source of tables has no records of this kind.
pub(crate) fn push_recorded(
    alloc: Global,
    text: &mut String,
    given: Given<'_>,
) -> Result<(), NoMemory> {
    let kind = match given.kind("records") {
        Some(SourceKind::Audit) => SourceKind::Audit,
        Some(SourceKind::Changes) => SourceKind::Changes,
        _ => return Ok(text.push_str("  no kind of source\n")?),
    };
    let widths = given.widths(alloc)?;
    for width in widths.as_slice() {
        push_run(alloc, text, given, kind, *width)?;
    }
    Ok(())
}
