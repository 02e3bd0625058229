//! Runs over the outside in memory.

use crate::given::Given;
use crate::left::push_left;
use crate::outside::{Memory, run};
use batch_keeper::MemoryKeeper;
use osq_outside::{Failures, StepClock};
use osq_value::NoMemory;
use std::alloc::Global;

/// Gives the outside what the run reads.
fn give_inputs(alloc: Global, outside: &mut Memory, given: Given<'_>) -> Result<(), NoMemory> {
    outside.sources = given.sources(alloc)?;
    outside.files = given.files(alloc)?;
    outside.link = given.link(alloc)?;
    Ok(())
}

/// Gives the outside what the run writes to.
fn give_sinks(alloc: Global, outside: &mut Memory, given: Given<'_>) -> Result<(), NoMemory> {
    outside.results = given.sink(alloc, "results")?;
    outside.status = given.sink(alloc, "status")?;
    outside.ledger = given.sink(alloc, "ledger")?;
    Ok(())
}

/// Gives the keeper the calls of the run that are to fail.
fn give_fails(alloc: Global, keeper: &mut MemoryKeeper, given: Given<'_>) -> Result<(), NoMemory> {
    keeper.failures = Failures::new(given.fails(alloc, "keeper")?);
    keeper.is_whole = given.is_set("is_whole");
    Ok(())
}

/// The clock of the run.
fn clock_of(given: Given<'_>) -> StepClock {
    StepClock {
        next: given.number("start"),
        step: given.number("step"),
    }
}

/// Gives all but the kept list what the run is over.
fn prepare(alloc: Global, outside: &mut Memory, given: Given<'_>) -> Result<(), NoMemory> {
    give_inputs(alloc, outside, given)?;
    give_sinks(alloc, outside, given)?;
    give_fails(alloc, &mut outside.keeper, given)?;
    outside.clock = clock_of(given);
    Ok(())
}

/// Runs, and gives the number of the status.
fn status_of(alloc: Global, outside: &mut Memory, given: Given<'_>) -> Result<u8, NoMemory> {
    let words = given.words(alloc)?;
    Ok(run(alloc, words.as_slice(), outside))
}

/// Runs over what the run gives, and adds the number of the status and what the run leaves.
fn push_given(
    alloc: Global,
    text: &mut String,
    outside: &mut Memory,
    given: Given<'_>,
) -> Result<(), NoMemory> {
    prepare(alloc, outside, given)?;
    let before = outside.keeper.entries().len();
    let number = status_of(alloc, outside, given)?;
    writeln!(text, "status {number}")?;
    push_left(alloc, text, outside, before, given)
}

/// Runs, and adds what the run leaves; or says what its line has that no run may have.
pub(crate) fn push_run(
    alloc: Global,
    text: &mut String,
    outside: &mut Memory,
    given: Given<'_>,
) -> Result<(), NoMemory> {
    match given.odd_key() {
        Some(key) => Ok(writeln!(text, "no run has {key}")?),
        None => push_given(alloc, text, outside, given),
    }
}
