//! The seats of a step: they are split off before it and joined behind it.

ghost use Rattle.std.specs.Prelude.{◌≡◌, ◌+◌, ◌≤◌, [], All, OnOk, length, map, vec_capacity};
ghost use Rattle.turn_lock.specs.Words.{seats_out};
ghost use Rattle.shared_store.specs.Words.{most_seats};
ghost use Rattle.thread_rounds.specs.Ends as ends;
ghost use Rattle.thread_rounds.specs.Ends.{first_refused};
ghost use Rattle.thread_rounds.specs.Seats.{AreJoined, AreSplit, IsLater, StaysFirst};

use osq_value::NoMemory;
use shared_store::{Store, StoreSeat};
use thread_jobs::{Job, JobError};

/// Splits off so many seats, or where memory is wanting fewer, and puts their jobs where there is room for them. At the gate each has its place among
/// them.
pub(crate) fn split_jobs(
    store: &Store,
    first: &mut StoreSeat,
    jobs: &mut Vec<Job>,
    count: u32,
) -> Result<(), NoMemory>
    requires seat { StaysFirst store.now first.old }
    requires room { seats_out first.old + count ≤ most_seats store.now }
    requires none { jobs.old.items ≡ [] }
    requires reserved { count ≤ vec_capacity jobs.old }
    ensures split { AreSplit store.now first.old first.new (map (λ job. job.seat) jobs.new.items) }
    ensures all { OnOk result (length jobs.new.items ≡ count) }
{
    for who in 0..count {
        let seat = store.split(first)?;
        jobs.push_reserved(Job {
            seat,
            who,
            end: Ok(()),
        });
    }
    Ok(())
}

/// The refusal of the job at this place, or else the later one.
fn refused_at(
    place: usize,
    end: Result<(), JobError>,
    later: Option<(usize, JobError)>,
) -> Option<(usize, JobError)>
    ensures { result ≡ ends.refused_at place end later }
{
    match end {
        Ok(()) => later,
        Err(error) => Some((place, error)),
    }
}

/// Joins the seats of these jobs, the last one first, and answers the first job that was refused: its place, and why.
pub(crate) fn join_jobs(
    store: &Store,
    first: &mut StoreSeat,
    jobs: Vec<Job>,
) -> Option<(usize, JobError)>
    requires seat { StaysFirst store.now first.old }
    requires jobs { All (λ job. IsLater store.now job.seat) jobs.items }
    ensures joined { AreJoined store.now first.old first.new (map (λ job. job.seat) jobs.items) }
    ensures refused { result ≡ first_refused 0 jobs.items }
{
    let mut jobs = jobs;
    let mut refused = None;
    while let Some(job) = jobs.pop() {
        let Job { seat, who: _, end } = job;
        store.join(first, seat);
        refused = refused_at(jobs.len(), end, refused);
    }
    refused
}
