//! The threads of a step: publishers and workers, each in one of its own where one can be had.

ghost use Rattle.std.specs.Thread.{IsSync, IsSend};
ghost use Rattle.thread_jobs.specs.Forking.{ArePaired, IsPublisherDone, IsWorkerDone, MayPublish, MayPublishAll, MayWork, MayWorkAll, PublishersDone, WorkersDone};

use crate::error::JobError;
use crate::publishing::publish;
use crate::working::work;
use osq_outside::{Gate, Source};
use shared_store::{Store, StoreSeat};
use source_feeds::Feed;
use std::alloc::Global;
use std::sync::Wait;
use std::thread::{Threads, join_mut};

/// What all threads of a step are given beside the store and the gate.
#[derive(Drop)]
pub struct Terms {
    pub alloc: Global,
    /// How many records a publisher's step takes at most.
    pub most: u64,
}

/// What one thread of a step has, and how it ended.
#[derive(Drop)]
pub struct Job {
    pub seat: StoreSeat,
    /// As the gate knows it: the source's place for a publisher, and the number of sources plus the worker's place for a worker.
    pub who: u32,
    /// How it ended, once it is done.
    pub end: Result<(), JobError>,
}

/// Does a publisher's job.
fn run_publisher<R: Wait, S: Source, G: Gate>(
    rt: &R,
    terms: &Terms,
    store: &Store,
    gate: &G,
    job: &mut Job,
    feed: &mut Feed,
    source: &mut S,
)
    requires { MayPublish store.now job.old feed.old }
    ensures { IsPublisherDone S.tells S.left S.faults terms.now.most job.old job.new feed.old feed.new source.old source.new }
{
    job.end = publish(
        rt,
        terms.alloc,
        store,
        gate,
        job.who,
        &mut job.seat,
        feed,
        source,
        terms.most,
    );
}

/// Does a worker's job.
fn run_worker<R: Wait, G: Gate>(rt: &R, terms: &Terms, store: &Store, gate: &G, job: &mut Job)
    requires { MayWork store.now job.old }
    ensures { IsWorkerDone job.old job.new }
{
    job.end = work(rt, terms.alloc, store, gate, job.who, &mut job.seat);
}

/// Does the jobs of publishers, each with the feed and the source in its place.
pub(crate) fn publish_all<R: Threads + Wait + Sync, S: Source, G: Gate>(
    rt: &R,
    terms: &Terms,
    store: &Store,
    gate: &G,
    jobs: &mut [Job],
    feeds: &mut [Feed],
    sources: &mut [S],
)
    requires send { IsSend S.row }
    requires may { MayPublishAll store.now jobs.old feeds.old }
    requires paired { ArePaired jobs.old feeds.old sources.old }
    ensures { PublishersDone S.tells S.left S.faults terms.now.most jobs.old jobs.new feeds.old feeds.new sources.old sources.new }
{
    if jobs.is_empty() {
        return;
    }
    if jobs.len() == 1 {
        run_publisher(
            rt,
            terms,
            store,
            gate,
            &mut jobs[0],
            &mut feeds[0],
            &mut sources[0],
        );
        return;
    }
    let half = jobs.len() / 2;
    let (front_jobs, back_jobs) = jobs.split_at_mut(half);
    let (front_feeds, back_feeds) = feeds.split_at_mut(half);
    let (front_sources, back_sources) = sources.split_at_mut(half);
    join_mut(
        rt,
        &mut ||
            requires { IsSync R.row × IsSend S.row × IsSync G.row × MayPublishAll store.now front_jobs.now front_feeds.now × ArePaired front_jobs.now front_feeds.now front_sources.now }
            ensures { PublishersDone S.tells S.left S.faults terms.entry.now.most front_jobs.entry.now front_jobs.exit.now front_feeds.entry.now front_feeds.exit.now front_sources.entry.now front_sources.exit.now }
        {
            publish_all(
                rt,
                terms,
                store,
                gate,
                front_jobs,
                front_feeds,
                front_sources,
            )
        },
        &mut ||
            requires { IsSync R.row × IsSend S.row × IsSync G.row × MayPublishAll store.now back_jobs.now back_feeds.now × ArePaired back_jobs.now back_feeds.now back_sources.now }
            ensures { PublishersDone S.tells S.left S.faults terms.entry.now.most back_jobs.entry.now back_jobs.exit.now back_feeds.entry.now back_feeds.exit.now back_sources.entry.now back_sources.exit.now }
        { publish_all(rt, terms, store, gate, back_jobs, back_feeds, back_sources) },
    );
}

/// Does the jobs of workers.
pub(crate) fn work_all<R: Threads + Wait + Sync, G: Gate>(
    rt: &R,
    terms: &Terms,
    store: &Store,
    gate: &G,
    jobs: &mut [Job],
)
    requires { MayWorkAll store.now jobs.old }
    ensures { WorkersDone jobs.old jobs.new }
{
    if jobs.is_empty() {
        return;
    }
    if jobs.len() == 1 {
        run_worker(rt, terms, store, gate, &mut jobs[0]);
        return;
    }
    let (front, back) = jobs.split_at_mut(jobs.len() / 2);
    join_mut(
        rt,
        &mut ||
            requires { IsSync R.row × IsSync G.row × MayWorkAll store.now front.now }
            ensures { WorkersDone front.entry.now front.exit.now }
        { work_all(rt, terms, store, gate, front) },
        &mut ||
            requires { IsSync R.row × IsSync G.row × MayWorkAll store.now back.now }
            ensures { WorkersDone back.entry.now back.exit.now }
        { work_all(rt, terms, store, gate, back) },
    );
}

/// Does the jobs of publishers, each with the feed and the source in its place, and those of workers, all at once.
pub fn do_all<R: Threads + Wait + Sync, S: Source, G: Gate>(
    rt: &R,
    terms: &Terms,
    store: &Store,
    gate: &G,
    publishers: &mut [Job],
    feeds: &mut [Feed],
    sources: &mut [S],
    workers: &mut [Job],
)
    requires may_publish { MayPublishAll store.now publishers.old feeds.old }
    requires paired { ArePaired publishers.old feeds.old sources.old }
    requires may_work { MayWorkAll store.now workers.old }
    ensures publishers { PublishersDone S.tells S.left S.faults terms.now.most publishers.old publishers.new feeds.old feeds.new sources.old sources.new }
    ensures workers { WorkersDone workers.old workers.new }
{
    join_mut(
        rt,
        &mut ||
            requires { IsSync R.row × IsSend S.row × IsSync G.row × MayPublishAll store.now publishers.now feeds.now × ArePaired publishers.now feeds.now sources.now }
            ensures { PublishersDone S.tells S.left S.faults terms.entry.now.most publishers.entry.now publishers.exit.now feeds.entry.now feeds.exit.now sources.entry.now sources.exit.now }
        { publish_all(rt, terms, store, gate, publishers, feeds, sources) },
        &mut ||
            requires { IsSync R.row × IsSync G.row × MayWorkAll store.now workers.now }
            ensures { WorkersDone workers.entry.now workers.exit.now }
        { work_all(rt, terms, store, gate, workers) },
    );
}
