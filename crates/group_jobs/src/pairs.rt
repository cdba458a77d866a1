//! Workers, each with the taker that deals it its tasks.
ghost use Rattle.std.specs.Prelude.{◌≡◌, ◌≤◌, ◌<◌, ◌++◌, ℕ, List, [], ◌∷◌, All, IfOk, OnOk, length, map};
ghost use Rattle.task_feed.specs.FeedContents.{lists_in};
ghost use Rattle.task_feed.specs.Dealt.{IsDealt};
ghost use Rattle.task_feed.specs.Takers.{IsFresh, IsTakerOf, row_of, takers_of, tasks_of};
ghost use Rattle.task_feed.specs.declared.feed.Feed.{Feed};
ghost use Rattle.group_jobs.specs.Dealings.{row_at};
ghost use Rattle.group_jobs.specs.Pairs.{AllFed, AllMayFeed, HasFed, MayFeed, taker_in, worker_in};
ghost use Rattle.group_jobs.specs.Workers.{AllReady, HasCounted, HaveCounted, MayDeal};

use crate::dealers::Taking;
use crate::many::put_worker;
use crate::shares::Worker;
use crate::tasks::Task;
use mutator::Heap;
use object_layout::NoMemory;
use std::alloc::Global;
use std::sync::Wait;
use std::thread;
use std::thread::Threads;
use task_feed::{Feed, Taken, Taker};
use yak_io::Brake;

/// A worker, and the taker that deals it its tasks.
#[derive(Drop)]
pub(crate) struct Pair<'f> {
    pub(crate) worker: Worker,
    pub(crate) taking: Taking<'f>,
}

impl<'f> Pair<'f> {
    /// Counts the words of the tasks that the taker takes, until none is left or the heap has no room.
    fn count<R: Wait, B: Brake + Sync>(
        &mut self,
        rt: &R,
        heap: &Heap,
        bytes: &[u8],
        tasks: &[Task],
        brake: &B,
    )
        requires ready { MayFeed heap.now.gate self.old.taking.feed.now self.old.worker.thread bytes.now self.old }
        requires all { tasks_of self.old.taking.feed.now ≡ length tasks.now }
        requires may { MayDeal bytes.now tasks.now }
        ensures fed { HasFed heap.now.gate self.old.taking.feed.now self.old.worker.thread bytes.now tasks.now self.new }
    {
        self.worker
            .count_dealt(rt, heap, bytes, tasks, &mut self.taking, brake);
    }
}

/// Puts a pair behind the others.
fn put_pair<'f>(pairs: &mut Vec<Pair<'f>>, pair: Pair<'f>) -> Result<(), NoMemory>
    ensures { OnOk result (pairs.new.items ≡ pairs.old.items ++ pair.entry ∷ []) }
{
    match pairs.push(pair) {
        Ok(()) => Ok(()),
        Err(_) => Err(NoMemory),
    }
}

/// Each worker with the taker of its place.
fn pair_up<'f>(
    alloc: Global,
    feed: &'f Feed,
    mut team: Vec<Worker>,
    mut takers: Vec<Taker>,
) -> Result<Vec<Pair<'f>>, NoMemory>
    requires same { length takers.items ≡ length team.items }
    requires made { All (λ taker. IsTakerOf feed.now taker × IsFresh taker) takers.items }
    ensures workers { IfOk result (λ pairs. map worker_in pairs.items ≡ team.items) }
    ensures takers { IfOk result (λ pairs. All (λ pair. (pair.taking.feed.now ≡ feed.now) × (row_of pair.taking.taker ≡ [])) pairs.items) }
{
    let mut pairs = Vec::new(alloc);
    while !team.is_empty() {
        let worker = team.remove(0);
        let taker = takers.remove(0);
        let taking = Taking { feed, taker };
        put_pair(&mut pairs, Pair { worker, taking })?;
    }
    Ok(pairs)
}

/// Runs each worker in a thread of its own, until no task is left in the feed or the heap has no room for its objects.
fn run_pairs<R: Threads + Wait + Sync, B: Brake + Sync>(
    rt: &R,
    heap: &Heap,
    bytes: &[u8],
    tasks: &[Task],
    pairs: &mut [Pair],
    brake: &B,
)
    requires some { 0 < length pairs.old }
    requires ready { (feed : Feed) × AllMayFeed heap.now.gate feed bytes.now pairs.old × (tasks_of feed ≡ length tasks.now) }
    requires may { MayDeal bytes.now tasks.now }
    ensures fed { (feed : Feed) → AllMayFeed heap.now.gate feed bytes.now pairs.old → AllFed heap.now.gate feed bytes.now tasks.now pairs.new }
{
    let threads = pairs.len();
    let count = |_: usize, pair: &mut Pair|
        requires { MayFeed heap.now.gate pair.now.taking.feed.now pair.now.worker.thread bytes.now pair.now × (tasks_of pair.now.taking.feed.now ≡ length tasks.now) × MayDeal bytes.now tasks.now }
        ensures { HasFed heap.entry.now.gate pair.entry.now.taking.feed.now pair.entry.now.worker.thread bytes.entry.now tasks.entry.now pair.exit.now }
    { pair.count(rt, heap, bytes, tasks, brake) };
    thread::for_each_mut(rt, pairs, threads, &count);
}

/// Puts a taker behind the others.
fn put_taker(takers: &mut Vec<Taker>, taker: Taker) -> Result<(), NoMemory>
    ensures { OnOk result (takers.new.items ≡ takers.old.items ++ taker ∷ []) }
{
    takers.push(taker).map_err(|_| NoMemory)
}

/// The workers, and the takers, in order.
fn part_pairs(alloc: Global, mut pairs: Vec<Pair>) -> Result<(Vec<Worker>, Vec<Taker>), NoMemory>
    ensures workers { IfOk result (λ parts. parts.0.items ≡ map worker_in pairs.entry.items) }
    ensures takers { IfOk result (λ parts. parts.1.items ≡ map taker_in pairs.entry.items) }
    ensures made { IfOk result (λ parts. (feed : Feed) → All (λ pair. pair.taking.feed.now ≡ feed) pairs.entry.items → All (IsTakerOf feed) parts.1.items) }
{
    let mut team = Vec::new(alloc);
    let mut takers = Vec::new(alloc);
    while !pairs.is_empty() {
        let Pair { worker, taking } = pairs.remove(0);
        put_worker(&mut team, worker)?;
        put_taker(&mut takers, taking.taker)?;
    }
    Ok((team, takers))
}

/// Lets workers count the tasks that they take from a feed. It gives them back, and tells which tasks each of them took.
pub(crate) fn feed_team<R: Threads + Wait + Sync, B: Brake + Sync>(
    rt: &R,
    alloc: Global,
    heap: &Heap,
    bytes: &[u8],
    tasks: &[Task],
    feed: Feed,
    takers: Vec<Taker>,
    team: Vec<Worker>,
    brake: &B,
) -> Result<(Vec<Worker>, Taken), NoMemory>
    requires some { 0 < length team.items }
    requires ready { AllReady heap.now.gate bytes.now team.items }
    requires may { MayDeal bytes.now tasks.now }
    requires all { tasks_of feed ≡ length tasks.now }
    requires takers { takers_of feed ≡ length team.items }
    requires same { length takers.items ≡ length team.items }
    requires made { All (λ taker. IsTakerOf feed taker × IsFresh taker) takers.items }
    ensures length { IfOk result (λ fed. length fed.0.items ≡ length team.items) }
    ensures rows { IfOk result (λ fed. length fed.1.rows ≡ length team.items) }
    ensures dealt { IfOk result (λ fed. IsDealt (length tasks.now) fed.1.rows fed.1.left) }
    ensures counted { IfOk result (λ fed. HaveCounted heap.now.gate bytes.now tasks.now (row_at fed.1.rows) fed.1.left fed.0.items) }
{
    let mut pairs = pair_up(alloc, &feed, team, takers)?;
    run_pairs(rt, heap, bytes, tasks, pairs.as_mut_slice(), brake);
    let (team, takers) = part_pairs(alloc, pairs)?;
    Ok((team, feed.done(rt, takers)))
}
