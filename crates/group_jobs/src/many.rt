//! A count by several workers.
ghost use Rattle.std.specs.Prelude.{◌≡◌, ◌≤◌, ◌<◌, ◌*◌, ◌-◌, ◌++◌, ℕ, List, [], ◌∷◌, All, IfOk, IfErr, IsSome, MatchOption, Ok, OnOk, false, length};
ghost use Rattle.heap_words.specs.Map.{IsAreas, page_words};
ghost use Rattle.yak_model.specs.Room.{least_room};
ghost use Rattle.yak_model.specs.Texts.{counts_of, words_of};
ghost use Rattle.safepoint_gate.specs.Made.{AllFresh};
ghost use Rattle.mutator.specs.Resting.{seats_of};
ghost use Rattle.task_feed.specs.Shares.{share_of};
ghost use Rattle.group_jobs.specs.LongWords.{has_long_word};
ghost use Rattle.group_jobs.specs.declared.tasks.Task.{Task};
ghost use Rattle.group_jobs.specs.Shared.{IsCountedShared, TellsWhyShared, share};
ghost use Rattle.group_jobs.specs.Tasks.{AreTasks};
ghost use Rattle.group_jobs.specs.Workers.{AllCounted, AllReady, AreSeats, HasCounted, HaveCounted, HaveCountedSome, HaveLeastRoom, KeepCounted, LeaveCounted, ListsCounted, MayDeal, MayShare, NoneRefused, SomeRefused, TellWhy, WhyRefused};
ghost use Rattle.yak_io.specs.declared.TheConstants.{INPUT_LIMIT};

use crate::count::CountError;
use crate::counted::sort_counts;
use crate::shares::Worker;
use crate::sums::{add_up, append_counts};
use crate::tasks::{Task, cut_tasks};
use heap_tables::{Notes, WordCount};
use heap_words::MakeError;
use mutator::{Heap, Resting, finish};
use object_layout::{Census, NoMemory};
use safepoint_gate::Finished;
use std::alloc::Global;
use std::sync::Wait;
use std::thread;
use std::thread::Threads;
use yak_io::Brake;

/// The counts of a text by several workers, and the heap as they left it.
#[derive(Drop)]
pub struct Counts {
    pub list: Vec<WordCount>,
    pub finished: Finished,
}

/// Puts a worker behind the others.
pub(crate) fn put_worker(team: &mut Vec<Worker>, worker: Worker) -> Result<(), NoMemory>
    ensures { OnOk result (team.new.items ≡ team.old.items ++ worker ∷ []) }
{
    team.push(worker).map_err(|_| NoMemory)
}

/// A worker for each mutator of a new heap.
fn hire(alloc: Global, heap: &Heap, mut resting: Vec<Resting>) -> Result<Vec<Worker>, NoMemory>
    requires new { AllFresh heap.now.gate.table.shared.table_id heap.now.gate.map (seats_of resting.items) }
    requires count { length (seats_of resting.items) ≡ heap.now.gate.map.threads }
    ensures length { IfOk result (λ team. length team.items ≡ length (seats_of resting.items)) }
    ensures ready { IfOk result (λ team. (bytes : List ℕ) → AllReady heap.now.gate bytes team.items) }
{
    let mut team = Vec::new(alloc);
    'hired: while !resting.is_empty() {
        let next = resting.remove(0);
        let worker = Worker {
            thread: next.thread(),
            resting: Some(next),
            has_total: false,
            notes: Notes::new(alloc),
            refused: None,
        };
        put_worker(&mut team, worker)?;
    }
    Ok(team)
}

/// Runs each worker in a thread of its own, until all have counted their tasks or found no room.
fn run_team<R: Threads + Wait + Sync, B: Brake + Sync>(
    rt: &R,
    heap: &Heap,
    bytes: &[u8],
    tasks: &[Task],
    team: &mut [Worker],
    brake: &B,
)
    requires some { 0 < length team.old }
    requires ready { AllReady heap.now.gate bytes.now team.old }
    requires may { MayShare (length team.old) bytes.now tasks.now }
    ensures counted { AllCounted heap.now.gate bytes.now tasks.now team.new }
{
    let workers = team.len();
    let count = |_: usize, worker: &mut Worker|
        requires { (1 ≤ worker.now.thread) × HasCounted heap.now.gate worker.now.thread bytes.now [] worker.now × MayShare workers bytes.now tasks.now }
        ensures { HasCounted heap.entry.now.gate worker.entry.now.thread bytes.entry.now (share workers (worker.entry.now.thread - 1) tasks.entry.now) worker.exit.now }
    { worker.count_share(rt, heap, bytes, tasks, workers, brake) };
    thread::for_each_mut(rt, team, workers, &count);
}

/// The pages at a call for an object for which the heap had no room, if there was one.
fn refused_of(team: &[Worker]) -> Option<Census>
    ensures { MatchOption result (NoneRefused team.now) (SomeRefused team.now) }
{
    for worker in team {
        if worker.refused.is_some() {
            return worker.refused;
        }
    }
    None
}

/// The sums of the counts in the tables of all workers, in ascending order of words.
fn list_totals<R: Wait + Sync>(
    rt: &R,
    alloc: Global,
    heap: &Heap,
    team: &mut [Worker],
) -> Result<Vec<WordCount>, NoMemory>
    requires some { HaveCountedSome heap.now.gate team.old }
    requires unrefused { NoneRefused team.old }
    ensures list { IfOk result (λ list. ListsCounted heap.now.gate team.old list.items) }
    ensures keeps { KeepCounted heap.now.gate team.old team.new }
    ensures unrefused { NoneRefused team.new }
{
    let mut all = Vec::new(alloc);
    for k in 0..team.len() {
        let list = team[k].read_total(rt, alloc, heap)?;
        append_counts(&mut all, list)?;
    }
    sort_counts(&mut all);
    let mut sums = add_up(alloc, all)?;
    sort_counts(&mut sums);
    Ok(sums)
}

/// Adds up the counts of workers that have counted the tasks that were dealt to them, where there was room for all.
///
/// # Errors
///
/// `OutOfHeap` where some worker found no room for an object, with the pages at that call; `Memory` where an allocation was refused.
pub(crate) fn sum_up<R: Wait + Sync>(
    rt: &R,
    alloc: Global,
    heap: &Heap,
    team: &mut [Worker],
) -> Result<Vec<WordCount>, CountError<()>>
    requires some { HaveCountedSome heap.now.gate team.old }
    ensures list { IfOk result (λ list. ListsCounted heap.now.gate team.old list.items) }
    ensures keeps { KeepCounted heap.now.gate team.old team.new }
    ensures unrefused { IfOk result (λ _. NoneRefused team.new) }
    ensures refused { IfErr result (λ error. WhyRefused team.new error) }
{
    if let Some(census) = refused_of(team) {
        return Err(CountError::OutOfHeap(census, ()));
    }
    match list_totals(rt, alloc, heap, team) {
        Ok(list) => Ok(list),
        Err(_) => Err(CountError::Memory),
    }
}

/// Puts a mutator behind the others.
fn put_back(back: &mut Vec<Resting>, resting: Resting) -> Result<(), NoMemory>
    ensures { OnOk result (back.new.items ≡ back.old.items ++ resting ∷ []) }
{
    back.push(resting).map_err(|_| NoMemory)
}

/// The mutators of the workers, in order.
fn dismiss(mut team: Vec<Worker>, back: &mut Vec<Resting>) -> Result<(), NoMemory>
    requires empty { back.old.items ≡ [] }
    requires there { All (λ worker. IsSome worker.resting) team.items }
    ensures length { OnOk result (length (seats_of back.new.items) ≡ length team.items) }
    ensures each { OnOk result (AreSeats team.items (seats_of back.new.items)) }
{
    while !team.is_empty() {
        let Worker {
            thread: _,
            resting,
            has_total: _,
            notes: _,
            refused: _,
        } = team.remove(0);
        match resting {
            Some(resting) => put_back(back, resting)?,
            None => unreachable!(),
        }
    }
    Ok(())
}

/// What a count by several workers begins with: the tasks of the text, a heap, a worker for each of its threads, and room for what
/// the workers hand back.
#[derive(Drop)]
pub(crate) struct Opened {
    pub(crate) tasks: Vec<Task>,
    pub(crate) heap: Heap,
    pub(crate) team: Vec<Worker>,
    pub(crate) back: Vec<Resting>,
}

/// Cuts a text into tasks, and opens a heap with a worker for each thread.
pub(crate) fn open_team(
    alloc: Global,
    pages: u32,
    workers: u8,
    lines: u32,
    bytes: &[u8],
) -> Result<Opened, NoMemory>
    requires size { IsAreas (record { pages = pages; threads = workers }) }
    requires some_lines { 1 ≤ lines }
    requires short { length bytes.now ≤ INPUT_LIMIT }
    requires words { has_long_word bytes.now ≡ false }
    ensures cut { IfOk result (λ opened. AreTasks bytes.now lines opened.tasks.items) }
    ensures few { IfOk result (λ opened. length opened.tasks.items ≤ INPUT_LIMIT) }
    ensures may { IfOk result (λ opened. MayDeal bytes.now opened.tasks.items) }
    ensures map { IfOk result (λ opened. opened.heap.gate.map ≡ record { pages = pages; threads = workers }) }
    ensures length { IfOk result (λ opened. length opened.team.items ≡ workers) }
    ensures ready { IfOk result (λ opened. AllReady opened.heap.gate bytes.now opened.team.items) }
    ensures empty { IfOk result (λ opened. opened.back.items ≡ []) }
{
    let Ok(tasks) = cut_tasks(alloc, bytes, lines) else {
        return Err(NoMemory);
    };
    let (heap, resting) = match Heap::new(alloc, pages, workers) {
        Ok(made) => made,
        Err(MakeError::Memory) => return Err(NoMemory),
        Err(MakeError::BadConfig) => unreachable!(),
    };
    let team = hire(alloc, &heap, resting)?;
    let Ok(back) = Vec::with_capacity(alloc, team.len()) else {
        return Err(NoMemory);
    };
    Ok(Opened {
        tasks,
        heap,
        team,
        back,
    })
}

/// Takes the heap back from all workers. The counts stand beside it where there was room for all.
///
/// # Errors
///
/// `OutOfHeap` where some worker found no room for an object; `Memory` where an allocation was refused.
pub(crate) fn close_team(
    heap: Heap,
    team: Vec<Worker>,
    mut back: Vec<Resting>,
    counted: Result<Vec<WordCount>, CountError<()>>,
) -> Result<Counts, CountError<Finished>>
    requires areas { IsAreas heap.gate.map }
    requires empty { back.items ≡ [] }
    requires all { length team.items ≡ heap.gate.map.threads }
    requires some { HaveCountedSome heap.gate team.items }
    requires unrefused { IfOk counted (λ _. NoneRefused team.items) }
    requires refused { IfErr counted (λ error. WhyRefused team.items error) }
    ensures list { IfOk result (λ counts. counted ≡ Ok counts.list) }
    ensures counted { IfOk result (λ counts. LeaveCounted heap.gate team.items counts.finished.seat.me.0) }
    ensures room { IfOk result (λ _. HaveLeastRoom heap.gate team.items) }
    ensures why { IfErr result (λ error. TellWhy heap.gate team.items error) }
{
    let Ok(()) = dismiss(team, &mut back) else {
        return Err(CountError::Memory);
    };
    let finished = finish(heap, back);
    match counted {
        Ok(list) => Ok(Counts { list, finished }),
        Err(CountError::OutOfHeap(census, ())) => Err(CountError::OutOfHeap(census, finished)),
        Err(CountError::Memory) => Err(CountError::Memory),
    }
}

/// Counts the words of a text by workers that have fixed shares of its tasks, and adds up the counts where there was room for all.
///
/// # Errors
///
/// `OutOfHeap` where some worker found no room for an object, with the pages at that call; `Memory` where an allocation was refused.
fn count_team<R: Threads + Wait + Sync, B: Brake + Sync>(
    rt: &R,
    alloc: Global,
    heap: &Heap,
    bytes: &[u8],
    tasks: &[Task],
    team: &mut [Worker],
    brake: &B,
) -> Result<Vec<WordCount>, CountError<()>>
    requires ready { AllReady heap.now.gate bytes.now team.old }
    requires may { MayShare (length team.old) bytes.now tasks.now }
    ensures counted { HaveCounted heap.now.gate bytes.now tasks.now (share_of (length tasks.now) (length team.old)) [] team.new }
    ensures list { IfOk result (λ list. list.items ≡ counts_of (words_of bytes.now)) }
    ensures unrefused { IfOk result (λ _. NoneRefused team.new) }
    ensures refused { IfErr result (λ error. WhyRefused team.new error) }
{
    run_team(rt, heap, bytes, tasks, team, brake);
    sum_up(rt, alloc, heap, team)
}

/// Counts the words of a text in a heap of so many pages, by several workers, each in a thread of its own, in tasks of so many lines
/// that are dealt out to the workers in turn. Before each task of a worker the brake is asked, while its thread rests.
///
/// # Errors
///
/// `OutOfHeap` where the heap had no room for an object, with the pages at that call and the heap as all workers left it; `Memory`
/// where an allocation was refused.
pub fn count_many<R: Threads + Wait + Sync, B: Brake + Sync>(
    rt: &R,
    alloc: Global,
    pages: u32,
    workers: u8,
    lines: u32,
    bytes: &[u8],
    brake: &B,
) -> Result<Counts, CountError<Finished>>
    requires size { IsAreas (record { pages = pages; threads = workers }) }
    requires some_lines { 1 ≤ lines }
    requires short { length bytes.now ≤ INPUT_LIMIT }
    requires words { has_long_word bytes.now ≡ false }
    ensures list { IfOk result (λ counts. counts.list.items ≡ counts_of (words_of bytes.now)) }
    ensures counted { IfOk result (λ counts. IsCountedShared (record { pages = pages; threads = workers }) lines bytes.now counts.finished.seat.me.0) }
    ensures room { IfOk result (λ _. least_room (words_of bytes.now) ≤ page_words (record { pages = pages; threads = workers }) * pages) }
    ensures why { IfErr result (λ error. TellsWhyShared (record { pages = pages; threads = workers }) lines bytes.now error) }
{
    let Ok(opened) = open_team(alloc, pages, workers, lines, bytes) else {
        return Err(CountError::Memory);
    };
    let Opened {
        tasks,
        heap,
        mut team,
        back,
    } = opened;
    let counted = count_team(rt, alloc, &heap, bytes, &tasks, team.as_mut_slice(), brake);
    close_team(heap, team, back, counted)
}
