//! The part of one worker in a count by several.
ghost use Rattle.std.specs.Prelude.{◌≡◌, ◌≤◌, ◌+◌, ◌-◌, ◌*◌, ◌++◌, ◌∷◌, ℕ, List, [], true, None, length, IfOk, IfErr};
ghost use Rattle.heap_tables.specs.declared.TheConstants.{MOST_MADE};
ghost use Rattle.mutator.specs.Callers.{first_told};
ghost use Rattle.safepoint_gate.specs.Seats.{IsOf};
ghost use Rattle.safepoint_gate.specs.Steps.{first_calls};
ghost use Rattle.yak_model.specs.Room.{table_words};
ghost use Rattle.yak_model.specs.Texts.{word_counts, words_of};
ghost use Rattle.heap_tables.specs.Entries.{AreEntries};
ghost use Rattle.group_jobs.specs.Dealings.{tasks_at};
ghost use Rattle.group_jobs.specs.Followed.{Follows, IsSettled, made_in, refused_in};
ghost use Rattle.group_jobs.specs.Shared.{share};
ghost use Rattle.group_jobs.specs.Tallies.{AreShort, task_room, words_in};
ghost use Rattle.group_jobs.specs.Workers.{AreSmall, CountsTask, HaltsTask, HasCounted, HasRest, IsAtRest, MayCountTask, MayDeal, MayShare, ReadsTotal, exact_most};
ghost use Rattle.group_jobs.specs.declared.tasks.Task.{Task};
ghost use Rattle.group_jobs.specs.declared.TheConstants.{MOST_WORDS, OBJECTS_FOR_WORD};

use crate::TOTAL_SLOT;
use crate::dealers::{Dealing, FixedShare};
use crate::followed::{Followed, Past};
use crate::tallies::count_task;
use crate::tasks::Task;
use heap_tables::{Notes, WordCount, read_entries};
use mutator::{Heap, Resting};
use object_layout::{Census, NoMemory};
use std::alloc::Global;
use std::marker::Brand;
use std::sync::Wait;
use yak_io::Brake;
use yak_model::Caller;

/// A worker of a count: its thread's way to the heap, whether it has a table of all that it counted and what it noted of it, and the
/// pages at the call for an object for which the heap had no room.
#[derive(Drop)]
pub(crate) struct Worker {
    pub(crate) thread: u8,
    pub(crate) resting: Option<Resting>,
    pub(crate) has_total: bool,
    pub(crate) notes: Notes,
    pub(crate) refused: Option<Census>,
}

/// Counts the words of a task in an epoch of its own, and rests. It tells whether there is a table of the total, or the pages where
/// the heap had no room.
fn count_followed<R: Wait, P: Past>(
    rt: &R,
    heap: &Heap,
    resting: Resting,
    has_total: bool,
    notes: &mut Notes,
    bytes: &[u8],
) -> (Resting, Result<bool, Census>)
    requires begun { P.begun ≡ resting.away.seat.me.0.own }
    requires heap { IsOf heap.now.gate resting.away.seat.table_id resting.away.seat.me.0 }
    requires settled { ∥ IsSettled heap.now.gate.map resting.away.seat.me.0.own ∥₁ }
    requires rest { HasRest resting.away.seat.me.0.own has_total (length (words_of bytes.now)) }
    requires short { AreShort (words_of bytes.now) }
    requires names { (first_told resting.away.seat.me.0.own).made + OBJECTS_FOR_WORD * length (words_of bytes.now) ≤ MOST_MADE }
    requires none { refused_in (first_calls resting.away.seat.me.0.own) ≡ 0 }
    requires exact { made_in (first_calls resting.away.seat.me.0.own) + (table_words + task_room (words_of bytes.now)) ≤ exact_most }
    ensures heap { IsOf heap.now.gate result.0.away.seat.table_id result.0.away.seat.me.0 }
    ensures thread { result.0.away.thread ≡ resting.away.thread }
    ensures follows { ∥ Follows heap.now.gate.map resting.away.seat.me.0.own result.0.away.seat.me.0.own ∥₁ }
    ensures counted { IfOk result.1 (λ has. CountsTask heap.now.gate.map resting.away.seat.me.0.own result.0.away.seat.me.0.own has_total (words_of bytes.now) has) }
    ensures halted { IfErr result.1 (λ census. (census.free ≡ 0) × HaltsTask resting.away.seat.me.0.own result.0.away.seat.me.0.own has_total (words_of bytes.now)) }
{
    let mutator = resting.enter(rt, heap);
    let mut caller: Followed<R, P> = Followed::of(mutator.as_caller(rt, heap));
    let counted = count_task(&mut caller, has_total, notes, bytes);
    let full = caller.full();
    let resting = caller.into_caller().into_mutator().rest(heap);
    match (counted, full) {
        (Ok(has_total), _) => (resting, Ok(has_total)),
        (Err(_), Some((census, _, _))) => (resting, Err(census)),
        (Err(_), None) => unreachable!(),
    }
}

/// The same, followed from where the thread rested.
fn count_rested<R: Wait>(
    rt: &R,
    heap: &Heap,
    resting: Resting,
    has_total: bool,
    notes: &mut Notes,
    bytes: &[u8],
) -> (Resting, Result<bool, Census>)
    requires heap { IsOf heap.now.gate resting.away.seat.table_id resting.away.seat.me.0 }
    requires settled { ∥ IsSettled heap.now.gate.map resting.away.seat.me.0.own ∥₁ }
    requires rest { HasRest resting.away.seat.me.0.own has_total (length (words_of bytes.now)) }
    requires short { AreShort (words_of bytes.now) }
    requires names { (first_told resting.away.seat.me.0.own).made + OBJECTS_FOR_WORD * length (words_of bytes.now) ≤ MOST_MADE }
    requires none { refused_in (first_calls resting.away.seat.me.0.own) ≡ 0 }
    requires exact { made_in (first_calls resting.away.seat.me.0.own) + (table_words + task_room (words_of bytes.now)) ≤ exact_most }
    ensures heap { IsOf heap.now.gate result.0.away.seat.table_id result.0.away.seat.me.0 }
    ensures thread { result.0.away.thread ≡ resting.away.thread }
    ensures follows { ∥ Follows heap.now.gate.map resting.away.seat.me.0.own result.0.away.seat.me.0.own ∥₁ }
    ensures counted { IfOk result.1 (λ has. CountsTask heap.now.gate.map resting.away.seat.me.0.own result.0.away.seat.me.0.own has_total (words_of bytes.now) has) }
    ensures halted { IfErr result.1 (λ census. (census.free ≡ 0) × HaltsTask resting.away.seat.me.0.own result.0.away.seat.me.0.own has_total (words_of bytes.now)) }
{
    count_followed::<R, Brand>(rt, heap, resting, has_total, notes, bytes)
}

/// The words and counts of the thread's table of the total, in the order of the walk through it.
fn read_followed<R: Wait, P: Past>(
    rt: &R,
    alloc: Global,
    heap: &Heap,
    resting: Resting,
) -> (Resting, Result<Vec<WordCount>, NoMemory>)
    requires begun { P.begun ≡ resting.away.seat.me.0.own }
    requires heap { IsOf heap.now.gate resting.away.seat.table_id resting.away.seat.me.0 }
    requires settled { ∥ IsSettled heap.now.gate.map resting.away.seat.me.0.own ∥₁ }
    requires rest { HasRest resting.away.seat.me.0.own true 0 }
    requires none { refused_in (first_calls resting.away.seat.me.0.own) ≡ 0 }
    requires exact { made_in (first_calls resting.away.seat.me.0.own) ≤ exact_most }
    ensures heap { IsOf heap.now.gate result.0.away.seat.table_id result.0.away.seat.me.0 }
    ensures thread { result.0.away.thread ≡ resting.away.thread }
    ensures follows { ∥ Follows heap.now.gate.map resting.away.seat.me.0.own result.0.away.seat.me.0.own ∥₁ }
    ensures reads { ReadsTotal resting.away.seat.me.0.own result.0.away.seat.me.0.own }
    ensures list { IfOk result.1 (λ list. (done : List (List ℕ)) → IsAtRest resting.away.seat.me.0.own true done → length done ≤ MOST_WORDS → AreEntries (word_counts done) list.items) }
{
    let mutator = resting.enter(rt, heap);
    let mut caller: Followed<R, P> = Followed::of(mutator.as_caller(rt, heap));
    let list = read_entries(alloc, &mut caller, TOTAL_SLOT);
    (caller.into_caller().into_mutator().rest(heap), list)
}

/// The same, followed from where the thread rested.
fn read_rested<R: Wait>(
    rt: &R,
    alloc: Global,
    heap: &Heap,
    resting: Resting,
) -> (Resting, Result<Vec<WordCount>, NoMemory>)
    requires heap { IsOf heap.now.gate resting.away.seat.table_id resting.away.seat.me.0 }
    requires settled { ∥ IsSettled heap.now.gate.map resting.away.seat.me.0.own ∥₁ }
    requires rest { HasRest resting.away.seat.me.0.own true 0 }
    requires none { refused_in (first_calls resting.away.seat.me.0.own) ≡ 0 }
    requires exact { made_in (first_calls resting.away.seat.me.0.own) ≤ exact_most }
    ensures heap { IsOf heap.now.gate result.0.away.seat.table_id result.0.away.seat.me.0 }
    ensures thread { result.0.away.thread ≡ resting.away.thread }
    ensures follows { ∥ Follows heap.now.gate.map resting.away.seat.me.0.own result.0.away.seat.me.0.own ∥₁ }
    ensures reads { ReadsTotal resting.away.seat.me.0.own result.0.away.seat.me.0.own }
    ensures list { IfOk result.1 (λ list. (done : List (List ℕ)) → IsAtRest resting.away.seat.me.0.own true done → length done ≤ MOST_WORDS → AreEntries (word_counts done) list.items) }
{
    read_followed::<R, Brand>(rt, alloc, heap, resting)
}

impl Worker {
    /// Counts the words of its fixed share of the tasks, until the heap has no room. Before each task the brake is asked, while the
    /// thread rests.
    pub(crate) fn count_share<R: Wait, B: Brake + Sync>(
        &mut self,
        rt: &R,
        heap: &Heap,
        bytes: &[u8],
        tasks: &[Task],
        workers: usize,
        brake: &B,
    )
        requires thread { 1 ≤ self.old.thread }
        requires ready { HasCounted heap.now.gate self.old.thread bytes.now [] self.old }
        requires may { MayShare workers bytes.now tasks.now }
        ensures counted { HasCounted heap.now.gate self.old.thread bytes.now (share workers (self.old.thread - 1) tasks.now) self.new }
    {
        let mut share = FixedShare {
            tasks: tasks.len(),
            workers,
            worker: usize::from(self.thread) - 1,
            next: 0,
        };
        self.count_dealt(rt, heap, bytes, tasks, &mut share, brake);
    }

    /// Counts the words of the tasks that are dealt to the worker, until none is left for it or the heap has no room. Before each task
    /// the brake is asked, while the thread rests.
    pub(crate) fn count_dealt<R: Wait, B: Brake + Sync, D: Dealing>(
        &mut self,
        rt: &R,
        heap: &Heap,
        bytes: &[u8],
        tasks: &[Task],
        dealing: &mut D,
        brake: &B,
    )
        requires ready { HasCounted heap.now.gate self.old.thread bytes.now [] self.old }
        requires may { MayDeal bytes.now tasks.now }
        requires all { D.count (D.deal dealing.old) ≡ length tasks.now }
        requires fresh { D.dealt dealing.old ≡ [] }
        ensures counted { HasCounted heap.now.gate self.old.thread bytes.now (tasks_at tasks.now (D.dealt dealing.new)) self.new }
        ensures deal { D.deal dealing.new ≡ D.deal dealing.old }
        ensures ended { self.new.refused ≡ None → D.ended dealing.new }
    {
        'tasks: while self.refused.is_none() {
            let Some(task) = dealing.next(rt) else {
                return;
            };
            brake.hold(u32::from(self.thread), task as u64);
            self.count_task(rt, heap, bytes, tasks[task]);
        }
    }

    /// Counts the words of a task.
    fn count_task<R: Wait>(&mut self, rt: &R, heap: &Heap, bytes: &[u8], task: Task)
        requires some { MayCountTask heap.now.gate self.old.thread bytes.now task self.old }
        requires unrefused { self.old.refused ≡ None }
        requires within { (task.start ≤ task.end) × (task.end ≤ length bytes.now) }
        ensures counted { (tasks : List Task) → HasCounted heap.now.gate self.old.thread bytes.now tasks self.old → AreSmall (words_in bytes.now (tasks ++ task ∷ [])) → HasCounted heap.now.gate self.old.thread bytes.now (tasks ++ task ∷ []) self.new }
    {
        match self.resting.take() {
            Some(resting) => {
                let text = &bytes[task.start as usize..task.end as usize];
                let (resting, counted) = count_rested(
                    rt,
                    heap,
                    resting,
                    self.has_total,
                    &mut self.notes,
                    text,
                );
                self.resting = Some(resting);
                match counted {
                    Ok(has_total) => self.has_total = has_total,
                    Err(census) => self.refused = Some(census),
                }
            }
            None => unreachable!(),
        }
    }

    /// The words and counts of its table of the total, in the order of the walk through it.
    pub(crate) fn read_total<R: Wait>(
        &mut self,
        rt: &R,
        alloc: Global,
        heap: &Heap,
    ) -> Result<Vec<WordCount>, NoMemory>
        requires some { (bytes : List ℕ) × (tasks : List Task) × HasCounted heap.now.gate self.old.thread bytes tasks self.old × AreSmall (words_in bytes tasks) }
        requires unrefused { self.old.refused ≡ None }
        ensures list { IfOk result (λ list. (bytes : List ℕ) (tasks : List Task) → HasCounted heap.now.gate self.old.thread bytes tasks self.old → AreSmall (words_in bytes tasks) → AreEntries (word_counts (words_in bytes tasks)) list.items) }
        ensures keeps { (bytes : List ℕ) (tasks : List Task) → HasCounted heap.now.gate self.old.thread bytes tasks self.old → AreSmall (words_in bytes tasks) → HasCounted heap.now.gate self.old.thread bytes tasks self.new }
        ensures thread { self.new.thread ≡ self.old.thread }
        ensures unrefused { self.new.refused ≡ None }
    {
        if !self.has_total {
            return Ok(Vec::new(alloc));
        }
        match self.resting.take() {
            Some(resting) => {
                let (resting, list) = read_rested(rt, alloc, heap, resting);
                self.resting = Some(resting);
                list
            }
            None => unreachable!(),
        }
    }
}
