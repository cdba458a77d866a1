//! Running a script in threads, one for each of its threads.
ghost use Rattle.std.specs.Prelude.{◌≡◌, ◌≤◌, ◌<◌, ◌+◌, ◌++◌, ℕ, [], ◌∷◌, All, IfOk, OnOk, length, slice_index_or};
ghost use Rattle.std.specs.Thread.{IsSync};
ghost use Rattle.object_layout.specs.Calls.{IsCall};
ghost use Rattle.mutator.specs.Resting.{seats_of};
ghost use Rattle.safepoint_gate.specs.Made.{AllFresh};
ghost use Rattle.safepoint_gate.specs.Seats.{IsOf};
ghost use Rattle.safepoint_gate.specs.Steps.{first_calls};
ghost use Rattle.script_text.specs.Printing.{IsValid};
ghost use Rattle.script_runner.specs.Runs.{calls_of, said};
ghost use Rattle.script_runner.specs.Threaded.{HasMade, HasRun, IsReady, IsThreaded};
ghost use Rattle.script_runner.specs.Workers.{AllRan, AllReady, AllThere, AreGathered, AreSeats};

use heap_words::MakeError;
use mutator::{Heap, Resting, finish};
use object_layout::{NoMemory, Reply};
use safepoint_gate::Finished;
use script_text::{Line, Script};
use std::alloc::Global;
use std::sync::Wait;
use std::thread;
use std::thread::Threads;
use yak_io::Brake;

/// The replies, one for each command line, and the heap after the last call.
#[derive(Drop)]
pub struct Threaded {
    pub replies: Vec<Reply>,
    pub finished: Finished,
}

/// A thread's way to the heap, and the replies to its lines, at the places of all lines.
#[derive(Drop)]
struct Worker {
    thread: u8,
    resting: Option<Resting>,
    replies: Vec<Reply>,
}

// Makes the call of a line, closing no gate where a call needs none.
fn make_line<R: Wait + Sync>(rt: &R, heap: &Heap, resting: Resting, line: Line) -> (Resting, Reply)
    requires heap { IsOf heap.now.gate resting.away.seat.table_id resting.away.seat.me.0 }
    requires thread { line.thread ≡ resting.away.thread }
    requires number { IsCall line.call }
    ensures heap { IsOf heap.now.gate result.0.away.seat.table_id result.0.away.seat.me.0 }
    ensures thread { result.0.away.thread ≡ resting.away.thread }
    ensures told { calls_of (first_calls result.0.away.seat.me.0.own) ≡ calls_of (first_calls resting.away.seat.me.0.own) ++ said line result.1 ∷ [] }
{
    let mut mutator = resting.enter(rt, heap);
    let (stepped, _depth) = mutator.call_told(rt, heap, line.call);
    (mutator.rest(heap), stepped.reply)
}

// Makes the calls of the lines of the thread, in order, and puts each reply at the place of its line. Before each of them the
// brake is asked, while the thread rests.
fn make_lines<R: Wait + Sync, B: Brake + Sync>(
    rt: &R,
    heap: &Heap,
    mut resting: Resting,
    lines: &[Line],
    replies: &mut [Reply],
    brake: &B,
) -> Resting
    requires heap { IsOf heap.now.gate resting.away.seat.table_id resting.away.seat.me.0 }
    requires begins { calls_of (first_calls resting.away.seat.me.0.own) ≡ [] }
    requires calls { All (λ line. IsCall line.call) lines.now }
    requires room { length replies.old ≡ length lines.now }
    ensures made { HasMade heap.now.gate resting.away.thread lines.now replies.new result.away }
{
    let thread = resting.thread();
    for i in 0..lines.len() {
        let line = lines[i];
        if line.thread == thread {
            brake.hold(u32::from(thread), u64::from(line.number));
            let (next, reply) = make_line(rt, heap, resting, line);
            resting = next;
            replies[i] = reply;
        }
    }
    resting
}

impl Worker {
    // Makes the calls of the lines of its thread.
    fn run<R: Wait + Sync, B: Brake + Sync>(
        &mut self,
        rt: &R,
        heap: &Heap,
        lines: &[Line],
        brake: &B,
    )
        requires ready { IsReady heap.now.gate self.old.thread (length lines.now) self.old.resting self.old.replies.items }
        requires calls { All (λ line. IsCall line.call) lines.now }
        ensures ran { HasRun heap.now.gate self.old.thread lines.now self.new.resting self.new.replies.items }
    {
        match self.resting.take() {
            Some(resting) => {
                let replies = self.replies.as_mut_slice();
                self.resting = Some(make_lines(rt, heap, resting, lines, replies, brake));
            }
            None => unreachable!(),
        }
    }
}

// Runs each worker in a thread of its own.
fn run_workers<R: Threads + Wait + Sync, B: Brake + Sync>(
    rt: &R,
    heap: &Heap,
    lines: &[Line],
    workers: &mut [Worker],
    brake: &B,
)
    requires some { 0 < length workers.old }
    requires ready { AllReady heap.now.gate (length lines.now) workers.old }
    requires calls { All (λ line. IsCall line.call) lines.now }
    ensures ran { AllRan heap.now.gate lines.now workers.new }
{
    let count = workers.len();
    let run = |_: usize, worker: &mut Worker|
        requires { IsReady heap.now.gate worker.now.thread (length lines.now) worker.now.resting worker.now.replies.items × All (λ line. IsCall line.call) lines.now }
        ensures { HasRun heap.entry.now.gate worker.entry.now.thread lines.entry.now worker.exit.now.resting worker.exit.now.replies.items }
    { worker.run(rt, heap, lines, brake) };
    thread::for_each_mut(rt, workers, count, &run);
}

// Room for so many replies.
fn room_for(alloc: Global, count: usize) -> Result<Vec<Reply>, NoMemory>
    ensures { IfOk result (λ room. length room.items ≡ count) }
{
    match vec![in alloc; Reply::Ok; count] {
        Ok(room) => Ok(room),
        Err(_) => Err(NoMemory),
    }
}

// Puts a worker behind the others.
fn put_worker(workers: &mut Vec<Worker>, worker: Worker) -> Result<(), NoMemory>
    ensures { OnOk result (workers.new.items ≡ workers.old.items ++ worker ∷ []) }
{
    workers.push(worker).map_err(|_| NoMemory)
}

// A worker for each mutator of a new heap, with room for so many replies.
fn hire(
    alloc: Global,
    heap: &Heap,
    mut resting: Vec<Resting>,
    count: usize,
) -> Result<Vec<Worker>, NoMemory>
    requires new { AllFresh heap.now.gate.table.shared.table_id heap.now.gate.map (seats_of resting.items) }
    ensures length { IfOk result (λ workers. length workers.items ≡ length (seats_of resting.items)) }
    ensures ready { IfOk result (λ workers. AllReady heap.now.gate count workers.items) }
{
    let mut workers = Vec::new(alloc);
    while !resting.is_empty() {
        let next = resting.remove(0);
        let worker = Worker {
            thread: next.thread(),
            resting: Some(next),
            replies: room_for(alloc, count)?,
        };
        put_worker(&mut workers, worker)?;
    }
    Ok(workers)
}

// Puts a mutator behind the others.
fn put_back(back: &mut Vec<Resting>, resting: Resting) -> Result<(), NoMemory>
    ensures { OnOk result (back.new.items ≡ back.old.items ++ resting ∷ []) }
{
    back.push(resting).map_err(|_| NoMemory)
}

// The mutators of the workers, in order.
fn dismiss(mut workers: Vec<Worker>, back: &mut Vec<Resting>) -> Result<(), NoMemory>
    requires empty { back.old.items ≡ [] }
    requires there { AllThere workers.items }
    ensures length { OnOk result (length (seats_of back.new.items) ≡ length workers.items) }
    ensures each { OnOk result (AreSeats workers.items (seats_of back.new.items)) }
{
    while !workers.is_empty() {
        let Worker {
            thread: _,
            resting,
            replies: _,
        } = workers.remove(0);
        match resting {
            Some(resting) => put_back(back, resting)?,
            None => unreachable!(),
        }
    }
    Ok(())
}

// Puts the reply to each line at its place, from the worker of its thread.
fn gather(replies: &mut [Reply], lines: &[Line], workers: &[Worker])
    requires room { length replies.old ≡ length lines.now }
    requires threads { All (λ line. (1 ≤ line.thread) × (line.thread ≤ length workers.now)) lines.now }
    requires rooms { All (λ worker. length worker.replies.items ≡ length lines.now) workers.now }
    ensures { AreGathered lines.now workers.now replies.new }
{
    for i in 0..lines.len() {
        let worker = &workers[usize::from(lines[i].thread) - 1];
        replies[i] = worker.replies[i];
    }
}

/// Runs the commands of a script on a new heap, each thread's in order in a thread of its own. Each has one reply, and the replies
/// stand in the order of the lines. Before each command the brake is asked, while the thread rests.
///
/// # Errors
///
/// `NoMemory` where an allocation was refused. All memory is taken before the first command.
pub fn run_threads<R: Threads + Wait + Sync, B: Brake + Sync>(
    rt: &R,
    alloc: Global,
    script: &Script,
    brake: &B,
) -> Result<Threaded, NoMemory>
    requires valid { IsValid script.now }
    ensures { IfOk result (λ threaded. IsThreaded script.now.heap script.now.lines threaded.replies.items threaded.finished.seat.me.0) }
{
    let (heap, resting) = match Heap::new(alloc, script.pages, script.threads) {
        Ok(made) => made,
        Err(MakeError::Memory) => return Err(NoMemory),
        Err(MakeError::BadConfig) => unreachable!(),
    };
    let lines = script.lines.as_slice();
    let mut workers = hire(alloc, &heap, resting, lines.len())?;
    let mut replies = room_for(alloc, lines.len())?;
    let mut back = match Vec::with_capacity(alloc, workers.len()) {
        Ok(back) => back,
        Err(_) => return Err(NoMemory),
    };
    run_workers(rt, &heap, lines, workers.as_mut_slice(), brake);
    gather(replies.as_mut_slice(), lines, workers.as_slice());
    dismiss(workers, &mut back)?;
    Ok(Threaded {
        replies,
        finished: finish(heap, back),
    })
}
