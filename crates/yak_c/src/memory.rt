//! A heap in memory that C lends for a call.

ghost use Rattle.std.specs.Prelude.{◌≡◌, ◌+◌, ◌≤◌, ◌↔◌, IsTrue, ℕ, length, slice_index, MatchBool, MatchOption, OnOk, OnErr, replicate};
ghost use Rattle.object_layout.specs.Calls.{IsCall};
ghost use Rattle.heap_words.specs.Map.{HasThread, IsAreas, total_of};
ghost use Rattle.heap_words.specs.Contents.{contents};
ghost use Rattle.heap_core.specs.Done.{Done};
ghost use Rattle.yak_c.specs.Memory.{HasShape, Holds, HoldsOpening, IsLength, IsOpened, MayBeHeap, map_in};
ghost use Rattle.yak_c.specs.Answers.{Answers};

use crate::SIZES;
use crate::answers::{Answer, Fault};
use crate::lent::Lent;
use heap_core::{Core, Stepped};
use heap_words::{Areas, MAX_PAGES, MAX_THREADS};
use object_layout::{Call, MAX_INT};

/// The map of a heap of so many pages and threads, if there can be one.
pub(crate) fn areas(pages: u64, threads: u64) -> Option<Areas>
    ensures { MatchOption result (¬ IsAreas (record { pages = pages; threads = threads })) (λ map. IsAreas map × (map ≡ record { pages = pages; threads = threads })) }
{
    if pages < 1 || pages > MAX_PAGES as u64 || threads < 1 || threads > MAX_THREADS as u64 {
        return None;
    }
    Some(Areas {
        pages: pages as u32,
        threads: threads as u8,
    })
}

/// The map of the heap in memory, if there is one.
fn map_of(memory: &[u64]) -> Option<Areas>
    ensures { MatchOption result (¬ HasShape memory.now) (λ map. HasShape memory.now × (map ≡ map_in memory.now)) }
{
    if memory.len() <= SIZES {
        return None;
    }
    let map = areas(memory[0], memory[1])?;
    if memory.len() == SIZES + map.total() && memory[SIZES] == 0 {
        Some(map)
    } else {
        None
    }
}

/// Whether an integer of the call is one that values hold.
fn is_call(call: Call) -> bool
    ensures { IsTrue result ↔ IsCall call }
{
    match call {
        Call::Int(number) => number <= MAX_INT,
        _ => true,
    }
}

/// Makes a call on the words of a heap, and gives them back.
fn step_from<'a>(
    words: &'a mut [u64],
    map: Areas,
    thread: u8,
    call: Call,
) -> (&'a mut [u64], Stepped)
    requires areas { IsAreas map }
    requires whole { length words.old ≡ total_of map }
    requires holds { Holds map words.old }
    requires thread { HasThread map thread }
    requires number { IsCall call }
    ensures same_reference { result.0.ghost_name ≡ words.entry.ghost_name }
    ensures holds { Holds map result.0.now }
    ensures done { Done map (contents map words.entry.now) (contents map result.0.now) thread call result.1 }
{
    let mut core = Core::over(Lent::new(words, map), map);
    let stepped = core.step(thread, call);
    (core.into_words().into_slice(), stepped)
}

/// Makes a call on the words of a heap.
fn step_words(words: &mut [u64], map: Areas, thread: u8, call: Call) -> Stepped
    requires areas { IsAreas map }
    requires whole { length words.old ≡ total_of map }
    requires holds { Holds map words.old }
    requires thread { HasThread map thread }
    requires number { IsCall call }
    ensures whole { length words.new ≡ total_of map }
    ensures holds { Holds map words.new }
    ensures done { Done map (contents map words.old) (contents map words.new) thread call result }
{
    let (_words, stepped) = step_from(words, map, thread, call);
    stepped
}

/// Makes words that are all 0 those of a heap, and gives them back.
fn open_from<'a>(words: &'a mut [u64], map: Areas) -> &'a mut [u64]
    requires areas { IsAreas map }
    requires zero { words.old ≡ replicate (total_of map) 0 }
    ensures same_reference { result.ghost_name ≡ words.entry.ghost_name }
    ensures opening { HoldsOpening map result.now }
{
    Core::open(Lent::new(words, map), map)
        .into_words()
        .into_slice()
}

/// Makes words those of a heap in its opening state, whatever they were.
fn open_words(words: &mut [u64], map: Areas)
    requires areas { IsAreas map }
    requires whole { length words.old ≡ total_of map }
    ensures whole { length words.new ≡ total_of map }
    ensures opening { HoldsOpening map words.new }
{
    words.fill(0);
    let _words = open_from(words, map);
}

/// Makes a call on a heap in memory.
pub(crate) fn step(memory: &mut [u64], thread: u8, call: Call) -> Answer
    requires { MayBeHeap memory.old }
    ensures { Answers memory.old memory.new thread call result }
{
    let Some(map) = map_of(memory) else {
        return Err(Fault::NoHeap);
    };
    if thread < 1 || thread > map.threads {
        return Err(Fault::NoThread);
    }
    if !is_call(call) {
        return Err(Fault::BadNumber);
    }
    Ok(step_words(&mut memory[SIZES..], map, thread, call))
}

/// Makes memory a heap of so many pages and threads. Where it is refused, nothing changes.
pub(crate) fn open(memory: &mut [u64], pages: u32, threads: u8) -> bool
    ensures { MatchBool result (IsOpened pages threads memory.new) ((memory.new ≡ memory.old) × ¬ IsLength pages threads memory.old) }
{
    let Some(map) = areas(u64::from(pages), u64::from(threads)) else {
        return false;
    };
    if memory.len() != SIZES + map.total() {
        return false;
    }
    memory[0] = u64::from(pages);
    memory[1] = u64::from(threads);
    open_words(&mut memory[SIZES..], map);
    true
}
