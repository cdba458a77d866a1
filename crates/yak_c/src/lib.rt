//! Calls on a heap from C, in memory that C owns. `yak.h` beside this crate declares them, with what they need and refuse.
#![tactic(auto)]

ghost use Rattle.std.specs.Prelude.{◌≡◌, ◌≢◌, ◌+◌, ℕ, length, OnErr};
ghost use Rattle.object_layout.specs.declared.calls.Call.TheVariants as call;
ghost use Rattle.heap_words.specs.Map.{IsAreas, total_of};
ghost use Rattle.yak_c.specs.Memory.{MayBeHeap};
ghost use Rattle.yak_c.specs.Answers.{Says, opens, status_of, told_end, told_pages, told_same, told_value};

mod answers;
mod lent;
mod memory;

use answers::status;
use memory::step;
use object_layout::Call;

/// The call is done.
pub const YAK_OK: u32 = 0;
/// A slot number is at or past the stack's length.
pub const YAK_BAD_SLOT: u32 = 1;
/// The slot holds null or an integer.
pub const YAK_NOT_A_REFERENCE: u32 = 2;
/// The field is at or past the object's number of fields.
pub const YAK_BAD_FIELD: u32 = 3;
/// The stack has no room for another slot.
pub const YAK_STACK_FULL: u32 = 4;
/// The stack has no slot.
pub const YAK_STACK_EMPTY: u32 = 5;
/// The thread has as many epochs open as it may have.
pub const YAK_TOO_DEEP: u32 = 6;
/// The thread has no epoch open.
pub const YAK_NO_EPOCH: u32 = 7;
/// More fields were asked for than an object has.
pub const YAK_TOO_LONG: u32 = 8;
/// The thread has made all objects that it may make.
pub const YAK_NAMES_SPENT: u32 = 9;
/// The heap has no room for the object, after a collection.
pub const YAK_OUT_OF_HEAP: u32 = 10;
/// The memory is too short or too long for a heap of its numbers, or no heap has them.
pub const YAK_NO_HEAP: u32 = 11;
/// The heap has no such thread.
pub const YAK_NO_THREAD: u32 = 12;
/// An integer is greater than values hold.
pub const YAK_BAD_NUMBER: u32 = 13;
/// The slot holds null.
pub const YAK_NULL: u32 = 0;
/// The slot holds an integer.
pub const YAK_INT: u32 = 1;
/// The slot refers to an object.
pub const YAK_OBJECT: u32 = 2;
/// The words before those of the heap: its numbers of pages and threads.
const SIZES: usize = 2;

/// What a slot holds: null, an integer, or a reference to an object of so many fields.
#[repr(C)]
#[derive(Clone, Copy, Drop)]
pub struct Value {
    pub kind: u32,
    pub number: u64,
}

/// How an epoch ended: how many objects moved, whether they had to stay in the region's own pages, and whether a collection
/// came first (1 or 0).
#[repr(C)]
#[derive(Clone, Copy, Drop)]
pub struct Ended {
    pub moved: u64,
    pub tight: u32,
    pub collected: u32,
}

/// How many pages are free, belong to regions, and belong to the control space.
#[repr(C)]
#[derive(Clone, Copy, Drop)]
pub struct Pages {
    pub free: u32,
    pub region: u32,
    pub control: u32,
}

/// The words of memory that a heap of so many pages and threads takes, or 0 if there is no such heap.
#[unsafe(no_mangle)]
pub extern "C" fn yak_words(pages: u32, threads: u8) -> usize
    ensures heap { IsAreas (record { pages = pages; threads = threads }) → result ≡ SIZES + total_of (record { pages = pages; threads = threads }) }
    ensures none { ¬ IsAreas (record { pages = pages; threads = threads }) → result ≡ 0 }
{
    match memory::areas(u64::from(pages), u64::from(threads)) {
        Some(map) => SIZES + map.total(),
        None => 0,
    }
}

/// Makes memory a heap of so many pages and threads in its opening state. It has to be as long as `yak_words` tells.
#[unsafe(no_mangle)]
pub extern "C" fn yak_open(memory: &mut [u64], pages: u32, threads: u8) -> u32
    ensures { opens pages threads memory.old memory.new result }
{
    if memory::open(memory, pages, threads) {
        YAK_OK
    } else {
        YAK_NO_HEAP
    }
}

/// Pushes an integer.
#[unsafe(no_mangle)]
pub extern "C" fn yak_int(memory: &mut [u64], thread: u8, number: u64) -> u32
    requires { MayBeHeap memory.old }
    ensures { Says memory.old memory.new thread (call.Int number) (λ answer. result ≡ status_of answer) }
{
    status(step(memory, thread, Call::Int(number)))
}

/// Pushes null.
#[unsafe(no_mangle)]
pub extern "C" fn yak_null(memory: &mut [u64], thread: u8) -> u32
    requires { MayBeHeap memory.old }
    ensures { Says memory.old memory.new thread call.Null (λ answer. result ≡ status_of answer) }
{
    status(step(memory, thread, Call::Null))
}

/// Pushes the value of a slot.
#[unsafe(no_mangle)]
pub extern "C" fn yak_dup(memory: &mut [u64], thread: u8, slot: u32) -> u32
    requires { MayBeHeap memory.old }
    ensures { Says memory.old memory.new thread (call.Dup slot) (λ answer. result ≡ status_of answer) }
{
    status(step(memory, thread, Call::Dup(slot)))
}

/// Drops the top slot.
#[unsafe(no_mangle)]
pub extern "C" fn yak_pop(memory: &mut [u64], thread: u8) -> u32
    requires { MayBeHeap memory.old }
    ensures { Says memory.old memory.new thread call.Pop (λ answer. result ≡ status_of answer) }
{
    status(step(memory, thread, Call::Pop))
}

/// Makes an object of so many null fields in the innermost space, and pushes a reference to it.
#[unsafe(no_mangle)]
pub extern "C" fn yak_new(memory: &mut [u64], thread: u8, fields: u32) -> u32
    requires { MayBeHeap memory.old }
    ensures { Says memory.old memory.new thread (call.New fields) (λ answer. result ≡ status_of answer) }
{
    status(step(memory, thread, Call::New(fields)))
}

/// Pushes a field of a slot's object.
#[unsafe(no_mangle)]
pub extern "C" fn yak_load(memory: &mut [u64], thread: u8, slot: u32, field: u32) -> u32
    requires { MayBeHeap memory.old }
    ensures { Says memory.old memory.new thread (call.Load slot field) (λ answer. result ≡ status_of answer) }
{
    status(step(memory, thread, Call::Load(slot, field)))
}

/// Puts a slot's value into a field of a slot's object.
#[unsafe(no_mangle)]
pub extern "C" fn yak_store(
    memory: &mut [u64],
    thread: u8,
    slot: u32,
    field: u32,
    value: u32,
) -> u32
    requires { MayBeHeap memory.old }
    ensures { Says memory.old memory.new thread (call.Store slot field value) (λ answer. result ≡ status_of answer) }
{
    status(step(memory, thread, Call::Store(slot, field, value)))
}

/// Opens an epoch.
#[unsafe(no_mangle)]
pub extern "C" fn yak_begin(memory: &mut [u64], thread: u8) -> u32
    requires { MayBeHeap memory.old }
    ensures { Says memory.old memory.new thread call.Begin (λ answer. result ≡ status_of answer) }
{
    status(step(memory, thread, Call::Begin))
}

/// Collects the control space.
#[unsafe(no_mangle)]
pub extern "C" fn yak_collect(memory: &mut [u64], thread: u8) -> u32
    requires { MayBeHeap memory.old }
    ensures { Says memory.old memory.new thread call.Collect (λ answer. result ≡ status_of answer) }
{
    status(step(memory, thread, Call::Collect))
}

/// Shows the value of a slot.
#[unsafe(no_mangle)]
pub extern "C" fn yak_get(memory: &mut [u64], thread: u8, slot: u32, value: &mut Value) -> u32
    requires { MayBeHeap memory.old }
    ensures { Says memory.old memory.new thread (call.Get slot) (λ answer. (result ≡ status_of answer) × (value.new ≡ told_value answer value.old)) }
{
    let answer = step(memory, thread, Call::Get(slot));
    *value = answers::told_value(answer, *value);
    status(answer)
}

/// Tells whether two slots hold the same value: 1 or 0.
#[unsafe(no_mangle)]
pub extern "C" fn yak_same(
    memory: &mut [u64],
    thread: u8,
    slot: u32,
    other: u32,
    same: &mut u32,
) -> u32
    requires { MayBeHeap memory.old }
    ensures { Says memory.old memory.new thread (call.Same slot other) (λ answer. (result ≡ status_of answer) × (same.new ≡ told_same answer same.old)) }
{
    let answer = step(memory, thread, Call::Same(slot, other));
    *same = answers::told_same(answer, *same);
    status(answer)
}

/// Ends the innermost epoch.
#[unsafe(no_mangle)]
pub extern "C" fn yak_end(memory: &mut [u64], thread: u8, ended: &mut Ended) -> u32
    requires { MayBeHeap memory.old }
    ensures { Says memory.old memory.new thread call.End (λ answer. (result ≡ status_of answer) × (ended.new ≡ told_end answer ended.old)) }
{
    let answer = step(memory, thread, Call::End);
    *ended = answers::told_end(answer, *ended);
    status(answer)
}

/// Counts the pages.
#[unsafe(no_mangle)]
pub extern "C" fn yak_census(memory: &mut [u64], thread: u8, pages: &mut Pages) -> u32
    requires { MayBeHeap memory.old }
    ensures { Says memory.old memory.new thread call.Census (λ answer. (result ≡ status_of answer) × (pages.new ≡ told_pages answer pages.old)) }
{
    let answer = step(memory, thread, Call::Census);
    *pages = answers::told_pages(answer, *pages);
    status(answer)
}
