//! Where the words of a thread's block stand.
ghost use Rattle.std.specs.Prelude.{◌≡◌, ◌≤◌, ◌<◌};
ghost use Rattle.heap_words.specs.Map.{HasThread, IsAreas, max_depth};
ghost use Rattle.calls_in_flight.specs.Steps.{current_at, depth_at, entry_at, length_at, logged_at, made_at, slot_at};

use heap_words::{
    Areas, BUFFER_ENTRIES, BUFFER_LENGTH, CURRENT_PAGES, DEPTH_WORD, MADE_WORD, STACK_LENGTH,
    STACK_SLOTS,
};

/// The place of a thread's depth.
pub fn depth_place(map: Areas, thread: u8) -> usize
    requires areas { IsAreas map }
    requires thread { HasThread map thread }
    ensures { result ≡ depth_at map thread }
{
    map.block(thread) + DEPTH_WORD
}

/// The place of the number of objects that a thread has made.
pub fn made_place(map: Areas, thread: u8) -> usize
    requires areas { IsAreas map }
    requires thread { HasThread map thread }
    ensures { result ≡ made_at map thread }
{
    map.block(thread) + MADE_WORD
}

/// The place of the length of a thread's stack.
pub fn length_place(map: Areas, thread: u8) -> usize
    requires areas { IsAreas map }
    requires thread { HasThread map thread }
    ensures { result ≡ length_at map thread }
{
    map.block(thread) + STACK_LENGTH
}

/// The place of the length of a thread's store buffer.
pub fn logged_place(map: Areas, thread: u8) -> usize
    requires areas { IsAreas map }
    requires thread { HasThread map thread }
    ensures { result ≡ logged_at map thread }
{
    map.block(thread) + BUFFER_LENGTH
}

/// The place of a thread's current page: in Control for depth 0, and in its region of a depth.
pub fn current_place(map: Areas, thread: u8, depth: u8) -> usize
    requires areas { IsAreas map }
    requires thread { HasThread map thread }
    requires depth { depth ≤ max_depth map }
    ensures { result ≡ current_at map thread depth }
{
    map.block(thread) + (CURRENT_PAGES + depth as usize)
}

/// The place of a slot of a thread's stack.
pub fn slot_place(map: Areas, thread: u8, slot: usize) -> usize
    requires areas { IsAreas map }
    requires thread { HasThread map thread }
    requires slot { slot < STACK_SLOTS }
    ensures { result ≡ slot_at map thread slot }
{
    map.block(thread) + (CURRENT_PAGES + 1 + map.max_depth() as usize + slot)
}

/// The place of an entry of a thread's store buffer.
pub fn entry_place(map: Areas, thread: u8, entry: usize) -> usize
    requires areas { IsAreas map }
    requires thread { HasThread map thread }
    requires entry { entry < BUFFER_ENTRIES }
    ensures { result ≡ entry_at map thread entry }
{
    map.block(thread) + (CURRENT_PAGES + 1 + map.max_depth() as usize + STACK_SLOTS + entry)
}
