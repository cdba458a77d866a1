//! The words of a thread's block: its depth, number of objects made, stack, store buffer, current pages and heads of chains.

ghost use Rattle.std.specs.Prelude.{◌≡◌, ◌≤◌, ◌<◌, ◌+◌, ◌-◌, ◌*◌, ◌^◌, ℕ, List, [], ◌∷◌, ◌++◌, take, length, slice_index, slice_set};
ghost use Rattle.heap_words.specs.Map.{HasThread, HasRegion, max_depth, rest_words};
ghost use Rattle.heap_words.specs.Cells.{row};
ghost use Rattle.heap_words.specs.Contents.{contents, depth_of, made_of, stack_of, buffer_of, currents_of, first_of, with_depth, with_made, with_stack, with_buffer, with_current, with_first, Sound};

use crate::{
    Areas, BUFFER_ENTRIES, BUFFER_LENGTH, CURRENT_PAGES, DEPTH_WORD, MADE_WORD, STACK_LENGTH,
    STACK_SLOTS, Words,
};

/// The depth of a thread: how many epochs it has open.
#[tactic(auto, using(crate::proofs::Contents::block_reads))]
pub fn get_depth<W: Words>(words: &mut W, map: Areas, thread: u8) -> u8
    requires sound { Sound map (W.words words.old) }
    requires thread { HasThread map thread }
    ensures value { result ≡ depth_of (contents map (W.words words.old)) thread }
    ensures at_most { result ≤ max_depth map }
    ensures words { W.words words.new ≡ W.words words.old }
    ensures reads { W.reads words.new ≤ W.reads words.old + 1 }
    ensures base { W.base words.new ≡ W.base words.old }
{
    words.get(map.block(thread) + DEPTH_WORD) as u8
}

/// Sets the depth of a thread.
#[tactic(auto, using(crate::proofs::Contents::block_writes))]
pub fn set_depth<W: Words>(words: &mut W, map: Areas, thread: u8, depth: u8)
    requires sound { Sound map (W.words words.old) }
    requires thread { HasThread map thread }
    requires depth { depth ≤ max_depth map }
    ensures set { contents map (W.words words.new) ≡ with_depth (contents map (W.words words.old)) thread depth }
    ensures sound { Sound map (W.words words.new) }
    ensures reads { W.reads words.new ≡ W.reads words.old }
    ensures base { W.base words.new ≡ W.base words.old }
{
    words.set(map.block(thread) + DEPTH_WORD, u64::from(depth));
}

/// How many objects a thread has made.
#[tactic(auto, using(crate::proofs::Contents::block_reads))]
pub fn get_made<W: Words>(words: &mut W, map: Areas, thread: u8) -> u64
    requires sound { Sound map (W.words words.old) }
    requires thread { HasThread map thread }
    ensures value { result ≡ made_of (contents map (W.words words.old)) thread }
    ensures words { W.words words.new ≡ W.words words.old }
    ensures reads { W.reads words.new ≤ W.reads words.old + 1 }
    ensures base { W.base words.new ≡ W.base words.old }
{
    words.get(map.block(thread) + MADE_WORD)
}

/// Sets how many objects a thread has made.
#[tactic(auto, using(crate::proofs::Contents::writes))]
pub fn set_made<W: Words>(words: &mut W, map: Areas, thread: u8, made: u64)
    requires sound { Sound map (W.words words.old) }
    requires thread { HasThread map thread }
    ensures set { contents map (W.words words.new) ≡ with_made (contents map (W.words words.old)) thread made }
    ensures sound { Sound map (W.words words.new) }
    ensures reads { W.reads words.new ≡ W.reads words.old }
    ensures base { W.base words.new ≡ W.base words.old }
{
    words.set(map.block(thread) + MADE_WORD, made);
}

/// The number of slots of a thread's stack.
#[tactic(auto, using(crate::proofs::Contents::block_reads))]
pub fn stack_length<W: Words>(words: &mut W, map: Areas, thread: u8) -> usize
    requires sound { Sound map (W.words words.old) }
    requires thread { HasThread map thread }
    ensures value { result ≡ length (stack_of (contents map (W.words words.old)) thread) }
    ensures at_most { result ≤ STACK_SLOTS }
    ensures words { W.words words.new ≡ W.words words.old }
    ensures reads { W.reads words.new ≤ W.reads words.old + 1 }
    ensures base { W.base words.new ≡ W.base words.old }
{
    words.get(map.block(thread) + STACK_LENGTH) as usize
}

/// The word of a slot of a thread's stack.
#[tactic(auto, using(crate::proofs::Contents::block_reads))]
pub fn get_stack<W: Words>(words: &mut W, map: Areas, thread: u8, s: usize) -> u64
    requires sound { Sound map (W.words words.old) }
    requires thread { HasThread map thread }
    requires within { s < length (stack_of (contents map (W.words words.old)) thread) }
    ensures value { result ≡ slice_index (stack_of (contents map (W.words words.old)) thread) s }
    ensures words { W.words words.new ≡ W.words words.old }
    ensures reads { W.reads words.new ≤ W.reads words.old + 1 }
    ensures base { W.base words.new ≡ W.base words.old }
{
    words.get(map.block(thread) + (map.stack_start() + s))
}

/// Sets the word of a slot of a thread's stack.
#[tactic(auto, using(crate::proofs::Contents::block_writes))]
pub fn set_stack<W: Words>(words: &mut W, map: Areas, thread: u8, s: usize, word: u64)
    requires sound { Sound map (W.words words.old) }
    requires thread { HasThread map thread }
    requires within { s < length (stack_of (contents map (W.words words.old)) thread) }
    ensures set { contents map (W.words words.new) ≡ with_stack (contents map (W.words words.old)) thread (slice_set (stack_of (contents map (W.words words.old)) thread) s word) }
    ensures sound { Sound map (W.words words.new) }
    ensures reads { W.reads words.new ≡ W.reads words.old }
    ensures base { W.base words.new ≡ W.base words.old }
{
    words.set(map.block(thread) + (map.stack_start() + s), word);
}

/// Puts a word behind the slots of a thread's stack, which has so many of them.
#[tactic(auto, using(crate::proofs::Contents::block_writes))]
pub fn grow_stack<W: Words>(words: &mut W, map: Areas, thread: u8, count: usize, word: u64)
    requires sound { Sound map (W.words words.old) }
    requires thread { HasThread map thread }
    requires count { count ≡ length (stack_of (contents map (W.words words.old)) thread) }
    requires room { count < STACK_SLOTS }
    ensures set { contents map (W.words words.new) ≡ with_stack (contents map (W.words words.old)) thread (stack_of (contents map (W.words words.old)) thread ++ word ∷ []) }
    ensures sound { Sound map (W.words words.new) }
    ensures reads { W.reads words.new ≡ W.reads words.old }
    ensures base { W.base words.new ≡ W.base words.old }
{
    let at = map.block(thread);
    words.set(at + (map.stack_start() + count), word);
    words.set(at + STACK_LENGTH, count as u64 + 1);
}

/// Takes the last of the slots from a thread's stack, which has so many of them.
#[tactic(auto, using(crate::proofs::Contents::block_writes))]
pub fn shrink_stack<W: Words>(words: &mut W, map: Areas, thread: u8, count: usize)
    requires sound { Sound map (W.words words.old) }
    requires thread { HasThread map thread }
    requires count { count ≡ length (stack_of (contents map (W.words words.old)) thread) }
    requires some { 1 ≤ count }
    ensures set { contents map (W.words words.new) ≡ with_stack (contents map (W.words words.old)) thread (take (count - 1) (stack_of (contents map (W.words words.old)) thread)) }
    ensures sound { Sound map (W.words words.new) }
    ensures reads { W.reads words.new ≡ W.reads words.old }
    ensures base { W.base words.new ≡ W.base words.old }
{
    words.set(map.block(thread) + STACK_LENGTH, count as u64 - 1);
}

/// The number of entries of a thread's store buffer.
#[tactic(auto, using(crate::proofs::Contents::block_reads))]
pub fn buffer_length<W: Words>(words: &mut W, map: Areas, thread: u8) -> usize
    requires sound { Sound map (W.words words.old) }
    requires thread { HasThread map thread }
    ensures value { result ≡ length (buffer_of (contents map (W.words words.old)) thread) }
    ensures at_most { result ≤ BUFFER_ENTRIES }
    ensures words { W.words words.new ≡ W.words words.old }
    ensures reads { W.reads words.new ≤ W.reads words.old + 1 }
    ensures base { W.base words.new ≡ W.base words.old }
{
    words.get(map.block(thread) + BUFFER_LENGTH) as usize
}

/// An entry of a thread's store buffer: a word of the pages.
#[tactic(auto, using(crate::proofs::Contents::block_reads))]
pub fn get_buffer<W: Words>(words: &mut W, map: Areas, thread: u8, k: usize) -> u64
    requires sound { Sound map (W.words words.old) }
    requires thread { HasThread map thread }
    requires within { k < length (buffer_of (contents map (W.words words.old)) thread) }
    ensures value { result ≡ slice_index (buffer_of (contents map (W.words words.old)) thread) k }
    ensures words { W.words words.new ≡ W.words words.old }
    ensures reads { W.reads words.new ≤ W.reads words.old + 1 }
    ensures base { W.base words.new ≡ W.base words.old }
{
    words.get(map.block(thread) + (map.buffer_start() + k))
}

/// Puts a word behind the entries of a thread's store buffer, which has so many of them.
#[tactic(auto, using(crate::proofs::Contents::block_writes))]
pub fn grow_buffer<W: Words>(words: &mut W, map: Areas, thread: u8, count: usize, word: u64)
    requires sound { Sound map (W.words words.old) }
    requires thread { HasThread map thread }
    requires count { count ≡ length (buffer_of (contents map (W.words words.old)) thread) }
    requires room { count < BUFFER_ENTRIES }
    ensures set { contents map (W.words words.new) ≡ with_buffer (contents map (W.words words.old)) thread (buffer_of (contents map (W.words words.old)) thread ++ word ∷ []) }
    ensures sound { Sound map (W.words words.new) }
    ensures reads { W.reads words.new ≡ W.reads words.old }
    ensures base { W.base words.new ≡ W.base words.old }
{
    let at = map.block(thread);
    words.set(at + (map.buffer_start() + count), word);
    words.set(at + BUFFER_LENGTH, count as u64 + 1);
}

/// Empties a thread's store buffer.
#[tactic(auto, using(crate::proofs::Contents::block_writes))]
pub fn clear_buffer<W: Words>(words: &mut W, map: Areas, thread: u8)
    requires sound { Sound map (W.words words.old) }
    requires thread { HasThread map thread }
    ensures set { contents map (W.words words.new) ≡ with_buffer (contents map (W.words words.old)) thread [] }
    ensures sound { Sound map (W.words words.new) }
    ensures reads { W.reads words.new ≡ W.reads words.old }
    ensures base { W.base words.new ≡ W.base words.old }
{
    words.set(map.block(thread) + BUFFER_LENGTH, 0);
}

/// A thread's current page plus 1, or 0: at depth 0 that of Control, else that of the region of the depth.
#[tactic(auto, using(crate::proofs::Contents::block_reads))]
pub fn get_current<W: Words>(words: &mut W, map: Areas, thread: u8, depth: u8) -> u64
    requires sound { Sound map (W.words words.old) }
    requires thread { HasThread map thread }
    requires within { depth ≤ max_depth map }
    ensures value { result ≡ slice_index (currents_of (contents map (W.words words.old)) thread) depth }
    ensures words { W.words words.new ≡ W.words words.old }
    ensures reads { W.reads words.new ≤ W.reads words.old + 1 }
    ensures base { W.base words.new ≡ W.base words.old }
{
    words.get(map.block(thread) + (CURRENT_PAGES + depth as usize))
}

/// Sets a thread's current page at a depth.
#[tactic(auto, using(crate::proofs::Contents::writes))]
pub fn set_current<W: Words>(words: &mut W, map: Areas, thread: u8, depth: u8, word: u64)
    requires sound { Sound map (W.words words.old) }
    requires thread { HasThread map thread }
    requires within { depth ≤ max_depth map }
    ensures set { contents map (W.words words.new) ≡ with_current (contents map (W.words words.old)) thread depth word }
    ensures sound { Sound map (W.words words.new) }
    ensures reads { W.reads words.new ≡ W.reads words.old }
    ensures base { W.base words.new ≡ W.base words.old }
{
    words.set(map.block(thread) + (CURRENT_PAGES + depth as usize), word);
}

/// The word of the first slot of a region's chain: the slot plus 1, or 0 where the chain is empty.
#[tactic(auto, using(crate::proofs::Contents::block_reads))]
pub fn get_first<W: Words>(words: &mut W, map: Areas, thread: u8, depth: u8) -> u64
    requires sound { Sound map (W.words words.old) }
    requires region { HasRegion map thread depth }
    ensures value { result ≡ first_of (contents map (W.words words.old)) thread depth }
    ensures words { W.words words.new ≡ W.words words.old }
    ensures reads { W.reads words.new ≤ W.reads words.old + 1 }
    ensures base { W.base words.new ≡ W.base words.old }
{
    words.get(map.block(thread) + (map.chains_start() + (depth as usize - 1)))
}

/// Sets the word of the first slot of a region's chain.
#[tactic(auto, using(crate::proofs::Contents::writes))]
pub fn set_first<W: Words>(words: &mut W, map: Areas, thread: u8, depth: u8, word: u64)
    requires sound { Sound map (W.words words.old) }
    requires region { HasRegion map thread depth }
    ensures set { contents map (W.words words.new) ≡ with_first (contents map (W.words words.old)) thread depth word }
    ensures sound { Sound map (W.words words.new) }
    ensures reads { W.reads words.new ≡ W.reads words.old }
    ensures base { W.base words.new ≡ W.base words.old }
{
    words.set(
        map.block(thread) + (map.chains_start() + (depth as usize - 1)),
        word,
    );
}

/// An unused word of a thread's block.
#[tactic(auto, using(crate::proofs::Contents::block_reads))]
pub fn get_rest<W: Words>(words: &mut W, map: Areas, thread: u8, k: usize) -> u64
    requires sound { Sound map (W.words words.old) }
    requires thread { HasThread map thread }
    requires within { k < rest_words map }
    ensures value { result ≡ slice_index (row (contents map (W.words words.old)).rests (thread - 1)) k }
    ensures words { W.words words.new ≡ W.words words.old }
    ensures reads { W.reads words.new ≤ W.reads words.old + 1 }
    ensures base { W.base words.new ≡ W.base words.old }
{
    words.get(map.block(thread) + (map.block_rest() + k))
}
