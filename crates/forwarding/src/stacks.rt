//! The correcting of the stacks by a plan.

ghost use Rattle.std.specs.Prelude.{◌≡◌, ◌≤◌, ◌<◌, ◌+◌, ◌*◌, ℕ, List, length, slice_index, slice_set, sum_by};
ghost use Rattle.heap_words.specs.Map.{HasThread, IsAreas, block_at, heap_length, stack_start};
ghost use Rattle.heap_words.specs.Contents.{Sound, contents, stack_of, with_stack};
ghost use Rattle.yak_model.specs.Plans.{forward};
ghost use Rattle.relocation.specs.Moves.{Numbered, corrected_word, move_at};
ghost use Rattle.forwarding.specs.Corrected.{corrected_stack, corrected_stacks};

use heap_words::{Areas, CURRENT_PAGES, Words, stack_length};
use relocation::{Plan, correct};

/// Where the word of a slot of a thread's stack stands.
fn slot_place(map: Areas, thread: u8, slot: usize) -> usize
    requires areas { IsAreas map }
    requires thread { HasThread map thread }
    requires slot { slot < heap_length map }
    ensures { result ≡ block_at map thread + (stack_start map + slot) }
{
    map.block(thread) + (CURRENT_PAGES + 1 + map.max_depth() as usize + slot)
}

/// Corrects a slot of a thread's stack.
fn correct_slot<W: Words>(words: &mut W, map: Areas, plan: &Plan, thread: u8, slot: usize)
    requires sound { Sound map (W.words words.old) }
    requires thread { HasThread map thread }
    requires plan { (let c = contents map (W.words words.old) in Numbered map c.heap plan.now.count (move_at c.scratch)) }
    requires within { slot < length (stack_of (contents map (W.words words.old)) thread) }
    requires lead { (a : ℕ) → slice_index (stack_of (contents map (W.words words.old)) thread) slot ≡ 2 * (a + 1) → a + 2 < heap_length map }
    ensures corrected { (let c = contents map (W.words words.old) in contents map (W.words words.new) ≡ with_stack c thread (slice_set (stack_of c thread) slot (corrected_word (forward plan.now.count (move_at c.scratch)) (slice_index (stack_of c thread) slot)))) }
    ensures sound { Sound map (W.words words.new) }
    ensures reads { W.reads words.new ≤ W.reads words.old + 4 }
    ensures base { W.base words.new ≡ W.base words.old }
{
    correct(words, map, plan, slot_place(map, thread, slot));
}

/// Corrects each slot of a thread's stack: a reference leads where the plan brings the object.
pub fn correct_stack<W: Words>(words: &mut W, map: Areas, plan: &Plan, thread: u8)
    requires sound { Sound map (W.words words.old) }
    requires thread { HasThread map thread }
    requires plan { (let c = contents map (W.words words.old) in Numbered map c.heap plan.now.count (move_at c.scratch)) }
    requires lead { (k a : ℕ) → k < length (stack_of (contents map (W.words words.old)) thread) → slice_index (stack_of (contents map (W.words words.old)) thread) k ≡ 2 * (a + 1) → a + 2 < heap_length map }
    ensures corrected { (let c = contents map (W.words words.old) in contents map (W.words words.new) ≡ with_stack c thread (corrected_stack (forward plan.now.count (move_at c.scratch)) (stack_of c thread))) }
    ensures sound { Sound map (W.words words.new) }
    ensures reads { W.reads words.new ≤ W.reads words.old + (1 + 4 * length (stack_of (contents map (W.words words.old)) thread)) }
    ensures base { W.base words.new ≡ W.base words.old }
{
    let length = stack_length(words, map, thread);
    for slot in 0..length {
        correct_slot(words, map, plan, thread, slot);
    }
}

/// Corrects each slot of all stacks.
pub fn correct_stacks<W: Words>(words: &mut W, map: Areas, plan: &Plan)
    requires sound { Sound map (W.words words.old) }
    requires plan { (let c = contents map (W.words words.old) in Numbered map c.heap plan.now.count (move_at c.scratch)) }
    requires lead { (thread k a : ℕ) → HasThread map thread → k < length (stack_of (contents map (W.words words.old)) thread) → slice_index (stack_of (contents map (W.words words.old)) thread) k ≡ 2 * (a + 1) → a + 2 < heap_length map }
    ensures corrected { (let c = contents map (W.words words.old) in contents map (W.words words.new) ≡ record c { stacks = corrected_stacks (forward plan.now.count (move_at c.scratch)) c.stacks }) }
    ensures sound { Sound map (W.words words.new) }
    ensures reads { W.reads words.new ≤ W.reads words.old + (map.threads + 4 * sum_by (λ (st : List ℕ). length st) (contents map (W.words words.old)).stacks) }
    ensures base { W.base words.new ≡ W.base words.old }
{
    for t in 0..map.threads {
        correct_stack(words, map, plan, t + 1);
    }
}
