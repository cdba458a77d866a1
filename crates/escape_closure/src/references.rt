//! References that follow the plan of an end.

ghost use Rattle.std.specs.Prelude.{◌≡◌, ◌≢◌, ◌≤◌, ◌<◌, ◌+◌, ◌-◌, ◌*◌, ℕ, length, slice_index};
ghost use Rattle.heap_words.specs.Map.{HasRegion, HasThread, heap_length};
ghost use Rattle.heap_words.specs.declared.TheConstants.{STACK_SLOTS};
ghost use Rattle.heap_words.specs.Contents.{Contents, contents, depth_of, stack_of, with_heap, Sound};
ghost use Rattle.yak_model.specs.Spaces.{SpaceState, innermost};
ghost use Rattle.yak_model.specs.State.{object_of};
ghost use Rattle.epoch_lattice.specs.declared.Space.TheVariants.{Region};
ghost use Rattle.yak_model.specs.Chains.{IsRegionOf};
ghost use Rattle.remember_sets.specs.Filed.{chain};
ghost use Rattle.yak_model.specs.Plans.{forward};
ghost use Rattle.yak_model.specs.Stands.{Stands, words_taken};
ghost use Rattle.relocation.specs.Moves.{Numbered, corrected_word, move_at};
ghost use Rattle.escape_closure.specs.Ends.{PlanReady, References};
ghost use Rattle.escape_closure.specs.Referring.{IsOutside, OutsideCorrected, ReadersCorrected, SlotsCorrected, SlotsReady, StackLeads, corrected_stack};

use crate::sources::page_of;
use epoch_lattice::{Space, index_of};
use forwarding::correct_stack;
use heap_words::{Areas, Words, get_page, get_readers};
use region_pages::SPACE_WORD;
use relocation::{Plan, correct_field, correct_moves};
use remember_sets::{first_slot, next_slot};
use thread_stacks::depth;

/// Corrects the stack of a thread that may read the region, which is not its own.
fn correct_reader<W: Words>(
    words: &mut W,
    map: Areas,
    plan: &Plan,
    thread: u8,
    reader: u8,
    readers: u64,
)
    requires sound { Sound map (W.words words.old) }
    requires reader { HasThread map reader }
    requires plan { let c = contents map (W.words words.old) in Numbered map c.heap plan.now.count (move_at c.scratch) }
    requires lead { reader ≢ thread → StackLeads map (contents map (W.words words.old)) (reader - 1) }
    ensures corrected { let c = contents map (W.words words.old) in ReadersCorrected (forward plan.now.count (move_at c.scratch)) c (contents map (W.words words.new)) thread readers (reader - 1) reader }
    ensures sound { Sound map (W.words words.new) }
    ensures reads { W.reads words.new ≤ W.reads words.old + (1 + 4 * STACK_SLOTS) }
    ensures base { W.base words.new ≡ W.base words.old }
{
    if reader == thread {
        return;
    }
    let bit = (readers >> (reader - 1)) & 1;
    if bit == 0 {
        return;
    }
    correct_stack(words, map, plan, reader);
}

/// Corrects the stacks of the region's readers.
fn correct_readers<W: Words>(words: &mut W, map: Areas, plan: &Plan, thread: u8, readers: u64)
    requires sound { Sound map (W.words words.old) }
    requires plan { let c = contents map (W.words words.old) in Numbered map c.heap plan.now.count (move_at c.scratch) }
    requires lead { (t : ℕ) → t < map.threads → t + 1 ≢ thread → StackLeads map (contents map (W.words words.old)) t }
    ensures corrected { let c = contents map (W.words words.old) in ReadersCorrected (forward plan.now.count (move_at c.scratch)) c (contents map (W.words words.new)) thread readers 0 map.threads }
    ensures sound { Sound map (W.words words.new) }
    ensures reads { W.reads words.new ≤ W.reads words.old + (1 + 4 * STACK_SLOTS) * map.threads }
    ensures base { W.base words.new ≡ W.base words.old }
{
    for t in 0..map.threads {
        correct_reader(words, map, plan, thread, t + 1, readers);
    }
}

/// Corrects a slot of the region's chain, where it lies outside the region's pages.
fn correct_slot<W: Words>(words: &mut W, map: Areas, plan: &Plan, region: Space, slot: usize)
    requires sound { Sound map (W.words words.old) }
    requires region { IsRegionOf map region }
    requires plan { let c = contents map (W.words words.old) in Numbered map c.heap plan.now.count (move_at c.scratch) }
    requires within { slot < heap_length map }
    requires lead { let c = contents map (W.words words.old) in (b : ℕ) → slice_index c.heap slot ≡ 2 * (b + 1) → b + 2 < heap_length map }
    ensures outside { let c = contents map (W.words words.old) in IsOutside map c region slot → contents map (W.words words.new) ≡ with_heap c slot (corrected_word (forward plan.now.count (move_at c.scratch)) (slice_index c.heap slot)) }
    ensures inside { let c = contents map (W.words words.old) in (¬ IsOutside map c region slot) → contents map (W.words words.new) ≡ c }
    ensures sound { Sound map (W.words words.new) }
    ensures reads { W.reads words.new ≤ W.reads words.old + 5 }
    ensures base { W.base words.new ≡ W.base words.old }
{
    let space = get_page(words, map, page_of(map, slot), SPACE_WORD);
    let own = u64::from(index_of(region)) + 1;
    if space == own {
        return;
    }
    correct_field(words, map, plan, slot);
}

/// Corrects the slots of the region's chain that lie outside its pages. Those inside are fields of the region's objects.
fn correct_slots<W: Words>(words: &mut W, map: Areas, plan: &Plan, region: Space)
    requires sound { Sound map (W.words words.old) }
    requires region { IsRegionOf map region }
    requires plan { let c = contents map (W.words words.old) in Numbered map c.heap plan.now.count (move_at c.scratch) }
    requires slots { let c = contents map (W.words words.old) in SlotsReady map c region plan.now.count (move_at c.scratch) }
    ensures corrected { let c = contents map (W.words words.old) in SlotsCorrected map (forward plan.now.count (move_at c.scratch)) c (contents map (W.words words.new)) region (length (chain map c region)) }
    ensures plan { let c = contents map (W.words words.old) in Numbered map (contents map (W.words words.new)).heap plan.now.count (move_at c.scratch) }
    ensures sound { Sound map (W.words words.new) }
    ensures reads { W.reads words.new ≤ W.reads words.old + (1 + 6 * length (chain map (contents map (W.words words.old)) region)) }
    ensures base { W.base words.new ≡ W.base words.old }
{
    let mut next = first_slot(words, map, region);
    while let Some(slot) = next {
        correct_slot(words, map, plan, region, slot.0 as usize);
        next = next_slot(words, map, slot);
    }
}

/// Corrects what may lead into a thread's region from outside.
fn correct_outside<W: Words>(words: &mut W, map: Areas, plan: &Plan, thread: u8, depth: u8)
    requires sound { Sound map (W.words words.old) }
    requires region { HasRegion map thread depth }
    requires plan { let c = contents map (W.words words.old) in Numbered map c.heap plan.now.count (move_at c.scratch) }
    requires lead { (t : ℕ) → t < map.threads → StackLeads map (contents map (W.words words.old)) t }
    requires slots { let c = contents map (W.words words.old) in SlotsReady map c (Region thread depth) plan.now.count (move_at c.scratch) }
    ensures corrected { let c = contents map (W.words words.old) in OutsideCorrected map (forward plan.now.count (move_at c.scratch)) c (contents map (W.words words.new)) thread depth }
    ensures plan { let c = contents map (W.words words.old) in Numbered map (contents map (W.words words.new)).heap plan.now.count (move_at c.scratch) }
    ensures sound { Sound map (W.words words.new) }
    ensures reads { let c = contents map (W.words words.old) in W.reads words.new ≤ W.reads words.old + (4 * length (stack_of c thread) + 6 * length (chain map c (Region thread depth)) + (3 + (1 + 4 * STACK_SLOTS) * map.threads)) }
    ensures base { W.base words.new ≡ W.base words.old }
{
    correct_stack(words, map, plan, thread);
    let readers = get_readers(words, map, thread, depth);
    correct_readers(words, map, plan, thread, readers);
    correct_slots(words, map, plan, Space::Region { thread, depth });
}

/// Corrects the references to the objects that a plan moves: on the stack of the thread whose region ends and on those of the
/// region's readers, in the slots of the region's chain outside it, and in the fields of the moved objects. No other word refers to
/// one of them, so that each word is corrected once and no other stack is read.
pub(crate) fn correct_references<W: Words>(words: &mut W, map: Areas, plan: &Plan, thread: u8)
    requires sound { Sound map (W.words words.old) }
    requires thread { HasThread map thread }
    requires depth { 1 ≤ depth_of (contents map (W.words words.old)) thread }
    requires ready { ∥ ((before : Contents) × (s : SpaceState) × (stands : Stands map before s) × PlanReady map before (contents map (W.words words.old)) s stands thread plan.now.count) ∥₁ }
    ensures references { (before : Contents) (s : SpaceState) (stands : Stands map before s) → PlanReady map before (contents map (W.words words.old)) s stands thread plan.now.count → References map (contents map (W.words words.old)) (contents map (W.words words.new)) s stands.places thread plan.now.count }
    ensures reads { let c = contents map (W.words words.old) in (before : Contents) (s : SpaceState) (stands : Stands map before s) → PlanReady map before c s stands thread plan.now.count → W.reads words.new ≤ W.reads words.old + (4 * length (stack_of c thread) + 6 * length (chain map c (innermost s.graph thread)) + 5 * words_taken stands.places.pages (object_of s) (innermost s.graph thread) + (4 + (1 + 4 * STACK_SLOTS) * map.threads)) }
    ensures sound { Sound map (W.words words.new) }
    ensures base { W.base words.new ≡ W.base words.old }
{
    let innermost = depth(words, map, thread);
    correct_outside(words, map, plan, thread, innermost);
    correct_moves(words, map, plan);
}
