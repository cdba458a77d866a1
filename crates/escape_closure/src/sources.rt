//! The references into a region from outside, which raise the targets of the objects to which they lead.

ghost use Rattle.std.specs.Prelude.{◌≡◌, ◌≢◌, ◌≤◌, ◌<◌, ◌+◌, ◌-◌, ◌*◌, ◌/◌, ℕ, length, slice_index, [], slice_index_or};
ghost use Rattle.std.specs.Int.{IsBitSet};
ghost use Rattle.epoch_lattice.specs.declared.TheConstants.{MAX_DEPTH};
ghost use Rattle.epoch_lattice.specs.declared.Space.TheVariants.{Control};
ghost use Rattle.epoch_lattice.specs.Lattice.{IsValid, space_index};
ghost use Rattle.heap_words.specs.Map.{HasThread, IsAreas, heap_length, page_words};
ghost use Rattle.heap_words.specs.declared.TheConstants.{STACK_SLOTS};
ghost use Rattle.heap_words.specs.Contents.{contents, Sound};
ghost use Rattle.yak_model.specs.Chains.{IsRegionOf};
ghost use Rattle.remember_sets.specs.Filed.{IsFiled, chain};
ghost use Rattle.yak_model.specs.Recorded.{RecordedAs};
ghost use Rattle.escape_closure.specs.Raising.{Ended, Raising, RaisesOn, IsStackDue, IsStackPaid, IsSlotPaid, AreSlotsPaid};

use crate::raising::{Tally, raise, target_of};
use epoch_lattice::{Space, index_of};
use heap_words::{Areas, Words, get_heap, get_page, get_stack, stack_length};
use region_pages::SPACE_WORD;
use remember_sets::{first_slot, next_slot};

/// Raises the targets of the objects of the region to which a thread's stack refers.
pub(crate) fn raise_stack<W: Words>(
    words: &mut W,
    map: Areas,
    tally: Tally,
    region: u8,
    thread: u8,
    space: Space,
) -> Tally
    requires sound { Sound map (W.words words.old) }
    requires thread { HasThread map thread }
    requires valid { IsValid MAX_DEPTH space }
    requires some { ∥ ((e : Ended) × (space_index e.region ≡ region) × Raising map e (contents map (W.words words.old)) tally × IsStackDue e (thread - 1) space) ∥₁ }
    ensures raising { (e : Ended) → space_index e.region ≡ region → Raising map e (contents map (W.words words.old)) tally → IsStackDue e (thread - 1) space → RaisesOn map e (contents map (W.words words.old)) (contents map (W.words words.new)) result × IsStackPaid e (contents map (W.words words.new)) (thread - 1) space × (W.reads words.new ≤ W.reads words.old + (1 + 3 * length (slice_index_or e.laid.state.stacks (thread - 1) []))) }
    ensures sound { Sound map (W.words words.new) }
    ensures base { W.base words.new ≡ W.base words.old }
{
    let length = stack_length(words, map, thread);
    let mut tally = tally;
    for s in 0..length {
        let word = get_stack(words, map, thread, s);
        tally = raise(words, map, tally, region, word, space);
    }
    tally
}

/// The page in which a heap word stands.
pub(crate) fn page_of(map: Areas, a: usize) -> u32
    requires areas { IsAreas map }
    requires within { a < heap_length map }
    ensures { result ≡ a / page_words map }
{
    (a / map.page_words() as usize) as u32
}

/// Raises the target of the object of the region to which a slot of the region's chain refers from outside.
fn raise_slot<W: Words>(words: &mut W, map: Areas, tally: Tally, region: u8, slot: usize) -> Tally
    requires sound { Sound map (W.words words.old) }
    requires within { slot < heap_length map }
    requires some { ∥ ((e : Ended) × (space_index e.region ≡ region) × Raising map e (contents map (W.words words.old)) tally × RecordedAs map e.laid.before e.laid.state e.laid.places.at × IsFiled map e.laid.before slot) ∥₁ }
    ensures raising { (e : Ended) → space_index e.region ≡ region → Raising map e (contents map (W.words words.old)) tally → RecordedAs map e.laid.before e.laid.state e.laid.places.at → IsFiled map e.laid.before slot → RaisesOn map e (contents map (W.words words.old)) (contents map (W.words words.new)) result × IsSlotPaid e (contents map (W.words words.new)) slot }
    ensures sound { Sound map (W.words words.new) }
    ensures reads { W.reads words.new ≤ W.reads words.old + 4 }
    ensures base { W.base words.new ≡ W.base words.old }
{
    let told = get_page(words, map, page_of(map, slot), SPACE_WORD);
    let Some(space) = target_of(told) else {
        return tally;
    };
    if index_of(space) == region {
        return tally;
    }
    let word = get_heap(words, map, slot);
    raise(words, map, tally, region, word, space)
}

/// Raises the targets of the objects of the region to which the slots of its chain refer from outside.
pub(crate) fn raise_slots<W: Words>(words: &mut W, map: Areas, tally: Tally, region: Space) -> Tally
    requires sound { Sound map (W.words words.old) }
    requires region { IsRegionOf map region }
    requires some { ∥ ((e : Ended) × (e.region ≡ region) × Raising map e (contents map (W.words words.old)) tally × RecordedAs map e.laid.before e.laid.state e.laid.places.at) ∥₁ }
    ensures raising { (e : Ended) → e.region ≡ region → Raising map e (contents map (W.words words.old)) tally → RecordedAs map e.laid.before e.laid.state e.laid.places.at → RaisesOn map e (contents map (W.words words.old)) (contents map (W.words words.new)) result × AreSlotsPaid map e (contents map (W.words words.new)) (length (chain map e.laid.before e.region)) × (W.reads words.new ≤ W.reads words.old + (1 + 5 * length (chain map e.laid.before e.region))) }
    ensures sound { Sound map (W.words words.new) }
    ensures base { W.base words.new ≡ W.base words.old }
{
    let index = index_of(region);
    let mut tally = tally;
    let mut next = first_slot(words, map, region);
    while let Some(slot) = next {
        tally = raise_slot(words, map, tally, index, slot.0 as usize);
        next = next_slot(words, map, slot);
    }
    tally
}

/// Raises to the control space the targets behind the stack of a thread that may read the region.
fn raise_reader<W: Words>(
    words: &mut W,
    map: Areas,
    tally: Tally,
    region: u8,
    thread: u8,
    reader: u8,
    readers: u64,
) -> Tally
    requires sound { Sound map (W.words words.old) }
    requires reader { HasThread map reader }
    requires thread { 1 ≤ thread }
    requires some { ∥ ((e : Ended) × (space_index e.region ≡ region) × Raising map e (contents map (W.words words.old)) tally × (e.thread ≡ thread)) ∥₁ }
    ensures raising { (e : Ended) → space_index e.region ≡ region → Raising map e (contents map (W.words words.old)) tally → e.thread ≡ thread → RaisesOn map e (contents map (W.words words.old)) (contents map (W.words words.new)) result × (reader ≢ thread → IsBitSet readers (reader - 1) → IsStackPaid e (contents map (W.words words.new)) (reader - 1) Control) × (W.reads words.new ≤ W.reads words.old + (1 + 3 * STACK_SLOTS)) }
    ensures sound { Sound map (W.words words.new) }
    ensures base { W.base words.new ≡ W.base words.old }
{
    if reader == thread {
        return tally;
    }
    let bit = (readers >> (reader - 1)) & 1;
    if bit == 0 {
        return tally;
    }
    raise_stack(words, map, tally, region, reader, Space::Control)
}

/// Raises to the control space the targets behind the stacks of the region's readers.
pub(crate) fn raise_readers<W: Words>(
    words: &mut W,
    map: Areas,
    tally: Tally,
    region: u8,
    thread: u8,
    readers: u64,
) -> Tally
    requires sound { Sound map (W.words words.old) }
    requires thread { 1 ≤ thread }
    requires some { ∥ ((e : Ended) × (space_index e.region ≡ region) × Raising map e (contents map (W.words words.old)) tally × (e.thread ≡ thread)) ∥₁ }
    ensures raising { (e : Ended) → space_index e.region ≡ region → Raising map e (contents map (W.words words.old)) tally → e.thread ≡ thread → RaisesOn map e (contents map (W.words words.old)) (contents map (W.words words.new)) result × ((t : ℕ) → t < map.threads → t + 1 ≢ thread → IsBitSet readers t → IsStackPaid e (contents map (W.words words.new)) t Control) × (W.reads words.new ≤ W.reads words.old + (1 + 3 * STACK_SLOTS) * map.threads) }
    ensures sound { Sound map (W.words words.new) }
    ensures base { W.base words.new ≡ W.base words.old }
{
    let mut tally = tally;
    for t in 0..map.threads {
        tally = raise_reader(words, map, tally, region, thread, t + 1, readers);
    }
    tally
}
