//! The chains of recorded slots: a walk along one, and slots that are taken out, put in and moved.

ghost use Rattle.std.specs.Prelude.{◌≡◌, ◌≤◌, ◌<◌, ◌+◌, ◌-◌, ◌*◌, ◌^◌, ◌↔◌, ◌⊎◌, ℕ, List, [], ◌∷◌, ◌++◌, length, slice_index, IsTrue, MatchOption};
ghost use Rattle.heap_words.specs.Map.{heap_length};
ghost use Rattle.heap_words.specs.Contents.{contents, Sound};
ghost use Rattle.epoch_lattice.specs.declared.Space.{Space};
ghost use Rattle.epoch_lattice.specs.Lattice.{space_index};
ghost use Rattle.yak_model.specs.Chains.{IsRegionOf, head_word, next_to};
ghost use Rattle.remember_sets.specs.Filed.{ChainsBecome, IsFiled, SetsHold, chain, moved_slot, with_sets, without_slot};
ghost use Rattle.remember_sets.specs.Linking.{AreNeighbours, former_to};

use crate::links::{former_from, set_former, set_links, set_next};
use epoch_lattice::{Space, index_of};
use heap_words::{Areas, Words, get_first, get_set};
use object_layout::Addr;

/// The head of a region's chain: its first slot plus 1, or 0.
pub(crate) fn head<W: Words>(words: &mut W, map: Areas, region: Space) -> u64
    requires sound { Sound map (W.words words.old) }
    requires region { IsRegionOf map region }
    ensures head { result ≡ head_word (contents map (W.words words.old)).firsts region }
    ensures words { W.words words.new ≡ W.words words.old }
    ensures reads { W.reads words.new ≤ W.reads words.old + 1 }
    ensures base { W.base words.new ≡ W.base words.old }
{
    match region {
        Space::Control => 0,
        Space::Region { thread, depth } => get_first(words, map, thread, depth),
    }
}

/// The first slot of a region's chain, and `None` exactly where the chain is empty.
pub fn first_slot<W: Words>(words: &mut W, map: Areas, region: Space) -> Option<Addr>
    requires sound { Sound map (W.words words.old) }
    requires sets { SetsHold map (contents map (W.words words.old)) }
    requires region { IsRegionOf map region }
    ensures first { (let slots = chain map (contents map (W.words words.old)) region in MatchOption result (slots ≡ []) (λ a. (0 < length slots) × (slice_index slots 0 ≡ a.0))) }
    ensures in_heap { MatchOption result (Unit {0}) (λ a. a.0 < heap_length map) }
    ensures words { W.words words.new ≡ W.words words.old }
    ensures reads { W.reads words.new ≤ W.reads words.old + 1 }
    ensures base { W.base words.new ≡ W.base words.old }
{
    let word = head(words, map, region);
    if word == 0 {
        return None;
    }
    Some(Addr((word - 1) as u32))
}

/// The slot behind one of a chain, and `None` exactly behind the last one.
pub fn next_slot<W: Words>(words: &mut W, map: Areas, slot: Addr) -> Option<Addr>
    requires sound { Sound map (W.words words.old) }
    requires sets { SetsHold map (contents map (W.words words.old)) }
    requires filed { IsFiled map (contents map (W.words words.old)) slot.0 }
    ensures next { (x : Space) → IsRegionOf map x → let slots = chain map (contents map (W.words words.old)) x in (k : ℕ) → k < length slots → slice_index slots k ≡ slot.0 → MatchOption result (k + 1 ≡ length slots) (λ a. (k + 1 < length slots) × (slice_index slots (k + 1) ≡ a.0)) }
    ensures in_heap { MatchOption result (Unit {0}) (λ a. a.0 < heap_length map) }
    ensures words { W.words words.new ≡ W.words words.old }
    ensures reads { W.reads words.new ≤ W.reads words.old + 1 }
    ensures base { W.base words.new ≡ W.base words.old }
{
    let word = get_set(words, map, 2 * slot.0 as usize);
    if word < 2 {
        return None;
    }
    Some(Addr((word - 2) as u32))
}

/// Whether a slot stands in a chain.
pub fn is_filed<W: Words>(words: &mut W, map: Areas, slot: Addr) -> bool
    requires sound { Sound map (W.words words.old) }
    requires sets { SetsHold map (contents map (W.words words.old)) }
    requires within { slot.0 < heap_length map }
    ensures filed { IsTrue result ↔ IsFiled map (contents map (W.words words.old)) slot.0 }
    ensures words { W.words words.new ≡ W.words words.old }
    ensures reads { W.reads words.new ≤ W.reads words.old + 1 }
    ensures base { W.base words.new ≡ W.base words.old }
{
    get_set(words, map, 2 * slot.0 as usize) != 0
}

/// Takes a slot out of its chain, if it stands in one.
pub fn drop_slot<W: Words>(words: &mut W, map: Areas, slot: Addr)
    requires sound { Sound map (W.words words.old) }
    requires sets { SetsHold map (contents map (W.words words.old)) }
    requires within { slot.0 < heap_length map }
    ensures dropped { ChainsBecome map (contents map (W.words words.old)) (contents map (W.words words.new)) (λ _ slots. without_slot slot.0 slots) }
    ensures sets { SetsHold map (contents map (W.words words.new)) }
    ensures others { contents map (W.words words.new) ≡ with_sets (contents map (W.words words.old)) (contents map (W.words words.new)) }
    ensures sound { Sound map (W.words words.new) }
    ensures reads { W.reads words.new ≤ W.reads words.old + 2 }
    ensures base { W.base words.new ≡ W.base words.old }
{
    let next = get_set(words, map, 2 * slot.0 as usize);
    let former = get_set(words, map, 2 * slot.0 as usize + 1);
    if next != 0 {
        set_next(words, map, former, next);
        set_former(words, map, next, former);
        set_links(words, map, slot.0 as usize, 0, 0);
    }
}

/// Puts a slot that stands in no chain between two neighbours, which a second and a first word name.
pub(crate) fn put_between<W: Words>(words: &mut W, map: Areas, former: u64, next: u64, slot: Addr)
    requires sound { Sound map (W.words words.old) }
    requires sets { SetsHold map (contents map (W.words words.old)) }
    requires neighbours { AreNeighbours map (contents map (W.words words.old)) former next }
    requires within { slot.0 < heap_length map }
    requires new { IsFiled map (contents map (W.words words.old)) slot.0 → ⊥ }
    ensures put { (let c = contents map (W.words words.old) in let d = contents map (W.words words.new) in (x : Space) (before behind : List ℕ) → IsRegionOf map x → chain map c x ≡ before ++ behind → former ≡ former_to (space_index x) before → next ≡ next_to behind → (chain map d x ≡ before ++ slot.0 ∷ behind) × ((y : Space) → IsRegionOf map y → (y ≡ x → ⊥) → chain map d y ≡ chain map c y)) }
    ensures sets { SetsHold map (contents map (W.words words.new)) }
    ensures others { contents map (W.words words.new) ≡ with_sets (contents map (W.words words.old)) (contents map (W.words words.new)) }
    ensures sound { Sound map (W.words words.new) }
    ensures reads { W.reads words.new ≡ W.reads words.old }
    ensures base { W.base words.new ≡ W.base words.old }
{
    set_next(words, map, former, u64::from(slot.0) + 2);
    set_former(words, map, next, u64::from(slot.0) + former_from());
    set_links(words, map, slot.0 as usize, next, former);
}

/// Puts a slot at the place of another one in its chain. The slot is that one, or it stands in no chain.
pub fn move_slot<W: Words>(words: &mut W, map: Areas, old: Addr, new: Addr)
    requires sound { Sound map (W.words words.old) }
    requires sets { SetsHold map (contents map (W.words words.old)) }
    requires filed { IsFiled map (contents map (W.words words.old)) old.0 }
    requires within { new.0 < heap_length map }
    requires new { (new.0 ≡ old.0) ⊎ (IsFiled map (contents map (W.words words.old)) new.0 → ⊥) }
    ensures moved { ChainsBecome map (contents map (W.words words.old)) (contents map (W.words words.new)) (λ _ slots. moved_slot old.0 new.0 slots) }
    ensures sets { SetsHold map (contents map (W.words words.new)) }
    ensures others { contents map (W.words words.new) ≡ with_sets (contents map (W.words words.old)) (contents map (W.words words.new)) }
    ensures sound { Sound map (W.words words.new) }
    ensures reads { W.reads words.new ≤ W.reads words.old + 4 }
    ensures base { W.base words.new ≡ W.base words.old }
{
    if new.0 == old.0 {
        return;
    }
    let next = get_set(words, map, 2 * old.0 as usize);
    let former = get_set(words, map, 2 * old.0 as usize + 1);
    drop_slot(words, map, old);
    put_between(words, map, former, next, new);
}

/// Puts a slot that stands in no chain to the front of a region's chain.
pub(crate) fn put_first<W: Words>(words: &mut W, map: Areas, slot: Addr, region: Space)
    requires sound { Sound map (W.words words.old) }
    requires sets { SetsHold map (contents map (W.words words.old)) }
    requires region { IsRegionOf map region }
    requires within { slot.0 < heap_length map }
    requires new { IsFiled map (contents map (W.words words.old)) slot.0 → ⊥ }
    ensures here { chain map (contents map (W.words words.new)) region ≡ slot.0 ∷ chain map (contents map (W.words words.old)) region }
    ensures elsewhere { (y : Space) → IsRegionOf map y → (y ≡ region → ⊥) → chain map (contents map (W.words words.new)) y ≡ chain map (contents map (W.words words.old)) y }
    ensures sets { SetsHold map (contents map (W.words words.new)) }
    ensures others { contents map (W.words words.new) ≡ with_sets (contents map (W.words words.old)) (contents map (W.words words.new)) }
    ensures sound { Sound map (W.words words.new) }
    ensures reads { W.reads words.new ≤ W.reads words.old + 1 }
    ensures base { W.base words.new ≡ W.base words.old }
{
    let first = head(words, map, region);
    put_between(words, map, u64::from(index_of(region)), first + 1, slot);
}
