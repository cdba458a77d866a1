//! Slots that are filed: each goes into the chain of the region that its reference enters.

ghost use Rattle.std.specs.Prelude.{◌≡◌, ◌≤◌, ◌<◌, ◌+◌, ◌-◌, ◌*◌, ◌/◌, ◌^◌, ℕ, Bool, true, false, MatchOption};
ghost use Rattle.heap_words.specs.Map.{heap_length};
ghost use Rattle.heap_words.specs.Contents.{contents, Sound};
ghost use Rattle.epoch_lattice.specs.declared.Space.{Space};
ghost use Rattle.yak_model.specs.Chains.{IsRegionOf};
ghost use Rattle.remember_sets.specs.Filed.{ChainsBecome, IsSlot, PagesKnown, SetsHold, enters, filed, page_word, with_sets};

use crate::chains::{drop_slot, put_first};
use epoch_lattice::{Space, space_at};
use heap_words::{Areas, Words, get_heap, get_page};
use object_layout::{Addr, address};

/// The word in the page table of the page in which a word of the heap lies: the number of its space plus 1, or 0.
pub(crate) fn page_word<W: Words>(words: &mut W, map: Areas, a: usize) -> u64
    requires sound { Sound map (W.words words.old) }
    requires within { a < heap_length map }
    ensures word { result ≡ page_word map (contents map (W.words words.old)) a }
    ensures words { W.words words.new ≡ W.words words.old }
    ensures reads { W.reads words.new ≤ W.reads words.old + 1 }
    ensures base { W.base words.new ≡ W.base words.old }
{
    get_page(words, map, (a / map.page_words() as usize) as u32, 0)
}

/// The region that the reference in a slot enters from a page of another space.
fn entered<W: Words>(words: &mut W, map: Areas, slot: usize) -> Option<Space>
    requires sound { Sound map (W.words words.old) }
    requires slot { IsSlot map (contents map (W.words words.old)) slot }
    requires pages { PagesKnown map (contents map (W.words words.old)) }
    ensures entered { MatchOption result ((x : Space) → IsRegionOf map x → enters map (contents map (W.words words.old)) x slot ≡ false) (λ y. IsRegionOf map y × (enters map (contents map (W.words words.old)) y slot ≡ true)) }
    ensures words { W.words words.new ≡ W.words words.old }
    ensures reads { W.reads words.new ≤ W.reads words.old + 3 }
    ensures base { W.base words.new ≡ W.base words.old }
{
    let goal = address(get_heap(words, map, slot))?;
    let space = page_word(words, map, goal);
    if space < 2 {
        return None;
    }
    if space == page_word(words, map, slot) {
        return None;
    }
    space_at((space - 1) as u8)
}

/// Files a slot: takes it out of its chain, and puts it to the front of the chain of the region that its reference enters
/// from a page of another space, if it enters one.
pub fn add_slot<W: Words>(words: &mut W, map: Areas, slot: Addr)
    requires sound { Sound map (W.words words.old) }
    requires sets { SetsHold map (contents map (W.words words.old)) }
    requires slot { IsSlot map (contents map (W.words words.old)) slot.0 }
    requires pages { PagesKnown map (contents map (W.words words.old)) }
    ensures filed { (let c = contents map (W.words words.old) in ChainsBecome map c (contents map (W.words words.new)) (λ x slots. filed map c x slot.0 slots)) }
    ensures sets { SetsHold map (contents map (W.words words.new)) }
    ensures others { contents map (W.words words.new) ≡ with_sets (contents map (W.words words.old)) (contents map (W.words words.new)) }
    ensures sound { Sound map (W.words words.new) }
    ensures reads { W.reads words.new ≤ W.reads words.old + 6 }
    ensures base { W.base words.new ≡ W.base words.old }
{
    drop_slot(words, map, slot);
    if let Some(region) = entered(words, map, slot.0 as usize) {
        put_first(words, map, slot, region);
    }
}
