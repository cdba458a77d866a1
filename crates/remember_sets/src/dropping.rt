//! Recorded slots that are dropped with the pages in which they lie.

ghost use Rattle.std.specs.Prelude.{◌≡◌, ◌≤◌, ◌<◌, ◌+◌, ◌-◌, ◌*◌, ◌/◌, ◌^◌, ◌==◌, ◌&&◌, ℕ, cond, not};
ghost use Rattle.std.specs.List.{filter};
ghost use Rattle.heap_words.specs.Map.{HasPage, heap_length, page_words};
ghost use Rattle.heap_words.specs.Contents.{contents, Sound};
ghost use Rattle.epoch_lattice.specs.Lattice.{IsValid, space_index};
ghost use Rattle.yak_model.specs.Stands.{pages_of};
ghost use Rattle.yak_model.specs.Placed.{space_word};
ghost use Rattle.remember_sets.specs.Filed.{ChainsBecome, NoneFrom, SetsHold, outside, page_word, with_sets};

use crate::drop_slot;
use epoch_lattice::{MAX_DEPTH, Space, index_of};
use heap_words::{Areas, Words, get_page};
use object_layout::Addr;

/// Drops the filed slots that lie in a page.
fn drop_page<W: Words>(words: &mut W, map: Areas, page: u32)
    requires sound { Sound map (W.words words.old) }
    requires sets { SetsHold map (contents map (W.words words.old)) }
    requires page { HasPage map page }
    ensures dropped { ChainsBecome map (contents map (W.words words.old)) (contents map (W.words words.new)) (λ _ slots. filter (λ a. not (a / page_words map == page)) slots) }
    ensures sets { SetsHold map (contents map (W.words words.new)) }
    ensures others { contents map (W.words words.new) ≡ with_sets (contents map (W.words words.old)) (contents map (W.words words.new)) }
    ensures sound { Sound map (W.words words.new) }
    ensures reads { W.reads words.new ≤ W.reads words.old + 2 * page_words map }
    ensures base { W.base words.new ≡ W.base words.old }
{
    let start = map.page_words() * page;
    for k in 0..map.page_words() {
        drop_slot(words, map, Addr(start + k));
    }
}

/// Drops the filed slots that lie in a page if the page has a word in the page table.
fn drop_if<W: Words>(words: &mut W, map: Areas, page: u32, word: u64)
    requires sound { Sound map (W.words words.old) }
    requires sets { SetsHold map (contents map (W.words words.old)) }
    requires page { HasPage map page }
    ensures dropped { (let c = contents map (W.words words.old) in ChainsBecome map c (contents map (W.words words.new)) (λ _ slots. filter (λ a. not ((a / page_words map == page) && (page_word map c a == word))) slots)) }
    ensures sets { SetsHold map (contents map (W.words words.new)) }
    ensures others { contents map (W.words words.new) ≡ with_sets (contents map (W.words words.old)) (contents map (W.words words.new)) }
    ensures sound { Sound map (W.words words.new) }
    ensures reads { W.reads words.new ≤ W.reads words.old + (1 + 2 * (page_words map * cond (space_word (contents map (W.words words.old)).table page == word) 1 0)) }
    ensures base { W.base words.new ≡ W.base words.old }
{
    if get_page(words, map, page, 0) == word {
        drop_page(words, map, page);
    }
}

/// Drops the filed slots that lie in pages of the space.
pub fn drop_slots_in<W: Words>(words: &mut W, map: Areas, space: Space)
    requires sound { Sound map (W.words words.old) }
    requires sets { SetsHold map (contents map (W.words words.old)) }
    requires space { IsValid MAX_DEPTH space }
    ensures dropped { (let c = contents map (W.words words.old) in ChainsBecome map c (contents map (W.words words.new)) (λ _ slots. outside map c space slots)) }
    ensures sets { SetsHold map (contents map (W.words words.new)) }
    ensures others { contents map (W.words words.new) ≡ with_sets (contents map (W.words words.old)) (contents map (W.words words.new)) }
    ensures sound { Sound map (W.words words.new) }
    ensures reads { (let c = contents map (W.words words.old) in W.reads words.new ≤ W.reads words.old + (map.pages + 2 * (page_words map * pages_of c.table space))) }
    ensures base { W.base words.new ≡ W.base words.old }
{
    drop_slots_below(words, map, space, map.pages);
}

/// Drops the filed slots that lie in pages of the space, where all of these are among the first `end` pages.
pub fn drop_slots_below<W: Words>(words: &mut W, map: Areas, space: Space, end: u32)
    requires sound { Sound map (W.words words.old) }
    requires sets { SetsHold map (contents map (W.words words.old)) }
    requires space { IsValid MAX_DEPTH space }
    requires within { end ≤ map.pages }
    requires none_from { NoneFrom map (contents map (W.words words.old)).table (space_index space + 1) end }
    ensures dropped { (let c = contents map (W.words words.old) in ChainsBecome map c (contents map (W.words words.new)) (λ _ slots. outside map c space slots)) }
    ensures sets { SetsHold map (contents map (W.words words.new)) }
    ensures others { contents map (W.words words.new) ≡ with_sets (contents map (W.words words.old)) (contents map (W.words words.new)) }
    ensures sound { Sound map (W.words words.new) }
    ensures reads { (let c = contents map (W.words words.old) in W.reads words.new ≤ W.reads words.old + (end + 2 * (page_words map * pages_of c.table space))) }
    ensures base { W.base words.new ≡ W.base words.old }
{
    let word = u64::from(index_of(space)) + 1;
    for page in 0..end {
        drop_if(words, map, page, word);
    }
}
