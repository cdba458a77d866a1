//! Counts of pages, and whether a space is packed.

ghost use Rattle.std.specs.Prelude.{◌≡◌, ◌≤◌, ◌<◌, ◌+◌, ◌*◌, ◌↔◌, ◌==◌, ℕ, IsTrue, List, Option, length, slice_index, count_by};
ghost use Rattle.object_layout.specs.declared.names.Name.{Name};
ghost use Rattle.epoch_lattice.specs.declared.Space.TheVariants.{Control};
ghost use Rattle.heap_words.specs.Map.{page_words};
ghost use Rattle.heap_words.specs.Contents.{contents, Sound};
ghost use Rattle.yak_model.specs.State.{Thing};
ghost use Rattle.yak_model.specs.Placed.{HeapStands, Places};
ghost use Rattle.yak_model.specs.Stands.{PoolStands, free_pages, pages_of};
ghost use Rattle.yak_model.specs.Packed.{IsSpaceOf, PackedAs};
ghost use Rattle.region_pages.specs.Pages.{TableFits};
ghost use Rattle.region_pages.specs.Counts.{HalfUsed, free_in, regions_in, used_of};
ghost use Rattle.region_pages.specs.Ends.{used_end};

use crate::{CLAIM_COUNTER, POOL_LENGTH, SPACE_WORD, USED_MARK};
use epoch_lattice::{Space, index_of};
use heap_words::{Areas, Words, get_head, get_page};
use object_layout::Census;

/// How many pages belong to a space.
pub fn pages_of<W: Words>(words: &mut W, map: Areas, space: Space) -> u32
    requires sound { Sound map (W.words words.old) }
    requires space { IsSpaceOf map space }
    ensures count { result ≡ pages_of (contents map (W.words words.old)).table space }
    ensures most { result ≤ map.pages }
    ensures words { W.words words.new ≡ W.words words.old }
    ensures reads { W.reads words.new ≤ W.reads words.old + map.pages }
    ensures base { W.base words.new ≡ W.base words.old }
{
    pages_with(words, map, u64::from(index_of(space)) + 1)
}

/// How many pages are free, belong to regions, and belong to Control.
pub fn census<W: Words>(words: &mut W, map: Areas) -> Census
    requires sound { Sound map (W.words words.old) }
    requires pool { let c = contents map (W.words words.old) in PoolStands map c.heads c.pool c.table }
    ensures free { let c = contents map (W.words words.old) in result.free ≡ length (free_pages c.heads c.pool) }
    ensures entered_free { result.free ≡ free_in (contents map (W.words words.old)).table }
    ensures region { result.region ≡ regions_in (contents map (W.words words.old)).table }
    ensures control { result.control ≡ pages_of (contents map (W.words words.old)).table Control }
    ensures total { result.free + result.region + result.control ≡ map.pages }
    ensures words { W.words words.new ≡ W.words words.old }
    ensures reads { W.reads words.new ≤ W.reads words.old + (map.pages + 2) }
    ensures base { W.base words.new ≡ W.base words.old }
{
    let free = free_count(words, map);
    let owned = map.pages - free;
    let control = pages_of(words, map, Space::Control);
    Census {
        free,
        region: owned - control,
        control,
    }
}

/// Whether the pages of a space are half full, but for one page.
pub fn packed<W: Words>(words: &mut W, map: Areas, space: Space) -> bool
    requires sound { Sound map (W.words words.old) }
    requires space { IsSpaceOf map space }
    requires table { TableFits map (contents map (W.words words.old)).table }
    ensures used { IsTrue result ↔ HalfUsed map (contents map (W.words words.old)).table space }
    ensures packed { let c = contents map (W.words words.old) in (objects : Name → Option Thing) (places : Places) (work : Name → ℕ) → HeapStands map c.table c.heap objects places work → IsTrue result ↔ PackedAs map c.table places.pages objects space }
    ensures words { W.words words.new ≡ W.words words.old }
    ensures reads { W.reads words.new ≤ W.reads words.old + 3 * map.pages }
    ensures base { W.base words.new ≡ W.base words.old }
{
    let pages = u64::from(pages_of(words, map, space));
    let used = used_in(words, map, space);
    let page = u64::from(map.page_words());
    page * pages <= 2 * used + page
}

/// How many pages have this word of the space in their entries.
fn pages_with<W: Words>(words: &mut W, map: Areas, word: u64) -> u32
    requires { Sound map (W.words words.old) }
    ensures count { result ≡ count_by (λ (r : List ℕ). slice_index r 0 == word) (contents map (W.words words.old)).table }
    ensures most { result ≤ map.pages }
    ensures words { W.words words.new ≡ W.words words.old }
    ensures reads { W.reads words.new ≤ W.reads words.old + map.pages }
    ensures base { W.base words.new ≡ W.base words.old }
{
    let mut count = 0;
    for page in 0..map.pages {
        if get_page(words, map, page, SPACE_WORD) == word {
            count += 1;
        }
    }
    count
}

/// How many entries of the pool no claim took.
pub fn free_count<W: Words>(words: &mut W, map: Areas) -> u32
    requires sound { Sound map (W.words words.old) }
    requires pool { let c = contents map (W.words words.old) in PoolStands map c.heads c.pool c.table }
    ensures count { let c = contents map (W.words words.old) in result ≡ length (free_pages c.heads c.pool) }
    ensures words { W.words words.new ≡ W.words words.old }
    ensures reads { W.reads words.new ≤ W.reads words.old + 2 }
    ensures base { W.base words.new ≡ W.base words.old }
{
    let claimed = get_head(words, map, CLAIM_COUNTER);
    let length = get_head(words, map, POOL_LENGTH);
    length.saturating_sub(claimed) as u32
}

/// The number of pages up to the last one that isn't free. The page table is read up to that page.
pub fn pages_end<W: Words>(words: &mut W, map: Areas) -> u32
    requires sound { Sound map (W.words words.old) }
    requires pool { let c = contents map (W.words words.old) in PoolStands map c.heads c.pool c.table }
    ensures end { result ≡ used_end (contents map (W.words words.old)).table map.pages }
    ensures most { result ≤ map.pages }
    ensures words { W.words words.new ≡ W.words words.old }
    ensures reads { W.reads words.new ≤ W.reads words.old + (2 + result) }
    ensures base { W.base words.new ≡ W.base words.old }
{
    let used = used_count(words, map);
    end_of_used(words, map, used)
}

/// How many pages aren't free.
pub(crate) fn used_count<W: Words>(words: &mut W, map: Areas) -> u32
    requires sound { Sound map (W.words words.old) }
    requires pool { let c = contents map (W.words words.old) in PoolStands map c.heads c.pool c.table }
    ensures used { result + free_in (contents map (W.words words.old)).table ≡ map.pages }
    ensures words { W.words words.new ≡ W.words words.old }
    ensures reads { W.reads words.new ≤ W.reads words.old + 2 }
    ensures base { W.base words.new ≡ W.base words.old }
{
    let free = free_count(words, map);
    map.pages - free
}

/// The number of pages up to the last one that isn't free, where just so many aren't.
fn end_of_used<W: Words>(words: &mut W, map: Areas, used: u32) -> u32
    requires sound { Sound map (W.words words.old) }
    requires used { used + free_in (contents map (W.words words.old)).table ≡ map.pages }
    ensures end { result ≡ used_end (contents map (W.words words.old)).table map.pages }
    ensures most { result ≤ map.pages }
    ensures words { W.words words.new ≡ W.words words.old }
    ensures reads { W.reads words.new ≤ W.reads words.old + result }
    ensures base { W.base words.new ≡ W.base words.old }
{
    let mut left = used;
    let mut page = 0;
    while left > 0 {
        if get_page(words, map, page, SPACE_WORD) != 0 {
            left -= 1;
        }
        page += 1;
    }
    page
}

/// The words in use in the pages of a space.
fn used_in<W: Words>(words: &mut W, map: Areas, space: Space) -> u64
    requires sound { Sound map (W.words words.old) }
    requires space { IsSpaceOf map space }
    requires table { TableFits map (contents map (W.words words.old)).table }
    ensures used { result ≡ used_of (contents map (W.words words.old)).table space }
    ensures most { result ≤ page_words map * map.pages }
    ensures words { W.words words.new ≡ W.words words.old }
    ensures reads { W.reads words.new ≤ W.reads words.old + 2 * map.pages }
    ensures base { W.base words.new ≡ W.base words.old }
{
    let word = u64::from(index_of(space)) + 1;
    let mut used = 0;
    for page in 0..map.pages {
        if get_page(words, map, page, SPACE_WORD) == word {
            used += get_page(words, map, page, USED_MARK);
        }
    }
    used
}
