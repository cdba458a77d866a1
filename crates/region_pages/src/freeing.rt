//! Pages that come back: the pool is made anew.

ghost use Rattle.std.specs.Prelude.{◌≡◌, ◌≢◌, ◌≤◌, ◌<◌, ◌+◌, ◌*◌, ◌↔◌, ◌⊎◌, ℕ, length, slice_index, slice_set, IsTrue};
ghost use Rattle.std.specs.List.{Contains};
ghost use Rattle.epoch_lattice.specs.Lattice.{space_index};
ghost use Rattle.heap_words.specs.Cells.{row};
ghost use Rattle.heap_words.specs.Map.{HasPage};
ghost use Rattle.heap_words.specs.Contents.{contents, Sound, with_head};
ghost use Rattle.yak_model.specs.Chains.{IsRegionOf};
ghost use Rattle.yak_model.specs.Placed.{space_word};
ghost use Rattle.yak_model.specs.Stands.{CurrentsStand, PoolStands, free_pages};
ghost use Rattle.region_pages.specs.declared.TheConstants.{CLAIM_COUNTER, POOL_LENGTH};
ghost use Rattle.region_pages.specs.Pages.{TableFits};
ghost use Rattle.region_pages.specs.Counts.{free_in};
ghost use Rattle.region_pages.specs.Ends.{used_end};
ghost use Rattle.region_pages.specs.Freeing.{free_below, freed, freed_table, pool_with, with_pool_rebuilt, with_released};

use crate::claim::set_entry;
use crate::counts::used_count;
use crate::{CLAIM_COUNTER, POOL_LENGTH, SPACE_WORD};
use epoch_lattice::{Space, index_of};
use heap_words::{Areas, Words, get_page, set_current, set_head, set_pool};

/// Makes the pool anew: all free pages in ascending order, none of them claimed.
pub fn rebuild_pool<W: Words>(words: &mut W, map: Areas)
    requires { Sound map (W.words words.old) }
    ensures rebuilt { contents map (W.words words.new) ≡ with_pool_rebuilt (contents map (W.words words.old)) }
    ensures pool { let c = contents map (W.words words.new) in PoolStands map c.heads c.pool c.table }
    ensures free { let c = contents map (W.words words.new) in free_pages c.heads c.pool ≡ free_below c.table map.pages }
    ensures sound { Sound map (W.words words.new) }
    ensures reads { W.reads words.new ≤ W.reads words.old + map.pages }
    ensures base { W.base words.new ≡ W.base words.old }
{
    let length = fill_pool(words, map);
    open_pool(words, map, length);
}

/// Makes the first so many entries of the pool all of it, none of them claimed.
fn open_pool<W: Words>(words: &mut W, map: Areas, length: u32)
    requires { Sound map (W.words words.old) }
    ensures opened { contents map (W.words words.new) ≡ with_head (with_head (contents map (W.words words.old)) CLAIM_COUNTER 0) POOL_LENGTH length }
    ensures sound { Sound map (W.words words.new) }
    ensures reads { W.reads words.new ≡ W.reads words.old }
    ensures base { W.base words.new ≡ W.base words.old }
{
    set_head(words, map, CLAIM_COUNTER, 0);
    set_head(words, map, POOL_LENGTH, u64::from(length));
}

/// Gives all pages of a region back, so that it has no current page, and makes the pool anew.
pub fn release_space<W: Words>(words: &mut W, map: Areas, space: Space)
    requires sound { Sound map (W.words words.old) }
    requires region { IsRegionOf map space }
    ensures released { contents map (W.words words.new) ≡ with_released (contents map (W.words words.old)) space }
    ensures free { let c = contents map (W.words words.old) in let after = contents map (W.words words.new) in (p : ℕ) → Contains (free_pages after.heads after.pool) p ↔ ((p < map.pages) × ((space_word c.table p ≡ 0) ⊎ (space_word c.table p ≡ space_index space + 1))) }
    ensures sound { Sound map (W.words words.new) }
    ensures table { TableFits map (contents map (W.words words.old)).table → TableFits map (contents map (W.words words.new)).table }
    ensures pool { let c = contents map (W.words words.new) in PoolStands map c.heads c.pool c.table }
    ensures currents { let c = contents map (W.words words.old) in let after = contents map (W.words words.new) in CurrentsStand map c.currents c.table → CurrentsStand map after.currents after.table }
    ensures reads { W.reads words.new ≤ W.reads words.old + map.pages }
    ensures base { W.base words.new ≡ W.base words.old }
{
    release_used(words, map, space, map.pages);
}

/// As `release_space`, for words whose pool stands: the page table is read up to the last page that isn't free.
pub fn release_pages<W: Words>(words: &mut W, map: Areas, space: Space)
    requires sound { Sound map (W.words words.old) }
    requires region { IsRegionOf map space }
    requires stands { let c = contents map (W.words words.old) in PoolStands map c.heads c.pool c.table }
    ensures released { contents map (W.words words.new) ≡ with_released (contents map (W.words words.old)) space }
    ensures free { let c = contents map (W.words words.old) in let after = contents map (W.words words.new) in (p : ℕ) → Contains (free_pages after.heads after.pool) p ↔ ((p < map.pages) × ((space_word c.table p ≡ 0) ⊎ (space_word c.table p ≡ space_index space + 1))) }
    ensures sound { Sound map (W.words words.new) }
    ensures table { TableFits map (contents map (W.words words.old)).table → TableFits map (contents map (W.words words.new)).table }
    ensures pool { let c = contents map (W.words words.new) in PoolStands map c.heads c.pool c.table }
    ensures currents { let c = contents map (W.words words.old) in let after = contents map (W.words words.new) in CurrentsStand map c.currents c.table → CurrentsStand map after.currents after.table }
    ensures reads { W.reads words.new ≤ W.reads words.old + (2 + used_end (contents map (W.words words.old)).table map.pages) }
    ensures base { W.base words.new ≡ W.base words.old }
{
    let used = used_count(words, map);
    release_used(words, map, space, used);
}

/// Gives all pages of a region back, where no more pages than so many are in use. No page is read once these are seen.
fn release_used<W: Words>(words: &mut W, map: Areas, space: Space, used: u32)
    requires sound { Sound map (W.words words.old) }
    requires region { IsRegionOf map space }
    requires used { map.pages ≤ used + free_in (contents map (W.words words.old)).table }
    ensures released { contents map (W.words words.new) ≡ with_released (contents map (W.words words.old)) space }
    ensures free { let c = contents map (W.words words.old) in let after = contents map (W.words words.new) in (p : ℕ) → Contains (free_pages after.heads after.pool) p ↔ ((p < map.pages) × ((space_word c.table p ≡ 0) ⊎ (space_word c.table p ≡ space_index space + 1))) }
    ensures sound { Sound map (W.words words.new) }
    ensures table { TableFits map (contents map (W.words words.old)).table → TableFits map (contents map (W.words words.new)).table }
    ensures pool { let c = contents map (W.words words.new) in PoolStands map c.heads c.pool c.table }
    ensures currents { let c = contents map (W.words words.old) in let after = contents map (W.words words.new) in CurrentsStand map c.currents c.table → CurrentsStand map after.currents after.table }
    ensures reads { W.reads words.new ≤ W.reads words.old + map.pages }
    ensures few { let table = (contents map (W.words words.old)).table in used + free_in table ≡ map.pages → W.reads words.new ≤ W.reads words.old + used_end table map.pages }
    ensures base { W.base words.new ≡ W.base words.old }
{
    let Space::Region { thread, depth } = space else {
        return;
    };
    let free = free_entries(words, map, u64::from(index_of(space)) + 1, used);
    set_current(words, map, thread, depth, 0);
    open_pool(words, map, free);
}

/// Writes the free pages into the pool from its first entry on, in ascending order, and counts them.
fn fill_pool<W: Words>(words: &mut W, map: Areas) -> u32
    requires { Sound map (W.words words.old) }
    ensures count { result ≡ length (free_below (contents map (W.words words.old)).table map.pages) }
    ensures filled { let c = contents map (W.words words.old) in contents map (W.words words.new) ≡ record c { pool = pool_with (free_below c.table map.pages) c.pool } }
    ensures sound { Sound map (W.words words.new) }
    ensures reads { W.reads words.new ≤ W.reads words.old + map.pages }
    ensures base { W.base words.new ≡ W.base words.old }
{
    let mut count = 0;
    for page in 0..map.pages {
        if get_page(words, map, page, SPACE_WORD) == 0 {
            set_pool(words, map, count as usize, u64::from(page));
            count += 1;
        }
    }
    count
}

/// Frees a page where it has this word of the space in its entry, and answers the word that it had.
fn free_entry<W: Words>(words: &mut W, map: Areas, page: u32, word: u64) -> u64
    requires sound { Sound map (W.words words.old) }
    requires page { HasPage map page }
    ensures freed { let c = contents map (W.words words.old) in contents map (W.words words.new) ≡ record c { table = slice_set c.table page (freed word (row c.table page)) } }
    ensures was { result ≡ space_word (contents map (W.words words.old)).table page }
    ensures sound { Sound map (W.words words.new) }
    ensures reads { W.reads words.new ≤ W.reads words.old + 1 }
    ensures base { W.base words.new ≡ W.base words.old }
{
    let space = get_page(words, map, page, SPACE_WORD);
    if space == word {
        set_entry(words, map, page, 0, 0);
    }
    space
}

/// Whether a page is free once the pages of one word of the space are, by the word that it had.
fn is_free_then(was: u64, word: u64) -> bool
    ensures { IsTrue result ↔ ((was ≡ 0) ⊎ (was ≡ word)) }
{
    was == 0 || was == word
}

/// How many pages in use are left behind a page, by the word of its space.
fn left_behind(left: u32, was: u64) -> u32
    requires { was ≢ 0 → 0 < left }
    ensures free { was ≡ 0 → result ≡ left }
    ensures taken { was ≢ 0 → result + 1 ≡ left }
{
    if was == 0 { left } else { left - 1 }
}

/// Frees all pages that have this word of the space in their entries, where no more pages than so many are in use. Writes the
/// pages that are free then into the pool from its first entry on, in ascending order, and counts them.
fn free_entries<W: Words>(words: &mut W, map: Areas, word: u64, used: u32) -> u32
    requires sound { Sound map (W.words words.old) }
    requires word { 0 < word }
    requires used { map.pages ≤ used + free_in (contents map (W.words words.old)).table }
    ensures count { result ≡ length (free_below (freed_table word (contents map (W.words words.old)).table) map.pages) }
    ensures freed { let c = contents map (W.words words.old) in contents map (W.words words.new) ≡ record c { table = freed_table word c.table; pool = pool_with (free_below (freed_table word c.table) map.pages) c.pool } }
    ensures sound { Sound map (W.words words.new) }
    ensures reads { W.reads words.new ≤ W.reads words.old + map.pages }
    ensures few { let table = (contents map (W.words words.old)).table in used + free_in table ≡ map.pages → W.reads words.new ≤ W.reads words.old + used_end table map.pages }
    ensures base { W.base words.new ≡ W.base words.old }
{
    let mut count = 0;
    let mut left = used;
    let mut page = 0;
    while page < map.pages && left > 0 {
        let was = free_entry(words, map, page, word);
        left = left_behind(left, was);
        if is_free_then(was, word) {
            set_pool(words, map, count as usize, u64::from(page));
            count += 1;
        }
        page += 1;
    }
    fill_behind(words, map, count, page)
}

/// Writes the pages from one on, all of them free, into the pool behind the free ones before, of which there are so many. Answers
/// how many are free.
fn fill_behind<W: Words>(words: &mut W, map: Areas, count: u32, first: u32) -> u32
    requires sound { Sound map (W.words words.old) }
    requires first { first ≤ map.pages }
    requires count { count ≡ length (free_below (contents map (W.words words.old)).table first) }
    requires free { (p : ℕ) → first ≤ p → p < map.pages → space_word (contents map (W.words words.old)).table p ≡ 0 }
    requires begun { let c = contents map (W.words words.old) in pool_with (free_below c.table first) c.pool ≡ c.pool }
    ensures count { result ≡ length (free_below (contents map (W.words words.old)).table map.pages) }
    ensures filled { let c = contents map (W.words words.old) in contents map (W.words words.new) ≡ record c { pool = pool_with (free_below c.table map.pages) c.pool } }
    ensures sound { Sound map (W.words words.new) }
    ensures reads { W.reads words.new ≡ W.reads words.old }
    ensures base { W.base words.new ≡ W.base words.old }
{
    let mut k = count as usize;
    for page in first..map.pages {
        set_pool(words, map, k, u64::from(page));
        k += 1;
    }
    k as u32
}
