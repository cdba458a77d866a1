//! Words by the area that they stand in.

ghost use Rattle.std.specs.Prelude.{◌≡◌, ◌≤◌, ◌<◌, ◌+◌, ◌-◌, ◌*◌, ◌^◌, ℕ, List, length, slice_index};
ghost use Rattle.heap_words.specs.Map.{HasThread, HasPage, HasRegion, heap_length, scratch_length};
ghost use Rattle.heap_words.specs.Cells.{row};
ghost use Rattle.heap_words.specs.Contents.{contents, readers_of, with_head, with_page, with_pool, with_readers, with_set, with_heap, with_scratch, Sound};

use crate::{Areas, HEAD_WORDS, Words};

/// A word of the heads: the claim counter at 1, the pool's length at 2.
#[tactic(auto, using(crate::proofs::Contents::reads))]
pub fn get_head<W: Words>(words: &mut W, map: Areas, i: usize) -> u64
    requires sound { Sound map (W.words words.old) }
    requires above_gate { 1 ≤ i }
    requires within { i < HEAD_WORDS }
    ensures value { result ≡ slice_index (contents map (W.words words.old)).heads i }
    ensures words { W.words words.new ≡ W.words words.old }
    ensures reads { W.reads words.new ≤ W.reads words.old + 1 }
    ensures base { W.base words.new ≡ W.base words.old }
{
    words.get(i)
}

/// Sets a word of the heads.
#[tactic(auto, using(crate::proofs::Contents::writes))]
pub fn set_head<W: Words>(words: &mut W, map: Areas, i: usize, word: u64)
    requires sound { Sound map (W.words words.old) }
    requires above_gate { 1 ≤ i }
    requires within { i < HEAD_WORDS }
    ensures set { contents map (W.words words.new) ≡ with_head (contents map (W.words words.old)) i word }
    ensures sound { Sound map (W.words words.new) }
    ensures reads { W.reads words.new ≡ W.reads words.old }
    ensures base { W.base words.new ≡ W.base words.old }
{
    words.set(i, word);
}

/// A word of a page's entry in the page table: the space's index plus 1 or 0, then the used mark in words.
#[tactic(auto, using(crate::proofs::Contents::reads))]
pub fn get_page<W: Words>(words: &mut W, map: Areas, page: u32, j: usize) -> u64
    requires sound { Sound map (W.words words.old) }
    requires page { HasPage map page }
    requires within { j < 2 }
    ensures value { result ≡ slice_index (row (contents map (W.words words.old)).table page) j }
    ensures words { W.words words.new ≡ W.words words.old }
    ensures reads { W.reads words.new ≤ W.reads words.old + 1 }
    ensures base { W.base words.new ≡ W.base words.old }
{
    words.get(map.page(page) + j)
}

/// Sets a word of a page's entry in the page table.
#[tactic(auto, using(crate::proofs::Contents::writes))]
pub fn set_page<W: Words>(words: &mut W, map: Areas, page: u32, j: usize, word: u64)
    requires sound { Sound map (W.words words.old) }
    requires page { HasPage map page }
    requires within { j < 2 }
    ensures set { contents map (W.words words.new) ≡ with_page (contents map (W.words words.old)) page j word }
    ensures sound { Sound map (W.words words.new) }
    ensures reads { W.reads words.new ≡ W.reads words.old }
    ensures base { W.base words.new ≡ W.base words.old }
{
    words.set(map.page(page) + j, word);
}

/// An entry of the pool: a page number.
#[tactic(auto, using(crate::proofs::Contents::reads))]
pub fn get_pool<W: Words>(words: &mut W, map: Areas, k: usize) -> u64
    requires sound { Sound map (W.words words.old) }
    requires within { k < map.pages }
    ensures value { result ≡ slice_index (contents map (W.words words.old)).pool k }
    ensures words { W.words words.new ≡ W.words words.old }
    ensures reads { W.reads words.new ≤ W.reads words.old + 1 }
    ensures base { W.base words.new ≡ W.base words.old }
{
    words.get(map.pool() + k)
}

/// Sets an entry of the pool.
#[tactic(auto, using(crate::proofs::Contents::writes))]
pub fn set_pool<W: Words>(words: &mut W, map: Areas, k: usize, word: u64)
    requires sound { Sound map (W.words words.old) }
    requires within { k < map.pages }
    ensures set { contents map (W.words words.new) ≡ with_pool (contents map (W.words words.old)) k word }
    ensures sound { Sound map (W.words words.new) }
    ensures reads { W.reads words.new ≡ W.reads words.old }
    ensures base { W.base words.new ≡ W.base words.old }
{
    words.set(map.pool() + k, word);
}

/// A region's readers word, which has a bit for each thread.
#[tactic(auto, using(crate::proofs::Contents::reads))]
pub fn get_readers<W: Words>(words: &mut W, map: Areas, thread: u8, depth: u8) -> u64
    requires sound { Sound map (W.words words.old) }
    requires region { HasRegion map thread depth }
    ensures value { result ≡ readers_of (contents map (W.words words.old)) thread depth }
    ensures words { W.words words.new ≡ W.words words.old }
    ensures reads { W.reads words.new ≤ W.reads words.old + 1 }
    ensures base { W.base words.new ≡ W.base words.old }
{
    words.get(map.readers(thread, depth))
}

/// Sets a region's readers word.
#[tactic(auto, using(crate::proofs::Contents::writes))]
pub fn set_readers<W: Words>(words: &mut W, map: Areas, thread: u8, depth: u8, word: u64)
    requires sound { Sound map (W.words words.old) }
    requires region { HasRegion map thread depth }
    ensures set { contents map (W.words words.new) ≡ with_readers (contents map (W.words words.old)) thread depth word }
    ensures sound { Sound map (W.words words.new) }
    ensures reads { W.reads words.new ≡ W.reads words.old }
    ensures base { W.base words.new ≡ W.base words.old }
{
    words.set(map.readers(thread, depth), word);
}

/// A word of the sets, which have two for each word of the pages: by way of them the recorded slots are linked into chains.
#[tactic(auto, using(crate::proofs::Contents::reads))]
pub fn get_set<W: Words>(words: &mut W, map: Areas, k: usize) -> u64
    requires sound { Sound map (W.words words.old) }
    requires within { k < 2 * heap_length map }
    ensures value { result ≡ slice_index (contents map (W.words words.old)).sets k }
    ensures words { W.words words.new ≡ W.words words.old }
    ensures reads { W.reads words.new ≤ W.reads words.old + 1 }
    ensures base { W.base words.new ≡ W.base words.old }
{
    words.get(map.sets() + k)
}

/// Sets a word of the sets.
#[tactic(auto, using(crate::proofs::Contents::writes))]
pub fn set_set<W: Words>(words: &mut W, map: Areas, k: usize, word: u64)
    requires sound { Sound map (W.words words.old) }
    requires within { k < 2 * heap_length map }
    ensures set { contents map (W.words words.new) ≡ with_set (contents map (W.words words.old)) k word }
    ensures sound { Sound map (W.words words.new) }
    ensures reads { W.reads words.new ≡ W.reads words.old }
    ensures base { W.base words.new ≡ W.base words.old }
{
    words.set(map.sets() + k, word);
}

/// A word of the scratch area.
#[tactic(auto, using(crate::proofs::Contents::reads))]
pub fn get_scratch<W: Words>(words: &mut W, map: Areas, k: usize) -> u64
    requires sound { Sound map (W.words words.old) }
    requires within { k < scratch_length map }
    ensures value { result ≡ slice_index (contents map (W.words words.old)).scratch k }
    ensures words { W.words words.new ≡ W.words words.old }
    ensures reads { W.reads words.new ≤ W.reads words.old + 1 }
    ensures base { W.base words.new ≡ W.base words.old }
{
    words.get(map.scratch() + k)
}

/// Sets a word of the scratch area.
#[tactic(auto, using(crate::proofs::Contents::writes))]
pub fn set_scratch<W: Words>(words: &mut W, map: Areas, k: usize, word: u64)
    requires sound { Sound map (W.words words.old) }
    requires within { k < scratch_length map }
    ensures set { contents map (W.words words.new) ≡ with_scratch (contents map (W.words words.old)) k word }
    ensures sound { Sound map (W.words words.new) }
    ensures reads { W.reads words.new ≡ W.reads words.old }
    ensures base { W.base words.new ≡ W.base words.old }
{
    words.set(map.scratch() + k, word);
}

/// A word of the pages.
#[tactic(auto, using(crate::proofs::Contents::reads))]
pub fn get_heap<W: Words>(words: &mut W, map: Areas, a: usize) -> u64
    requires sound { Sound map (W.words words.old) }
    requires within { a < heap_length map }
    ensures value { result ≡ slice_index (contents map (W.words words.old)).heap a }
    ensures words { W.words words.new ≡ W.words words.old }
    ensures reads { W.reads words.new ≤ W.reads words.old + 1 }
    ensures base { W.base words.new ≡ W.base words.old }
{
    words.get(map.heap() + a)
}

/// Sets a word of the pages.
#[tactic(auto, using(crate::proofs::Contents::writes))]
pub fn set_heap<W: Words>(words: &mut W, map: Areas, a: usize, word: u64)
    requires sound { Sound map (W.words words.old) }
    requires within { a < heap_length map }
    ensures set { contents map (W.words words.new) ≡ with_heap (contents map (W.words words.old)) a word }
    ensures sound { Sound map (W.words words.new) }
    ensures reads { W.reads words.new ≡ W.reads words.old }
    ensures base { W.base words.new ≡ W.base words.old }
{
    words.set(map.heap() + a, word);
}
