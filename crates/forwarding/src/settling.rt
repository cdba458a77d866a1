//! The page table after a slide: the pages of the space that are filled become control pages, and the others are given back.

ghost use Rattle.std.specs.Prelude.{◌≡◌, ◌≤◌, ◌<◌, ◌+◌, ◌*◌, ◌/◌, ◌%◌, ℕ, List};
ghost use Rattle.heap_words.specs.Map.{HasPage, heap_length, page_words};
ghost use Rattle.heap_words.specs.Contents.{Sound, contents, with_page};
ghost use Rattle.yak_model.specs.Placed.{space_word};
ghost use Rattle.relocation.specs.declared.plans.TheConstants.{MOVE_WORDS};
ghost use Rattle.relocation.specs.Moves.{HasHeader, move_at, size_at};
ghost use Rattle.relocation.specs.Slide.{IsPageOf, brought};
ghost use Rattle.relocation.specs.Slide.{TableAfter};
ghost use Rattle.forwarding.specs.Settled.{Emptied, Filled};

use crate::CONTROL_WORD;
use heap_words::{Areas, Words, get_page, set_page};
use relocation::{Plan, object_size, read_move};

/// Empties a page, and gives it the word of a space.
fn empty_page<W: Words>(words: &mut W, map: Areas, page: u32, word: u64)
    requires sound { Sound map (W.words words.old) }
    requires page { HasPage map page }
    ensures set { contents map (W.words words.new) ≡ with_page (with_page (contents map (W.words words.old)) page 0 word) page 1 0 }
    ensures sound { Sound map (W.words words.new) }
    ensures reads { W.reads words.new ≡ W.reads words.old }
    ensures base { W.base words.new ≡ W.base words.old }
{
    set_page(words, map, page, 0, word);
    set_page(words, map, page, 1, 0);
}

/// The word of a page of the space after a slide that filled the pages before `next`.
fn settled_word(page: u32, next: u32) -> u64
    ensures kept { page < next → result ≡ 1 }
    ensures free { next ≤ page → result ≡ 0 }
{
    if page < next { CONTROL_WORD } else { 0 }
}

/// Empties the pages of a space: those before a page become control pages, and the others are given back.
fn empty_pages<W: Words>(words: &mut W, map: Areas, slid: u64, next: u32)
    requires sound { Sound map (W.words words.old) }
    ensures emptied { Emptied slid (contents map (W.words words.old)).table (contents map (W.words words.new)).table next map.pages }
    ensures frame { (let d = contents map (W.words words.new) in d ≡ record (contents map (W.words words.old)) { table = d.table }) }
    ensures sound { Sound map (W.words words.new) }
    ensures reads { W.reads words.new ≤ W.reads words.old + map.pages }
    ensures base { W.base words.new ≡ W.base words.old }
{
    for page in 0..map.pages {
        if get_page(words, map, page, 0) == slid {
            empty_page(words, map, page, settled_word(page, next));
        }
    }
}

/// Sets the used mark of the page of an object to where the object ends.
fn fill_page<W: Words>(words: &mut W, map: Areas, a: usize)
    requires sound { Sound map (W.words words.old) }
    requires within { a < heap_length map }
    requires header { HasHeader (contents map (W.words words.old)).heap a }
    ensures set { (let c = contents map (W.words words.old) in contents map (W.words words.new) ≡ with_page c (a / page_words map) 1 (a % page_words map + size_at c.heap a)) }
    ensures sound { Sound map (W.words words.new) }
    ensures reads { W.reads words.new ≤ W.reads words.old + 1 }
    ensures base { W.base words.new ≡ W.base words.old }
{
    let size = object_size(words, map, a);
    let page = (a / map.page_words() as usize) as u32;
    let start = a % map.page_words() as usize;
    set_page(words, map, page, 1, start as u64 + size as u64);
}

/// Sets the used marks of the pages to which a plan has moved objects.
fn fill_pages<W: Words>(words: &mut W, map: Areas, plan: &Plan)
    requires sound { Sound map (W.words words.old) }
    requires room { MOVE_WORDS * plan.now.count ≤ heap_length map }
    requires moved { (let c = contents map (W.words words.old) in let moves = move_at c.scratch in (k : ℕ) → k < plan.now.count → HasHeader c.heap (moves k).new × ((moves k).new + size_at c.heap (moves k).new ≤ heap_length map)) }
    ensures filled { (let c = contents map (W.words words.old) in Filled map c.heap c.table (contents map (W.words words.new)).table plan.now.count (move_at c.scratch)) }
    ensures frame { (let d = contents map (W.words words.new) in d ≡ record (contents map (W.words words.old)) { table = d.table }) }
    ensures sound { Sound map (W.words words.new) }
    ensures reads { W.reads words.new ≤ W.reads words.old + 4 * plan.now.count }
    ensures base { W.base words.new ≡ W.base words.old }
{
    for k in 0..plan.count {
        let v = read_move(words, map, k);
        fill_page(words, map, v.new);
    }
}

/// Settles the page table after a slide whose objects were moved. The pages whose word is `slid` are the slid ones: those
/// before `next` become control pages with the objects that the plan brought there, and the others are given back.
pub fn settle_pages<W: Words>(words: &mut W, map: Areas, plan: &Plan, slid: u64, next: u32)
    requires sound { Sound map (W.words words.old) }
    requires room { MOVE_WORDS * plan.now.count ≤ heap_length map }
    requires moved { (let c = contents map (W.words words.old) in let moves = move_at c.scratch in (k : ℕ) → k < plan.now.count → HasHeader c.heap (moves k).new × ((moves k).new + size_at c.heap (moves k).new ≤ heap_length map)) }
    ensures settled { (let c = contents map (W.words words.old) in let moves = move_at c.scratch in (was : List ℕ) → ((k : ℕ) → k < plan.now.count → size_at c.heap (moves k).new ≡ size_at was (moves k).old) → ((k : ℕ) → k < plan.now.count → (moves k).new ≡ page_words map * ((moves k).new / page_words map) + brought map was k moves ((moves k).new / page_words map)) → ((k : ℕ) → k < plan.now.count → ((moves k).new / page_words map < next) × IsPageOf slid c.table ((moves k).new / page_words map)) → TableAfter map slid c.table was (contents map (W.words words.new)).table plan.now.count moves next) }
    ensures freed { (p : ℕ) → p < map.pages → IsPageOf slid (contents map (W.words words.old)).table p → next ≤ p → space_word (contents map (W.words words.new)).table p ≡ 0 }
    ensures frame { (let d = contents map (W.words words.new) in d ≡ record (contents map (W.words words.old)) { table = d.table }) }
    ensures sound { Sound map (W.words words.new) }
    ensures reads { W.reads words.new ≤ W.reads words.old + (map.pages + 4 * plan.now.count) }
    ensures base { W.base words.new ≡ W.base words.old }
{
    empty_pages(words, map, slid, next);
    fill_pages(words, map, plan);
}
