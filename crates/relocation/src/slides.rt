//! The planning of a slide: the marked objects of a space go to the front of its pages, in ascending order of address.
//!
//! A mark is a work word other than 0. The pages are those whose first word in the page table is `slid`. Each object
//! goes into the page that is being filled where it fits, else to the front of the next page, and all become objects of
//! the control space.

ghost use Rattle.std.specs.Prelude.{◌≡◌, ◌≤◌, ◌<◌, ◌+◌, ◌-◌, ◌*◌, ℕ};
ghost use Rattle.heap_words.specs.Map.{heap_length, page_words};
ghost use Rattle.heap_words.specs.Contents.{Contents, Sound, contents};
ghost use Rattle.relocation.specs.Moves.{heap_of, scratch_of, HasHeader, size_at, move_at};
ghost use Rattle.relocation.specs.Slide.{IsPageOf, IsFirstPage, pages_before, front, Runs, IsObject, Sliding};

use crate::pages::page_start;
use crate::plans::{Plan, add_move};
use epoch_lattice::Space;
use heap_words::{Areas, Words, get_heap, get_page};
use object_layout::{Addr, OBJECT_WORDS, decode_header};

/// Where a slide puts objects: the pages before `next` were taken where they are of the space, and the last of them has
/// `room` words left.
#[derive(Clone, Copy, Debug, PartialEq, Eq, Drop)]
pub struct SlideCursor {
    pub next: u32,
    pub room: u32,
}

/// The first page of the space from a page on, or the number of pages.
fn next_page<W: Words>(words: &mut W, map: Areas, slid: u64, from: u32) -> u32
    requires sound { Sound map (W.words words.old) }
    requires within { from ≤ map.pages }
    ensures range { (from ≤ result) × (result ≤ map.pages) }
    ensures found { result < map.pages → IsPageOf slid (contents map (W.words words.old)).table result }
    ensures first { (p : ℕ) → from ≤ p → p < result → IsPageOf slid (contents map (W.words words.old)).table p → ⊥ }
    ensures words { W.words words.new ≡ W.words words.old }
    ensures base { W.base words.new ≡ W.base words.old }
{
    for page in from..map.pages {
        if get_page(words, map, page, 0) == slid {
            return page;
        }
    }
    map.pages
}

/// The number of words of the object at an address.
pub fn object_size<W: Words>(words: &mut W, map: Areas, a: usize) -> u32
    requires sound { Sound map (W.words words.old) }
    requires within { a < heap_length map }
    requires header { HasHeader (heap_of map (W.words words.old)) a }
    ensures size { result ≡ size_at (heap_of map (W.words words.old)) a }
    ensures words { W.words words.new ≡ W.words words.old }
    ensures reads { W.reads words.new ≤ W.reads words.old + 1 }
    ensures base { W.base words.new ≡ W.base words.old }
{
    match decode_header(get_heap(words, map, a)) {
        Some(header) => header.fields as u32 + OBJECT_WORDS as u32,
        None => 0,
    }
}

/// The next place of a slide.
fn next_place<W: Words>(
    words: &mut W,
    map: Areas,
    slid: u64,
    cursor: &mut SlideCursor,
    size: u32,
) -> usize
    requires sound { Sound map (W.words words.old) }
    requires size { size ≤ page_words map }
    requires cursor { (cursor.old.room ≤ page_words map) × (cursor.old.room ≤ page_words map * cursor.old.next) × (cursor.old.next ≤ map.pages) }
    requires page { cursor.old.room < size → (p : ℕ) × (p < map.pages) × IsPageOf slid (contents map (W.words words.old)).table p × (cursor.old.next ≤ p) }
    ensures cursor { (cursor.new.room ≤ page_words map) × (cursor.new.room ≤ page_words map * cursor.new.next) × (cursor.new.next ≤ map.pages) }
    ensures front { front map cursor.new.next cursor.new.room ≡ result + size }
    ensures past { front map cursor.old.next cursor.old.room ≤ result }
    ensures first { (p : ℕ) → p < map.pages → IsPageOf slid (contents map (W.words words.old)).table p → cursor.old.room < size → cursor.old.next ≤ p → result ≤ page_words map * p }
    ensures fits { size ≤ cursor.old.room → result ≡ front map cursor.old.next cursor.old.room }
    ensures stays { size ≤ cursor.old.room → cursor.new.next ≡ cursor.old.next }
    ensures taken { cursor.old.room < size → (result ≡ page_words map * (cursor.new.next - 1)) × (1 ≤ cursor.new.next) × IsPageOf slid (contents map (W.words words.old)).table (cursor.new.next - 1) }
    ensures nearest { cursor.old.room < size → IsFirstPage slid (contents map (W.words words.old)).table cursor.old.next (cursor.new.next - 1) }
    ensures dense { (w : ℕ) → page_words map * pages_before slid (contents map (W.words words.old)).table cursor.old.next ≤ 2 * w + cursor.old.room → page_words map * pages_before slid (contents map (W.words words.old)).table cursor.new.next ≤ 2 * (w + size) + cursor.new.room }
    ensures words { W.words words.new ≡ W.words words.old }
    ensures base { W.base words.new ≡ W.base words.old }
{
    if size <= cursor.room {
        let place = map.page_words() as usize * cursor.next as usize - cursor.room as usize;
        cursor.room -= size;
        return place;
    }
    let page = next_page(words, map, slid, cursor.next);
    cursor.next = page + 1;
    cursor.room = map.page_words() - size;
    map.page_words() as usize * page as usize
}

/// Plans the move of an object of a page of the space, if it is marked, and gives the number of its words.
fn plan_object<W: Words>(
    words: &mut W,
    map: Areas,
    slid: u64,
    plan: &mut Plan,
    cursor: &mut SlideCursor,
    a: usize,
) -> u32
    requires sound { Sound map (W.words words.old) }
    requires sliding { (was : Contents) × (runs : Runs map slid was) × Sliding map slid was runs (contents map (W.words words.old)) plan.old.count (move_at (scratch_of map (W.words words.old))) cursor.old.next cursor.old.room a × IsObject map slid was runs a }
    ensures size { result ≡ size_at (heap_of map (W.words words.old)) a }
    ensures sliding { (was : Contents) (runs : Runs map slid was) → Sliding map slid was runs (contents map (W.words words.old)) plan.old.count (move_at (scratch_of map (W.words words.old))) cursor.old.next cursor.old.room a → IsObject map slid was runs a → Sliding map slid was runs (contents map (W.words words.new)) plan.new.count (move_at (scratch_of map (W.words words.new))) cursor.new.next cursor.new.room (a + result) }
    ensures sound { Sound map (W.words words.new) }
    ensures base { W.base words.new ≡ W.base words.old }
{
    let size = object_size(words, map, a);
    if get_heap(words, map, a + 2) == 0 {
        return size;
    }
    let new = next_place(words, map, slid, cursor, size);
    add_move(
        words,
        map,
        plan,
        Addr(a as u32),
        Addr(new as u32),
        Space::Control,
    );
    size
}

/// Plans the moves of the marked objects of a page of the space.
fn plan_page<W: Words>(
    words: &mut W,
    map: Areas,
    slid: u64,
    plan: &mut Plan,
    cursor: &mut SlideCursor,
    page: u32,
)
    requires sound { Sound map (W.words words.old) }
    requires page { page < map.pages }
    requires sliding { (was : Contents) × (runs : Runs map slid was) × Sliding map slid was runs (contents map (W.words words.old)) plan.old.count (move_at (scratch_of map (W.words words.old))) cursor.old.next cursor.old.room (page_words map * page) × IsPageOf slid was.table page }
    ensures sliding { (was : Contents) (runs : Runs map slid was) → Sliding map slid was runs (contents map (W.words words.old)) plan.old.count (move_at (scratch_of map (W.words words.old))) cursor.old.next cursor.old.room (page_words map * page) → IsPageOf slid was.table page → Sliding map slid was runs (contents map (W.words words.new)) plan.new.count (move_at (scratch_of map (W.words words.new))) cursor.new.next cursor.new.room (page_words map * (page + 1)) }
    ensures sound { Sound map (W.words words.new) }
    ensures base { W.base words.new ≡ W.base words.old }
{
    let start = page_start(map, page);
    let end = start + get_page(words, map, page, 1) as usize;
    let mut a = start;
    while a < end {
        a += plan_object(words, map, slid, plan, cursor, a) as usize;
    }
}

/// Plans the moves of the marked objects of a space to the front of its pages.
pub fn plan_pages<W: Words>(
    words: &mut W,
    map: Areas,
    slid: u64,
    plan: &mut Plan,
    cursor: &mut SlideCursor,
)
    requires sound { Sound map (W.words words.old) }
    requires runs { Runs map slid (contents map (W.words words.old)) }
    requires empty { (plan.old.count ≡ 0) × (cursor.old.next ≡ 0) × (cursor.old.room ≡ 0) }
    ensures sliding { (runs : Runs map slid (contents map (W.words words.old))) → Sliding map slid (contents map (W.words words.old)) runs (contents map (W.words words.new)) plan.new.count (move_at (scratch_of map (W.words words.new))) cursor.new.next cursor.new.room (heap_length map) }
    ensures sound { Sound map (W.words words.new) }
    ensures base { W.base words.new ≡ W.base words.old }
{
    for page in 0..map.pages {
        if get_page(words, map, page, 0) == slid {
            plan_page(words, map, slid, plan, cursor, page);
        }
    }
}
