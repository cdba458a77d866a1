//! The pages that placing the escaping objects would claim.

ghost use Rattle.std.specs.Prelude.{◌≡◌, ◌≤◌, ◌<◌, ◌+◌, ◌-◌, ◌*◌, ℕ, slice_index, Some};
ghost use Rattle.object_layout.specs.declared.names.Name.{Name};
ghost use Rattle.yak_model.specs.Placed.{size_by};
ghost use Rattle.heap_walks.specs.Laid.{work_of};
ghost use Rattle.object_layout.specs.declared.TheConstants.{MAX_SPACE, OBJECT_WORDS};
ghost use Rattle.epoch_lattice.specs.declared.TheConstants.{MAX_DEPTH};
ghost use Rattle.epoch_lattice.specs.Lattice.{IsValid};
ghost use Rattle.heap_words.specs.Map.{HasThread, IsAreas, heap_length, max_depth, page_words};
ghost use Rattle.heap_words.specs.Contents.{contents, with_scratch, Sound};
ghost use Rattle.yak_model.specs.Stands.{CurrentsStand};
ghost use Rattle.region_pages.specs.Placement.{words_left_at};
ghost use Rattle.escape_closure.specs.Rolls.{Aimed, AimsInside, Rolled};
ghost use Rattle.escape_closure.specs.Placing.{EntryAt, OnlyRooms, RoomsStand, claims, filling, index_on, left, room_in, rooms_at, size_on};

use crate::WORK_WORD;
use epoch_lattice::{Space, space_at};
use heap_words::{Areas, Words, get_current, get_heap, get_page, get_scratch, set_scratch};
use object_layout::{MAX_SPACE, OBJECT_WORDS, field_count};
use region_pages::USED_MARK;
use relocation::MOVE_WORDS;

/// The words left in a thread's current page at a depth, 0 where it has none.
fn words_left<W: Words>(words: &mut W, map: Areas, thread: u8, depth: u8) -> u64
    requires sound { Sound map (W.words words.old) }
    requires thread { HasThread map thread }
    requires depth { depth ≤ max_depth map }
    requires currents { let c = contents map (W.words words.old) in CurrentsStand map c.currents c.table }
    ensures left { result ≡ words_left_at map (contents map (W.words words.old)) thread depth }
    ensures words { W.words words.new ≡ W.words words.old }
    ensures reads { W.reads words.new ≤ W.reads words.old + 2 }
    ensures base { W.base words.new ≡ W.base words.old }
{
    let current = get_current(words, map, thread, depth);
    if current == 0 {
        return 0;
    }
    let used = get_page(words, map, (current - 1) as u32, USED_MARK);
    (map.page_words() as u64).saturating_sub(used)
}

/// The words left in the current page of a space, where that of Control is the thread's.
fn room_in_space<W: Words>(words: &mut W, map: Areas, thread: u8, space: Space) -> u64
    requires sound { Sound map (W.words words.old) }
    requires thread { HasThread map thread }
    requires space { IsValid MAX_DEPTH space }
    requires currents { let c = contents map (W.words words.old) in CurrentsStand map c.currents c.table }
    ensures room { result ≡ room_in map (contents map (W.words words.old)) thread (Some space) }
    ensures words { W.words words.new ≡ W.words words.old }
    ensures reads { W.reads words.new ≤ W.reads words.old + 2 }
    ensures base { W.base words.new ≡ W.base words.old }
{
    match space {
        Space::Control => words_left(words, map, thread, 0),
        Space::Region {
            thread: owner,
            depth,
        } => {
            if owner > map.threads {
                0
            } else {
                words_left(words, map, owner, depth)
            }
        }
    }
}

/// Where the words left in the current page of the space of a number are noted in the scratch area.
fn room_place(map: Areas, index: u8) -> usize
    requires { IsAreas map }
    ensures { result ≡ heap_length map + index }
{
    map.heap_length() + index as usize
}

/// The words left in the current page of the space of a number, where that of Control is the thread's.
fn room_at<W: Words>(words: &mut W, map: Areas, thread: u8, index: u8) -> u64
    requires sound { Sound map (W.words words.old) }
    requires thread { HasThread map thread }
    requires currents { let c = contents map (W.words words.old) in CurrentsStand map c.currents c.table }
    ensures room { result ≡ rooms_at map (contents map (W.words words.old)) thread index }
    ensures words { W.words words.new ≡ W.words words.old }
    ensures reads { W.reads words.new ≤ W.reads words.old + 2 }
    ensures base { W.base words.new ≡ W.base words.old }
{
    match space_at(index) {
        None => 0,
        Some(space) => room_in_space(words, map, thread, space),
    }
}

/// Notes the words left in the current pages of all spaces behind the roll.
fn note_rooms<W: Words>(words: &mut W, map: Areas, thread: u8)
    requires sound { Sound map (W.words words.old) }
    requires thread { HasThread map thread }
    requires currents { let c = contents map (W.words words.old) in CurrentsStand map c.currents c.table }
    ensures rooms { RoomsStand map (contents map (W.words words.new)) (rooms_at map (contents map (W.words words.old)) thread) }
    ensures others { OnlyRooms map (contents map (W.words words.old)) (contents map (W.words words.new)) }
    ensures sound { Sound map (W.words words.new) }
    ensures reads { W.reads words.new ≤ W.reads words.old + 2 * (MAX_SPACE + 1) }
    ensures base { W.base words.new ≡ W.base words.old }
{
    for index in 0..MAX_SPACE + 1 {
        let room = room_at(words, map, thread, index);
        set_scratch(words, map, room_place(map, index), room);
    }
}

/// An object of the roll: its words, and the number of its target.
#[derive(Clone, Copy, Debug, PartialEq, Eq, Drop)]
pub(crate) struct Entry {
    pub old: usize,
    pub size: u16,
    pub index: u8,
}

/// The object of the roll with a number.
pub(crate) fn read_entry<W: Words>(words: &mut W, map: Areas, k: usize) -> Entry
    requires sound { Sound map (W.words words.old) }
    requires some { ∥ ((q : Aimed) × AimsInside map q × (n : Name) × EntryAt map q (contents map (W.words words.old)) n k) ∥₁ }
    ensures read { (q : Aimed) → AimsInside map q → (n : Name) → EntryAt map q (contents map (W.words words.old)) n k → (result.old ≡ q.laid.places.at n) × (result.size ≡ size_by q.laid.state.objects n) × (result.index ≡ work_of q.laid q.words n - 1) }
    ensures within { result.old + OBJECT_WORDS ≤ heap_length map }
    ensures index { result.index ≤ MAX_SPACE }
    ensures size { (OBJECT_WORDS ≤ result.size) × (result.size ≤ page_words map) }
    ensures words { W.words words.new ≡ W.words words.old }
    ensures reads { W.reads words.new ≤ W.reads words.old + 3 }
    ensures base { W.base words.new ≡ W.base words.old }
{
    let old = get_scratch(words, map, MOVE_WORDS * k) as usize;
    let fields = field_count(get_heap(words, map, old));
    let work = get_heap(words, map, old + WORK_WORD);
    Entry {
        old,
        size: fields as u16 + OBJECT_WORDS,
        index: (work - 1) as u8,
    }
}

/// Takes room for an object of some words in the space of a number, and answers how many pages this claims.
fn use_room<W: Words>(words: &mut W, map: Areas, index: u8, size: u16) -> u32
    requires sound { Sound map (W.words words.old) }
    requires index { index ≤ MAX_SPACE }
    requires size { size ≤ page_words map }
    ensures left { let c = contents map (W.words words.old) in contents map (W.words words.new) ≡ with_scratch c (heap_length map + index) (left map size (slice_index c.scratch (heap_length map + index))) }
    ensures claims { result ≡ claims size (slice_index (contents map (W.words words.old)).scratch (heap_length map + index)) }
    ensures sound { Sound map (W.words words.new) }
    ensures reads { W.reads words.new ≤ W.reads words.old + 1 }
    ensures base { W.base words.new ≡ W.base words.old }
{
    let place = room_place(map, index);
    let room = get_scratch(words, map, place);
    let wanted = size as u64;
    if wanted <= room {
        set_scratch(words, map, place, room - wanted);
        return 0;
    }
    let page = map.page_words() as u64;
    set_scratch(words, map, place, page - wanted);
    1
}

/// How many pages placing the objects of the roll would claim, by the words left that are noted behind it.
fn claims_of<W: Words>(words: &mut W, map: Areas, count: usize) -> u32
    requires sound { Sound map (W.words words.old) }
    requires some { ∥ ((q : Aimed) × AimsInside map q × Rolled q (contents map (W.words words.old)) (heap_length map) count) ∥₁ }
    ensures needed { (q : Aimed) → AimsInside map q → (r : Rolled q (contents map (W.words words.old)) (heap_length map) count) → (rooms : ℕ → ℕ) → RoomsStand map (contents map (W.words words.old)) rooms → result ≡ (filling map rooms (index_on q (contents map (W.words words.old)) (heap_length map) count r) (size_on q (contents map (W.words words.old)) (heap_length map) count r) count).claimed }
    ensures others { OnlyRooms map (contents map (W.words words.old)) (contents map (W.words words.new)) }
    ensures sound { Sound map (W.words words.new) }
    ensures reads { W.reads words.new ≤ W.reads words.old + 4 * count }
    ensures base { W.base words.new ≡ W.base words.old }
{
    let mut needed = 0;
    for k in 0..count {
        let entry = read_entry(words, map, k);
        needed += use_room(words, map, entry.index, entry.size);
    }
    needed
}

/// How many pages placing the objects of the roll would claim.
pub(crate) fn needed_pages<W: Words>(words: &mut W, map: Areas, thread: u8, count: usize) -> u32
    requires sound { Sound map (W.words words.old) }
    requires thread { HasThread map thread }
    requires currents { let c = contents map (W.words words.old) in CurrentsStand map c.currents c.table }
    requires some { ∥ ((q : Aimed) × AimsInside map q × Rolled q (contents map (W.words words.old)) (heap_length map) count) ∥₁ }
    ensures needed { let c = contents map (W.words words.old) in (q : Aimed) → AimsInside map q → (r : Rolled q c (heap_length map) count) → result ≡ (filling map (rooms_at map c thread) (index_on q c (heap_length map) count r) (size_on q c (heap_length map) count r) count).claimed }
    ensures others { OnlyRooms map (contents map (W.words words.old)) (contents map (W.words words.new)) }
    ensures sound { Sound map (W.words words.new) }
    ensures reads { W.reads words.new ≤ W.reads words.old + (2 * (MAX_SPACE + 1) + 4 * count) }
    ensures base { W.base words.new ≡ W.base words.old }
{
    note_rooms(words, map, thread);
    claims_of(words, map, count)
}
