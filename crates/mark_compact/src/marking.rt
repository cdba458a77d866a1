//! The marking of the control objects that a collection keeps.
//!
//! A mark is the work word 1. The addresses of the marked objects stand in the scratch area, each once, in the order in which
//! they were marked; the fields of an object are followed after its mark.

ghost use Rattle.std.specs.Prelude.{◌≡◌, ◌≤◌, ◌<◌, ◌+◌, ◌-◌, ◌*◌, ◌↔◌, ℕ, IsTrue, length};
ghost use Rattle.object_layout.specs.declared.TheConstants.{HEADER_BASE, SPACE_UNIT, MAX_FIELDS};
ghost use Rattle.heap_words.specs.Map.{HasThread, HasPage};
ghost use Rattle.heap_words.specs.Contents.{contents, stack_of, Sound};
ghost use Rattle.yak_model.specs.Spaces.{SpaceState};
ghost use Rattle.yak_model.specs.Placed.{space_word, used_mark};
ghost use Rattle.yak_model.specs.Stands.{Stands};
ghost use Rattle.heap_walks.specs.Laid.{Laid};
ghost use Rattle.mark_compact.specs.Marked.{MarksLive, slots_used, words_used};
ghost use Rattle.mark_compact.specs.Marking.{Marking, GoesOn, IsLead, IsFollowed, IsAliveAt, IsScanned, IsStackMarked, IsPageMarked, ArePagesMarked, AreListedScanned};

use heap_words::{
    Areas, Words, get_heap, get_page, get_scratch, get_stack, set_heap, set_scratch, stack_length,
};
use object_layout::{MAX_SPACE, OBJECT_WORDS, address, decode_header, field_count};

/// Whether a header is that of an object of the control space.
fn is_control(word: u64) -> bool
    ensures { (fields space : ℕ) → fields ≤ MAX_FIELDS → space ≤ MAX_SPACE → word ≡ HEADER_BASE + SPACE_UNIT * space + fields → IsTrue result ↔ (space ≡ 0) }
{
    match decode_header(word) {
        Some(header) => header.space == 0,
        None => false,
    }
}

/// Marks the control object to which a value word refers, where it has no mark, and puts it on the list.
fn mark_reference<W: Words>(words: &mut W, map: Areas, count: usize, word: u64) -> usize
    requires sound { Sound map (W.words words.old) }
    requires some { ∥ ((h : Laid) × Marking map h (contents map (W.words words.old)) count × IsLead h word) ∥₁ }
    ensures marking { (h : Laid) → Marking map h (contents map (W.words words.old)) count → IsLead h word → GoesOn map h (contents map (W.words words.old)) count (contents map (W.words words.new)) result × IsFollowed h (contents map (W.words words.new)) word }
    ensures sound { Sound map (W.words words.new) }
    ensures reads { W.reads words.new ≤ W.reads words.old + 2 }
    ensures base { W.base words.new ≡ W.base words.old }
{
    let Some(a) = address(word) else {
        return count;
    };
    let header = get_heap(words, map, a);
    if !is_control(header) {
        return count;
    }
    let work = get_heap(words, map, a + 2);
    if work != 0 {
        return count;
    }
    set_heap(words, map, a + 2, 1);
    set_scratch(words, map, count, a as u64);
    count + 1
}

/// Marks the control objects to which the fields of the object at an address refer.
fn scan_object<W: Words>(words: &mut W, map: Areas, count: usize, a: usize) -> usize
    requires sound { Sound map (W.words words.old) }
    requires some { ∥ ((h : Laid) × Marking map h (contents map (W.words words.old)) count × IsAliveAt h a) ∥₁ }
    ensures marking { (h : Laid) → Marking map h (contents map (W.words words.old)) count → IsAliveAt h a → GoesOn map h (contents map (W.words words.old)) count (contents map (W.words words.new)) result × IsScanned h (contents map (W.words words.new)) a }
    ensures sound { Sound map (W.words words.new) }
    ensures reads { (h : Laid) → Marking map h (contents map (W.words words.old)) count → (at : IsAliveAt h a) → W.reads words.new ≤ W.reads words.old + (1 + 3 * length at.object.fields) }
    ensures base { W.base words.new ≡ W.base words.old }
{
    let fields = field_count(get_heap(words, map, a));
    let mut count = count;
    for f in 0..fields {
        let word = get_heap(words, map, a + OBJECT_WORDS as usize + f);
        count = mark_reference(words, map, count, word);
    }
    count
}

/// Marks the control objects to which the slots of a thread's stack refer.
fn mark_stack<W: Words>(words: &mut W, map: Areas, count: usize, thread: u8) -> usize
    requires sound { Sound map (W.words words.old) }
    requires thread { HasThread map thread }
    requires some { ∥ ((h : Laid) × Marking map h (contents map (W.words words.old)) count) ∥₁ }
    ensures marking { (h : Laid) → Marking map h (contents map (W.words words.old)) count → GoesOn map h (contents map (W.words words.old)) count (contents map (W.words words.new)) result × IsStackMarked h (contents map (W.words words.new)) (thread - 1) }
    ensures sound { Sound map (W.words words.new) }
    ensures reads { W.reads words.new ≤ W.reads words.old + (1 + 3 * length (stack_of (contents map (W.words words.old)) thread)) }
    ensures base { W.base words.new ≡ W.base words.old }
{
    let length = stack_length(words, map, thread);
    let mut count = count;
    for s in 0..length {
        let word = get_stack(words, map, thread, s);
        count = mark_reference(words, map, count, word);
    }
    count
}

/// Marks the control objects to which stacks refer.
fn mark_stacks<W: Words>(words: &mut W, map: Areas, count: usize) -> usize
    requires sound { Sound map (W.words words.old) }
    requires some { ∥ ((h : Laid) × Marking map h (contents map (W.words words.old)) count) ∥₁ }
    ensures marking { (h : Laid) → Marking map h (contents map (W.words words.old)) count → GoesOn map h (contents map (W.words words.old)) count (contents map (W.words words.new)) result × ((t : ℕ) → t < map.threads → IsStackMarked h (contents map (W.words words.new)) t) }
    ensures sound { Sound map (W.words words.new) }
    ensures reads { W.reads words.new ≤ W.reads words.old + (map.threads + 3 * slots_used (contents map (W.words words.old)).stacks) }
    ensures base { W.base words.new ≡ W.base words.old }
{
    let mut count = count;
    for t in 0..map.threads {
        count = mark_stack(words, map, count, t + 1);
    }
    count
}

/// Marks the control objects to which the objects of a region's page refer.
fn mark_page<W: Words>(words: &mut W, map: Areas, count: usize, page: u32) -> usize
    requires sound { Sound map (W.words words.old) }
    requires page { HasPage map page }
    requires region { 1 < space_word (contents map (W.words words.old)).table page }
    requires some { ∥ ((h : Laid) × Marking map h (contents map (W.words words.old)) count) ∥₁ }
    ensures marking { (h : Laid) → Marking map h (contents map (W.words words.old)) count → GoesOn map h (contents map (W.words words.old)) count (contents map (W.words words.new)) result × IsPageMarked h (contents map (W.words words.new)) page }
    ensures sound { Sound map (W.words words.new) }
    ensures reads { W.reads words.new ≤ W.reads words.old + (1 + 3 * used_mark (contents map (W.words words.old)).table page) }
    ensures base { W.base words.new ≡ W.base words.old }
{
    let start = map.page_words() as usize * page as usize;
    let used = get_page(words, map, page, 1) as usize;
    let mut count = count;
    let mut offset = 0;
    while offset < used {
        let fields = field_count(get_heap(words, map, start + offset));
        count = scan_object(words, map, count, start + offset);
        offset += fields + OBJECT_WORDS as usize;
    }
    count
}

/// Marks the control objects to which the objects of a page refer, where it is a region's.
fn mark_where_regional<W: Words>(words: &mut W, map: Areas, count: usize, page: u32) -> usize
    requires sound { Sound map (W.words words.old) }
    requires page { HasPage map page }
    requires some { ∥ ((h : Laid) × Marking map h (contents map (W.words words.old)) count) ∥₁ }
    ensures marking { (h : Laid) → Marking map h (contents map (W.words words.old)) count → GoesOn map h (contents map (W.words words.old)) count (contents map (W.words words.new)) result × (1 < space_word (contents map (W.words words.old)).table page → IsPageMarked h (contents map (W.words words.new)) page) }
    ensures sound { Sound map (W.words words.new) }
    ensures reads { W.reads words.new ≤ W.reads words.old + (2 + 3 * used_mark (contents map (W.words words.old)).table page) }
    ensures base { W.base words.new ≡ W.base words.old }
{
    let space = get_page(words, map, page, 0);
    if space <= 1 {
        return count;
    }
    mark_page(words, map, count, page)
}

/// Marks the control objects to which the objects of regions refer.
fn mark_pages<W: Words>(words: &mut W, map: Areas, count: usize) -> usize
    requires sound { Sound map (W.words words.old) }
    requires some { ∥ ((h : Laid) × Marking map h (contents map (W.words words.old)) count) ∥₁ }
    ensures marking { (h : Laid) → Marking map h (contents map (W.words words.old)) count → GoesOn map h (contents map (W.words words.old)) count (contents map (W.words words.new)) result × ArePagesMarked h (contents map (W.words words.new)) map.pages }
    ensures sound { Sound map (W.words words.new) }
    ensures reads { W.reads words.new ≤ W.reads words.old + (2 * map.pages + 3 * words_used (contents map (W.words words.old)).table) }
    ensures base { W.base words.new ≡ W.base words.old }
{
    let mut count = count;
    for page in 0..map.pages {
        count = mark_where_regional(words, map, count, page);
    }
    count
}

/// Marks the control objects to which the objects of the list lead.
fn drain<W: Words>(words: &mut W, map: Areas, count: usize) -> usize
    requires sound { Sound map (W.words words.old) }
    requires some { ∥ ((h : Laid) × Marking map h (contents map (W.words words.old)) count) ∥₁ }
    ensures marking { (h : Laid) → Marking map h (contents map (W.words words.old)) count → GoesOn map h (contents map (W.words words.old)) count (contents map (W.words words.new)) result × AreListedScanned h (contents map (W.words words.new)) result }
    ensures sound { Sound map (W.words words.new) }
    ensures reads { W.reads words.new ≤ W.reads words.old + 3 * words_used (contents map (W.words words.old)).table }
    ensures base { W.base words.new ≡ W.base words.old }
{
    let mut count = count;
    let mut next = 0;
    while next < count {
        let a = get_scratch(words, map, next) as usize;
        count = scan_object(words, map, count, a);
        next += 1;
    }
    count
}

/// Writes 1 into the work word of each object of the control space that a collection keeps, and gives their number. All work
/// words are 0 before, and those of all other objects stay 0.
pub fn mark<W: Words>(words: &mut W, map: Areas) -> u32
    requires sound { Sound map (W.words words.old) }
    requires stands { ∥ ((s : SpaceState) × Stands map (contents map (W.words words.old)) s) ∥₁ }
    ensures marked { (s : SpaceState) (stands : Stands map (contents map (W.words words.old)) s) → MarksLive map s stands.places (contents map (W.words words.old)) (contents map (W.words words.new)) result }
    ensures sound { Sound map (W.words words.new) }
    ensures reads { let c = contents map (W.words words.old) in W.reads words.new ≤ W.reads words.old + (map.threads + 3 * slots_used c.stacks + 2 * map.pages + 6 * words_used c.table) }
    ensures base { W.base words.new ≡ W.base words.old }
{
    let held = mark_stacks(words, map, 0);
    let begun = mark_pages(words, map, held);
    let count = drain(words, map, begun);
    count as u32
}
