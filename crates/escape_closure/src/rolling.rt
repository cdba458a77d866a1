//! The roll of the escaping objects, by ascending address, in the scratch area.

ghost use Rattle.std.specs.Prelude.{◌≡◌, ◌≢◌, ◌≤◌, ◌<◌, ◌+◌, ◌*◌, ◌==◌, ℕ, cond, length, slice_index};
ghost use Rattle.object_layout.specs.declared.names.Name.{Name};
ghost use Rattle.object_layout.specs.declared.TheConstants.{OBJECT_WORDS};
ghost use Rattle.epoch_lattice.specs.Lattice.{space_index};
ghost use Rattle.heap_words.specs.Map.{HasPage, heap_length, page_words};
ghost use Rattle.heap_words.specs.Cells.{row};
ghost use Rattle.heap_words.specs.Contents.{contents, Sound};
ghost use Rattle.heap_walks.specs.Laid.{IsThing};
ghost use Rattle.heap_walks.specs.Walked.{IsPagePassed};
ghost use Rattle.yak_model.specs.State.{Thing};
ghost use Rattle.yak_model.specs.Placed.{space_word, used_mark};
ghost use Rattle.yak_model.specs.Stands.{pages_of};
ghost use Rattle.remember_sets.specs.Filed.{NoneFrom};
ghost use Rattle.region_pages.specs.Counts.{used_by, used_of};
ghost use Rattle.escape_closure.specs.Rolls.{Aimed, AimsInside, Rolled, IsOnRoll, Grows, OnlyScratch};

use crate::WORK_WORD;
use heap_words::{Areas, Words, get_heap, get_page, set_scratch};
use object_layout::{OBJECT_WORDS, field_count};
use region_pages::{SPACE_WORD, USED_MARK};
use relocation::MOVE_WORDS;

/// Puts an object at the end of the roll, where it has a target.
fn roll_object<W: Words>(words: &mut W, map: Areas, count: usize, a: usize) -> usize
    requires sound { Sound map (W.words words.old) }
    requires some { ∥ ((q : Aimed) × AimsInside map q × (n : Name) × (o : Thing) × IsThing q.laid n o × (a ≡ q.laid.places.at n) × Rolled q (contents map (W.words words.old)) a count) ∥₁ }
    ensures rolled { (q : Aimed) → AimsInside map q → (n : Name) (o : Thing) → IsThing q.laid n o → a ≡ q.laid.places.at n → (r : Rolled q (contents map (W.words words.old)) a count) → (limit : ℕ) → limit ≡ a + (length o.fields + OBJECT_WORDS) → (s : Grows q (contents map (W.words words.new)) limit result r.name count) × IsOnRoll q s.roll.name result n }
    ensures frame { OnlyScratch (contents map (W.words words.old)) (contents map (W.words words.new)) }
    ensures sound { Sound map (W.words words.new) }
    ensures reads { W.reads words.new ≤ W.reads words.old + 1 }
    ensures base { W.base words.new ≡ W.base words.old }
{
    let work = get_heap(words, map, a + WORK_WORD);
    if work == 0 {
        return count;
    }
    set_scratch(words, map, MOVE_WORDS * count, a as u64);
    count + 1
}

/// Puts the objects of a page on the roll, where they have a target.
fn roll_page<W: Words>(words: &mut W, map: Areas, count: usize, page: u32) -> usize
    requires sound { Sound map (W.words words.old) }
    requires page { HasPage map page }
    requires some { ∥ ((q : Aimed) × AimsInside map q × Rolled q (contents map (W.words words.old)) (page_words map * page) count) ∥₁ }
    ensures rolled { (q : Aimed) → AimsInside map q → (r : Rolled q (contents map (W.words words.old)) (page_words map * page) count) → (s : Grows q (contents map (W.words words.new)) (page_words map * (page + 1)) result r.name count) × IsPagePassed q.laid (IsOnRoll q s.roll.name result) page }
    ensures frame { OnlyScratch (contents map (W.words words.old)) (contents map (W.words words.new)) }
    ensures sound { Sound map (W.words words.new) }
    ensures reads { W.reads words.new ≤ W.reads words.old + (1 + used_mark (contents map (W.words words.old)).table page) }
    ensures base { W.base words.new ≡ W.base words.old }
{
    let start = map.page_words() as usize * page as usize;
    let used = get_page(words, map, page, USED_MARK) as usize;
    let mut count = count;
    let mut offset = 0;
    while offset < used {
        let fields = field_count(get_heap(words, map, start + offset));
        count = roll_object(words, map, count, start + offset);
        offset += fields + OBJECT_WORDS as usize;
    }
    count
}

/// Puts the objects of a page on the roll, where the page is the region's.
fn roll_where_in<W: Words>(words: &mut W, map: Areas, count: usize, page: u32, region: u8) -> usize
    requires sound { Sound map (W.words words.old) }
    requires page { HasPage map page }
    requires some { ∥ ((q : Aimed) × (space_index q.region ≡ region) × AimsInside map q × Rolled q (contents map (W.words words.old)) (page_words map * page) count) ∥₁ }
    ensures rolled { (q : Aimed) → space_index q.region ≡ region → AimsInside map q → (r : Rolled q (contents map (W.words words.old)) (page_words map * page) count) → (s : Grows q (contents map (W.words words.new)) (page_words map * (page + 1)) result r.name count) × IsPagePassed q.laid (IsOnRoll q s.roll.name result) page × (W.reads words.new ≤ W.reads words.old + (1 + cond (space_word (contents map (W.words words.old)).table page == space_index q.region + 1) 1 0 + used_by q.region (row (contents map (W.words words.old)).table page))) }
    ensures frame { OnlyScratch (contents map (W.words words.old)) (contents map (W.words words.new)) }
    ensures sound { Sound map (W.words words.new) }
    ensures base { W.base words.new ≡ W.base words.old }
{
    let space = get_page(words, map, page, SPACE_WORD);
    let own = region as u64 + 1;
    if space == own {
        return roll_page(words, map, count, page);
    }
    count
}

/// Puts the objects of a region that have a target on the roll, and answers how many these are. All pages of the region are
/// among the first `end` pages.
pub(crate) fn roll_region<W: Words>(words: &mut W, map: Areas, region: u8, end: u32) -> usize
    requires sound { Sound map (W.words words.old) }
    requires within { end ≤ map.pages }
    requires none_from { NoneFrom map (contents map (W.words words.old)).table (region + 1) end }
    requires some { ∥ ((q : Aimed) × (space_index q.region ≡ region) × AimsInside map q × (q.words ≡ contents map (W.words words.old))) ∥₁ }
    ensures rolled { (q : Aimed) → space_index q.region ≡ region → AimsInside map q → q.words ≡ contents map (W.words words.old) → (s : Rolled q (contents map (W.words words.new)) (heap_length map) result) × ((n : Name) (o : Thing) → IsThing q.laid n o → IsOnRoll q s.name result n) × (W.reads words.new ≤ W.reads words.old + (end + pages_of q.words.table q.region + used_of q.words.table q.region)) }
    ensures frame { OnlyScratch (contents map (W.words words.old)) (contents map (W.words words.new)) }
    ensures sound { Sound map (W.words words.new) }
    ensures base { W.base words.new ≡ W.base words.old }
{
    let mut count = 0;
    for page in 0..end {
        count = roll_where_in(words, map, count, page, region);
    }
    count
}
