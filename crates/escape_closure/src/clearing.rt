//! The targets of an end that isn't made, cleared.

ghost use Rattle.std.specs.Prelude.{◌≡◌, ◌≤◌, ◌<◌, ◌+◌, ◌*◌, ℕ};
ghost use Rattle.epoch_lattice.specs.declared.Space.{Space};
ghost use Rattle.epoch_lattice.specs.Lattice.{space_index};
ghost use Rattle.heap_words.specs.Map.{HasPage, HasThread};
ghost use Rattle.heap_words.specs.Cells.{row};
ghost use Rattle.heap_words.specs.Contents.{Contents, contents, depth_of, Sound};
ghost use Rattle.heap_walks.specs.Laid.{Laid, IsAmong};
ghost use Rattle.heap_walks.specs.Walked.{IsPagePassed};
ghost use Rattle.yak_model.specs.Spaces.{SpaceState, innermost};
ghost use Rattle.yak_model.specs.Placed.{space_word, used_mark};
ghost use Rattle.yak_model.specs.Stands.{Stands};
ghost use Rattle.relocation.specs.Moves.{OnlyHeap};
ghost use Rattle.region_pages.specs.Counts.{used_by, used_of};
ghost use Rattle.escape_closure.specs.Cleared.{ArePagesClear, ClearsOn, IsClear};
ghost use Rattle.escape_closure.specs.Rolls.{OnlyScratch};
ghost use Rattle.escape_closure.specs.Targets.{TargetsWritten};

use crate::WORK_WORD;
use epoch_lattice::{Space, index_of};
use heap_words::{Areas, Words, get_heap, get_page, set_heap};
use object_layout::{OBJECT_WORDS, field_count};
use region_pages::{SPACE_WORD, USED_MARK};
use thread_stacks::depth;

/// Sets the work words of the objects of a page to 0.
fn clear_page<W: Words>(words: &mut W, map: Areas, page: u32)
    requires sound { Sound map (W.words words.old) }
    requires page { HasPage map page }
    requires some { ∥ ((h : Laid) × IsAmong map h (contents map (W.words words.old))) ∥₁ }
    ensures cleared { let c = contents map (W.words words.old) in let d = contents map (W.words words.new) in (h : Laid) → IsAmong map h c → ClearsOn map h c d × IsPagePassed h (IsClear h d) page }
    ensures only_heap { OnlyHeap map (W.words words.old) (W.words words.new) }
    ensures sound { Sound map (W.words words.new) }
    ensures reads { W.reads words.new ≤ W.reads words.old + (1 + used_mark (contents map (W.words words.old)).table page) }
    ensures base { W.base words.new ≡ W.base words.old }
{
    let start = map.page_words() as usize * page as usize;
    let used = get_page(words, map, page, USED_MARK) as usize;
    let mut offset = 0;
    while offset < used {
        let fields = field_count(get_heap(words, map, start + offset));
        set_heap(words, map, start + offset + WORK_WORD, 0);
        offset += fields + OBJECT_WORDS as usize;
    }
}

/// Sets the work words of the objects of a page to 0, where the page is the region's.
fn clear_where_in<W: Words>(words: &mut W, map: Areas, page: u32, region: u8)
    requires sound { Sound map (W.words words.old) }
    requires page { HasPage map page }
    requires some { ∥ ((h : Laid) × IsAmong map h (contents map (W.words words.old))) ∥₁ }
    ensures cleared { let c = contents map (W.words words.old) in let d = contents map (W.words words.new) in (h : Laid) → IsAmong map h c → ClearsOn map h c d × (space_word c.table page ≡ region + 1 → IsPagePassed h (IsClear h d) page) }
    ensures only_heap { OnlyHeap map (W.words words.old) (W.words words.new) }
    ensures sound { Sound map (W.words words.new) }
    ensures reads { (x : Space) → space_index x ≡ region → W.reads words.new ≤ W.reads words.old + (2 + used_by x (row (contents map (W.words words.old)).table page)) }
    ensures base { W.base words.new ≡ W.base words.old }
{
    let space = get_page(words, map, page, SPACE_WORD);
    let own = region as u64 + 1;
    if space == own {
        clear_page(words, map, page);
    }
}

/// Sets the work words of the objects of a region to 0.
fn clear_region<W: Words>(words: &mut W, map: Areas, region: u8)
    requires sound { Sound map (W.words words.old) }
    requires some { ∥ ((h : Laid) × IsAmong map h (contents map (W.words words.old))) ∥₁ }
    ensures cleared { let c = contents map (W.words words.old) in let d = contents map (W.words words.new) in (h : Laid) → IsAmong map h c → ClearsOn map h c d × ArePagesClear h d c.table region map.pages }
    ensures only_heap { OnlyHeap map (W.words words.old) (W.words words.new) }
    ensures sound { Sound map (W.words words.new) }
    ensures reads { (x : Space) → space_index x ≡ region → W.reads words.new ≤ W.reads words.old + (2 * map.pages + used_of (contents map (W.words words.old)).table x) }
    ensures base { W.base words.new ≡ W.base words.old }
{
    for page in 0..map.pages {
        clear_where_in(words, map, page, region);
    }
}

/// Clears the targets of the objects that escape from the innermost region of a thread, where the end isn't made because pages
/// are short: the work words are 0 again, as they were before the targets were written.
pub(crate) fn clear_targets<W: Words>(words: &mut W, map: Areas, thread: u8)
    requires sound { Sound map (W.words words.old) }
    requires thread { HasThread map thread }
    requires depth { 1 ≤ depth_of (contents map (W.words words.old)) thread }
    requires aimed { ∥ ((s : SpaceState) × (before : Contents) × (stands : Stands map before s) × (escaping : ℕ) × (now : Contents) × TargetsWritten map s stands.places thread before now escaping × OnlyScratch now (contents map (W.words words.old))) ∥₁ }
    ensures cleared { (s : SpaceState) (before : Contents) (stands : Stands map before s) (escaping : ℕ) (now : Contents) → TargetsWritten map s stands.places thread before now escaping → OnlyScratch now (contents map (W.words words.old)) → contents map (W.words words.new) ≡ record before { scratch = (contents map (W.words words.new)).scratch } }
    ensures reads { (s : SpaceState) (before : Contents) (stands : Stands map before s) (escaping : ℕ) (now : Contents) → TargetsWritten map s stands.places thread before now escaping → OnlyScratch now (contents map (W.words words.old)) → W.reads words.new ≤ W.reads words.old + (2 * map.pages + used_of before.table (innermost s.graph thread) + 1) }
    ensures sound { Sound map (W.words words.new) }
    ensures base { W.base words.new ≡ W.base words.old }
{
    let innermost = depth(words, map, thread);
    let region = index_of(Space::Region {
        thread,
        depth: innermost,
    });
    clear_region(words, map, region);
}
