//! The planning of the slide of a collection.

ghost use Rattle.std.specs.Prelude.{◌≡◌, ◌≤◌, ◌+◌, ◌*◌, ℕ, Bool};
ghost use Rattle.object_layout.specs.declared.names.Name.{Name};
ghost use Rattle.heap_words.specs.Map.{page_words};
ghost use Rattle.heap_words.specs.Contents.{Sound, contents};
ghost use Rattle.yak_model.specs.State.{State, IsClosed};
ghost use Rattle.yak_model.specs.Placed.{HeapStands, Places};
ghost use Rattle.yak_model.specs.Plans.{without, IsLawfulPlan};
ghost use Rattle.yak_model.specs.Stands.{pages_of};
ghost use Rattle.relocation.specs.Moves.{heap_of, scratch_of, move_at, AllMovable, Numbered, words_moved};
ghost use Rattle.relocation.specs.Slide.{pages_before, Drops, Runs};
ghost use Rattle.mark_compact.specs.Given.{GivenBack, IsSlid};
ghost use Rattle.epoch_lattice.specs.declared.Space.TheVariants.{Control};

use heap_words::{Areas, Words, get_page, set_page};
use relocation::{Plan, SlideCursor, empty_plan, plan_pages};

/// The word of the control space in the page table.
pub const CONTROL_WORD: u64 = 1;

/// Gives back the control pages from a page on.
fn give_back<W: Words>(words: &mut W, map: Areas, next: u32)
    requires sound { Sound map (W.words words.old) }
    requires within { next ≤ map.pages }
    ensures given_back { GivenBack map (contents map (W.words words.old)) (contents map (W.words words.new)) next }
    ensures packed { pages_of (contents map (W.words words.new)).table Control ≡ pages_before CONTROL_WORD (contents map (W.words words.old)).table next }
    ensures sound { Sound map (W.words words.new) }
    ensures base { W.base words.new ≡ W.base words.old }
{
    for page in next..map.pages {
        if get_page(words, map, page, 0) == CONTROL_WORD {
            set_page(words, map, page, 0, 0);
            set_page(words, map, page, 1, 0);
        }
    }
}

/// Plans a slide of the marked control objects to the front of the control pages, and gives back the control pages
/// that it leaves empty. The work words of the planned objects tell the numbers of their moves.
pub fn plan_slide<W: Words>(words: &mut W, map: Areas) -> Plan
    requires sound { Sound map (W.words words.old) }
    requires runs { Runs map CONTROL_WORD (contents map (W.words words.old)) }
    ensures numbered { Numbered map (heap_of map (W.words words.new)) result.count (move_at (scratch_of map (W.words words.new))) }
    ensures movable { AllMovable map (heap_of map (W.words words.new)) result.count (move_at (scratch_of map (W.words words.new))) }
    ensures lawful { (s : State) (l : Places) (work : Name → ℕ) (dropped : Name → Bool) → (let was = contents map (W.words words.old) in HeapStands map was.table was.heap s.objects l work → IsClosed s → Drops CONTROL_WORD s work dropped → IsClosed (without s dropped) → IsLawfulPlan map result.count (move_at (scratch_of map (W.words words.new))) s l.at dropped) }
    ensures slid { (runs : Runs map CONTROL_WORD (contents map (W.words words.old))) → IsSlid map (contents map (W.words words.old)) runs (contents map (W.words words.new)) result.count (move_at (scratch_of map (W.words words.new))) }
    ensures packed { page_words map * pages_of (contents map (W.words words.new)).table Control ≤ 2 * words_moved (heap_of map (W.words words.old)) result.count (move_at (scratch_of map (W.words words.new))) + page_words map }
    ensures sound { Sound map (W.words words.new) }
    ensures base { W.base words.new ≡ W.base words.old }
{
    let mut plan = empty_plan(words, map);
    let mut cursor = SlideCursor { next: 0, room: 0 };
    plan_pages(words, map, CONTROL_WORD, &mut plan, &mut cursor);
    give_back(words, map, cursor.next);
    plan
}
