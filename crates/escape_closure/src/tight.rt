//! The tight end of a region, which needs no free page.

ghost use Rattle.std.specs.Prelude.{◌≡◌, ◌≤◌, ◌<◌, ◌+◌, ◌*◌, ◌/◌, ℕ, List};
ghost use Rattle.epoch_lattice.specs.declared.Space.TheVariants.{Region};
ghost use Rattle.epoch_lattice.specs.Lattice.{space_index};
ghost use Rattle.heap_words.specs.Map.{HasRegion, HasThread, heap_length, page_words};
ghost use Rattle.heap_words.specs.Contents.{Contents, contents, depth_of, with_current, Sound};
ghost use Rattle.yak_model.specs.Spaces.{SpaceState};
ghost use Rattle.yak_model.specs.Placed.{space_word};
ghost use Rattle.yak_model.specs.Stands.{PoolStands, Stands};
ghost use Rattle.yak_model.specs.Recorded.{Recorded};
ghost use Rattle.region_pages.specs.Freeing.{with_pool_rebuilt};
ghost use Rattle.relocation.specs.declared.plans.TheConstants.{MOVE_WORDS};
ghost use Rattle.relocation.specs.Moves.{HasHeader, move_at, size_at};
ghost use Rattle.relocation.specs.Slide.{IsPageOf, Runs, Sliding, brought};
ghost use Rattle.relocation.specs.Slide.{TableAfter};
ghost use Rattle.escape_closure.specs.Targets.{TargetsWritten};
ghost use Rattle.escape_closure.specs.Ends.{TightEnded};
ghost use Rattle.escape_closure.specs.Leaving.{TightReady};

use crate::beginning::begin_end;
use crate::carrying::carry_out;
use crate::closing::close_region;
use crate::refiling::refile_slots;
use epoch_lattice::{Space, index_of};
use forwarding::{record_moved, settle_pages};
use heap_words::{Areas, Words, set_current};
use region_pages::rebuild_pool;
use relocation::{Plan, SlideCursor, empty_plan, plan_pages};
use thread_stacks::depth;

/// A plan of the objects of a region into its own first pages, and where the last one ends.
#[derive(Clone, Copy, Debug, PartialEq, Eq, Drop)]
struct Packing {
    pub plan: Plan,
    pub cursor: SlideCursor,
}

/// Plans the moves of the objects that escape from the innermost region of a thread, after `targets`, to the front of the
/// region's own pages, which become pages of the control space.
fn plan_tight<W: Words>(words: &mut W, map: Areas, thread: u8) -> Packing
    requires sound { Sound map (W.words words.old) }
    requires thread { HasThread map thread }
    requires depth { 1 ≤ depth_of (contents map (W.words words.old)) thread }
    requires aimed { ∥ ((s : SpaceState) × (before : Contents) × (stands : Stands map before s) × (escaping : ℕ) × TargetsWritten map s stands.places thread before (contents map (W.words words.old)) escaping) ∥₁ }
    ensures sliding { let c = contents map (W.words words.old) in let d = contents map (W.words words.new) in (slid : ℕ) → slid ≡ space_index (Region thread (depth_of c thread)) + 1 → (runs : Runs map slid c) → Sliding map slid c runs d result.plan.count (move_at d.scratch) result.cursor.next result.cursor.room (heap_length map) }
    ensures sound { Sound map (W.words words.new) }
    ensures base { W.base words.new ≡ W.base words.old }
{
    let innermost = depth(words, map, thread);
    let region = index_of(Space::Region {
        thread,
        depth: innermost,
    });
    let mut plan = empty_plan(words, map);
    let mut cursor = SlideCursor { next: 0, room: 0 };
    plan_pages(words, map, u64::from(region) + 1, &mut plan, &mut cursor);
    Packing { plan, cursor }
}

/// Gives the pages of a region to the control space where moved objects lie in them, and back where they don't. The region has
/// no current page any more, and the pool is made anew.
fn settle_region<W: Words>(words: &mut W, map: Areas, plan: &Plan, thread: u8, depth: u8, next: u32)
    requires sound { Sound map (W.words words.old) }
    requires region { HasRegion map thread depth }
    requires room { MOVE_WORDS * plan.now.count ≤ heap_length map }
    requires moved { (let c = contents map (W.words words.old) in let moves = move_at c.scratch in (k : ℕ) → k < plan.now.count → HasHeader c.heap (moves k).new × ((moves k).new + size_at c.heap (moves k).new ≤ heap_length map)) }
    ensures settled { (let c = contents map (W.words words.old) in let moves = move_at c.scratch in (slid : ℕ) → slid ≡ space_index (Region thread depth) + 1 → (was : List ℕ) → ((k : ℕ) → k < plan.now.count → size_at c.heap (moves k).new ≡ size_at was (moves k).old) → ((k : ℕ) → k < plan.now.count → (moves k).new ≡ page_words map * ((moves k).new / page_words map) + brought map was k moves ((moves k).new / page_words map)) → ((k : ℕ) → k < plan.now.count → ((moves k).new / page_words map < next) × IsPageOf slid c.table ((moves k).new / page_words map)) → TableAfter map slid c.table was (contents map (W.words words.new)).table plan.now.count moves next) }
    ensures freed { (slid p : ℕ) → slid ≡ space_index (Region thread depth) + 1 → p < map.pages → IsPageOf slid (contents map (W.words words.old)).table p → next ≤ p → space_word (contents map (W.words words.new)).table p ≡ 0 }
    ensures frame { (let c = contents map (W.words words.old) in let d = contents map (W.words words.new) in d ≡ with_pool_rebuilt (with_current (record c { table = d.table }) thread depth 0)) }
    ensures pool { (let d = contents map (W.words words.new) in PoolStands map d.heads d.pool d.table) }
    ensures sound { Sound map (W.words words.new) }
    ensures base { W.base words.new ≡ W.base words.old }
{
    let region = index_of(Space::Region { thread, depth });
    settle_pages(words, map, plan, u64::from(region) + 1, next);
    set_current(words, map, thread, depth, 0);
    rebuild_pool(words, map);
}

/// Ends the innermost region of a thread whose escaping objects are planned into its own pages.
fn finish_tight<W: Words>(words: &mut W, map: Areas, packing: Packing, thread: u8)
    requires sound { Sound map (W.words words.old) }
    requires thread { HasThread map thread }
    requires depth { 1 ≤ depth_of (contents map (W.words words.old)) thread }
    requires ready { ∥ ((before : Contents) × (mid : Contents) × (s : SpaceState) × (stands : Stands map before s) × TightReady map before mid (contents map (W.words words.old)) s stands thread packing.plan.count packing.cursor.next) ∥₁ }
    ensures ended { (before mid : Contents) (s : SpaceState) (stands : Stands map before s) → TightReady map before mid (contents map (W.words words.old)) s stands thread packing.plan.count packing.cursor.next → TightEnded map before (contents map (W.words words.new)) s stands thread packing.plan.count }
    ensures sound { Sound map (W.words words.new) }
    ensures base { W.base words.new ≡ W.base words.old }
{
    let innermost = depth(words, map, thread);
    let plan = packing.plan;
    carry_out(words, map, plan, thread, map.pages);
    settle_region(words, map, &plan, thread, innermost, packing.cursor.next);
    refile_slots(
        words,
        map,
        Space::Region {
            thread,
            depth: innermost,
        },
    );
    record_moved(words, map, &plan);
    close_region(words, map, thread);
}

/// Ends the innermost epoch of a thread without claiming a page: all objects that escape from its region go to the control
/// space, slid in ascending order into the region's own pages, and the other ones are gone. The pages that they fill become
/// control pages, and the others of the region are given back. Answers how many objects were moved.
pub fn end_tight<W: Words>(words: &mut W, map: Areas, thread: u8) -> u64
    requires sound { Sound map (W.words words.old) }
    requires thread { HasThread map thread }
    requires depth { 1 ≤ depth_of (contents map (W.words words.old)) thread }
    requires recorded { ∥ ((s : SpaceState) × (h : Stands map (contents map (W.words words.old)) s) × Recorded map (contents map (W.words words.old)) s h) ∥₁ }
    ensures ended { let c = contents map (W.words words.old) in let d = contents map (W.words words.new) in (s : SpaceState) (h : Stands map c s) → Recorded map c s h → TightEnded map c d s h thread result }
    ensures sound { Sound map (W.words words.new) }
    ensures base { W.base words.new ≡ W.base words.old }
{
    begin_end(words, map, thread);
    let packing = plan_tight(words, map, thread);
    finish_tight(words, map, packing, thread);
    u64::from(packing.plan.count)
}
