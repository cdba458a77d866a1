//! The end of a region into its objects' targets.

ghost use Rattle.std.specs.Prelude.{◌≡◌, ◌≤◌, ◌<◌, ◌+◌, ◌*◌, IfOk, MatchResult, length, max};
ghost use Rattle.epoch_lattice.specs.declared.Space.TheVariants.{Region};
ghost use Rattle.epoch_lattice.specs.Lattice.{space_index};
ghost use Rattle.heap_words.specs.Map.{HasThread, page_words};
ghost use Rattle.heap_words.specs.Contents.{Contents, contents, depth_of, stack_of, Sound};
ghost use Rattle.heap_words.specs.declared.TheConstants.{STACK_SLOTS};
ghost use Rattle.yak_model.specs.Spaces.{SpaceState, innermost};
ghost use Rattle.yak_model.specs.State.{object_of};
ghost use Rattle.yak_model.specs.Stands.{Stands, pages_of, words_taken};
ghost use Rattle.remember_sets.specs.Filed.{NoneFrom, chain};
ghost use Rattle.yak_model.specs.Recorded.{Recorded};
ghost use Rattle.region_pages.specs.Ends.{used_end};
ghost use Rattle.escape_closure.specs.Ends.{RegionEnded, RegionShort};
ghost use Rattle.escape_closure.specs.Leaving.{RegionReady, records_of};

use crate::beginning::begin_end;
use crate::carrying::carry_out;
use crate::clearing::clear_targets;
use crate::closing::close_region;
use crate::planning::plan_escaping;
use crate::refiling::refile_slots;
use epoch_lattice::Space;
use forwarding::record_moved;
use heap_words::{Areas, Words};
use object_layout::Shortage;
use region_pages::{pages_end, release_pages};
use relocation::Plan;
use thread_stacks::depth;

/// Ends the innermost region of a thread whose escaping objects are planned: references follow the plan, the objects are
/// moved, the region's pages are given back, and the slots of its chain and the fields of the moved objects are filed.
/// All pages of the region are among the first `end` pages.
fn finish_region<W: Words>(words: &mut W, map: Areas, plan: Plan, thread: u8, end: u32)
    requires sound { Sound map (W.words words.old) }
    requires thread { HasThread map thread }
    requires depth { 1 ≤ depth_of (contents map (W.words words.old)) thread }
    requires within { end ≤ map.pages }
    requires none_from { let c = contents map (W.words words.old) in NoneFrom map c.table (space_index (Region thread (depth_of c thread)) + 1) end }
    requires ready { ∥ ((before : Contents) × (mid : Contents) × (s : SpaceState) × (stands : Stands map before s) × RegionReady map before mid (contents map (W.words words.old)) s stands thread plan.count) ∥₁ }
    ensures ended { (before mid : Contents) (s : SpaceState) (stands : Stands map before s) → RegionReady map before mid (contents map (W.words words.old)) s stands thread plan.count → RegionEnded map before (contents map (W.words words.new)) s stands thread plan.count }
    ensures reads { let c = contents map (W.words words.old) in let d = contents map (W.words words.new) in (before mid : Contents) (s : SpaceState) (stands : Stands map before s) → RegionReady map before mid c s stands thread plan.count → W.reads words.new ≤ W.reads words.old + (14 * words_taken stands.places.pages (object_of s) (innermost s.graph thread) + 13 * length (chain map c (innermost s.graph thread)) + 4 * length (stack_of c thread) + end + max (used_end mid.table map.pages) (used_end d.table map.pages) + 2 * (page_words map * pages_of c.table (innermost s.graph thread)) + (10 + (1 + 4 * STACK_SLOTS) * map.threads)) }
    ensures sound { Sound map (W.words words.new) }
    ensures base { W.base words.new ≡ W.base words.old }
{
    let innermost = depth(words, map, thread);
    let region = Space::Region {
        thread,
        depth: innermost,
    };
    carry_out(words, map, plan, thread, end);
    release_pages(words, map, region);
    refile_slots(words, map, region);
    record_moved(words, map, &plan);
    close_region(words, map, thread);
}

/// Ends the innermost epoch of a thread: the objects that escape from its region go to their targets, the other ones are gone,
/// and the region's pages are given back. Objects outside the region stay where they are. Answers how many objects were moved.
///
/// # Errors
///
/// `Shortage` exactly where the free pages are too few to place the escaping objects, by ascending address, each in its target.
/// Then the store buffers are filed, and nothing else but the scratch area has changed.
pub fn end_region<W: Words>(words: &mut W, map: Areas, thread: u8) -> Result<u64, Shortage>
    requires sound { Sound map (W.words words.old) }
    requires thread { HasThread map thread }
    requires depth { 1 ≤ depth_of (contents map (W.words words.old)) thread }
    requires recorded { ∥ ((s : SpaceState) × (h : Stands map (contents map (W.words words.old)) s) × Recorded map (contents map (W.words words.old)) s h) ∥₁ }
    ensures ended { let c = contents map (W.words words.old) in let d = contents map (W.words words.new) in (s : SpaceState) (h : Stands map c s) → Recorded map c s h → MatchResult result (λ moved. RegionEnded map c d s h thread moved) (λ shortage. RegionShort map c d s h thread shortage) }
    ensures reads { let c = contents map (W.words words.old) in let d = contents map (W.words words.new) in (s : SpaceState) (h : Stands map c s) → Recorded map c s h → IfOk result (λ _. W.reads words.new ≤ W.reads words.old + (100 * (words_taken h.places.pages (object_of s) (innermost s.graph thread) + records_of map c (innermost s.graph thread) + length (stack_of c thread) + 71) + 4 * max (used_end c.table map.pages) (used_end d.table map.pages))) }
    ensures sound { Sound map (W.words words.new) }
    ensures base { W.base words.new ≡ W.base words.old }
{
    let escaping = begin_end(words, map, thread);
    let end = pages_end(words, map);
    match plan_escaping(words, map, thread, escaping, end) {
        Err(shortage) => {
            clear_targets(words, map, thread);
            Err(shortage)
        }
        Ok(plan) => {
            finish_region(words, map, plan, thread, end);
            Ok(u64::from(plan.count))
        }
    }
}
