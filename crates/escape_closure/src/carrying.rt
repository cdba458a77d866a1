//! The carrying out of the plan of an end.

ghost use Rattle.std.specs.Prelude.{◌≡◌, ◌≤◌, ◌<◌, ◌+◌, ◌*◌, Bool, length};
ghost use Rattle.epoch_lattice.specs.declared.Space.TheVariants.{Region};
ghost use Rattle.epoch_lattice.specs.Lattice.{space_index};
ghost use Rattle.heap_words.specs.Map.{HasThread, page_words};
ghost use Rattle.heap_words.specs.Contents.{Contents, contents, depth_of, stack_of, Sound};
ghost use Rattle.heap_words.specs.declared.TheConstants.{STACK_SLOTS};
ghost use Rattle.yak_model.specs.Spaces.{SpaceState, innermost};
ghost use Rattle.yak_model.specs.State.{object_of};
ghost use Rattle.yak_model.specs.Stands.{Stands, pages_of, words_taken};
ghost use Rattle.remember_sets.specs.Filed.{NoneFrom, chain};
ghost use Rattle.relocation.specs.Moves.{move_at};
ghost use Rattle.escape_closure.specs.Leaving.{Carried, ReadyToMove};

use crate::references::correct_references;
use epoch_lattice::Space;
use heap_words::{Areas, Words};
use relocation::{Plan, move_all};
use remember_sets::drop_slots_below;
use thread_stacks::depth;

/// Lets references follow the plan of an end, drops the recorded slots that lie in the region, and moves the objects.
/// All pages of the region are among the first `end` pages.
pub(crate) fn carry_out<W: Words>(words: &mut W, map: Areas, plan: Plan, thread: u8, end: u32)
    requires sound { Sound map (W.words words.old) }
    requires thread { HasThread map thread }
    requires depth { 1 ≤ depth_of (contents map (W.words words.old)) thread }
    requires within { end ≤ map.pages }
    requires none_from { let c = contents map (W.words words.old) in NoneFrom map c.table (space_index (Region thread (depth_of c thread)) + 1) end }
    requires ready { ∥ ((before : Contents) × (s : SpaceState) × (stands : Stands map before s) × (tight : Bool) × ReadyToMove map before (contents map (W.words words.old)) s stands thread plan.count tight) ∥₁ }
    ensures carried { (before : Contents) (s : SpaceState) (stands : Stands map before s) (tight : Bool) → ReadyToMove map before (contents map (W.words words.old)) s stands thread plan.count tight → Carried map (contents map (W.words words.old)) (contents map (W.words words.new)) s stands.places thread plan.count }
    ensures reads { let c = contents map (W.words words.old) in (before : Contents) (s : SpaceState) (stands : Stands map before s) (tight : Bool) → ReadyToMove map before c s stands thread plan.count tight → W.reads words.new ≤ W.reads words.old + (8 * words_taken stands.places.pages (object_of s) (innermost s.graph thread) + 6 * length (chain map c (innermost s.graph thread)) + 4 * length (stack_of c thread) + (end + 2 * (page_words map * pages_of c.table (innermost s.graph thread))) + (5 + (1 + 4 * STACK_SLOTS) * map.threads)) }
    ensures sound { Sound map (W.words words.new) }
    ensures base { W.base words.new ≡ W.base words.old }
{
    let innermost = depth(words, map, thread);
    let region = Space::Region {
        thread,
        depth: innermost,
    };
    correct_references(words, map, &plan, thread);
    drop_slots_below(words, map, region, end);
    move_all(words, map, plan);
}
