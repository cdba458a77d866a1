//! The targets of an end.

ghost use Rattle.std.specs.Prelude.{◌≡◌, ◌≤◌, ◌+◌, ◌*◌, length};
ghost use Rattle.heap_words.specs.Map.{HasRegion, HasThread};
ghost use Rattle.heap_words.specs.declared.TheConstants.{STACK_SLOTS};
ghost use Rattle.heap_words.specs.Contents.{contents, depth_of, stack_of, Sound};
ghost use Rattle.yak_model.specs.Spaces.{SpaceState, innermost};
ghost use Rattle.yak_model.specs.State.{object_of};
ghost use Rattle.yak_model.specs.Stands.{Stands, words_taken};
ghost use Rattle.remember_sets.specs.Filed.{chain};
ghost use Rattle.yak_model.specs.Recorded.{Recorded};
ghost use Rattle.escape_closure.specs.Raising.{Ended, EndsAt, TargetsStand};
ghost use Rattle.forwarding.specs.Crossing.{AreFiled};
ghost use Rattle.escape_closure.specs.Targets.{TargetsWritten};

use crate::raising::{Tally, drain};
use crate::sources::{raise_readers, raise_slots, raise_stack};
use epoch_lattice::{Space, index_of, parent};
use heap_words::{Areas, Words, get_readers};
use thread_stacks::depth;

/// Writes the word of its target into the work word of each object that escapes from a thread's region, and answers how many
/// these are.
fn settle_targets<W: Words>(words: &mut W, map: Areas, thread: u8, depth: u8) -> u32
    requires sound { Sound map (W.words words.old) }
    requires region { HasRegion map thread depth }
    requires some { ∥ ((e : Ended) × EndsAt map e (contents map (W.words words.old)) thread depth) ∥₁ }
    ensures targets { (e : Ended) → EndsAt map e (contents map (W.words words.old)) thread depth → TargetsStand map e (W.reads words.old) (contents map (W.words words.new)) (W.reads words.new) result }
    ensures sound { Sound map (W.words words.new) }
    ensures base { W.base words.new ≡ W.base words.old }
{
    let space = Space::Region { thread, depth };
    let region = index_of(space);
    let none = Tally {
        waiting: 0,
        escaping: 0,
    };
    let slots = raise_slots(words, map, none, space);
    let own = raise_stack(words, map, slots, region, thread, parent(space));
    let readers = get_readers(words, map, thread, depth);
    let all = raise_readers(words, map, own, region, thread, readers);
    drain(words, map, all, region)
}

/// Writes the index of its target plus 1 into the work word of each object that escapes from the innermost region of a thread,
/// and answers how many these are. The target is the join of all sources that reach the object. They come from the slots
/// of the region's chain, the stack of the thread and the stacks of the region's readers, and from no other place.
///
/// The work words must be 0 before, and the store buffers empty.
pub fn targets<W: Words>(words: &mut W, map: Areas, thread: u8) -> u32
    requires sound { Sound map (W.words words.old) }
    requires thread { HasThread map thread }
    requires depth { 1 ≤ depth_of (contents map (W.words words.old)) thread }
    requires filed { AreFiled (contents map (W.words words.old)).buffers }
    requires stands { ∥ ((s : SpaceState) × (stands : Stands map (contents map (W.words words.old)) s) × Recorded map (contents map (W.words words.old)) s stands) ∥₁ }
    ensures targets { (s : SpaceState) (stands : Stands map (contents map (W.words words.old)) s) → Recorded map (contents map (W.words words.old)) s stands → TargetsWritten map s stands.places thread (contents map (W.words words.old)) (contents map (W.words words.new)) result }
    ensures reads { let c = contents map (W.words words.old) in (s : SpaceState) (stands : Stands map c s) → Recorded map c s stands → W.reads words.new ≤ W.reads words.old + (27 * words_taken stands.places.pages (object_of s) (innermost s.graph thread) + 5 * length (chain map c (innermost s.graph thread)) + 3 * length (stack_of c thread) + (4 + (1 + 3 * STACK_SLOTS) * map.threads)) }
    ensures sound { Sound map (W.words words.new) }
    ensures base { W.base words.new ≡ W.base words.old }
{
    let innermost = depth(words, map, thread);
    settle_targets(words, map, thread, innermost)
}
