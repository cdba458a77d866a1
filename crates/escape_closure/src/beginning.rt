//! The start of an end: the records are filed and the targets are written.

ghost use Rattle.std.specs.Prelude.{◌≡◌, ◌≤◌, ◌+◌, ◌*◌, length};
ghost use Rattle.heap_words.specs.Map.{HasThread};
ghost use Rattle.heap_words.specs.Contents.{contents, depth_of, stack_of, Sound};
ghost use Rattle.heap_words.specs.declared.TheConstants.{STACK_SLOTS};
ghost use Rattle.yak_model.specs.Spaces.{SpaceState, innermost};
ghost use Rattle.yak_model.specs.State.{object_of};
ghost use Rattle.yak_model.specs.Stands.{Stands, words_taken};
ghost use Rattle.yak_model.specs.Recorded.{Recorded};
ghost use Rattle.escape_closure.specs.Leaving.{Begun, records_of};

use crate::ending::targets;
use heap_words::{Areas, Words};
use remember_sets::file_logs;

/// Files the store buffers, writes the target of each object that escapes from the innermost region of a thread into its work
/// word, and answers how many these are.
pub(crate) fn begin_end<W: Words>(words: &mut W, map: Areas, thread: u8) -> u32
    requires sound { Sound map (W.words words.old) }
    requires thread { HasThread map thread }
    requires depth { 1 ≤ depth_of (contents map (W.words words.old)) thread }
    requires recorded { ∥ ((s : SpaceState) × (h : Stands map (contents map (W.words words.old)) s) × Recorded map (contents map (W.words words.old)) s h) ∥₁ }
    ensures begun { (s : SpaceState) (h : Stands map (contents map (W.words words.old)) s) → Recorded map (contents map (W.words words.old)) s h → Begun map (contents map (W.words words.old)) (contents map (W.words words.new)) s h thread result }
    ensures reads { let c = contents map (W.words words.old) in (s : SpaceState) (h : Stands map c s) → Recorded map c s h → W.reads words.new ≤ W.reads words.old + (27 * words_taken h.places.pages (object_of s) (innermost s.graph thread) + 12 * records_of map c (innermost s.graph thread) + 3 * length (stack_of c thread) + (4 + (2 + 3 * STACK_SLOTS) * map.threads)) }
    ensures sound { Sound map (W.words words.new) }
    ensures base { W.base words.new ≡ W.base words.old }
{
    file_logs(words, map);
    targets(words, map, thread)
}
