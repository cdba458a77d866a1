//! The collection of the control space.

ghost use Rattle.std.specs.Prelude.{◌≡◌};
ghost use Rattle.heap_words.specs.Map.{HasThread};
ghost use Rattle.heap_words.specs.Contents.{Sound, contents};
ghost use Rattle.yak_model.specs.Spaces.{SpaceState};
ghost use Rattle.yak_model.specs.Stands.{Stands};
ghost use Rattle.yak_model.specs.Recorded.{Recorded};
ghost use Rattle.mark_compact.specs.Collected.{RoomCollected, StateCollected};

use crate::moving::slide;
use crate::resetting::reset_pages;
use forwarding::{drop_others, follow_moves};
use heap_words::{Areas, Words};
use remember_sets::file_logs;

/// Collects the control space. The control objects to which no walk leads from a stack or from an object of a region are
/// dropped; the others slide to the front of the control pages, and all references follow them. Pages that stay empty are
/// given back, the last of the others is the thread's current control page, and no other thread keeps one. Objects of regions
/// stay where they are. The recorded slots of the objects that are gone are dropped, and those of the others follow them.
pub fn collect<W: Words>(words: &mut W, map: Areas, thread: u8)
    requires sound { Sound map (W.words words.old) }
    requires thread { HasThread map thread }
    requires recorded { (let c = contents map (W.words words.old) in ∥ ((s : SpaceState) × (h : Stands map c s) × Recorded map c s h) ∥₁) }
    ensures state { (let c = contents map (W.words words.old) in let d = contents map (W.words words.new) in (s : SpaceState) (h : Stands map c s) → Recorded map c s h → StateCollected map c d s h) }
    ensures room { RoomCollected map (contents map (W.words words.old)) (contents map (W.words words.new)) thread }
    ensures sound { Sound map (W.words words.new) }
    ensures base { W.base words.new ≡ W.base words.old }
{
    file_logs(words, map);
    let plan = slide(words, map);
    reset_pages(words, map, thread);
    drop_others(words, map, &plan);
    follow_moves(words, map, &plan);
}
