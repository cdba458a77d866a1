//! The end of a thread's innermost epoch.

ghost use Rattle.std.specs.Prelude.{◌≡◌, ◌≤◌, ◌<◌};
ghost use Rattle.heap_words.specs.Map.{HasThread};
ghost use Rattle.heap_words.specs.Contents.{contents, depth_of, Sound};
ghost use Rattle.yak_model.specs.Spaces.{SpaceState};
ghost use Rattle.yak_model.specs.Stands.{Stands};
ghost use Rattle.yak_model.specs.Recorded.{Recorded};
ghost use Rattle.heap_core.specs.EpochEnds.{EndsAfterCollection, IsEnd, ReadsFew};
ghost use Rattle.yak_model.specs.Recorded.{SomeRecorded};

use crate::calls::plain_step;
use crate::owned::Stepped;
use escape_closure::{end_region, end_tight};
use heap_words::{Areas, Words};
use mark_compact::collect;
use object_layout::{Call, Refusal, Reply};
use thread_stacks::depth;

/// Ends the epoch after a collection of the control space: by the rule of placement where the free pages are enough then, and
/// else within the region's own pages.
fn end_collected<W: Words>(words: &mut W, map: Areas, thread: u8) -> Stepped
    requires sound { Sound map (W.words words.old) }
    requires thread { HasThread map thread }
    requires depth { 1 ≤ depth_of (contents map (W.words words.old)) thread }
    requires recorded { SomeRecorded map (contents map (W.words words.old)) }
    ensures ended { EndsAfterCollection map (contents map (W.words words.old)) (contents map (W.words words.new)) thread result }
    ensures sound { Sound map (W.words words.new) }
    ensures base { W.base words.new ≡ W.base words.old }
{
    collect(words, map, thread);
    match end_region(words, map, thread) {
        Ok(moved) => Stepped {
            reply: Reply::Ended {
                moved,
                tight: false,
            },
            collected: true,
            full: None,
            shortage: None,
        },
        Err(shortage) => Stepped {
            reply: Reply::Ended {
                moved: end_tight(words, map, thread),
                tight: true,
            },
            collected: true,
            full: None,
            shortage: Some(shortage),
        },
    }
}

/// Ends the innermost epoch of a thread. Where the free pages are too few for the objects that escape, the control space is
/// collected first.
pub fn end<W: Words>(words: &mut W, map: Areas, thread: u8) -> Stepped
    requires sound { Sound map (W.words words.old) }
    requires thread { HasThread map thread }
    requires recorded { SomeRecorded map (contents map (W.words words.old)) }
    ensures ended { IsEnd map (contents map (W.words words.old)) (contents map (W.words words.new)) thread result }
    ensures reads { (s : SpaceState) (h : Stands map (contents map (W.words words.old)) s) → Recorded map (contents map (W.words words.old)) s h → ReadsFew map (contents map (W.words words.old)) (contents map (W.words words.new)) s h thread Call.End result (W.reads words.old) (W.reads words.new) }
    ensures sound { Sound map (W.words words.new) }
    ensures base { W.base words.new ≡ W.base words.old }
{
    if depth(words, map, thread) == 0 {
        return plain_step(Reply::Refused(Refusal::NoEpoch));
    }
    match end_region(words, map, thread) {
        Ok(moved) => plain_step(Reply::Ended {
            moved,
            tight: false,
        }),
        Err(_) => end_collected(words, map, thread),
    }
}
