//! Calls on the epochs of a thread.

ghost use Rattle.std.specs.Prelude.{◌≡◌, ◌≤◌, ◌<◌, ◌+◌, ℕ};
ghost use Rattle.heap_words.specs.Map.{HasThread, max_depth};
ghost use Rattle.heap_words.specs.Contents.{contents, Sound};
ghost use Rattle.standing_calls.specs.Turned.{Turned};

use heap_words::{Areas, Words};
use object_layout::{Call, MAX_DEPTH, Refusal, Reply};
use thread_stacks::{depth, set_depth};

/// Begins an epoch of a thread, in a region one deeper than before.
pub fn begin<W: Words>(words: &mut W, map: Areas, thread: u8) -> Reply
    requires sound { Sound map (W.words words.old) }
    requires thread { HasThread map thread }
    ensures turns { Turned map (contents map (W.words words.old)) (contents map (W.words words.new)) thread Call.Begin result }
    ensures sound { Sound map (W.words words.new) }
    ensures base { W.base words.new ≡ W.base words.old }
{
    let before = depth(words, map, thread);
    if before >= MAX_DEPTH {
        return Reply::Refused(Refusal::TooDeep);
    }
    set_depth(words, map, thread, before + 1);
    Reply::Ok
}
