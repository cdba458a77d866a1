//! The closing of a region whose end is made.

ghost use Rattle.std.specs.Prelude.{◌≡◌, ◌≤◌, ◌+◌, ◌-◌};
ghost use Rattle.heap_words.specs.Map.{HasThread};
ghost use Rattle.heap_words.specs.Contents.{Sound, contents, depth_of, with_depth, with_readers};

use epoch_lattice::Space;
use heap_words::{Areas, Words};
use remember_sets::clear_readers;
use thread_stacks::{depth, set_depth};

/// Closes the innermost region of a thread: it has no readers any more, and the thread is one epoch less deep.
pub(crate) fn close_region<W: Words>(words: &mut W, map: Areas, thread: u8)
    requires sound { Sound map (W.words words.old) }
    requires thread { HasThread map thread }
    requires depth { 1 ≤ depth_of (contents map (W.words words.old)) thread }
    ensures closed { let c = contents map (W.words words.old) in contents map (W.words words.new) ≡ with_depth (with_readers c thread (depth_of c thread) 0) thread (depth_of c thread - 1) }
    ensures sound { Sound map (W.words words.new) }
    ensures reads { W.reads words.new ≤ W.reads words.old + 1 }
    ensures base { W.base words.new ≡ W.base words.old }
{
    let innermost = depth(words, map, thread);
    let region = Space::Region {
        thread,
        depth: innermost,
    };
    clear_readers(words, map, region);
    set_depth(words, map, thread, innermost - 1);
}
