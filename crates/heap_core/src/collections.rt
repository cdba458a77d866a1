//! The collection that a thread asks for, and the census.

ghost use Rattle.std.specs.Prelude.{◌≡◌};
ghost use Rattle.heap_words.specs.Map.{HasThread};
ghost use Rattle.heap_words.specs.Contents.{contents, Sound};
ghost use Rattle.heap_core.specs.Steps.{plain};
ghost use Rattle.heap_core.specs.Collecting.{IsCollected, counted};
ghost use Rattle.yak_model.specs.Recorded.{SomeRecorded};
ghost use Rattle.object_layout.specs.declared.replies.Reply.TheVariants as reply;

use crate::calls::plain_step;
use crate::owned::Stepped;
use heap_words::{Areas, Words};
use mark_compact::collect;
use object_layout::Reply;
use region_pages::census;

/// Collects the control space.
pub fn collect_control<W: Words>(words: &mut W, map: Areas, thread: u8) -> Stepped
    requires sound { Sound map (W.words words.old) }
    requires thread { HasThread map thread }
    requires recorded { SomeRecorded map (contents map (W.words words.old)) }
    ensures collected { IsCollected map (contents map (W.words words.old)) (contents map (W.words words.new)) thread }
    ensures says { result ≡ plain reply.Ok }
    ensures sound { Sound map (W.words words.new) }
    ensures base { W.base words.new ≡ W.base words.old }
{
    collect(words, map, thread);
    plain_step(Reply::Ok)
}

/// Counts the pages: how many are free, belong to regions, and belong to Control.
pub fn count_pages<W: Words>(words: &mut W, map: Areas) -> Reply
    requires sound { Sound map (W.words words.old) }
    requires recorded { SomeRecorded map (contents map (W.words words.old)) }
    ensures counts { result ≡ counted (contents map (W.words words.old)) }
    ensures words { W.words words.new ≡ W.words words.old }
    ensures base { W.base words.new ≡ W.base words.old }
{
    let pages = census(words, map);
    Reply::Pages {
        free: pages.free,
        region: pages.region,
        control: pages.control,
    }
}
