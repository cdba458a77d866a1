//! What the heap answers to calls.

ghost use Rattle.std.specs.Prelude.{◌≡◌};
ghost use Rattle.object_layout.specs.Calls.{IsCall};
ghost use Rattle.heap_words.specs.Map.{HasThread};
ghost use Rattle.heap_words.specs.Contents.{contents, Sound};
ghost use Rattle.yak_model.specs.Spaces.{SpaceState};
ghost use Rattle.yak_model.specs.Stands.{Stands};
ghost use Rattle.yak_model.specs.Recorded.{Recorded};
ghost use Rattle.heap_core.specs.Steps.{plain};
ghost use Rattle.heap_core.specs.EpochEnds.{ReadsFew};
ghost use Rattle.heap_core.specs.Done.{Done};
ghost use Rattle.yak_model.specs.Recorded.{SomeRecorded};

use crate::collections::{collect_control, count_pages};
use crate::endings::end;
use crate::epochs::begin;
use crate::fields::{load, store};
use crate::objects::new_object;
use crate::owned::Stepped;
use crate::slots::{dup, get, int, null, pop_slot, same};
use heap_words::{Areas, Words};
use object_layout::{Call, Reply};

/// A step that says no more than its reply.
#[inline(always)]
pub fn plain_step(reply: Reply) -> Stepped
    ensures { result ≡ plain reply }
{
    Stepped {
        reply,
        collected: false,
        full: None,
        shortage: None,
    }
}

/// Makes a call of a thread on words that stand for a state.
#[inline(always)]
pub fn answer<W: Words>(words: &mut W, map: Areas, thread: u8, call: Call) -> Stepped
    requires sound { Sound map (W.words words.old) }
    requires thread { HasThread map thread }
    requires recorded { SomeRecorded map (contents map (W.words words.old)) }
    requires number { IsCall call }
    ensures done { Done map (contents map (W.words words.old)) (contents map (W.words words.new)) thread call result }
    ensures reads { (s : SpaceState) (h : Stands map (contents map (W.words words.old)) s) → Recorded map (contents map (W.words words.old)) s h → ReadsFew map (contents map (W.words words.old)) (contents map (W.words words.new)) s h thread call result (W.reads words.old) (W.reads words.new) }
    ensures sound { Sound map (W.words words.new) }
    ensures base { W.base words.new ≡ W.base words.old }
{
    match call {
        Call::Int(i) => plain_step(int(words, map, thread, i)),
        Call::Null => plain_step(null(words, map, thread)),
        Call::Dup(s) => plain_step(dup(words, map, thread, s)),
        Call::Pop => plain_step(pop_slot(words, map, thread)),
        Call::New(k) => new_object(words, map, thread, k),
        Call::Load(s, f) => plain_step(load(words, map, thread, s, f)),
        Call::Store(s, f, x) => plain_step(store(words, map, thread, s, f, x)),
        Call::Get(s) => plain_step(get(words, map, thread, s)),
        Call::Same(s, x) => plain_step(same(words, map, thread, s, x)),
        Call::Begin => plain_step(begin(words, map, thread)),
        Call::End => end(words, map, thread),
        Call::Collect => collect_control(words, map, thread),
        Call::Census => plain_step(count_pages(words, map)),
    }
}
