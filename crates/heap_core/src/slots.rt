//! Calls on the slots of a thread's stack.

ghost use Rattle.std.specs.Prelude.{◌≡◌, ◌≤◌, ◌<◌, ◌+◌, ℕ, length, slice_index, MatchOption};
ghost use Rattle.object_layout.specs.Layout.{IsValue};
ghost use Rattle.object_layout.specs.declared.TheConstants.{MAX_INT};
ghost use Rattle.heap_words.specs.Map.{HasThread};
ghost use Rattle.heap_words.specs.Contents.{contents, Sound};
ghost use Rattle.yak_model.specs.Spaces.{SpaceState};
ghost use Rattle.yak_model.specs.Stands.{Stands};
ghost use Rattle.standing_calls.specs.Turned.{IsPushed, Turned};

use heap_words::{Areas, Words, get_heap};
use object_layout::{Call, Refusal, Reply, Value, decode_value, encode_value, field_count};
use thread_stacks::{drop_top, push, slot};

/// Puts a value's word on a thread's stack.
pub fn push_word<W: Words>(words: &mut W, map: Areas, thread: u8, word: u64) -> Reply
    requires sound { Sound map (W.words words.old) }
    requires thread { HasThread map thread }
    ensures pushed { IsPushed (contents map (W.words words.old)) (contents map (W.words words.new)) thread word result }
    ensures sound { Sound map (W.words words.new) }
    ensures base { W.base words.new ≡ W.base words.old }
{
    match push(words, map, thread, word) {
        Ok(()) => Reply::Ok,
        Err(_) => Reply::Refused(Refusal::StackFull),
    }
}

/// Pushes an integer.
pub fn int<W: Words>(words: &mut W, map: Areas, thread: u8, i: u64) -> Reply
    requires sound { Sound map (W.words words.old) }
    requires thread { HasThread map thread }
    requires number { i ≤ MAX_INT }
    ensures turns { Turned map (contents map (W.words words.old)) (contents map (W.words words.new)) thread (Call.Int i) result }
    ensures sound { Sound map (W.words words.new) }
    ensures base { W.base words.new ≡ W.base words.old }
{
    push_word(words, map, thread, encode_value(Value::Int(i)))
}

/// Pushes null.
pub fn null<W: Words>(words: &mut W, map: Areas, thread: u8) -> Reply
    requires sound { Sound map (W.words words.old) }
    requires thread { HasThread map thread }
    ensures turns { Turned map (contents map (W.words words.old)) (contents map (W.words words.new)) thread Call.Null result }
    ensures sound { Sound map (W.words words.new) }
    ensures base { W.base words.new ≡ W.base words.old }
{
    push_word(words, map, thread, encode_value(Value::Null))
}

/// Pushes the value of a slot.
pub fn dup<W: Words>(words: &mut W, map: Areas, thread: u8, s: u32) -> Reply
    requires sound { Sound map (W.words words.old) }
    requires thread { HasThread map thread }
    ensures turns { Turned map (contents map (W.words words.old)) (contents map (W.words words.new)) thread (Call.Dup s) result }
    ensures sound { Sound map (W.words words.new) }
    ensures base { W.base words.new ≡ W.base words.old }
{
    match slot(words, map, thread, s) {
        Ok(word) => push_word(words, map, thread, word),
        Err(_) => Reply::Refused(Refusal::BadSlot),
    }
}

/// Drops the top slot.
#[inline(always)]
pub fn pop_slot<W: Words>(words: &mut W, map: Areas, thread: u8) -> Reply
    requires sound { Sound map (W.words words.old) }
    requires thread { HasThread map thread }
    ensures turns { Turned map (contents map (W.words words.old)) (contents map (W.words words.new)) thread Call.Pop result }
    ensures sound { Sound map (W.words words.new) }
    ensures base { W.base words.new ≡ W.base words.old }
{
    match drop_top(words, map, thread) {
        Ok(()) => Reply::Ok,
        Err(_) => Reply::Refused(Refusal::StackEmpty),
    }
}

/// Shows the value of a slot.
#[inline(always)]
pub fn get<W: Words>(words: &mut W, map: Areas, thread: u8, s: u32) -> Reply
    requires sound { Sound map (W.words words.old) }
    requires thread { HasThread map thread }
    requires stands { ∥ ((state : SpaceState) × Stands map (contents map (W.words words.old)) state) ∥₁ }
    ensures turns { Turned map (contents map (W.words words.old)) (contents map (W.words words.new)) thread (Call.Get s) result }
    ensures sound { Sound map (W.words words.new) }
    ensures base { W.base words.new ≡ W.base words.old }
{
    let Ok(word) = slot(words, map, thread, s) else {
        return Reply::Refused(Refusal::BadSlot);
    };
    match decode_value(word) {
        Some(Value::Int(i)) => Reply::Int(i),
        Some(Value::Ref(a)) => {
            Reply::Object(field_count(get_heap(words, map, a.0 as usize)) as u16)
        }
        Some(Value::Null) => Reply::Null,
        None => Reply::Null,
    }
}

/// Tells whether two slots hold the same value.
pub fn same<W: Words>(words: &mut W, map: Areas, thread: u8, s: u32, x: u32) -> Reply
    requires sound { Sound map (W.words words.old) }
    requires thread { HasThread map thread }
    ensures turns { Turned map (contents map (W.words words.old)) (contents map (W.words words.new)) thread (Call.Same s x) result }
    ensures sound { Sound map (W.words words.new) }
    ensures base { W.base words.new ≡ W.base words.old }
{
    let Ok(first) = slot(words, map, thread, s) else {
        return Reply::Refused(Refusal::BadSlot);
    };
    let Ok(second) = slot(words, map, thread, x) else {
        return Reply::Refused(Refusal::BadSlot);
    };
    if first == second {
        Reply::Yes
    } else {
        Reply::No
    }
}
