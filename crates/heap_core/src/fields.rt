//! Calls on the fields of a slot's object.

ghost use Rattle.std.specs.Prelude.{◌≡◌, ◌≤◌, ◌<◌, ◌+◌, ◌-◌, ◌*◌, ◌^◌, ◌%◌, ℕ, length, IfOk, IfSome, MatchResult};
ghost use Rattle.heap_words.specs.Map.{HasThread, heap_length};
ghost use Rattle.heap_words.specs.Contents.{contents, stack_of, Sound};
ghost use Rattle.yak_model.specs.Spaces.{SpaceState};
ghost use Rattle.yak_model.specs.Stands.{Stands};
ghost use Rattle.standing_calls.specs.Turned.{Turned};
ghost use Rattle.standing_calls.specs.Fields.{IsFieldOf, no_field};
ghost use Rattle.standing_calls.specs.Records.{IsLoaded, IsStored, LogsHold};
ghost use Rattle.yak_model.specs.Recorded.{SomeRecorded};
ghost use Rattle.yak_model.specs.Packed.{IsSpaceOf};

use crate::barriers::{mark_reader, record_slot, space_entered, space_left, space_of_word};
use epoch_lattice::Space;
use heap_words::{Areas, Words, get_heap, set_heap, stack_length};
use object_layout::{Call, OBJECT_WORDS, Refusal, Reply, address, field_count};
use thread_stacks::{push_above, slot_below};

/// The heap word of a field of the object that a slot refers to, or why there is none. The stack has so many slots.
pub fn field_of<W: Words>(
    words: &mut W,
    map: Areas,
    thread: u8,
    count: usize,
    s: u32,
    f: u32,
) -> Result<usize, Refusal>
    requires sound { Sound map (W.words words.old) }
    requires thread { HasThread map thread }
    requires count { count ≡ length (stack_of (contents map (W.words words.old)) thread) }
    requires stands { ∥ ((state : SpaceState) × Stands map (contents map (W.words words.old)) state) ∥₁ }
    ensures field { (state : SpaceState) → (h : Stands map (contents map (W.words words.old)) state) → MatchResult result (IsFieldOf state h.places.at thread s f) (λ why. no_field state.graph thread s f ≡ Some why) }
    ensures within { IfOk result (λ a. a < heap_length map) }
    ensures words { W.words words.new ≡ W.words words.old }
    ensures base { W.base words.new ≡ W.base words.old }
{
    let Ok(word) = slot_below(words, map, thread, count, s) else {
        return Err(Refusal::BadSlot);
    };
    let Some(object) = address(word) else {
        return Err(Refusal::NotAReference);
    };
    let count = field_count(get_heap(words, map, object));
    if f as usize >= count {
        return Err(Refusal::BadField);
    }
    Ok(object + OBJECT_WORDS as usize + f as usize)
}

/// Pushes a loaded word on a stack of so many slots, and makes the thread a reader of the space that it enters, where that is a region of another thread.
fn push_loaded<W: Words>(
    words: &mut W,
    map: Areas,
    thread: u8,
    count: usize,
    word: u64,
    space: Option<Space>,
) -> Reply
    requires sound { Sound map (W.words words.old) }
    requires thread { HasThread map thread }
    requires count { count ≡ length (stack_of (contents map (W.words words.old)) thread) }
    requires space { IfSome space (λ x. IsSpaceOf map x) }
    ensures loaded { IsLoaded (contents map (W.words words.old)) (contents map (W.words words.new)) thread word space result }
    ensures sound { Sound map (W.words words.new) }
    ensures base { W.base words.new ≡ W.base words.old }
{
    match push_above(words, map, thread, count, word) {
        Ok(()) => {
            mark_reader(words, map, thread, space);
            Reply::Ok
        }
        Err(_) => Reply::Refused(Refusal::StackFull),
    }
}

/// Pushes a field of a slot's object.
#[inline(always)]
pub fn load<W: Words>(words: &mut W, map: Areas, thread: u8, s: u32, f: u32) -> Reply
    requires sound { Sound map (W.words words.old) }
    requires thread { HasThread map thread }
    requires stands { ∥ ((state : SpaceState) × Stands map (contents map (W.words words.old)) state) ∥₁ }
    ensures turns { Turned map (contents map (W.words words.old)) (contents map (W.words words.new)) thread (Call.Load s f) result }
    ensures sound { Sound map (W.words words.new) }
    ensures base { W.base words.new ≡ W.base words.old }
{
    let count = stack_length(words, map, thread);
    match field_of(words, map, thread, count, s, f) {
        Ok(a) => {
            let word = get_heap(words, map, a);
            let space = space_entered(words, map, thread, word);
            push_loaded(words, map, thread, count, word, space)
        }
        Err(why) => Reply::Refused(why),
    }
}

/// Stores a word into a field, after its slot is recorded where a reference from the one space to the other crosses.
fn store_word<W: Words>(
    words: &mut W,
    map: Areas,
    thread: u8,
    slot: usize,
    word: u64,
    from: Option<Space>,
    to: Option<Space>,
)
    requires sound { Sound map (W.words words.old) }
    requires thread { HasThread map thread }
    requires hold { LogsHold map (contents map (W.words words.old)) }
    requires within { slot < heap_length map }
    ensures stored { IsStored map (contents map (W.words words.old)) (contents map (W.words words.new)) thread slot word from to }
    ensures sound { Sound map (W.words words.new) }
    ensures base { W.base words.new ≡ W.base words.old }
{
    record_slot(words, map, thread, slot, from, to);
    set_heap(words, map, slot, word);
}

/// Puts the value of slot x into a field of the object of slot s.
pub fn store<W: Words>(words: &mut W, map: Areas, thread: u8, s: u32, f: u32, x: u32) -> Reply
    requires sound { Sound map (W.words words.old) }
    requires thread { HasThread map thread }
    requires recorded { SomeRecorded map (contents map (W.words words.old)) }
    ensures turns { Turned map (contents map (W.words words.old)) (contents map (W.words words.new)) thread (Call.Store s f x) result }
    ensures sound { Sound map (W.words words.new) }
    ensures base { W.base words.new ≡ W.base words.old }
{
    let count = stack_length(words, map, thread);
    let Ok(word) = slot_below(words, map, thread, count, x) else {
        return Reply::Refused(Refusal::BadSlot);
    };
    match field_of(words, map, thread, count, s, f) {
        Ok(a) => {
            let to = space_of_word(words, map, word);
            let from = space_left(words, map, thread, s, to);
            store_word(words, map, thread, a, word, from, to);
            Reply::Ok
        }
        Err(why) => Reply::Refused(why),
    }
}
