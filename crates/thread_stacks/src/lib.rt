//! The stacks and depths of the threads.
#![tactic(auto)]

ghost use Rattle.std.specs.Prelude.{◌≡◌, ◌≤◌, ◌<◌, ◌+◌, ◌-◌, ◌^◌, ℕ, List, [], ◌∷◌, ◌++◌, take, length, slice_index, slice_set, MatchResult};
ghost use Rattle.heap_words.specs.Map.{HasThread, max_depth};
ghost use Rattle.heap_words.specs.Contents.{contents, stack_of, depth_of, with_stack, with_depth, Sound};

use heap_words::{
    Areas, STACK_SLOTS, Words, get_depth, get_stack, grow_stack, shrink_stack, stack_length,
};
use object_layout::{BadSlot, StackEmpty, StackFull};

/// Puts a word on top of a thread's stack, which is refused exactly where all its slots are in use.
pub fn push<W: Words>(words: &mut W, map: Areas, thread: u8, word: u64) -> Result<(), StackFull>
    requires sound { Sound map (W.words words.old) }
    requires thread { HasThread map thread }
    ensures pushed { let c = contents map (W.words words.old) in let stack = stack_of c thread in MatchResult result (λ _. (length stack < STACK_SLOTS) × (contents map (W.words words.new) ≡ with_stack c thread (stack ++ word ∷ []))) (λ _. (length stack ≡ STACK_SLOTS) × (W.words words.new ≡ W.words words.old)) }
    ensures sound { Sound map (W.words words.new) }
    ensures reads { W.reads words.new ≤ W.reads words.old + 1 }
    ensures base { W.base words.new ≡ W.base words.old }
{
    let count = stack_length(words, map, thread);
    push_above(words, map, thread, count, word)
}

/// Puts a word on top of a thread's stack, which has so many slots in use. It is refused exactly where these are all.
pub fn push_above<W: Words>(
    words: &mut W,
    map: Areas,
    thread: u8,
    count: usize,
    word: u64,
) -> Result<(), StackFull>
    requires sound { Sound map (W.words words.old) }
    requires thread { HasThread map thread }
    requires count { count ≡ length (stack_of (contents map (W.words words.old)) thread) }
    ensures pushed { let c = contents map (W.words words.old) in let stack = stack_of c thread in MatchResult result (λ _. (length stack < STACK_SLOTS) × (contents map (W.words words.new) ≡ with_stack c thread (stack ++ word ∷ []))) (λ _. (length stack ≡ STACK_SLOTS) × (W.words words.new ≡ W.words words.old)) }
    ensures sound { Sound map (W.words words.new) }
    ensures reads { W.reads words.new ≡ W.reads words.old }
    ensures base { W.base words.new ≡ W.base words.old }
{
    if count >= STACK_SLOTS {
        return Err(StackFull);
    }
    grow_stack(words, map, thread, count, word);
    Ok(())
}

/// Takes the word from the top of a thread's stack, which is refused exactly where no slot is in use.
pub fn pop<W: Words>(words: &mut W, map: Areas, thread: u8) -> Result<u64, StackEmpty>
    requires sound { Sound map (W.words words.old) }
    requires thread { HasThread map thread }
    ensures popped { let c = contents map (W.words words.old) in let stack = stack_of c thread in MatchResult result (λ word. (0 < length stack) × (word ≡ slice_index stack (length stack - 1)) × (contents map (W.words words.new) ≡ with_stack c thread (take (length stack - 1) stack))) (λ _. (length stack ≡ 0) × (W.words words.new ≡ W.words words.old)) }
    ensures sound { Sound map (W.words words.new) }
    ensures reads { W.reads words.new ≤ W.reads words.old + 2 }
    ensures base { W.base words.new ≡ W.base words.old }
{
    let count = stack_length(words, map, thread);
    if count == 0 {
        return Err(StackEmpty);
    }
    let word = get_stack(words, map, thread, count - 1);
    shrink_stack(words, map, thread, count);
    Ok(word)
}

/// Drops the top of a thread's stack, which is refused exactly where no slot is in use. The word isn't read.
pub fn drop_top<W: Words>(words: &mut W, map: Areas, thread: u8) -> Result<(), StackEmpty>
    requires sound { Sound map (W.words words.old) }
    requires thread { HasThread map thread }
    ensures dropped { let c = contents map (W.words words.old) in let stack = stack_of c thread in MatchResult result (λ _. (0 < length stack) × (contents map (W.words words.new) ≡ with_stack c thread (take (length stack - 1) stack))) (λ _. (length stack ≡ 0) × (W.words words.new ≡ W.words words.old)) }
    ensures sound { Sound map (W.words words.new) }
    ensures reads { W.reads words.new ≤ W.reads words.old + 1 }
    ensures base { W.base words.new ≡ W.base words.old }
{
    let slots = stack_length(words, map, thread);
    if slots == 0 {
        return Err(StackEmpty);
    }
    shrink_stack(words, map, thread, slots);
    Ok(())
}

/// The word of a slot of a thread's stack, which is refused exactly at or past the slots in use.
pub fn slot<W: Words>(words: &mut W, map: Areas, thread: u8, s: u32) -> Result<u64, BadSlot>
    requires sound { Sound map (W.words words.old) }
    requires thread { HasThread map thread }
    ensures slot { let stack = stack_of (contents map (W.words words.old)) thread in MatchResult result (λ word. (s < length stack) × (word ≡ slice_index stack s)) (λ _. length stack ≤ s) }
    ensures words { W.words words.new ≡ W.words words.old }
    ensures reads { W.reads words.new ≤ W.reads words.old + 2 }
    ensures base { W.base words.new ≡ W.base words.old }
{
    let count = stack_length(words, map, thread);
    slot_below(words, map, thread, count, s)
}

/// The word of a slot of a thread's stack, which has so many slots in use. It is refused exactly at or past them.
pub fn slot_below<W: Words>(
    words: &mut W,
    map: Areas,
    thread: u8,
    count: usize,
    s: u32,
) -> Result<u64, BadSlot>
    requires sound { Sound map (W.words words.old) }
    requires thread { HasThread map thread }
    requires count { count ≡ length (stack_of (contents map (W.words words.old)) thread) }
    ensures slot { let stack = stack_of (contents map (W.words words.old)) thread in MatchResult result (λ word. (s < length stack) × (word ≡ slice_index stack s)) (λ _. length stack ≤ s) }
    ensures words { W.words words.new ≡ W.words words.old }
    ensures reads { W.reads words.new ≤ W.reads words.old + 1 }
    ensures base { W.base words.new ≡ W.base words.old }
{
    if s as usize >= count {
        return Err(BadSlot);
    }
    Ok(get_stack(words, map, thread, s as usize))
}

/// The depth of a thread: how many epochs it has open.
pub fn depth<W: Words>(words: &mut W, map: Areas, thread: u8) -> u8
    requires sound { Sound map (W.words words.old) }
    requires thread { HasThread map thread }
    ensures depth { result ≡ depth_of (contents map (W.words words.old)) thread }
    ensures at_most { result ≤ max_depth map }
    ensures words { W.words words.new ≡ W.words words.old }
    ensures reads { W.reads words.new ≤ W.reads words.old + 1 }
    ensures base { W.base words.new ≡ W.base words.old }
{
    get_depth(words, map, thread)
}

/// Sets the depth of a thread.
pub fn set_depth<W: Words>(words: &mut W, map: Areas, thread: u8, depth: u8)
    requires sound { Sound map (W.words words.old) }
    requires thread { HasThread map thread }
    requires depth { depth ≤ max_depth map }
    ensures set { contents map (W.words words.new) ≡ with_depth (contents map (W.words words.old)) thread depth }
    ensures sound { Sound map (W.words words.new) }
    ensures reads { W.reads words.new ≡ W.reads words.old }
    ensures base { W.base words.new ≡ W.base words.old }
{
    heap_words::set_depth(words, map, thread, depth);
}

#[cfg(test)]
mod tests {
    use super::*;
    use heap_words::Image;
    use std::test::Fail;

    #[test]
    fn words_come_back_in_turn(rt: HostRuntime) -> Result<(), Fail> {
        let mut image = match Image::new(rt.alloc(), 1, 1) {
            Ok(image) => image,
            Err(error) => panic!(rt; "no heap: {error}"),
        };
        let map = image.map();
        assert_eq!(rt; push(&mut image, map, 1, 7), Ok(()));
        assert_eq!(rt; push(&mut image, map, 1, 9), Ok(()));
        assert_eq!(rt; slot(&mut image, map, 1, 0), Ok(7));
        assert_eq!(rt; slot(&mut image, map, 1, 2), Err(BadSlot));
        assert_eq!(rt; pop(&mut image, map, 1), Ok(9));
        set_depth(&mut image, map, 1, 3);
        assert_eq!(rt; depth(&mut image, map, 1), 3);
        Ok(())
    }
}
