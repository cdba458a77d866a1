//! The words that link the slots of a chain.

ghost use Rattle.std.specs.Prelude.{◌≡◌, ◌≤◌, ◌<◌, ◌+◌, ◌-◌, ◌*◌, ◌^◌, ℕ};
ghost use Rattle.heap_words.specs.Map.{heap_length};
ghost use Rattle.heap_words.specs.Contents.{contents, Sound};
ghost use Rattle.yak_model.specs.Chains.{former_from};
ghost use Rattle.remember_sets.specs.Linking.{IsFormer, IsNext, with_former, with_links, with_next};

use epoch_lattice::{MAX_DEPTH, MAX_THREADS, Space, space_at};
use heap_words::{Areas, Words, set_first, set_set};

/// What is added to a slot in the second word of the slot behind it. Numbers of regions lie below.
pub(crate) fn former_from() -> u64
    ensures { result ≡ former_from }
{
    u64::from(MAX_THREADS) * u64::from(MAX_DEPTH) + 1
}

/// Sets the first word of the slot that a second word names, or the head of the region that it names.
pub(crate) fn set_next<W: Words>(words: &mut W, map: Areas, former: u64, word: u64)
    requires sound { Sound map (W.words words.old) }
    requires former { IsFormer map former }
    requires word { 1 ≤ word }
    ensures set { contents map (W.words words.new) ≡ with_next (contents map (W.words words.old)) former word }
    ensures sound { Sound map (W.words words.new) }
    ensures reads { W.reads words.new ≡ W.reads words.old }
    ensures base { W.base words.new ≡ W.base words.old }
{
    if former >= former_from() {
        set_set(words, map, 2 * (former - former_from()) as usize, word);
        return;
    }
    match space_at(former as u8) {
        Some(Space::Region { thread, depth }) => set_first(words, map, thread, depth, word - 1),
        _ => {}
    }
}

/// Sets the second word of the slot that a first word names, if it names one.
pub(crate) fn set_former<W: Words>(words: &mut W, map: Areas, next: u64, word: u64)
    requires sound { Sound map (W.words words.old) }
    requires next { IsNext map next }
    ensures set { contents map (W.words words.new) ≡ with_former (contents map (W.words words.old)) next word }
    ensures sound { Sound map (W.words words.new) }
    ensures reads { W.reads words.new ≡ W.reads words.old }
    ensures base { W.base words.new ≡ W.base words.old }
{
    if next >= 2 {
        set_set(words, map, 2 * (next - 2) as usize + 1, word);
    }
}

/// Sets the two words of a slot.
pub(crate) fn set_links<W: Words>(words: &mut W, map: Areas, slot: usize, next: u64, former: u64)
    requires sound { Sound map (W.words words.old) }
    requires within { slot < heap_length map }
    ensures set { contents map (W.words words.new) ≡ with_links (contents map (W.words words.old)) slot next former }
    ensures sound { Sound map (W.words words.new) }
    ensures reads { W.reads words.new ≡ W.reads words.old }
    ensures base { W.base words.new ≡ W.base words.old }
{
    set_set(words, map, 2 * slot, next);
    set_set(words, map, 2 * slot + 1, former);
}
