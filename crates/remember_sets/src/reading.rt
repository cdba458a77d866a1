//! The readers of a region: the threads whose stacks may refer into it.

ghost use Rattle.std.specs.Prelude.{◌≡◌, ◌≢◌, ◌≤◌, ◌<◌, ◌+◌, ◌-◌, ◌*◌, ◌^◌, ◌↔◌, ◌⊎◌, ℕ, List, bit_or};
ghost use Rattle.std.specs.Int.{IsBitSet};
ghost use Rattle.heap_words.specs.Map.{HasThread};
ghost use Rattle.heap_words.specs.Contents.{contents, Sound};
ghost use Rattle.yak_model.specs.Chains.{IsRegionOf};
ghost use Rattle.remember_sets.specs.Filed.{readers_word, with_readers_word};

use epoch_lattice::Space;
use heap_words::{Areas, Words, get_readers, set_readers};

/// The readers word of a region: thread t's bit is bit t - 1.
pub fn readers<W: Words>(words: &mut W, map: Areas, region: Space) -> u64
    requires sound { Sound map (W.words words.old) }
    requires region { IsRegionOf map region }
    ensures readers { result ≡ readers_word (contents map (W.words words.old)) region }
    ensures words { W.words words.new ≡ W.words words.old }
    ensures reads { W.reads words.new ≤ W.reads words.old + 1 }
    ensures base { W.base words.new ≡ W.base words.old }
{
    match region {
        Space::Control => 0,
        Space::Region { thread, depth } => get_readers(words, map, thread, depth),
    }
}

/// Sets the readers word of a region.
fn put_readers<W: Words>(words: &mut W, map: Areas, region: Space, word: u64)
    requires sound { Sound map (W.words words.old) }
    requires region { IsRegionOf map region }
    ensures set { contents map (W.words words.new) ≡ with_readers_word (contents map (W.words words.old)) region word }
    ensures sound { Sound map (W.words words.new) }
    ensures reads { W.reads words.new ≡ W.reads words.old }
    ensures base { W.base words.new ≡ W.base words.old }
{
    match region {
        Space::Control => {}
        Space::Region { thread, depth } => set_readers(words, map, thread, depth, word),
    }
}

/// Sets a thread's bit in the readers word of a region, and no other bit.
pub fn set_reader<W: Words>(words: &mut W, map: Areas, region: Space, thread: u8)
    requires sound { Sound map (W.words words.old) }
    requires region { IsRegionOf map region }
    requires thread { HasThread map thread }
    ensures set { let c = contents map (W.words words.old) in contents map (W.words words.new) ≡ with_readers_word c region (bit_or (readers_word c region) (2 ^ (thread - 1))) }
    ensures sound { Sound map (W.words words.new) }
    ensures reads { W.reads words.new ≤ W.reads words.old + 1 }
    ensures base { W.base words.new ≡ W.base words.old }
{
    let word = readers(words, map, region);
    put_readers(words, map, region, word | 1 << (thread - 1));
}

/// Sets the readers word of a region to no thread.
pub fn clear_readers<W: Words>(words: &mut W, map: Areas, region: Space)
    requires sound { Sound map (W.words words.old) }
    requires region { IsRegionOf map region }
    ensures set { contents map (W.words words.new) ≡ with_readers_word (contents map (W.words words.old)) region 0 }
    ensures sound { Sound map (W.words words.new) }
    ensures reads { W.reads words.new ≡ W.reads words.old }
    ensures base { W.base words.new ≡ W.base words.old }
{
    put_readers(words, map, region, 0);
}
