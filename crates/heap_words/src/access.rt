//! How words are read and written.

ghost use Rattle.std.specs.Prelude.{◌≡◌, ◌≤◌, ◌<◌, ◌+◌, ◌-◌, ◌^◌, ℕ, List, length, slice_index, slice_set, min};
ghost use Rattle.heap_words.specs.declared.map.Areas.{Areas};
ghost use Rattle.heap_words.specs.Map.{IsAreas, total_of};

/// The words of a heap. Word 0, the gate, is never read or written through this trait.
pub trait Words {
    // The type of all else that the value stands for.
    ghost Base: { Type 0 };

    // The list of words, in which word 0 is shown as 0.
    ghost words: { Self → List ℕ };

    // How often `get` was called, up to 2^64-1.
    ghost reads: { Self → ℕ };

    // All else that the value stands for.
    ghost base: { Self → Base };

    // The map of the words, which what the value stands for decides.
    ghost map: { Base → Areas };

    /// The word at a place.
    fn get(&mut self, i: usize) -> u64
        requires above_gate { 1 ≤ i }
        requires within { i < length (words self.old) }
        ensures value { result ≡ slice_index (words self.old) i }
        ensures words { words self.new ≡ words self.old }
        ensures reads { reads self.new ≡ min (reads self.old + 1) (2 ^ 64 - 1) }
        ensures base { base self.new ≡ base self.old };

    /// Puts a word at a place.
    fn set(&mut self, i: usize, word: u64)
        requires above_gate { 1 ≤ i }
        requires within { i < length (words self.old) }
        ensures words { words self.new ≡ slice_set (words self.old) i word }
        ensures reads { reads self.new ≡ reads self.old }
        ensures base { base self.new ≡ base self.old };

    ghost gate_hidden: { (x : Self) → slice_index (words x) 0 ≡ 0 };

    ghost within_limits: { (x : Self) → IsAreas (map (base x)) };

    ghost whole: { (x : Self) → length (words x) ≡ total_of (map (base x)) };
}
