//! Words in memory that is lent for a call.

ghost use Rattle.std.specs.Prelude.{◌≡◌, ◌≤◌, ◌<◌, ◌+◌, ◌-◌, ◌^◌, ℕ, List, length, slice_index, slice_set, min};
ghost use Rattle.heap_words.specs.Map.{IsAreas, total_of};

use heap_words::{Areas, Words};

/// The words of a heap in memory that is lent for a call.
#[derive(Drop)]
pub(crate) struct Lent<'a> {
    words: &'a mut [u64],
    map: Areas,
    reads: u64,
    ghost gate_zero: { slice_index words.now 0 ≡ 0 },
    ghost areas: { IsAreas map },
    ghost whole: { length words.now ≡ total_of map },
}

impl<'a> Words for Lent<'a> {
    ghost use Rattle.std.specs.Prelude.{ℕ};
    ghost use Rattle.heap_words.specs.declared.map.Areas.{Areas};

    ghost Base = { Areas × ℕ };

    ghost words = { λ s. s.words.now };

    ghost reads = { λ s. s.reads };

    ghost base = { λ s. (s.map, s.words.ghost_name) };

    ghost map = { λ b. b.0 };

    ghost gate_hidden = { λ s. s.gate_zero };

    ghost within_limits = { λ s. s.areas };

    ghost whole = { λ s. s.whole };

    fn get(&mut self, i: usize) -> u64 {
        self.reads = self.reads.saturating_add(1);
        self.words[i]
    }

    fn set(&mut self, i: usize, word: u64) {
        self.words[i] = word;
    }
}

impl<'a> Lent<'a> {
    /// The words of a heap of this map.
    pub(crate) fn new(words: &'a mut [u64], map: Areas) -> Lent<'a>
        requires gate { slice_index words.old 0 ≡ 0 }
        requires areas { IsAreas map }
        requires whole { length words.old ≡ total_of map }
        ensures same_reference { result.words.ghost_name ≡ words.entry.ghost_name }
        ensures words { result.words.now ≡ words.old }
        ensures map { result.map ≡ map }
    {
        Lent {
            words,
            map,
            reads: 0,
        }
    }

    /// The words as they were left.
    pub(crate) fn into_slice(self) -> &'a mut [u64]
        ensures same_reference { result.ghost_name ≡ self.entry.words.ghost_name }
        ensures words { result.now ≡ self.entry.words.now }
        ensures gate { slice_index result.now 0 ≡ 0 }
    {
        self.words
    }
}
