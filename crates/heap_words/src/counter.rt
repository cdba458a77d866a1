//! A count of words read.

ghost use Rattle.std.specs.Prelude.{◌≡◌, ◌+◌, ◌-◌, ◌^◌, ℕ, min};
ghost use Rattle.std.specs.List.{sum};

use std::marker::Model;

/// How many parts a count has.
const PARTS: usize = 4;

/// A count that is kept in parts, so that a read need not wait for that of the count before it. It stands at its last value.
#[derive(Drop)]
pub(crate) struct Counter {
    parts: [u64; PARTS],
}

impl Model for Counter {
    ghost Value = { ℕ };

    ghost view = { λ s. min (sum s.parts) (2 ^ 64 - 1) };
}

impl Counter {
    /// Nothing was counted.
    pub(crate) fn new() -> Counter
        ensures { result ≡ 0 }
    {
        Counter { parts: [0; PARTS] }
    }

    /// Counts one more, of the word at this place.
    #[inline(always)]
    pub(crate) fn count(&mut self, place: usize)
        ensures { self.new ≡ min (self.old + 1) (2 ^ 64 - 1) }
    {
        let part = place / 2 % PARTS;
        self.parts[part] = self.parts[part].saturating_add(1);
    }

    /// The count.
    pub(crate) fn number(&self) -> u64
        ensures { result ≡ self.now }
    {
        let [first, second, third, fourth] = self.parts;
        first
            .saturating_add(second)
            .saturating_add(third)
            .saturating_add(fourth)
    }
}
