//! The list of counts.
ghost use Rattle.std.specs.Prelude.{◌≡◌, ℕ, List, IsPermutation};
ghost use Rattle.std.specs.declared.cmp.Ordering.{Ordering};
ghost use Rattle.std.specs.FinMap as finite;
ghost use Rattle.yak_model.specs.Texts.{WordCounts, counts_of, word_cmp, word_counts};
ghost use Rattle.group_jobs.specs.Counts.{Ascends};
ghost use Rattle.heap_tables.specs.Entries.{AreEntries};

use heap_tables::WordCount;
use std::cmp::Ordering;

/// The order of the words, by their bytes.
pub(crate) fn order(one: &WordCount, other: &WordCount) -> Ordering
    ensures { result ≡ word_cmp one.now.0 other.now.0 }
{
    one.word.as_slice().cmp(other.word.as_slice())
}

/// Puts counts into ascending order of the words' bytes.
pub fn sort_counts(list: &mut Vec<WordCount>)
    ensures moved { IsPermutation list.old.items list.new.items }
    ensures up { Ascends list.new.items }
    ensures sorted { (counts : WordCounts) → AreEntries counts list.old.items → list.new.items ≡ finite.entries counts }
    ensures counts { (words : List (List ℕ)) → AreEntries (word_counts words) list.old.items → list.new.items ≡ counts_of words }
{
    list.sort_unstable_by(|one, other| order(one, other));
}
