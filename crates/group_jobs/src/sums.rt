//! Adding up lists of counts.
ghost use Rattle.std.specs.Prelude.{◌≡◌, ◌+◌, ◌≤◌, ◌++◌, ◌∷◌, [], ℕ, List, IfOk, OnOk};
ghost use Rattle.object_layout.specs.declared.TheConstants.{MAX_INT};
ghost use Rattle.yak_model.specs.Texts.{WordCounts};
ghost use Rattle.group_jobs.specs.Counts.{AddsLast, AreParts, Ascends, sum_for};
ghost use Rattle.heap_tables.specs.Entries.{AreEntries};

use crate::counted::order;
use heap_tables::WordCount;
use object_layout::NoMemory;
use std::alloc::Global;

/// Puts a count behind a list.
fn push_count(list: &mut Vec<WordCount>, counted: WordCount) -> Result<(), NoMemory>
    ensures { OnOk result (list.new.items ≡ list.old.items ++ counted ∷ []) }
{
    list.push(counted).map_err(|_| NoMemory)
}

/// Puts the counts of a list behind those of another.
pub(crate) fn append_counts(all: &mut Vec<WordCount>, list: Vec<WordCount>) -> Result<(), NoMemory>
    ensures { OnOk result (all.new.items ≡ all.old.items ++ list.items) }
{
    for counted in list {
        push_count(all, counted)?;
    }
    Ok(())
}

/// Adds a count to the last of a list, where that is of the same word, or puts it behind the list.
fn add_count(sums: &mut Vec<WordCount>, counted: WordCount) -> Result<(), NoMemory>
    requires fits { (front : List (List ℕ × ℕ)) (n : ℕ) → sums.old.items ≡ front ++ (counted.0, n) ∷ [] → n + counted.1 ≤ MAX_INT }
    ensures { OnOk result (AddsLast counted sums.old.items sums.new.items) }
{
    let size = sums.len();
    if size > 0 && order(&sums[size - 1], &counted).is_eq() {
        sums[size - 1].count += counted.count;
        return Ok(());
    }
    push_count(sums, counted)
}

/// Adds up the counts of each word in a list that is in ascending order of words.
pub(crate) fn add_up(alloc: Global, sorted: Vec<WordCount>) -> Result<Vec<WordCount>, NoMemory>
    requires up { Ascends sorted.items }
    requires few { (word : List ℕ) → sum_for sorted.items word ≤ MAX_INT }
    ensures sums { IfOk result (λ sums. (counts : WordCounts) → AreParts counts sorted.items → AreEntries counts sums.items) }
{
    let mut sums = Vec::new(alloc);
    for counted in sorted {
        add_count(&mut sums, counted)?;
    }
    Ok(sums)
}
