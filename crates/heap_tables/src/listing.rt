//! The list of the entries of a table.
ghost use Rattle.std.specs.Prelude.{◌≡◌, ℕ, ◌+◌, ◌≤◌, ◌++◌, ◌∷◌, [], List, length, IfOk, OnOk};
ghost use Rattle.object_layout.specs.declared.names.Name.{Name};
ghost use Rattle.heap_words.specs.declared.TheConstants.{STACK_SLOTS};
ghost use Rattle.yak_model.specs.Private.{KnownObjects};
ghost use Rattle.yak_model.specs.Texts.{WordCounts};
ghost use Rattle.heap_tables.specs.declared.TheConstants.{FREE_SLOTS};
ghost use Rattle.heap_tables.specs.Asides.{LacksTable};
ghost use Rattle.heap_tables.specs.Cursors.{HasTableWalk, MayWalk};
ghost use Rattle.heap_tables.specs.Entries.{AreEntries, entries_of};
ghost use Rattle.heap_tables.specs.Runs.{Ran, stack_in};

use crate::cursors::{Cursor, Entry, next_entry};
use object_layout::NoMemory;
use std::alloc::Global;
use std::marker::Model;
use yak_model::Caller;

/// A word and its count.
#[derive(Drop)]
pub struct WordCount {
    pub word: Vec<u8>,
    pub count: u64,
}

impl Model for WordCount {
    ghost use Rattle.std.specs.Prelude.{ℕ, List};

    ghost Value = { List ℕ × ℕ };

    ghost view = { λ s. (s.word.items, s.count) };
}

/// Appends the word and the count of an entry to the list.
fn push_entry(list: &mut Vec<WordCount>, entry: Entry) -> Result<(), NoMemory>
    ensures { OnOk result (list.new.items ≡ list.old.items ++ (entry.word, entry.count) ∷ []) }
{
    let counted = WordCount {
        word: entry.word,
        count: entry.count,
    };
    match list.push(counted) {
        Ok(_) => Ok(()),
        Err(_) => Err(NoMemory),
    }
}

/// Reads the words and counts of a table, in the order of the walk through it.
///
/// # Errors
///
/// `NoMemory` where a word or the list found no room.
pub fn read_entries<C: Caller>(
    alloc: Global,
    caller: &mut C,
    table: u32,
) -> Result<Vec<WordCount>, NoMemory>
    requires table { HasTableWalk (C.standing caller.old) (C.knows caller.old) table }
    requires room { length (stack_in (C.standing caller.old)) + FREE_SLOTS ≤ STACK_SLOTS }
    ensures ran { Ran C.base C.tells C.tells_known C.standing caller.old caller.new 0 }
    ensures own { (C.standing caller.new).own ≡ (C.standing caller.old).own }
    ensures kept { (known : KnownObjects) (name : Name) (counts : WordCounts) → C.knows caller.old known → MayWalk (C.standing caller.old) known table name counts → C.knows caller.new known }
    ensures aside { (known : KnownObjects) (name : Name) (counts : WordCounts) (may : MayWalk (C.standing caller.old) known table name counts) (other : KnownObjects) → C.knows caller.old known → C.knows caller.old other → LacksTable other name (may.is_table).buckets → C.knows caller.new other }
    ensures walked { IfOk result (λ list. (known : KnownObjects) (name : Name) (counts : WordCounts) (may : MayWalk (C.standing caller.old) known table name counts) → C.knows caller.old known → list.items ≡ entries_of (may.is_table).buckets) }
    ensures entries { IfOk result (λ list. (known : KnownObjects) (name : Name) (counts : WordCounts) → C.knows caller.old known → MayWalk (C.standing caller.old) known table name counts → AreEntries counts list.items) }
{
    let mut list = Vec::new(alloc);
    let mut at = Cursor {
        bucket: 0,
        place: 0,
    };
    'entries: while let Some(entry) = next_entry(alloc, caller, table, at)? {
        at = entry.next;
        push_entry(&mut list, entry)?;
    }
    Ok(list)
}
