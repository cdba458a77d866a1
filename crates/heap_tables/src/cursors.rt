//! The walk through a table, entry by entry.
ghost use Rattle.std.specs.Prelude.{◌≡◌, ℕ, ◌+◌, ◌^◌, ◌<◌, ◌≤◌, List, length, IfOk};
ghost use Rattle.object_layout.specs.declared.names.Name.{Name};
ghost use Rattle.yak_model.specs.declared.TheConstants.{BUCKETS};
ghost use Rattle.heap_words.specs.declared.TheConstants.{STACK_SLOTS};
ghost use Rattle.yak_model.specs.declared.datum.Datum.{Datum};
ghost use Rattle.yak_model.specs.Private.{KnownObjects};
ghost use Rattle.yak_model.specs.Tables.{Link};
ghost use Rattle.yak_model.specs.Texts.{WordCounts};
ghost use Rattle.heap_tables.specs.declared.TheConstants.{FREE_SLOTS, KEY_BYTES};
ghost use Rattle.heap_tables.specs.Cursors.{HasFew, HasTableWalk, IsFound, IsNextEntry, IsVisited, MayWalk, Visited, start_in};
ghost use Rattle.heap_tables.specs.Reads.{HasShortWalk};
ghost use Rattle.heap_tables.specs.Runs.{Ran, stack_in};
ghost use Rattle.heap_tables.specs.Walks.{IsApart, IsAtChain};
ghost use Rattle.heap_tables.specs.Asides.{LacksChain, LacksTable};

use crate::KEY_BYTES;
use crate::reading::take_entry;
use crate::steps::stack_size;
use object_layout::NoMemory;
use std::alloc::Global;
use std::marker::Model;
use yak_model::{BUCKETS, Caller};

/// A place in the walk through a table: a bucket, and how many entries of its chain come before.
#[derive(Clone, Copy, Debug, PartialEq, Eq, Drop)]
pub struct Cursor {
    pub bucket: u8,
    pub place: u32,
}

/// A word of a table, its count, and the place after it in the walk.
#[derive(Drop)]
pub struct Entry {
    pub word: Vec<u8>,
    pub count: u64,
    pub next: Cursor,
}

impl Model for Entry {
    ghost Value = { Visited };

    ghost view = { λ e. record { word = e.word.items; count = e.count; next = e.next } };
}

/// The first place of a bucket that is at the cursor or past it.
fn start_in(at: Cursor, bucket: u32) -> u32
    ensures { result ≡ start_in at bucket }
{
    if bucket == u32::from(at.bucket) {
        at.place
    } else {
        0
    }
}

/// Copies the word of the first entry of a bucket that is at the cursor or past it into the buffer. Gives its length, its count
/// and the place after it.
fn visit<C: Caller>(
    caller: &mut C,
    table: u32,
    at: Cursor,
    bucket: u32,
    buffer: &mut [u8],
    top: u32,
) -> Option<(usize, u64, Cursor)>
    requires chain { HasShortWalk (C.standing caller.old) (C.knows caller.old) table bucket }
    requires few { HasFew (C.standing caller.old) (C.knows caller.old) table bucket }
    requires bucket { bucket < BUCKETS }
    requires buffer { KEY_BYTES ≤ length buffer.old }
    requires room { length (stack_in (C.standing caller.old)) + 3 < STACK_SLOTS }
    requires top { length (stack_in (C.standing caller.old)) ≡ top }
    ensures ran { Ran C.base C.tells C.tells_known C.standing caller.old caller.new 0 }
    ensures own { (C.standing caller.new).own ≡ (C.standing caller.old).own }
    ensures buffer { length buffer.new ≡ length buffer.old }
    ensures visited { (known : KnownObjects) (name : Name) (values : List Datum) (links : List Link) → C.knows caller.old known → IsAtChain (C.standing caller.old) known table bucket name values links → IsApart name links → IsVisited at bucket links result buffer.new × C.knows caller.new known }
    ensures aside { (known : KnownObjects) (name : Name) (values : List Datum) (links : List Link) (other : KnownObjects) → C.knows caller.old known → IsAtChain (C.standing caller.old) known table bucket name values links → IsApart name links → C.knows caller.old other → LacksChain other name links → C.knows caller.new other }
{
    let place = start_in(at, bucket);
    match take_entry(caller, table, bucket, place, buffer, top) {
        Some((size, count)) => Some((
            size,
            count,
            Cursor {
                bucket: bucket as u8,
                place: place + 1,
            },
        )),
        None => None,
    }
}

/// Copies the word of the first entry at the cursor or past it into the buffer. Gives its length, its count and the place after
/// it.
fn find_next<C: Caller>(
    caller: &mut C,
    table: u32,
    at: Cursor,
    buffer: &mut [u8],
    top: u32,
) -> Option<(usize, u64, Cursor)>
    requires table { HasTableWalk (C.standing caller.old) (C.knows caller.old) table }
    requires buffer { KEY_BYTES ≤ length buffer.old }
    requires room { length (stack_in (C.standing caller.old)) + 3 < STACK_SLOTS }
    requires top { length (stack_in (C.standing caller.old)) ≡ top }
    ensures ran { Ran C.base C.tells C.tells_known C.standing caller.old caller.new 0 }
    ensures own { (C.standing caller.new).own ≡ (C.standing caller.old).own }
    ensures buffer { length buffer.new ≡ length buffer.old }
    ensures found { (known : KnownObjects) (name : Name) (counts : WordCounts) (may : MayWalk (C.standing caller.old) known table name counts) → C.knows caller.old known → IsFound (may.is_table).buckets at result buffer.new × C.knows caller.new known }
    ensures aside { (known : KnownObjects) (name : Name) (counts : WordCounts) (may : MayWalk (C.standing caller.old) known table name counts) (other : KnownObjects) → C.knows caller.old known → C.knows caller.old other → LacksTable other name (may.is_table).buckets → C.knows caller.new other }
{
    for bucket in u32::from(at.bucket)..BUCKETS as u32 {
        match visit(caller, table, at, bucket, buffer, top) {
            Some(found) => return Some(found),
            None => {}
        }
    }
    None
}

/// The bytes in a vector.
fn copy_word(alloc: Global, bytes: &[u8]) -> Result<Vec<u8>, NoMemory>
    ensures { IfOk result (λ word. word.items ≡ bytes.now) }
{
    let mut word = Vec::new(alloc);
    match word.extend_from_slice(bytes) {
        Ok(()) => Ok(word),
        Err(_) => Err(NoMemory),
    }
}

/// Gives the first entry of the walk through a table that is at the cursor or past it, and `None` where there is none.
///
/// # Errors
///
/// `NoMemory` where the word found no room.
pub fn next_entry<C: Caller>(
    alloc: Global,
    caller: &mut C,
    table: u32,
    at: Cursor,
) -> Result<Option<Entry>, NoMemory>
    requires table { HasTableWalk (C.standing caller.old) (C.knows caller.old) table }
    requires room { length (stack_in (C.standing caller.old)) + FREE_SLOTS ≤ STACK_SLOTS }
    ensures ran { Ran C.base C.tells C.tells_known C.standing caller.old caller.new 0 }
    ensures own { (C.standing caller.new).own ≡ (C.standing caller.old).own }
    ensures kept { (known : KnownObjects) (name : Name) (counts : WordCounts) → C.knows caller.old known → MayWalk (C.standing caller.old) known table name counts → C.knows caller.new known }
    ensures aside { (known : KnownObjects) (name : Name) (counts : WordCounts) (may : MayWalk (C.standing caller.old) known table name counts) (other : KnownObjects) → C.knows caller.old known → C.knows caller.old other → LacksTable other name (may.is_table).buckets → C.knows caller.new other }
    ensures next { IfOk result (λ found. (known : KnownObjects) (name : Name) (counts : WordCounts) (may : MayWalk (C.standing caller.old) known table name counts) → C.knows caller.old known → IsNextEntry counts (may.is_table).buckets at found) }
{
    let top = stack_size(caller, table);
    let mut buffer = [0; KEY_BYTES];
    match find_next(caller, table, at, &mut buffer, top) {
        Some((size, count, next)) => {
            let word = copy_word(alloc, &buffer[..size])?;
            Ok(Some(Entry { word, count, next }))
        }
        None => Ok(None),
    }
}
