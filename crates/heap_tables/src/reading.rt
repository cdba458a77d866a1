//! Words and counts, read from the entries of a table.
ghost use Rattle.std.specs.Prelude.{◌≡◌, ◌≢◌, ℕ, ◌+◌, ◌/◌, ◌%◌, ◌^◌, ◌<◌, ◌≤◌, List, length, drop, take, slice_index, slice_index_or, IsTrue};
ghost use Rattle.object_layout.specs.declared.names.Name.{Name};
ghost use Rattle.yak_model.specs.declared.TheConstants.{GROUP_BYTES};
ghost use Rattle.heap_words.specs.declared.TheConstants.{STACK_SLOTS};
ghost use Rattle.yak_model.specs.declared.datum.Datum.{Datum};
ghost use Rattle.yak_model.specs.Private.{KnownObjects};
ghost use Rattle.yak_model.specs.Tables.{AreBytes, IsChain, Link, digits, group};
ghost use Rattle.heap_tables.specs.declared.TheConstants.{KEY_BYTES};
ghost use Rattle.heap_tables.specs.Keys.{IsKeyInSlot};
ghost use Rattle.heap_tables.specs.Reads.{AreShort, HasKeyByte, HasShortEntry, HasShortKey, HasShortLinks, HasShortWalk, IsCopied, Took};
ghost use Rattle.heap_tables.specs.Runs.{KeepsKnown, Ran, slot_in, stack_in};
ghost use Rattle.heap_tables.specs.Walks.{IsApart, IsAtChain, IsEntryInSlot};
ghost use Rattle.heap_tables.specs.Asides.{LacksChain};

use crate::layouts::lay_on;
use crate::seek::seek;
use crate::steps::{field_int, load, pop, pop_all, slot_is_null};
use heap_words::STACK_SLOTS;
use yak_model::{BYTE_VALUES, Caller, GROUP_BYTES};

/// The byte at a place of a group of bytes.
fn byte_of(group: u64, j: usize) -> u8
    requires { j < GROUP_BYTES }
    ensures { (word : List ℕ) (start : ℕ) → AreBytes word → group ≡ digits word start GROUP_BYTES → result ≡ slice_index word (start + j) }
{
    let mut rest = group;
    for k in j + 1..GROUP_BYTES {
        rest /= BYTE_VALUES;
    }
    (rest % BYTE_VALUES) as u8
}

/// The group with a byte of a key's word: it is read where it begins with the byte, and is else the one that was read last.
fn group_of<C: Caller>(caller: &mut C, key: u32, i: usize, last: u64, top: u32) -> u64
    requires key { HasKeyByte (C.standing caller.old) (C.knows caller.old) key i }
    requires room { length (stack_in (C.standing caller.old)) < STACK_SLOTS }
    requires top { length (stack_in (C.standing caller.old)) ≡ top }
    ensures ran { Ran C.base C.tells C.tells_known C.standing caller.old caller.new 0 }
    ensures keeps { KeepsKnown (C.knows caller.old) (C.knows caller.new) }
    ensures own { (C.standing caller.new).own ≡ (C.standing caller.old).own }
    ensures group { (known : KnownObjects) (name : Name) (word : List ℕ) → C.knows caller.old known → IsKeyInSlot (C.standing caller.old) known key name word → i < length word → (i % GROUP_BYTES ≢ 0 → last ≡ group word (i / GROUP_BYTES)) → result ≡ group word (i / GROUP_BYTES) }
{
    if i % GROUP_BYTES != 0 {
        return last;
    }
    field_int(caller, key, (i / GROUP_BYTES) as u32 + 1, top)
}

/// Copies the word of a key into the buffer, and gives its length.
fn read_word<C: Caller>(caller: &mut C, key: u32, buffer: &mut [u8], top: u32) -> usize
    requires key { HasShortKey (C.standing caller.old) (C.knows caller.old) key }
    requires buffer { KEY_BYTES ≤ length buffer.old }
    requires room { length (stack_in (C.standing caller.old)) < STACK_SLOTS }
    requires top { length (stack_in (C.standing caller.old)) ≡ top }
    ensures ran { Ran C.base C.tells C.tells_known C.standing caller.old caller.new 0 }
    ensures keeps { KeepsKnown (C.knows caller.old) (C.knows caller.new) }
    ensures own { (C.standing caller.new).own ≡ (C.standing caller.old).own }
    ensures buffer { length buffer.new ≡ length buffer.old }
    ensures copied { (known : KnownObjects) (name : Name) (word : List ℕ) → C.knows caller.old known → IsKeyInSlot (C.standing caller.old) known key name word → IsCopied word result buffer.new }
{
    let size = field_int(caller, key, 0, top) as usize;
    let mut group = 0;
    for i in 0..size {
        group = group_of(caller, key, i, group, top);
        buffer[i] = byte_of(group, i % GROUP_BYTES);
    }
    size
}

/// Copies the word of an entry into the buffer, and gives its length.
fn entry_word<C: Caller>(caller: &mut C, entry: u32, buffer: &mut [u8], top: u32) -> usize
    requires entry { HasShortEntry (C.standing caller.old) (C.knows caller.old) entry }
    requires buffer { KEY_BYTES ≤ length buffer.old }
    requires room { length (stack_in (C.standing caller.old)) + 1 < STACK_SLOTS }
    requires top { length (stack_in (C.standing caller.old)) ≡ top }
    ensures ran { Ran C.base C.tells C.tells_known C.standing caller.old caller.new 0 }
    ensures keeps { KeepsKnown (C.knows caller.old) (C.knows caller.new) }
    ensures own { (C.standing caller.new).own ≡ (C.standing caller.old).own }
    ensures buffer { length buffer.new ≡ length buffer.old }
    ensures copied { (known : KnownObjects) (next : Datum) (link : Link) → C.knows caller.old known → IsEntryInSlot (C.standing caller.old) known entry next link → IsCopied link.word result buffer.new }
{
    load(caller, entry, 1);
    let size = read_word(caller, top, buffer, top + 1);
    pop(caller);
    size
}

/// Copies the word of the entry in a slot into the buffer, and gives its length and the count, or `None` where the slot is null.
fn read_entry<C: Caller>(
    caller: &mut C,
    entry: u32,
    buffer: &mut [u8],
    top: u32,
) -> Option<(usize, u64)>
    requires chain { HasShortLinks (C.standing caller.old) (C.knows caller.old) entry }
    requires slot { entry < length (stack_in (C.standing caller.old)) }
    requires buffer { KEY_BYTES ≤ length buffer.old }
    requires room { length (stack_in (C.standing caller.old)) + 1 < STACK_SLOTS }
    requires top { length (stack_in (C.standing caller.old)) ≡ top }
    ensures ran { Ran C.base C.tells C.tells_known C.standing caller.old caller.new 0 }
    ensures keeps { KeepsKnown (C.knows caller.old) (C.knows caller.new) }
    ensures own { (C.standing caller.new).own ≡ (C.standing caller.old).own }
    ensures buffer { length buffer.new ≡ length buffer.old }
    ensures took { (known : KnownObjects) (links : List Link) → C.knows caller.old known → IsChain known (slot_in (C.standing caller.old) entry) links → Took links result buffer.new }
{
    if slot_is_null(caller, entry) {
        return None;
    }
    let size = entry_word(caller, entry, buffer, top);
    let count = field_int(caller, entry, 2, top);
    Some((size, count))
}

/// As `take_entry`, where the entries before the place are passed on the stack.
fn take_near<C: Caller>(
    caller: &mut C,
    table: u32,
    bucket: u32,
    place: u32,
    buffer: &mut [u8],
    top: u32,
) -> Option<(usize, u64)>
    requires chain { HasShortWalk (C.standing caller.old) (C.knows caller.old) table bucket }
    requires buffer { KEY_BYTES ≤ length buffer.old }
    requires room { length (stack_in (C.standing caller.old)) + place + 3 < STACK_SLOTS }
    requires top { length (stack_in (C.standing caller.old)) ≡ top }
    ensures ran { Ran C.base C.tells C.tells_known C.standing caller.old caller.new 0 }
    ensures own { (C.standing caller.new).own ≡ (C.standing caller.old).own }
    ensures buffer { length buffer.new ≡ length buffer.old }
    ensures took { (known : KnownObjects) (name : Name) (values : List Datum) (links : List Link) → C.knows caller.old known → IsAtChain (C.standing caller.old) known table bucket name values links → IsApart name links → Took (drop place links) result buffer.new × C.knows caller.new known }
    ensures aside { (known : KnownObjects) (name : Name) (values : List Datum) (links : List Link) (other : KnownObjects) → C.knows caller.old known → IsAtChain (C.standing caller.old) known table bucket name values links → IsApart name links → C.knows caller.old other → LacksChain other name links → C.knows caller.new other }
{
    load(caller, table, bucket);
    let passed = lay_on(caller, top, 0, place);
    let taken = read_entry(caller, top + passed, buffer, top + passed + 1);
    pop_all(caller, passed + 1);
    taken
}

/// As `take_entry`, where the table has the place that a walk has come to for a while.
fn take_far<C: Caller>(
    caller: &mut C,
    table: u32,
    bucket: u32,
    place: u32,
    buffer: &mut [u8],
    top: u32,
) -> Option<(usize, u64)>
    requires chain { HasShortWalk (C.standing caller.old) (C.knows caller.old) table bucket }
    requires buffer { KEY_BYTES ≤ length buffer.old }
    requires room { length (stack_in (C.standing caller.old)) + 3 < STACK_SLOTS }
    requires top { length (stack_in (C.standing caller.old)) ≡ top }
    ensures ran { Ran C.base C.tells C.tells_known C.standing caller.old caller.new 0 }
    ensures own { (C.standing caller.new).own ≡ (C.standing caller.old).own }
    ensures buffer { length buffer.new ≡ length buffer.old }
    ensures took { (known : KnownObjects) (name : Name) (values : List Datum) (links : List Link) → C.knows caller.old known → IsAtChain (C.standing caller.old) known table bucket name values links → IsApart name links → Took (drop place links) result buffer.new × C.knows caller.new known }
    ensures aside { (known : KnownObjects) (name : Name) (values : List Datum) (links : List Link) (other : KnownObjects) → C.knows caller.old known → IsAtChain (C.standing caller.old) known table bucket name values links → IsApart name links → C.knows caller.old other → LacksChain other name links → C.knows caller.new other }
{
    seek(caller, table, bucket, place, top);
    let taken = read_entry(caller, top + 1, buffer, top + 2);
    pop(caller);
    pop(caller);
    taken
}

/// Copies the word of the entry at a place of a bucket's chain into the buffer, and gives its length and the count, or `None`
/// past the end of the chain.
pub(crate) fn take_entry<C: Caller>(
    caller: &mut C,
    table: u32,
    bucket: u32,
    place: u32,
    buffer: &mut [u8],
    top: u32,
) -> Option<(usize, u64)>
    requires chain { HasShortWalk (C.standing caller.old) (C.knows caller.old) table bucket }
    requires buffer { KEY_BYTES ≤ length buffer.old }
    requires room { length (stack_in (C.standing caller.old)) + 3 < STACK_SLOTS }
    requires top { length (stack_in (C.standing caller.old)) ≡ top }
    ensures ran { Ran C.base C.tells C.tells_known C.standing caller.old caller.new 0 }
    ensures own { (C.standing caller.new).own ≡ (C.standing caller.old).own }
    ensures buffer { length buffer.new ≡ length buffer.old }
    ensures took { (known : KnownObjects) (name : Name) (values : List Datum) (links : List Link) → C.knows caller.old known → IsAtChain (C.standing caller.old) known table bucket name values links → IsApart name links → Took (drop place links) result buffer.new × C.knows caller.new known }
    ensures aside { (known : KnownObjects) (name : Name) (values : List Datum) (links : List Link) (other : KnownObjects) → C.knows caller.old known → IsAtChain (C.standing caller.old) known table bucket name values links → IsApart name links → C.knows caller.old other → LacksChain other name links → C.knows caller.new other }
{
    if place < STACK_SLOTS as u32 - 3 - top {
        take_near(caller, table, bucket, place, buffer, top)
    } else {
        take_far(caller, table, bucket, place, buffer, top)
    }
}
