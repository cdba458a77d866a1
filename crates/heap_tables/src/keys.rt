//! The keys of words.
ghost use Rattle.std.specs.Prelude.{◌≡◌, ◌≢◌, ℕ, ◌+◌, ◌-◌, ◌*◌, ◌/◌, ◌%◌, ◌^◌, ◌<◌, ◌≤◌, ◌↔◌, ◌++◌, ◌∷◌, [], List, length, IsTrue, true, OnOk, OnErr, slice_index, slice_index_or, None};
ghost use Rattle.std.specs.FinMap as finite;
ghost use Rattle.object_layout.specs.declared.TheConstants.{MAX_FIELDS, MAX_INT, MAX_SERIAL, WORD_LIMIT};
ghost use Rattle.yak_model.specs.declared.TheConstants.{BUCKETS};
ghost use Rattle.heap_words.specs.declared.TheConstants.{STACK_SLOTS};
ghost use Rattle.yak_model.specs.Room.{key_words};
ghost use Rattle.yak_model.specs.Private.{KnownObjects};
ghost use Rattle.object_layout.specs.declared.names.Name.{Name};
ghost use Rattle.heap_tables.specs.Runs.{KeepsKnown, Ran, RanOut, stack_in, slot_in, KnowsSome, next_of, with_made};
ghost use Rattle.yak_model.specs.Tables.{digits, group, groups, bucket_of};
ghost use Rattle.heap_tables.specs.declared.TheConstants.{KEY_BYTES};
ghost use Rattle.heap_tables.specs.Keys.{HasKey, IsKeyInSlot, IsKeyBegun};

use crate::steps::{field_is, get, int_of, pop, push_new, put_int, slot_is, try_load};
use object_layout::OutOfHeap;
use yak_model::{BUCKETS, BYTE_VALUES, Caller, GROUP_BYTES, HASH_FACTOR};

/// A byte of the word, or 0 past its end.
fn byte_at(word: &[u8], i: usize) -> u8
    ensures { result ≡ slice_index word.now i }
{
    if i < word.len() { word[i] } else { 0 }
}

/// How many groups hold the bytes of a word.
fn groups(word: &[u8]) -> u32
    requires word { length word.now ≤ KEY_BYTES }
    ensures groups { result ≡ groups (length word.now) }
    ensures few { result + 1 ≤ MAX_FIELDS }
{
    (word.len() as u32 + (GROUP_BYTES as u32 - 1)) / GROUP_BYTES as u32
}

/// The number of a group of the bytes of a word.
pub(crate) fn group(word: &[u8], i: u32) -> u64
    ensures same { result ≡ group word.now i }
    ensures small { result ≤ MAX_INT }
{
    let start = GROUP_BYTES * i as usize;
    let mut value = 0u64;
    for j in 0..GROUP_BYTES {
        value = value * BYTE_VALUES + u64::from(byte_at(word, start + j));
    }
    value
}

/// The bucket of a word.
pub(crate) fn bucket_of(word: &[u8]) -> u32
    ensures small { result < BUCKETS }
    ensures same { result ≡ bucket_of word.now }
{
    let mut hash = 0;
    for b in word {
        hash = (HASH_FACTOR * hash + u64::from(*b)) % BUCKETS as u64;
    }
    hash as u32
}

/// Whether the first bytes of a key may be those of the word, of whose first group this is the number.
#[inline(always)]
fn begins_as<C: Caller>(caller: &mut C, key: u32, word: &[u8], first: u64, top: u32) -> bool
    requires key { HasKey (C.standing caller.old) (C.knows caller.old) key }
    requires first { first ≡ group word.now 0 }
    requires room { length (stack_in (C.standing caller.old)) < STACK_SLOTS }
    requires top { length (stack_in (C.standing caller.old)) ≡ top }
    ensures ran { Ran C.base C.tells C.tells_known C.standing caller.old caller.new 0 }
    ensures keeps { KeepsKnown (C.knows caller.old) (C.knows caller.new) }
    ensures own { (C.standing caller.new).own ≡ (C.standing caller.old).own }
    ensures answer { (known : KnownObjects) (name : Name) (other : List ℕ) → C.knows caller.old known → IsKeyInSlot (C.standing caller.old) known key name other → other ≡ word.now → result ≡ true }
    ensures begins { (known : KnownObjects) (name : Name) (other : List ℕ) → C.knows caller.old known → IsKeyInSlot (C.standing caller.old) known key name other → result ≡ true → 0 < length word.now → 0 < length other → group other 0 ≡ group word.now 0 }
{
    if word.is_empty() {
        return true;
    }
    if !try_load(caller, key, 1) {
        return false;
    }
    let same = slot_is(caller, top, first);
    pop(caller);
    same
}

/// Whether a slot refers to the key of the word, of whose first group this is the number: by its first group, its length, and the
/// groups after the first.
#[inline(always)]
pub(crate) fn is_key<C: Caller>(caller: &mut C, key: u32, word: &[u8], first: u64, top: u32) -> bool
    requires key { HasKey (C.standing caller.old) (C.knows caller.old) key }
    requires word { length word.now ≤ KEY_BYTES }
    requires first { first ≡ group word.now 0 }
    requires room { length (stack_in (C.standing caller.old)) < STACK_SLOTS }
    requires top { length (stack_in (C.standing caller.old)) ≡ top }
    ensures ran { Ran C.base C.tells C.tells_known C.standing caller.old caller.new 0 }
    ensures keeps { KeepsKnown (C.knows caller.old) (C.knows caller.new) }
    ensures own { (C.standing caller.new).own ≡ (C.standing caller.old).own }
    ensures answer { (known : KnownObjects) (name : Name) (other : List ℕ) → C.knows caller.old known → IsKeyInSlot (C.standing caller.old) known key name other → IsTrue result ↔ (other ≡ word.now) }
{
    if !begins_as(caller, key, word, first, top) {
        return false;
    }
    if !field_is(caller, key, 0, top, word.len() as u64) {
        return false;
    }
    let count = groups(word);
    for i in 1..count {
        if !field_is(caller, key, i + 1, top, group(word, i)) {
            return false;
        }
    }
    true
}

/// The number of the first group of the bytes of a key's word, or 0 where it has no bytes.
#[inline(always)]
pub(crate) fn first_group<C: Caller>(caller: &mut C, key: u32, top: u32) -> u64
    requires key { HasKey (C.standing caller.old) (C.knows caller.old) key }
    requires room { length (stack_in (C.standing caller.old)) < STACK_SLOTS }
    requires top { length (stack_in (C.standing caller.old)) ≡ top }
    ensures ran { Ran C.base C.tells C.tells_known C.standing caller.old caller.new 0 }
    ensures keeps { KeepsKnown (C.knows caller.old) (C.knows caller.new) }
    ensures own { (C.standing caller.new).own ≡ (C.standing caller.old).own }
{
    if !try_load(caller, key, 1) {
        return 0;
    }
    let shown = get(caller, top);
    pop(caller);
    int_of(shown)
}

/// Pushes a new key of the word.
pub(crate) fn make_key<C: Caller>(caller: &mut C, word: &[u8], top: u32) -> Result<(), OutOfHeap>
    requires some { KnowsSome (C.knows caller.old) }
    requires word { length word.now ≤ WORD_LIMIT }
    requires names { (C.standing caller.old).own.made < MAX_SERIAL }
    requires room { length (stack_in (C.standing caller.old)) + 1 < STACK_SLOTS }
    requires top { length (stack_in (C.standing caller.old)) ≡ top }
    ensures ran { OnOk result (Ran C.base C.tells C.tells_known C.standing caller.old caller.new (key_words word.now)) }
    ensures pushed { OnOk result ((C.standing caller.new).own ≡ with_made (C.standing caller.old)) }
    ensures made { OnOk result ((known : KnownObjects) → C.knows caller.old known → IsKeyBegun known (next_of (C.standing caller.old)) word.now (groups (length word.now)) (C.knows caller.new) × (finite.get known (next_of (C.standing caller.old)) ≡ None)) }
    ensures same { OnErr result ((C.standing caller.new).own ≡ (C.standing caller.old).own) }
    ensures keeps { OnErr result (KeepsKnown (C.knows caller.old) (C.knows caller.new)) }
    ensures ran_out { OnErr result (RanOut C.base C.tells C.tells_known C.standing caller.old caller.new 0 (groups (length word.now) + 1)) }
{
    let count = groups(word);
    push_new(caller, count + 1)?;
    put_int(caller, top, 0, word.len() as u64, top + 1);
    for i in 0..count {
        put_int(caller, top, i + 1, group(word, i), top + 1);
    }
    Ok(())
}
