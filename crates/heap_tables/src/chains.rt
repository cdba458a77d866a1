//! Walks along the chains of a table.
ghost use Rattle.std.specs.Prelude.{◌≡◌, ◌≢◌, ℕ, ◌+◌, ◌-◌, ◌*◌, ◌^◌, ◌<◌, ◌≤◌, ◌↔◌, ◌++◌, ◌∷◌, [], List, length, IsTrue, OnOk, OnErr, slice_index, slice_index_or};
ghost use Rattle.heap_words.specs.declared.TheConstants.{STACK_SLOTS};
ghost use Rattle.yak_model.specs.Private.{KnownObjects};
ghost use Rattle.yak_model.specs.declared.datum.Datum.{Datum};
ghost use Rattle.yak_model.specs.declared.datum.Datum.TheVariants as datum;
ghost use Rattle.object_layout.specs.declared.names.Name.{Name};
ghost use Rattle.heap_tables.specs.Runs.{KeepsKnown, Ran, slot_in, stack_in};
ghost use Rattle.yak_model.specs.Tables.{Link, IsChain, group};
ghost use Rattle.heap_tables.specs.declared.TheConstants.{FREE_SLOTS, KEY_BYTES};
ghost use Rattle.heap_tables.specs.declared.chains.Look.TheVariants as look;
ghost use Rattle.heap_tables.specs.Walks.{HasLinks, IsAtChain, IsClimbed, IsPassed, Looked, HasWalk, IsApart, Walked, Found};
ghost use Rattle.heap_tables.specs.Asides.{LacksChain};

use crate::keys::{group, is_key};
use crate::steps::{load, pop, pop_all, store, try_load};
use heap_words::STACK_SLOTS;
use yak_model::Caller;

/// What a look at a chain finds.
#[derive(Clone, Copy, Debug, PartialEq, Eq, Drop)]
pub enum Look {
    End,
    Found,
    Further,
}

/// Looks at the entry in the top slot, if there is one. Pushes the next one if it isn't the word's.
#[inline(always)]
fn look_once<C: Caller>(caller: &mut C, word: &[u8], first: u64, at: u32) -> Look
    requires chain { HasLinks (C.standing caller.old) (C.knows caller.old) at }
    requires word { length word.now ≤ KEY_BYTES }
    requires first { first ≡ group word.now 0 }
    requires room { length (stack_in (C.standing caller.old)) + 1 < STACK_SLOTS }
    requires top { length (stack_in (C.standing caller.old)) ≡ at + 1 }
    ensures ran { Ran C.base C.tells C.tells_known C.standing caller.old caller.new 0 }
    ensures keeps { KeepsKnown (C.knows caller.old) (C.knows caller.new) }
    ensures looked { (known : KnownObjects) (links : List Link) → C.knows caller.old known → IsChain known (slot_in (C.standing caller.old) at) links → Looked (C.standing caller.old).own known word.now links result (C.standing caller.new).own }
{
    if !try_load(caller, at, 1) {
        return Look::End;
    }
    let same = is_key(caller, at + 1, word, first, at + 2);
    pop(caller);
    if same {
        return Look::Found;
    }
    load(caller, at, 0);
    Look::Further
}

/// Looks at entries of the chain in the top slot, each on top of the one before, as far as there are more, and at so many at
/// most. Gives how many were passed.
pub(crate) fn climb<C: Caller>(
    caller: &mut C,
    word: &[u8],
    first: u64,
    at: u32,
    looks: u32,
) -> (Look, u32)
    requires chain { HasLinks (C.standing caller.old) (C.knows caller.old) at }
    requires word { length word.now ≤ KEY_BYTES }
    requires first { first ≡ group word.now 0 }
    requires room { length (stack_in (C.standing caller.old)) + looks < STACK_SLOTS }
    requires top { length (stack_in (C.standing caller.old)) ≡ at + 1 }
    ensures ran { Ran C.base C.tells C.tells_known C.standing caller.old caller.new 0 }
    ensures keeps { KeepsKnown (C.knows caller.old) (C.knows caller.new) }
    ensures few { result.1 ≤ looks }
    ensures all { result.0 ≡ look.Further → result.1 ≡ looks }
    ensures climbed { (known : KnownObjects) (links : List Link) → C.knows caller.old known → IsChain known (slot_in (C.standing caller.old) at) links → IsClimbed (C.standing caller.old).own known word.now links at result.0 result.1 (C.standing caller.new).own }
{
    for n in 0..looks {
        match look_once(caller, word, first, at + n) {
            Look::End => return (Look::End, n),
            Look::Found => return (Look::Found, n),
            Look::Further => {}
        }
    }
    (Look::Further, looks)
}

/// Looks at the next entries of a chain, as many as the stack has room for, and puts the place that it comes to into the table's
/// bucket.
fn look_on<C: Caller>(
    caller: &mut C,
    table: u32,
    bucket: u32,
    word: &[u8],
    first: u64,
    top: u32,
) -> Look
    requires chain { HasWalk (C.standing caller.old) (C.knows caller.old) table bucket }
    requires word { length word.now ≤ KEY_BYTES }
    requires first { first ≡ group word.now 0 }
    requires room { length (stack_in (C.standing caller.old)) + 2 < STACK_SLOTS }
    requires top { length (stack_in (C.standing caller.old)) ≡ top }
    ensures ran { Ran C.base C.tells C.tells_known C.standing caller.old caller.new 0 }
    ensures own { (C.standing caller.new).own ≡ (C.standing caller.old).own }
    ensures passed { (known : KnownObjects) (name : Name) (values : List Datum) (links : List Link) → C.knows caller.old known → IsAtChain (C.standing caller.old) known table bucket name values links → IsApart name links → IsPassed known name values bucket word.now links result (C.knows caller.new) }
    ensures aside { (known : KnownObjects) (name : Name) (values : List Datum) (links : List Link) (other : KnownObjects) → C.knows caller.old known → IsAtChain (C.standing caller.old) known table bucket name values links → IsApart name links → C.knows caller.old other → LacksChain other name links → C.knows caller.new other }
{
    load(caller, table, bucket);
    let looks = STACK_SLOTS as u32 - (top + 2);
    let (said, n) = climb(caller, word, first, top, looks);
    store(caller, table, bucket, top + n);
    pop_all(caller, n + 1);
    said
}

/// Walks along a chain of the table to the word's entry, and pushes it if there is one. The place of the walk stays in the table.
pub(crate) fn walk<C: Caller>(
    caller: &mut C,
    table: u32,
    bucket: u32,
    word: &[u8],
    first: u64,
    top: u32,
) -> bool
    requires chain { HasWalk (C.standing caller.old) (C.knows caller.old) table bucket }
    requires word { length word.now ≤ KEY_BYTES }
    requires first { first ≡ group word.now 0 }
    requires room { length (stack_in (C.standing caller.old)) + 2 < STACK_SLOTS }
    requires top { length (stack_in (C.standing caller.old)) ≡ top }
    ensures ran { Ran C.base C.tells C.tells_known C.standing caller.old caller.new 0 }
    ensures walked { (known : KnownObjects) (name : Name) (values : List Datum) (links : List Link) → C.knows caller.old known → IsAtChain (C.standing caller.old) known table bucket name values links → IsApart name links → length links < 2 ^ 63 → Walked (C.standing caller.old) known name values bucket word.now links result (C.standing caller.new).own (C.knows caller.new) }
    ensures aside { (known : KnownObjects) (name : Name) (values : List Datum) (links : List Link) (other : KnownObjects) → C.knows caller.old known → IsAtChain (C.standing caller.old) known table bucket name values links → IsApart name links → C.knows caller.old other → LacksChain other name links → C.knows caller.new other }
{
    for i in 0..u64::MAX {
        match look_on(caller, table, bucket, word, first, top) {
            Look::End => return false,
            Look::Found => {
                load(caller, table, bucket);
                return true;
            }
            Look::Further => {}
        }
    }
    false
}

/// Pushes the front of a chain of the table, and the word's entry if there is one.
pub(crate) fn find<C: Caller>(
    caller: &mut C,
    table: u32,
    bucket: u32,
    word: &[u8],
    top: u32,
) -> bool
    requires chain { HasWalk (C.standing caller.old) (C.knows caller.old) table bucket }
    requires word { length word.now ≤ KEY_BYTES }
    requires room { length (stack_in (C.standing caller.old)) + FREE_SLOTS ≤ STACK_SLOTS }
    requires top { length (stack_in (C.standing caller.old)) ≡ top }
    ensures ran { Ran C.base C.tells C.tells_known C.standing caller.old caller.new 0 }
    ensures found { (known : KnownObjects) (name : Name) (values : List Datum) (links : List Link) → C.knows caller.old known → IsAtChain (C.standing caller.old) known table bucket name values links → IsApart name links → length links < 2 ^ 63 → Found (C.standing caller.old).own (slice_index_or values bucket datum.Null) word.now links result (C.standing caller.new).own }
    ensures known { (known : KnownObjects) (name : Name) (values : List Datum) (links : List Link) → C.knows caller.old known → IsAtChain (C.standing caller.old) known table bucket name values links → IsApart name links → length links < 2 ^ 63 → C.knows caller.new known }
    ensures aside { (known : KnownObjects) (name : Name) (values : List Datum) (links : List Link) (other : KnownObjects) → C.knows caller.old known → IsAtChain (C.standing caller.old) known table bucket name values links → IsApart name links → length links < 2 ^ 63 → C.knows caller.old other → LacksChain other name links → C.knows caller.new other }
{
    load(caller, table, bucket);
    let found = walk(caller, table, bucket, word, group(word, 0), top + 1);
    store(caller, table, bucket, top);
    found
}
