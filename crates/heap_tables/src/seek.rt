//! Ways to a place in the chain of a bucket.
ghost use Rattle.std.specs.Prelude.{◌≡◌, ℕ, ◌+◌, ◌^◌, ◌<◌, ◌≤◌, ◌⊎◌, [], List, length, drop, slice_index_or, IsTrue, IsFalse};
ghost use Rattle.object_layout.specs.declared.names.Name.{Name};
ghost use Rattle.heap_words.specs.declared.TheConstants.{STACK_SLOTS};
ghost use Rattle.yak_model.specs.declared.datum.Datum.{Datum};
ghost use Rattle.yak_model.specs.declared.datum.Datum.TheVariants as datum;
ghost use Rattle.yak_model.specs.Private.{KnownObjects};
ghost use Rattle.yak_model.specs.Tables.{Link};
ghost use Rattle.heap_tables.specs.Runs.{KeepsKnown, Ran, pushed, stack_in};
ghost use Rattle.heap_tables.specs.Walks.{HasWalk, IsApart, IsAtChain};
ghost use Rattle.heap_tables.specs.Seeks.{IsSkipped, first_of};
ghost use Rattle.heap_tables.specs.Asides.{LacksChain};

use crate::layouts::lay_on;
use crate::steps::{load, pop_all, store};
use heap_words::STACK_SLOTS;
use yak_model::Caller;

/// The smaller of two numbers.
fn smaller(a: u32, b: u32) -> u32
    ensures first { result ≤ a }
    ensures second { result ≤ b }
    ensures one { (result ≡ a) ⊎ (result ≡ b) }
{
    if a < b { a } else { b }
}

/// Passes so many entries of a chain, or as many as there are or as the stack has room for, at least one of them: the place that it
/// comes to is put into the table's bucket. Gives how many.
fn leap<C: Caller>(caller: &mut C, table: u32, bucket: u32, n: u32, top: u32) -> u32
    requires chain { HasWalk (C.standing caller.old) (C.knows caller.old) table bucket }
    requires room { length (stack_in (C.standing caller.old)) + 1 < STACK_SLOTS }
    requires top { length (stack_in (C.standing caller.old)) ≡ top }
    ensures few { result ≤ n }
    ensures ran { Ran C.base C.tells C.tells_known C.standing caller.old caller.new 0 }
    ensures own { (C.standing caller.new).own ≡ (C.standing caller.old).own }
    ensures passed { (known : KnownObjects) (name : Name) (values : List Datum) (links : List Link) → C.knows caller.old known → IsAtChain (C.standing caller.old) known table bucket name values links → IsApart name links → IsSkipped known name values bucket (drop result links) (C.knows caller.new) × (result ≡ 0 → 0 < n → links ≡ []) }
    ensures aside { (known : KnownObjects) (name : Name) (values : List Datum) (links : List Link) (other : KnownObjects) → C.knows caller.old known → IsAtChain (C.standing caller.old) known table bucket name values links → IsApart name links → C.knows caller.old other → LacksChain other name links → C.knows caller.new other }
{
    load(caller, table, bucket);
    let most = smaller(n, STACK_SLOTS as u32 - 1 - top);
    let passed = lay_on(caller, top, 0, most);
    store(caller, table, bucket, top + passed);
    pop_all(caller, passed + 1);
    passed
}

/// Passes so many entries of a chain, or all that there are. The rest of the chain is left in the table's bucket.
pub(crate) fn skip<C: Caller>(caller: &mut C, table: u32, bucket: u32, n: u32, top: u32)
    requires chain { HasWalk (C.standing caller.old) (C.knows caller.old) table bucket }
    requires room { length (stack_in (C.standing caller.old)) + 1 < STACK_SLOTS }
    requires top { length (stack_in (C.standing caller.old)) ≡ top }
    ensures ran { Ran C.base C.tells C.tells_known C.standing caller.old caller.new 0 }
    ensures own { (C.standing caller.new).own ≡ (C.standing caller.old).own }
    ensures skipped { (known : KnownObjects) (name : Name) (values : List Datum) (links : List Link) → C.knows caller.old known → IsAtChain (C.standing caller.old) known table bucket name values links → IsApart name links → IsSkipped known name values bucket (drop n links) (C.knows caller.new) }
    ensures aside { (known : KnownObjects) (name : Name) (values : List Datum) (links : List Link) (other : KnownObjects) → C.knows caller.old known → IsAtChain (C.standing caller.old) known table bucket name values links → IsApart name links → C.knows caller.old other → LacksChain other name links → C.knows caller.new other }
{
    let mut left = n;
    for turn in 0..n {
        if left == 0 {
            return;
        }
        let passed = leap(caller, table, bucket, left, top);
        if passed == 0 {
            return;
        }
        left -= passed;
    }
}

/// Pushes the front of a chain of the table, and the entry at a place of it, or null past its end.
pub(crate) fn seek<C: Caller>(caller: &mut C, table: u32, bucket: u32, place: u32, top: u32)
    requires chain { HasWalk (C.standing caller.old) (C.knows caller.old) table bucket }
    requires room { length (stack_in (C.standing caller.old)) + 2 < STACK_SLOTS }
    requires top { length (stack_in (C.standing caller.old)) ≡ top }
    ensures ran { Ran C.base C.tells C.tells_known C.standing caller.old caller.new 0 }
    ensures sought { (known : KnownObjects) (name : Name) (values : List Datum) (links : List Link) → C.knows caller.old known → IsAtChain (C.standing caller.old) known table bucket name values links → IsApart name links → ((C.standing caller.new).own ≡ pushed (pushed (C.standing caller.old).own (slice_index_or values bucket datum.Null)) (first_of (drop place links))) × C.knows caller.new known }
    ensures aside { (known : KnownObjects) (name : Name) (values : List Datum) (links : List Link) (other : KnownObjects) → C.knows caller.old known → IsAtChain (C.standing caller.old) known table bucket name values links → IsApart name links → C.knows caller.old other → LacksChain other name links → C.knows caller.new other }
{
    load(caller, table, bucket);
    skip(caller, table, bucket, place, top + 1);
    load(caller, table, bucket);
    store(caller, table, bucket, top);
}
