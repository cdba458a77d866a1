//! The first entries of a chain, laid out on the caller's stack.
ghost use Rattle.std.specs.Prelude.{◌≡◌, ℕ, ◌+◌, ◌<◌, ◌≤◌, List, drop, length, IsTrue, true};
ghost use Rattle.object_layout.specs.declared.names.Name.{Name};
ghost use Rattle.heap_words.specs.declared.TheConstants.{STACK_SLOTS};
ghost use Rattle.yak_model.specs.declared.datum.Datum.{Datum};
ghost use Rattle.yak_model.specs.Graph.{Thread};
ghost use Rattle.yak_model.specs.Private.{KnownObjects};
ghost use Rattle.yak_model.specs.Tables.{IsChain, Link, group};
ghost use Rattle.heap_tables.specs.declared.TheConstants.{KEPT_SLOTS, KEY_BYTES};
ghost use Rattle.heap_tables.specs.Asides.{LacksLinks, LacksValue};
ghost use Rattle.heap_tables.specs.Layouts.{FoundBeyond, HasBeyond, HasEntry, HasLaid, IsAmong, IsBeyond, IsLaid, LaysNext};
ghost use Rattle.heap_tables.specs.Runs.{KeepsKnown, Ran, slot_in, stack_in};
ghost use Rattle.heap_tables.specs.Seeks.{IsSkipped, first_of};
ghost use Rattle.heap_tables.specs.Walks.{HasLinks, IsEntryInSlot};

use crate::KEPT_SLOTS;
use crate::chains::walk;
use crate::keys::{first_group, is_key};
use crate::seek::skip;
use crate::steps::{load, pop, store, try_load};
use heap_words::STACK_SLOTS;
use yak_model::Caller;

/// Lays out the entry in the top slot, if there is one: pushes what follows it, and notes the first group of its word.
#[inline(always)]
fn lay_next<C: Caller>(caller: &mut C, groups: &mut [u64], n: u32, at: u32) -> bool
    requires chain { HasLinks (C.standing caller.old) (C.knows caller.old) at }
    requires groups { n < length groups.old }
    requires room { length (stack_in (C.standing caller.old)) + 1 < STACK_SLOTS }
    requires top { length (stack_in (C.standing caller.old)) ≡ at + 1 }
    ensures groups { length groups.new ≡ length groups.old }
    ensures ran { Ran C.base C.tells C.tells_known C.standing caller.old caller.new 0 }
    ensures keeps { KeepsKnown (C.knows caller.old) (C.knows caller.new) }
    ensures laid { (known : KnownObjects) (links : List Link) → C.knows caller.old known → IsChain known (slot_in (C.standing caller.old) at) links → LaysNext (C.standing caller.old).own links result (C.standing caller.new).own }
{
    if !try_load(caller, at, 1) {
        return false;
    }
    groups[n as usize] = first_group(caller, at + 1, at + 2);
    pop(caller);
    load(caller, at, 0);
    true
}

/// Whether an entry, of whose word this is noted as the first group, is the word's.
#[inline(always)]
pub(crate) fn is_entry_of<C: Caller>(
    caller: &mut C,
    entry: u32,
    noted: u64,
    word: &[u8],
    first: u64,
    top: u32,
) -> bool
    requires entry { HasEntry (C.standing caller.old) (C.knows caller.old) entry }
    requires word { length word.now ≤ KEY_BYTES }
    requires first { first ≡ group word.now 0 }
    requires room { length (stack_in (C.standing caller.old)) + 1 < STACK_SLOTS }
    requires top { length (stack_in (C.standing caller.old)) ≡ top }
    ensures ran { Ran C.base C.tells C.tells_known C.standing caller.old caller.new 0 }
    ensures keeps { KeepsKnown (C.knows caller.old) (C.knows caller.new) }
    ensures own { (C.standing caller.new).own ≡ (C.standing caller.old).own }
    ensures answer { (known : KnownObjects) (next : Datum) (link : Link) → C.knows caller.old known → IsEntryInSlot (C.standing caller.old) known entry next link → result ≡ true → link.word ≡ word.now }
{
    if noted != first {
        return false;
    }
    load(caller, entry, 1);
    let same = is_key(caller, top, word, first, top + 1);
    pop(caller);
    same
}

/// The place of the word's entry among those that are laid out.
fn find_laid<C: Caller>(
    caller: &mut C,
    groups: &[u64],
    laid: u32,
    word: &[u8],
    first: u64,
    at: u32,
) -> Option<u32>
    requires laid { HasLaid (C.standing caller.old) (C.knows caller.old) at laid }
    requires top { length (stack_in (C.standing caller.old)) ≡ at + laid + 1 }
    requires groups { laid ≤ length groups.now }
    requires word { length word.now ≤ KEY_BYTES }
    requires first { first ≡ group word.now 0 }
    requires room { length (stack_in (C.standing caller.old)) + 1 < STACK_SLOTS }
    ensures ran { Ran C.base C.tells C.tells_known C.standing caller.old caller.new 0 }
    ensures keeps { KeepsKnown (C.knows caller.old) (C.knows caller.new) }
    ensures own { (C.standing caller.new).own ≡ (C.standing caller.old).own }
    ensures found { (known : KnownObjects) (own : Thread) (links : List Link) → C.knows caller.old known → IsChain known (first_of links) links → IsLaid own links laid (C.standing caller.old).own → length own.stack ≡ at → IsAmong word.now links laid result }
{
    for i in 0..laid {
        if is_entry_of(
            caller,
            at + i,
            groups[i as usize],
            word,
            first,
            at + laid + 1,
        ) {
            return Some(i);
        }
    }
    None
}

/// The place of the word's entry among those that are laid out, or are laid out now on the way to it, so many in all at most.
/// Gives how many are laid out then.
pub(crate) fn find_on_stack<C: Caller>(
    caller: &mut C,
    groups: &mut [u64],
    laid: u32,
    word: &[u8],
    first: u64,
    at: u32,
    most: u32,
) -> (Option<u32>, u32)
    requires laid { HasLaid (C.standing caller.old) (C.knows caller.old) at laid }
    requires top { length (stack_in (C.standing caller.old)) ≡ at + laid + 1 }
    requires groups { STACK_SLOTS ≤ length groups.old }
    requires word { length word.now ≤ KEY_BYTES }
    requires first { first ≡ group word.now 0 }
    requires few { laid ≤ most }
    requires room { at + most + KEPT_SLOTS < STACK_SLOTS }
    ensures groups { length groups.new ≡ length groups.old }
    ensures few { result.1 ≤ most }
    ensures ran { Ran C.base C.tells C.tells_known C.standing caller.old caller.new 0 }
    ensures keeps { KeepsKnown (C.knows caller.old) (C.knows caller.new) }
    ensures found { (known : KnownObjects) (own : Thread) (links : List Link) → C.knows caller.old known → IsChain known (first_of links) links → IsLaid own links laid (C.standing caller.old).own → length own.stack ≡ at → IsLaid own links result.1 (C.standing caller.new).own × IsAmong word.now links result.1 result.0 }
{
    if let Some(i) = find_laid(caller, groups, laid, word, first, at) {
        return (Some(i), laid);
    }
    for n in laid..most {
        if !lay_next(caller, groups, n, at + n) {
            return (None, n);
        }
        let noted = groups[n as usize];
        if is_entry_of(caller, at + n, noted, word, first, at + n + 2) {
            return (Some(n), n + 1);
        }
    }
    (None, most)
}

/// Lays out further entries of a chain without a look at them, so many in all at most. Gives how many are laid out then, fewer only
/// at the end of the chain.
pub(crate) fn lay_on<C: Caller>(caller: &mut C, at: u32, laid: u32, most: u32) -> u32
    requires laid { HasLaid (C.standing caller.old) (C.knows caller.old) at laid }
    requires top { length (stack_in (C.standing caller.old)) ≡ at + laid + 1 }
    requires few { laid ≤ most }
    requires room { at + most < STACK_SLOTS }
    ensures few { (laid ≤ result) × (result ≤ most) }
    ensures ran { Ran C.base C.tells C.tells_known C.standing caller.old caller.new 0 }
    ensures keeps { KeepsKnown (C.knows caller.old) (C.knows caller.new) }
    ensures laid { (known : KnownObjects) (own : Thread) (links : List Link) → C.knows caller.old known → IsChain known (first_of links) links → IsLaid own links laid (C.standing caller.old).own → length own.stack ≡ at → IsLaid own links result (C.standing caller.new).own × (result < most → length links ≡ result) }
{
    for n in laid..most {
        if !try_load(caller, at + n, 0) {
            return n;
        }
    }
    most
}

/// Puts the place past so many entries of a chain, whose first the top slot has, into the table's bucket.
fn set_out<C: Caller>(caller: &mut C, table: u32, bucket: u32, further: u32, at: u32, start: u32)
    requires chain { HasBeyond (C.standing caller.old) (C.knows caller.old) table bucket at start }
    requires room { length (stack_in (C.standing caller.old)) + 2 < STACK_SLOTS }
    requires top { length (stack_in (C.standing caller.old)) ≡ start + 1 }
    ensures ran { Ran C.base C.tells C.tells_known C.standing caller.old caller.new 0 }
    ensures own { (C.standing caller.new).own ≡ (C.standing caller.old).own }
    ensures set_out { (known : KnownObjects) (name : Name) (values : List Datum) (links : List Link) → C.knows caller.old known → IsBeyond (C.standing caller.old) known table bucket at start name values links → IsSkipped known name values bucket (drop further links) (C.knows caller.new) }
    ensures aside { (known : KnownObjects) (name : Name) (values : List Datum) (links : List Link) (other : KnownObjects) → C.knows caller.old known → IsBeyond (C.standing caller.old) known table bucket at start name values links → C.knows caller.old other → LacksValue other (slot_in (C.standing caller.old) table) → LacksLinks other links → C.knows caller.new other }
{
    store(caller, table, bucket, start);
    skip(caller, table, bucket, further, start + 1);
}

/// Pushes the word's entry, if there is one in the rest of a chain of the table that the top slot has, past so many further entries.
/// The slot `at` has the front of the chain.
pub(crate) fn find_beyond<C: Caller>(
    caller: &mut C,
    table: u32,
    bucket: u32,
    word: &[u8],
    first: u64,
    further: u32,
    at: u32,
    start: u32,
) -> bool
    requires chain { HasBeyond (C.standing caller.old) (C.knows caller.old) table bucket at start }
    requires word { length word.now ≤ KEY_BYTES }
    requires first { first ≡ group word.now 0 }
    requires order { at ≤ start }
    requires room { length (stack_in (C.standing caller.old)) + 2 < STACK_SLOTS }
    requires top { length (stack_in (C.standing caller.old)) ≡ start + 1 }
    ensures ran { Ran C.base C.tells C.tells_known C.standing caller.old caller.new 0 }
    ensures found { (known : KnownObjects) (name : Name) (values : List Datum) (links : List Link) → C.knows caller.old known → IsBeyond (C.standing caller.old) known table bucket at start name values links → FoundBeyond (C.standing caller.old).own word.now links result (C.standing caller.new).own }
    ensures known { (known : KnownObjects) (name : Name) (values : List Datum) (links : List Link) → C.knows caller.old known → IsBeyond (C.standing caller.old) known table bucket at start name values links → C.knows caller.new known }
    ensures aside { (known : KnownObjects) (name : Name) (values : List Datum) (links : List Link) (other : KnownObjects) → C.knows caller.old known → IsBeyond (C.standing caller.old) known table bucket at start name values links → C.knows caller.old other → LacksValue other (slot_in (C.standing caller.old) table) → LacksValue other (slot_in (C.standing caller.old) at) → LacksLinks other links → C.knows caller.new other }
{
    set_out(caller, table, bucket, further, at, start);
    let found = walk(caller, table, bucket, word, first, start + 1);
    store(caller, table, bucket, at);
    found
}
