//! Counts of a table that are raised in entries of a chain laid out on the caller's stack.
ghost use Rattle.std.specs.Prelude.{◌≡◌, ℕ, ◌+◌, ◌<◌, ◌≤◌, List, drop, length, slice_index_or};
ghost use Rattle.object_layout.specs.declared.names.Name.{Name};
ghost use Rattle.heap_words.specs.declared.TheConstants.{STACK_SLOTS};
ghost use Rattle.yak_model.specs.declared.datum.Datum.{Datum};
ghost use Rattle.yak_model.specs.declared.datum.Datum.TheVariants as datum;
ghost use Rattle.yak_model.specs.Graph.{Thread};
ghost use Rattle.yak_model.specs.Private.{KnownObjects};
ghost use Rattle.yak_model.specs.Tables.{Link, bucket_of, group};
ghost use Rattle.heap_tables.specs.declared.TheConstants.{KEPT_SLOTS, KEY_BYTES};
ghost use Rattle.heap_tables.specs.Adds.{HasTable, MayAdd};
ghost use Rattle.heap_tables.specs.Asides.{LacksTable};
ghost use Rattle.heap_tables.specs.Layouts.{HasLaidFrom, HasLaidTable, IsLaid, RaisesPresent};
ghost use Rattle.heap_tables.specs.Runs.{Ran, stack_in};

use crate::keys::group;
use crate::layouts::{find_beyond, find_on_stack, is_entry_of, lay_on};
use crate::steps::{load, pop, pop_all};
use crate::tables::raise;
use yak_model::Caller;

/// Adds to the count of a word that is in a chain past the entries that are laid out, and tells whether it is.
fn raise_beyond<C: Caller>(
    caller: &mut C,
    table: u32,
    bucket: u32,
    word: &[u8],
    first: u64,
    n: u64,
    at: u32,
    laid: u32,
) -> bool
    requires laid { HasLaidTable (C.standing caller.old) (C.knows caller.old) table word.now n at laid }
    requires bucket { bucket ≡ bucket_of word.now }
    requires word { length word.now ≤ KEY_BYTES }
    requires first { first ≡ group word.now 0 }
    requires top { length (stack_in (C.standing caller.old)) ≡ at + laid + 1 }
    requires room { at + laid + KEPT_SLOTS < STACK_SLOTS }
    ensures ran { Ran C.base C.tells C.tells_known C.standing caller.old caller.new 0 }
    ensures own { (C.standing caller.new).own ≡ (C.standing caller.old).own }
    ensures raised { (known : KnownObjects) (name : Name) (heads : List Datum) (buckets : ℕ → List Link) (own : Thread) → C.knows caller.old known → MayAdd (C.standing caller.old) known table word.now n name heads buckets → IsLaid own (buckets (bucket_of word.now)) laid (C.standing caller.old).own → length own.stack ≡ at → RaisesPresent known word.now n name buckets result (C.knows caller.new) }
    ensures aside { (known : KnownObjects) (name : Name) (heads : List Datum) (buckets : ℕ → List Link) (own : Thread) (other : KnownObjects) → C.knows caller.old known → MayAdd (C.standing caller.old) known table word.now n name heads buckets → IsLaid own (buckets (bucket_of word.now)) laid (C.standing caller.old).own → length own.stack ≡ at → C.knows caller.old other → LacksTable other name buckets → C.knows caller.new other }
{
    if !find_beyond(caller, table, bucket, word, first, 0, at, at + laid) {
        return false;
    }
    raise(caller, at + laid + 1, n, at + laid + 2);
    pop(caller);
    true
}

/// Adds to the count of a word that is in a chain, of which further entries are laid out on the way to it, so many in all at most.
/// Tells whether it is there, and how many are laid out then.
pub(crate) fn raise_present<C: Caller>(
    caller: &mut C,
    table: u32,
    bucket: u32,
    word: &[u8],
    n: u64,
    groups: &mut [u64],
    at: u32,
    laid: u32,
    most: u32,
) -> (bool, u32)
    requires laid { HasLaidTable (C.standing caller.old) (C.knows caller.old) table word.now n at laid }
    requires bucket { bucket ≡ bucket_of word.now }
    requires word { length word.now ≤ KEY_BYTES }
    requires groups { STACK_SLOTS ≤ length groups.old }
    requires top { length (stack_in (C.standing caller.old)) ≡ at + laid + 1 }
    requires few { laid ≤ most }
    requires room { at + most + KEPT_SLOTS < STACK_SLOTS }
    ensures groups { length groups.new ≡ length groups.old }
    ensures few { result.1 ≤ most }
    ensures ran { Ran C.base C.tells C.tells_known C.standing caller.old caller.new 0 }
    ensures laid { (known : KnownObjects) (name : Name) (heads : List Datum) (buckets : ℕ → List Link) (own : Thread) → C.knows caller.old known → MayAdd (C.standing caller.old) known table word.now n name heads buckets → IsLaid own (buckets (bucket_of word.now)) laid (C.standing caller.old).own → length own.stack ≡ at → slice_index_or own.stack table datum.Null ≡ datum.Object name → IsLaid own (buckets (bucket_of word.now)) result.1 (C.standing caller.new).own }
    ensures raised { (known : KnownObjects) (name : Name) (heads : List Datum) (buckets : ℕ → List Link) (own : Thread) → C.knows caller.old known → MayAdd (C.standing caller.old) known table word.now n name heads buckets → IsLaid own (buckets (bucket_of word.now)) laid (C.standing caller.old).own → length own.stack ≡ at → slice_index_or own.stack table datum.Null ≡ datum.Object name → RaisesPresent known word.now n name buckets result.0 (C.knows caller.new) }
    ensures aside { (known : KnownObjects) (name : Name) (heads : List Datum) (buckets : ℕ → List Link) (own : Thread) (other : KnownObjects) → C.knows caller.old known → MayAdd (C.standing caller.old) known table word.now n name heads buckets → IsLaid own (buckets (bucket_of word.now)) laid (C.standing caller.old).own → length own.stack ≡ at → slice_index_or own.stack table datum.Null ≡ datum.Object name → C.knows caller.old other → LacksTable other name buckets → C.knows caller.new other }
{
    let first = group(word, 0);
    let (found, now) = find_on_stack(caller, groups, laid, word, first, at, most);
    if let Some(i) = found {
        raise(caller, at + i, n, at + now + 1);
        return (true, now);
    }
    let beyond = raise_beyond(caller, table, bucket, word, first, n, at, now);
    (beyond, now)
}

/// Adds to the count of a word that is in the entry at this place among those that are laid out from a window on, and tells whether
/// it is.
fn raise_laid<C: Caller>(
    caller: &mut C,
    table: u32,
    bucket: u32,
    word: &[u8],
    n: u64,
    place: u32,
    window: u32,
    at: u32,
    laid: u32,
) -> bool
    requires laid { HasLaidFrom (C.standing caller.old) (C.knows caller.old) window table word.now n at laid }
    requires bucket { bucket ≡ bucket_of word.now }
    requires word { length word.now ≤ KEY_BYTES }
    requires top { length (stack_in (C.standing caller.old)) ≡ at + laid + 1 }
    requires place { place < laid }
    requires room { at + laid + 2 < STACK_SLOTS }
    ensures ran { Ran C.base C.tells C.tells_known C.standing caller.old caller.new 0 }
    ensures own { (C.standing caller.new).own ≡ (C.standing caller.old).own }
    ensures raised { (known : KnownObjects) (name : Name) (heads : List Datum) (buckets : ℕ → List Link) (own : Thread) → C.knows caller.old known → MayAdd (C.standing caller.old) known table word.now n name heads buckets → IsLaid own (drop window (buckets (bucket_of word.now))) laid (C.standing caller.old).own → length own.stack ≡ at → RaisesPresent known word.now n name buckets result (C.knows caller.new) }
    ensures aside { (known : KnownObjects) (name : Name) (heads : List Datum) (buckets : ℕ → List Link) (own : Thread) (other : KnownObjects) → C.knows caller.old known → MayAdd (C.standing caller.old) known table word.now n name heads buckets → IsLaid own (drop window (buckets (bucket_of word.now))) laid (C.standing caller.old).own → length own.stack ≡ at → C.knows caller.old other → LacksTable other name buckets → C.knows caller.new other }
{
    let first = group(word, 0);
    if !is_entry_of(caller, at + place, first, word, first, at + laid + 1) {
        return false;
    }
    raise(caller, at + place, n, at + laid + 1);
    true
}

/// Adds to the count of a word that is in the entry at this place among those from a window on, of which further ones are laid out
/// on the way to it. Tells whether it is there, and how many are laid out then.
fn raise_on<C: Caller>(
    caller: &mut C,
    table: u32,
    bucket: u32,
    word: &[u8],
    n: u64,
    place: u32,
    window: u32,
    at: u32,
    laid: u32,
    most: u32,
) -> (bool, u32)
    requires laid { HasLaidFrom (C.standing caller.old) (C.knows caller.old) window table word.now n at laid }
    requires bucket { bucket ≡ bucket_of word.now }
    requires word { length word.now ≤ KEY_BYTES }
    requires top { length (stack_in (C.standing caller.old)) ≡ at + laid + 1 }
    requires few { laid ≤ most }
    requires place { (laid ≤ place) × (place < most) }
    requires room { at + most + KEPT_SLOTS < STACK_SLOTS }
    ensures few { result.1 ≤ most }
    ensures ran { Ran C.base C.tells C.tells_known C.standing caller.old caller.new 0 }
    ensures laid { (known : KnownObjects) (name : Name) (heads : List Datum) (buckets : ℕ → List Link) (own : Thread) → C.knows caller.old known → MayAdd (C.standing caller.old) known table word.now n name heads buckets → IsLaid own (drop window (buckets (bucket_of word.now))) laid (C.standing caller.old).own → length own.stack ≡ at → slice_index_or own.stack table datum.Null ≡ datum.Object name → IsLaid own (drop window (buckets (bucket_of word.now))) result.1 (C.standing caller.new).own }
    ensures raised { (known : KnownObjects) (name : Name) (heads : List Datum) (buckets : ℕ → List Link) (own : Thread) → C.knows caller.old known → MayAdd (C.standing caller.old) known table word.now n name heads buckets → IsLaid own (drop window (buckets (bucket_of word.now))) laid (C.standing caller.old).own → length own.stack ≡ at → slice_index_or own.stack table datum.Null ≡ datum.Object name → RaisesPresent known word.now n name buckets result.0 (C.knows caller.new) }
    ensures aside { (known : KnownObjects) (name : Name) (heads : List Datum) (buckets : ℕ → List Link) (own : Thread) (other : KnownObjects) → C.knows caller.old known → MayAdd (C.standing caller.old) known table word.now n name heads buckets → IsLaid own (drop window (buckets (bucket_of word.now))) laid (C.standing caller.old).own → length own.stack ≡ at → slice_index_or own.stack table datum.Null ≡ datum.Object name → C.knows caller.old other → LacksTable other name buckets → C.knows caller.new other }
{
    let now = lay_on(caller, at, laid, place + 1);
    if now <= place {
        return (false, now);
    }
    let found = raise_laid(caller, table, bucket, word, n, place, window, at, now);
    (found, now)
}

/// Adds to the count of a word that is in the entry at this place of its chain or past it, and tells whether it is. The place of the
/// walk is put into the table for a while.
fn raise_from<C: Caller>(
    caller: &mut C,
    table: u32,
    bucket: u32,
    word: &[u8],
    n: u64,
    place: u32,
    top: u32,
) -> bool
    requires table { HasTable (C.standing caller.old) (C.knows caller.old) table word.now n }
    requires bucket { bucket ≡ bucket_of word.now }
    requires word { length word.now ≤ KEY_BYTES }
    requires room { length (stack_in (C.standing caller.old)) + 4 < STACK_SLOTS }
    requires top { length (stack_in (C.standing caller.old)) ≡ top }
    ensures ran { Ran C.base C.tells C.tells_known C.standing caller.old caller.new 0 }
    ensures own { (C.standing caller.new).own ≡ (C.standing caller.old).own }
    ensures raised { (known : KnownObjects) (name : Name) (heads : List Datum) (buckets : ℕ → List Link) → C.knows caller.old known → MayAdd (C.standing caller.old) known table word.now n name heads buckets → RaisesPresent known word.now n name buckets result (C.knows caller.new) }
    ensures aside { (known : KnownObjects) (name : Name) (heads : List Datum) (buckets : ℕ → List Link) (other : KnownObjects) → C.knows caller.old known → MayAdd (C.standing caller.old) known table word.now n name heads buckets → C.knows caller.old other → LacksTable other name buckets → C.knows caller.new other }
{
    load(caller, table, bucket);
    if !find_beyond(caller, table, bucket, word, group(word, 0), place, top, top) {
        pop(caller);
        return false;
    }
    raise(caller, top + 1, n, top + 2);
    pop_all(caller, 2);
    true
}

/// Adds to the count of a word whose entry stands at this place of its chain, of which entries are laid out from a window on, and
/// further ones on the way to it, so many in all at most. Tells whether it is there, and how many are laid out then.
pub(crate) fn raise_at<C: Caller>(
    caller: &mut C,
    table: u32,
    bucket: u32,
    word: &[u8],
    n: u64,
    place: u32,
    window: u32,
    at: u32,
    laid: u32,
    most: u32,
) -> (bool, u32)
    requires laid { HasLaidFrom (C.standing caller.old) (C.knows caller.old) window table word.now n at laid }
    requires bucket { bucket ≡ bucket_of word.now }
    requires word { length word.now ≤ KEY_BYTES }
    requires top { length (stack_in (C.standing caller.old)) ≡ at + laid + 1 }
    requires few { laid ≤ most }
    requires room { at + most + KEPT_SLOTS < STACK_SLOTS }
    ensures few { result.1 ≤ most }
    ensures ran { Ran C.base C.tells C.tells_known C.standing caller.old caller.new 0 }
    ensures laid { (known : KnownObjects) (name : Name) (heads : List Datum) (buckets : ℕ → List Link) (own : Thread) → C.knows caller.old known → MayAdd (C.standing caller.old) known table word.now n name heads buckets → IsLaid own (drop window (buckets (bucket_of word.now))) laid (C.standing caller.old).own → length own.stack ≡ at → slice_index_or own.stack table datum.Null ≡ datum.Object name → IsLaid own (drop window (buckets (bucket_of word.now))) result.1 (C.standing caller.new).own }
    ensures raised { (known : KnownObjects) (name : Name) (heads : List Datum) (buckets : ℕ → List Link) (own : Thread) → C.knows caller.old known → MayAdd (C.standing caller.old) known table word.now n name heads buckets → IsLaid own (drop window (buckets (bucket_of word.now))) laid (C.standing caller.old).own → length own.stack ≡ at → slice_index_or own.stack table datum.Null ≡ datum.Object name → RaisesPresent known word.now n name buckets result.0 (C.knows caller.new) }
    ensures aside { (known : KnownObjects) (name : Name) (heads : List Datum) (buckets : ℕ → List Link) (own : Thread) (other : KnownObjects) → C.knows caller.old known → MayAdd (C.standing caller.old) known table word.now n name heads buckets → IsLaid own (drop window (buckets (bucket_of word.now))) laid (C.standing caller.old).own → length own.stack ≡ at → slice_index_or own.stack table datum.Null ≡ datum.Object name → C.knows caller.old other → LacksTable other name buckets → C.knows caller.new other }
{
    if place < window {
        let found = raise_from(caller, table, bucket, word, n, place, at + laid + 1);
        return (found, laid);
    }
    if place - window < laid {
        let found = raise_laid(
            caller,
            table,
            bucket,
            word,
            n,
            place - window,
            window,
            at,
            laid,
        );
        return (found, laid);
    }
    if place - window < most {
        return raise_on(
            caller,
            table,
            bucket,
            word,
            n,
            place - window,
            window,
            at,
            laid,
            most,
        );
    }
    (false, laid)
}
