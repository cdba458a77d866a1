//! The merge of two tables.
ghost use Rattle.std.specs.Prelude.{◌≡◌, ℕ, ◌+◌, ◌*◌, ◌^◌, ◌<◌, ◌≤◌, [], List, drop, length, None, OnOk, OnErr, IfOk, IsTrue, true, slice_index_or, ◌↔◌};
ghost use Rattle.std.specs.FinMap as finite;
ghost use Rattle.object_layout.specs.declared.TheConstants.{MAX_INT, MAX_SERIAL};
ghost use Rattle.object_layout.specs.declared.names.Name.{Name};
ghost use Rattle.yak_model.specs.declared.TheConstants.{BUCKETS, ENTRY_FIELDS};
ghost use Rattle.heap_words.specs.declared.TheConstants.{STACK_SLOTS};
ghost use Rattle.yak_model.specs.declared.datum.Datum.{Datum};
ghost use Rattle.yak_model.specs.declared.datum.Datum.TheVariants as datum;
ghost use Rattle.yak_model.specs.Private.{KnownObjects, IsKnown};
ghost use Rattle.yak_model.specs.Room.{entry_words};
ghost use Rattle.yak_model.specs.Tables.{Link};
ghost use Rattle.heap_tables.specs.declared.TheConstants.{FREE_SLOTS, KEPT_SLOTS, KEY_BYTES, MOST_MADE, NOTED};
ghost use Rattle.heap_tables.specs.Adds.{having_made};
ghost use Rattle.yak_model.specs.Graph.{Thread};
ghost use Rattle.heap_tables.specs.Layouts.{AreBelow, GoesLaid, HasGoesLaid, HasNextLaid, MergesLaid};
ghost use Rattle.heap_tables.specs.Merges.{AreSlots, Goes, HasEntryFor, HasMerged, HasMerging, HasNextEntry, HasShare, HasTables, IsEntryAt, IsMerge, IsMerged, IsShare, LeavesAside, Merge, MergesAll, MergesEntry, MergesPart, Stops, done_at, walk, with_shared};
ghost use Rattle.heap_tables.specs.Seeks.{first_of};
ghost use Rattle.heap_tables.specs.Runs.{IsInSlot, KeepsKnown, Ran, RanOut, next_of, pushed, stack_in};
ghost use Rattle.heap_tables.specs.Walks.{HasWalk, IsApart, IsAtChain, IsEntryInSlot};
ghost use Rattle.heap_tables.specs.Asides.{LacksChain, LacksValue};

use crate::notes::{mark, note, place_of, window_of};
use crate::raising::{raise_at, raise_present};
use crate::reading::take_entry;
use crate::seek::seek;
use crate::steps::{load, pop, pop_all, stack_size};
use crate::tables::{add_present, link_new};
use crate::{KEPT_SLOTS, KEY_BYTES, NOTED};
use heap_words::STACK_SLOTS;
use object_layout::OutOfHeap;
use std::alloc::Global;
use yak_model::{BUCKETS, Caller};

/// Makes an entry for the key of another entry, and puts it at the front of a bucket.
fn share_key<C: Caller>(
    caller: &mut C,
    entry: u32,
    into: u32,
    bucket: u32,
    n: u64,
    top: u32,
) -> Result<(), OutOfHeap>
    requires number { n ≤ MAX_INT }
    requires entry { HasEntryFor (C.standing caller.old) (C.knows caller.old) entry into bucket }
    requires names { (C.standing caller.old).own.made < MAX_SERIAL }
    requires room { length (stack_in (C.standing caller.old)) + 3 < STACK_SLOTS }
    requires top { length (stack_in (C.standing caller.old)) ≡ top }
    ensures ran { OnOk result (Ran C.base C.tells C.tells_known C.standing caller.old caller.new entry_words) }
    ensures own { OnOk result ((C.standing caller.new).own ≡ having_made (C.standing caller.old).own 1) }
    ensures shared { OnOk result ((known : KnownObjects) (name : Name) (heads : List Datum) (next : Datum) (link : Link) → C.knows caller.old known → IsInSlot (C.standing caller.old) known into name heads → bucket < length heads → IsEntryInSlot (C.standing caller.old) known entry next link → C.knows caller.new (with_shared (C.standing caller.old) known name heads bucket link.key n) × (finite.get known (next_of (C.standing caller.old)) ≡ None)) }
    ensures aside { OnOk result ((known : KnownObjects) (name : Name) (heads : List Datum) (next : Datum) (link : Link) (other : KnownObjects) → C.knows caller.old known → IsInSlot (C.standing caller.old) known into name heads → bucket < length heads → IsEntryInSlot (C.standing caller.old) known entry next link → C.knows caller.old other → (IsKnown other name → ⊥) → LacksValue other (slice_index_or heads bucket datum.Null) → (IsKnown other link.key → ⊥) → C.knows caller.new other × (finite.get other (next_of (C.standing caller.old)) ≡ None)) }
    ensures same { OnErr result ((C.standing caller.new).own ≡ (C.standing caller.old).own) }
    ensures keeps { OnErr result (KeepsKnown (C.knows caller.old) (C.knows caller.new)) }
    ensures ran_out { OnErr result (RanOut C.base C.tells C.tells_known C.standing caller.old caller.new 0 ENTRY_FIELDS) }
{
    load(caller, into, bucket);
    load(caller, entry, 1);
    let linked = link_new(caller, into, bucket, n, top);
    pop(caller);
    pop(caller);
    linked
}

/// Makes an entry for the key of the entry at a place of a bucket's chain, and puts it at the front of the same bucket of
/// another table.
fn share<C: Caller>(
    caller: &mut C,
    from: u32,
    into: u32,
    bucket: u32,
    place: u32,
    n: u64,
    top: u32,
) -> Result<(), OutOfHeap>
    requires number { n ≤ MAX_INT }
    requires tables { HasShare (C.standing caller.old) (C.knows caller.old) from into bucket place }
    requires names { (C.standing caller.old).own.made < MAX_SERIAL }
    requires room { length (stack_in (C.standing caller.old)) + 5 < STACK_SLOTS }
    requires top { length (stack_in (C.standing caller.old)) ≡ top }
    ensures ran { OnOk result (Ran C.base C.tells C.tells_known C.standing caller.old caller.new entry_words) }
    ensures own { OnOk result ((C.standing caller.new).own ≡ having_made (C.standing caller.old).own 1) }
    ensures shared { OnOk result ((known : KnownObjects) (from_name into_name : Name) (values heads : List Datum) (links : List Link) (link : Link) (rest : List Link) → C.knows caller.old known → IsShare (C.standing caller.old) known from into bucket place from_name into_name values heads links link rest → C.knows caller.new (with_shared (C.standing caller.old) known into_name heads bucket link.key n) × (finite.get known (next_of (C.standing caller.old)) ≡ None)) }
    ensures aside { OnOk result ((known : KnownObjects) (from_name into_name : Name) (values heads : List Datum) (links : List Link) (link : Link) (rest : List Link) (other : KnownObjects) → C.knows caller.old known → IsShare (C.standing caller.old) known from into bucket place from_name into_name values heads links link rest → C.knows caller.old other → LacksChain other from_name links → (IsKnown other into_name → ⊥) → LacksValue other (slice_index_or heads bucket datum.Null) → C.knows caller.new other × (finite.get other (next_of (C.standing caller.old)) ≡ None)) }
    ensures left { OnErr result ((known : KnownObjects) (from_name into_name : Name) (values heads : List Datum) (links : List Link) (link : Link) (rest : List Link) (other : KnownObjects) → C.knows caller.old known → IsShare (C.standing caller.old) known from into bucket place from_name into_name values heads links link rest → C.knows caller.old other → LacksChain other from_name links → C.knows caller.new other) }
    ensures same { OnErr result ((C.standing caller.new).own ≡ (C.standing caller.old).own) }
    ensures kept { OnErr result ((known : KnownObjects) (from_name into_name : Name) (values heads : List Datum) (links : List Link) (link : Link) (rest : List Link) → C.knows caller.old known → IsShare (C.standing caller.old) known from into bucket place from_name into_name values heads links link rest → C.knows caller.new known) }
    ensures ran_out { OnErr result (RanOut C.base C.tells C.tells_known C.standing caller.old caller.new 0 ENTRY_FIELDS) }
{
    seek(caller, from, bucket, place, top);
    let shared = share_key(caller, top + 1, into, bucket, n, top + 2);
    pop(caller);
    pop(caller);
    shared
}

/// Adds the count of an entry of one table, which has this word and count, to another table.
fn add_entry<C: Caller>(
    caller: &mut C,
    from: u32,
    into: u32,
    bucket: u32,
    place: u32,
    word: &[u8],
    n: u64,
    notes: &mut [u64],
    top: u32,
) -> Result<(), OutOfHeap>
    requires tables { HasNextEntry (C.standing caller.old) (C.knows caller.old) from into bucket place word.now n }
    requires bucket { bucket < BUCKETS }
    requires word { length word.now ≤ KEY_BYTES }
    requires names { (C.standing caller.old).own.made < MAX_SERIAL }
    requires room { length (stack_in (C.standing caller.old)) + FREE_SLOTS ≤ STACK_SLOTS }
    requires top { length (stack_in (C.standing caller.old)) ≡ top }
    ensures added { OnOk result ((m : Merge) (is : IsMerge m) (link : Link) (rest : List Link) → AreSlots (C.standing caller.old) from into m → IsMerged m is (done_at m.buckets bucket place) (C.knows caller.old) → IsEntryAt m bucket place word.now n link rest → Goes C.base C.tells C.tells_known C.standing m is (done_at m.buckets bucket place) (done_at m.buckets bucket (place + 1)) caller.old caller.new (C.knows caller.new)) }
    ensures stopped { OnErr result ((m : Merge) (is : IsMerge m) (link : Link) (rest : List Link) → AreSlots (C.standing caller.old) from into m → IsMerged m is (done_at m.buckets bucket place) (C.knows caller.old) → IsEntryAt m bucket place word.now n link rest → Stops C.base C.tells C.tells_known C.standing m is (done_at m.buckets bucket place) caller.old caller.new (C.knows caller.new)) }
{
    if add_present(caller, into, word, n, top) {
        return Ok(());
    }
    let added = share(caller, from, into, bucket, place, n, top);
    if added.is_ok() {
        note(notes, bucket, mark(word));
    }
    added
}

/// Adds the count of the entry at a place of a bucket to another table, and tells whether there is one.
fn merge_entry<C: Caller>(
    caller: &mut C,
    from: u32,
    into: u32,
    bucket: u32,
    place: u32,
    buffer: &mut [u8],
    notes: &mut [u64],
    top: u32,
) -> Result<bool, OutOfHeap>
    requires tables { HasMerging (C.standing caller.old) (C.knows caller.old) from into bucket place }
    requires bucket { bucket < BUCKETS }
    requires buffer { KEY_BYTES ≤ length buffer.old }
    requires names { (C.standing caller.old).own.made < MAX_SERIAL }
    requires room { length (stack_in (C.standing caller.old)) + FREE_SLOTS ≤ STACK_SLOTS }
    requires top { length (stack_in (C.standing caller.old)) ≡ top }
    ensures buffer { length buffer.new ≡ length buffer.old }
    ensures few { IfOk result (λ more. IsTrue more → place + 1 < 2 ^ 32) }
    ensures merged { IfOk result (λ more. (m : Merge) (is : IsMerge m) → AreSlots (C.standing caller.old) from into m → IsMerged m is (done_at m.buckets bucket place) (C.knows caller.old) → MergesEntry C.base C.tells C.tells_known C.standing m is bucket place more caller.old caller.new (C.knows caller.new)) }
    ensures stopped { OnErr result ((m : Merge) (is : IsMerge m) → AreSlots (C.standing caller.old) from into m → IsMerged m is (done_at m.buckets bucket place) (C.knows caller.old) → Stops C.base C.tells C.tells_known C.standing m is (done_at m.buckets bucket place) caller.old caller.new (C.knows caller.new)) }
{
    match take_entry(caller, from, bucket, place, buffer, top) {
        Some((size, count)) => {
            add_entry(
                caller,
                from,
                into,
                bucket,
                place,
                &buffer[..size],
                count,
                notes,
                top,
            )?;
            Ok(true)
        }
        None => Ok(false),
    }
}

/// Adds the count of an entry of one table, which has this word and count, to another table where the word is there, of whose chain
/// entries are laid out. Tells whether it is there, and how many are laid out then.
fn merge_word<C: Caller>(
    caller: &mut C,
    from: u32,
    into: u32,
    bucket: u32,
    place: u32,
    word: &[u8],
    n: u64,
    groups: &mut [u64],
    notes: &[u64],
    window: u32,
    at: u32,
    laid: u32,
    most: u32,
) -> (bool, u32)
    requires tables { HasNextLaid (C.standing caller.old) (C.knows caller.old) from into bucket place window at laid word.now n }
    requires bucket { bucket < BUCKETS }
    requires word { length word.now ≤ KEY_BYTES }
    requires window { length notes.now ≡ 0 → window ≡ 0 }
    requires groups { STACK_SLOTS ≤ length groups.old }
    requires top { length (stack_in (C.standing caller.old)) ≡ at + laid + 1 }
    requires few { laid ≤ most }
    requires room { at + most + KEPT_SLOTS < STACK_SLOTS }
    ensures groups { length groups.new ≡ length groups.old }
    ensures few { result.1 ≤ most }
    ensures ran { Ran C.base C.tells C.tells_known C.standing caller.old caller.new 0 }
    ensures merged { (m : Merge) (is : IsMerge m) (start : ℕ) (own : Thread) (link : Link) (rest : List Link) → AreBelow own from into m → length own.stack ≡ at → GoesLaid m is bucket start place window laid own (C.standing caller.old).own (C.knows caller.old) → IsEntryAt m bucket place word.now n link rest → MergesLaid m is bucket start place window result.1 result.0 own (C.standing caller.new).own (C.knows caller.new) }
{
    if notes.is_empty() {
        return raise_present(caller, into, bucket, word, n, groups, at, laid, most);
    }
    match place_of(notes, bucket, mark(word)) {
        Some(noted) => raise_at(caller, into, bucket, word, n, noted, window, at, laid, most),
        None => (false, laid),
    }
}

/// Adds the count of the entry at a place of a bucket to another table where its word is there, of whose chain entries are laid out.
/// Tells whether it is there, and how many are laid out then.
fn merge_laid<C: Caller>(
    caller: &mut C,
    from: u32,
    into: u32,
    bucket: u32,
    place: u32,
    buffer: &mut [u8],
    groups: &mut [u64],
    notes: &[u64],
    window: u32,
    at: u32,
    laid: u32,
    most: u32,
) -> (bool, u32)
    requires tables { HasGoesLaid (C.standing caller.old) (C.knows caller.old) from into bucket place window at laid }
    requires bucket { bucket < BUCKETS }
    requires buffer { KEY_BYTES ≤ length buffer.old }
    requires window { length notes.now ≡ 0 → window ≡ 0 }
    requires groups { STACK_SLOTS ≤ length groups.old }
    requires top { length (stack_in (C.standing caller.old)) ≡ at + laid + 1 }
    requires few { laid ≤ most }
    requires room { at + most + KEPT_SLOTS < STACK_SLOTS }
    ensures buffer { length buffer.new ≡ length buffer.old }
    ensures groups { length groups.new ≡ length groups.old }
    ensures few { result.1 ≤ most }
    ensures ran { Ran C.base C.tells C.tells_known C.standing caller.old caller.new 0 }
    ensures merged { (m : Merge) (is : IsMerge m) (start : ℕ) (own : Thread) → AreBelow own from into m → length own.stack ≡ at → GoesLaid m is bucket start place window laid own (C.standing caller.old).own (C.knows caller.old) → MergesLaid m is bucket start place window result.1 result.0 own (C.standing caller.new).own (C.knows caller.new) }
{
    match take_entry(caller, from, bucket, place, buffer, at + laid + 1) {
        Some((size, count)) => merge_word(
            caller,
            from,
            into,
            bucket,
            place,
            &buffer[..size],
            count,
            groups,
            notes,
            window,
            at,
            laid,
            most,
        ),
        None => (false, laid),
    }
}

/// Adds the counts of the entries from a place of a bucket on to another table as far as their words are there, of whose chain the
/// front is laid out. Gives how many, and how many are laid out then.
fn merge_on<C: Caller>(
    caller: &mut C,
    from: u32,
    into: u32,
    bucket: u32,
    place: u32,
    buffer: &mut [u8],
    groups: &mut [u64],
    notes: &[u64],
    window: u32,
    at: u32,
    most: u32,
) -> (u32, u32)
    requires tables { HasGoesLaid (C.standing caller.old) (C.knows caller.old) from into bucket place window at 0 }
    requires bucket { bucket < BUCKETS }
    requires buffer { KEY_BYTES ≤ length buffer.old }
    requires window { length notes.now ≡ 0 → window ≡ 0 }
    requires groups { STACK_SLOTS ≤ length groups.old }
    requires room { at + most + KEPT_SLOTS < STACK_SLOTS }
    ensures buffer { length buffer.new ≡ length buffer.old }
    ensures groups { length groups.new ≡ length groups.old }
    ensures few { place + result.0 < 2 ^ 32 }
    ensures laid { result.1 ≤ most }
    ensures ran { Ran C.base C.tells C.tells_known C.standing caller.old caller.new 0 }
    ensures merged { (m : Merge) (is : IsMerge m) (start : ℕ) (own : Thread) → AreBelow own from into m → length own.stack ≡ at → GoesLaid m is bucket start place window 0 own (C.standing caller.old).own (C.knows caller.old) → GoesLaid m is bucket start (place + result.0) window result.1 own (C.standing caller.new).own (C.knows caller.new) }
{
    let mut laid = 0;
    for turn in 0..u32::MAX - place {
        let (found, now) = merge_laid(
            caller,
            from,
            into,
            bucket,
            place + turn,
            buffer,
            groups,
            notes,
            window,
            at,
            laid,
            most,
        );
        laid = now;
        if !found {
            return (turn, laid);
        }
    }
    (u32::MAX - place, laid)
}

/// Whether the stack has room for entries that are laid out from a slot on.
fn has_room(top: u32) -> bool
    ensures room { IsTrue result ↔ (top + KEPT_SLOTS + 1 < STACK_SLOTS) }
{
    top < STACK_SLOTS as u32 - KEPT_SLOTS as u32 - 1
}

/// Pushes the front of a chain of the table, and the entry at a place of it, or null past its end.
fn open_window<C: Caller>(caller: &mut C, table: u32, bucket: u32, place: u32, top: u32)
    requires chain { HasWalk (C.standing caller.old) (C.knows caller.old) table bucket }
    requires room { length (stack_in (C.standing caller.old)) + 2 < STACK_SLOTS }
    requires top { length (stack_in (C.standing caller.old)) ≡ top }
    ensures ran { Ran C.base C.tells C.tells_known C.standing caller.old caller.new 0 }
    ensures opened { (known : KnownObjects) (name : Name) (values : List Datum) (links : List Link) → C.knows caller.old known → IsAtChain (C.standing caller.old) known table bucket name values links → IsApart name links → ((C.standing caller.new).own ≡ pushed (pushed (C.standing caller.old).own (slice_index_or values bucket datum.Null)) (first_of (drop place links))) × C.knows caller.new known }
    ensures aside { (known : KnownObjects) (name : Name) (values : List Datum) (links : List Link) (other : KnownObjects) → C.knows caller.old known → IsAtChain (C.standing caller.old) known table bucket name values links → IsApart name links → C.knows caller.old other → LacksChain other name links → C.knows caller.new other }
{
    if place > 0 {
        seek(caller, table, bucket, place, top);
        return;
    }
    load(caller, table, bucket);
    load(caller, table, bucket);
}

/// Adds the counts of the entries from a place of a bucket on to another table as far as their words are there, and gives how many.
/// It lays out the other table's chain on the stack, and walks along it once for all of them.
fn merge_present<C: Caller>(
    caller: &mut C,
    from: u32,
    into: u32,
    bucket: u32,
    place: u32,
    buffer: &mut [u8],
    groups: &mut [u64],
    notes: &[u64],
    top: u32,
) -> u32
    requires tables { HasMerging (C.standing caller.old) (C.knows caller.old) from into bucket place }
    requires bucket { bucket < BUCKETS }
    requires buffer { KEY_BYTES ≤ length buffer.old }
    requires groups { STACK_SLOTS ≤ length groups.old }
    requires room { length (stack_in (C.standing caller.old)) + FREE_SLOTS ≤ STACK_SLOTS }
    requires top { length (stack_in (C.standing caller.old)) ≡ top }
    ensures buffer { length buffer.new ≡ length buffer.old }
    ensures groups { length groups.new ≡ length groups.old }
    ensures few { place + result < 2 ^ 32 }
    ensures merged { (m : Merge) (is : IsMerge m) → AreSlots (C.standing caller.old) from into m → IsMerged m is (done_at m.buckets bucket place) (C.knows caller.old) → Goes C.base C.tells C.tells_known C.standing m is (done_at m.buckets bucket place) (done_at m.buckets bucket (place + result)) caller.old caller.new (C.knows caller.new) }
{
    if !has_room(top) {
        return 0;
    }
    let window = window_of(notes, bucket);
    open_window(caller, into, bucket, window, top);
    let most = STACK_SLOTS as u32 - KEPT_SLOTS as u32 - 2 - top;
    let (merged, laid) = merge_on(
        caller,
        from,
        into,
        bucket,
        place,
        buffer,
        groups,
        notes,
        window,
        top + 1,
        most,
    );
    pop_all(caller, laid + 2);
    merged
}

/// Adds the counts of a bucket to another table.
fn merge_bucket<C: Caller>(
    caller: &mut C,
    from: u32,
    into: u32,
    bucket: u32,
    buffer: &mut [u8],
    groups: &mut [u64],
    notes: &mut [u64],
    top: u32,
) -> Result<(), OutOfHeap>
    requires tables { HasMerged (C.standing caller.old) (C.knows caller.old) from into bucket }
    requires bucket { bucket < BUCKETS }
    requires buffer { KEY_BYTES ≤ length buffer.old }
    requires groups { STACK_SLOTS ≤ length groups.old }
    requires names { (C.standing caller.old).own.made + 2 ^ 32 < MAX_SERIAL }
    requires room { length (stack_in (C.standing caller.old)) + FREE_SLOTS ≤ STACK_SLOTS }
    requires top { length (stack_in (C.standing caller.old)) ≡ top }
    ensures buffer { length buffer.new ≡ length buffer.old }
    ensures groups { length groups.new ≡ length groups.old }
    ensures merged { OnOk result ((m : Merge) (is : IsMerge m) → AreSlots (C.standing caller.old) from into m → IsMerged m is (walk m.buckets bucket) (C.knows caller.old) → Goes C.base C.tells C.tells_known C.standing m is (walk m.buckets bucket) (walk m.buckets (bucket + 1)) caller.old caller.new (C.knows caller.new)) }
    ensures stopped { OnErr result ((m : Merge) (is : IsMerge m) → AreSlots (C.standing caller.old) from into m → IsMerged m is (walk m.buckets bucket) (C.knows caller.old) → Stops C.base C.tells C.tells_known C.standing m is (walk m.buckets bucket) caller.old caller.new (C.knows caller.new)) }
{
    let mut place = 0;
    for turn in 0..u32::MAX {
        place += merge_present(
            caller, from, into, bucket, place, buffer, groups, notes, top,
        );
        if !merge_entry(caller, from, into, bucket, place, buffer, notes, top)? {
            return Ok(());
        }
        place += 1;
    }
    Ok(())
}

/// Adds the counts of all buckets to another table.
fn merge_buckets<C: Caller>(
    caller: &mut C,
    from: u32,
    into: u32,
    buffer: &mut [u8],
    groups: &mut [u64],
    notes: &mut [u64],
    top: u32,
) -> Result<(), OutOfHeap>
    requires tables { HasMerged (C.standing caller.old) (C.knows caller.old) from into 0 }
    requires buffer { KEY_BYTES ≤ length buffer.old }
    requires groups { STACK_SLOTS ≤ length groups.old }
    requires names { (C.standing caller.old).own.made ≤ MOST_MADE }
    requires room { length (stack_in (C.standing caller.old)) + FREE_SLOTS ≤ STACK_SLOTS }
    requires top { length (stack_in (C.standing caller.old)) ≡ top }
    ensures merged { OnOk result ((m : Merge) (is : IsMerge m) → AreSlots (C.standing caller.old) from into m → IsMerged m is [] (C.knows caller.old) → Goes C.base C.tells C.tells_known C.standing m is [] (walk m.buckets BUCKETS) caller.old caller.new (C.knows caller.new)) }
    ensures stopped { OnErr result ((m : Merge) (is : IsMerge m) → AreSlots (C.standing caller.old) from into m → IsMerged m is [] (C.knows caller.old) → Stops C.base C.tells C.tells_known C.standing m is [] caller.old caller.new (C.knows caller.new)) }
{
    for bucket in 0..BUCKETS as u32 {
        merge_bucket(caller, from, into, bucket, buffer, groups, notes, top)?;
    }
    Ok(())
}

/// Adds all counts of one table to another, with notes on the words of the other.
fn merge_with<C: Caller>(
    caller: &mut C,
    from: u32,
    into: u32,
    notes: &mut [u64],
) -> Result<(), OutOfHeap>
    requires tables { HasTables (C.standing caller.old) (C.knows caller.old) from into }
    requires names { (C.standing caller.old).own.made ≤ MOST_MADE }
    requires room { length (stack_in (C.standing caller.old)) + FREE_SLOTS ≤ STACK_SLOTS }
    ensures merged { OnOk result (MergesAll C.base C.tells C.tells_known C.standing from into caller.old caller.new (C.knows caller.old) (C.knows caller.new)) }
    ensures stopped { OnErr result (MergesPart C.base C.tells C.tells_known C.standing from into caller.old caller.new (C.knows caller.old) (C.knows caller.new)) }
    ensures aside { LeavesAside (C.standing caller.old) from into (C.knows caller.old) (C.knows caller.new) }
{
    let top = stack_size(caller, into);
    let mut buffer = [0; KEY_BYTES];
    let mut groups = [0; STACK_SLOTS];
    merge_buckets(caller, from, into, &mut buffer, &mut groups, notes, top)
}

/// Adds all counts of one table to another. A new word gets an entry of its own, which shares the key.
///
/// # Errors
///
/// `OutOfHeap` where the heap has no room for an entry. The counts of the entries before it in the walk were added.
pub fn merge<C: Caller>(caller: &mut C, from: u32, into: u32) -> Result<(), OutOfHeap>
    requires tables { HasTables (C.standing caller.old) (C.knows caller.old) from into }
    requires names { (C.standing caller.old).own.made ≤ MOST_MADE }
    requires room { length (stack_in (C.standing caller.old)) + FREE_SLOTS ≤ STACK_SLOTS }
    ensures merged { OnOk result (MergesAll C.base C.tells C.tells_known C.standing from into caller.old caller.new (C.knows caller.old) (C.knows caller.new)) }
    ensures stopped { OnErr result (MergesPart C.base C.tells C.tells_known C.standing from into caller.old caller.new (C.knows caller.old) (C.knows caller.new)) }
    ensures aside { LeavesAside (C.standing caller.old) from into (C.knows caller.old) (C.knows caller.new) }
{
    merge_with(caller, from, into, &mut [])
}

/// Notes on the words of one table.
#[derive(Drop)]
pub struct Notes {
    words: Vec<u64>,
}

impl Notes {
    /// Notes on a table of no words. Where there is no memory for them they hold nothing, and help nothing.
    pub fn new(alloc: Global) -> Notes
        ensures few { length result.words.items ≤ BUCKETS * NOTED }
    {
        match vec![in alloc; 0u64; BUCKETS * NOTED] {
            Ok(words) => Notes { words },
            Err(_) => Notes {
                words: Vec::new(alloc),
            },
        }
    }
}

/// Adds all counts of one table to another, as `merge` does, and notes where the other table has its words, so that later merges
/// into it find them without reading the keys before them. The notes begin as those of `Notes::new` where the other table has no
/// words, and go with this table from then on. Wrong notes cost time and change nothing.
///
/// # Errors
///
/// `OutOfHeap` where the heap has no room for an entry. The counts of the entries before it in the walk were added.
pub fn merge_noting<C: Caller>(
    caller: &mut C,
    from: u32,
    into: u32,
    notes: &mut Notes,
) -> Result<(), OutOfHeap>
    requires tables { HasTables (C.standing caller.old) (C.knows caller.old) from into }
    requires names { (C.standing caller.old).own.made ≤ MOST_MADE }
    requires room { length (stack_in (C.standing caller.old)) + FREE_SLOTS ≤ STACK_SLOTS }
    ensures merged { OnOk result (MergesAll C.base C.tells C.tells_known C.standing from into caller.old caller.new (C.knows caller.old) (C.knows caller.new)) }
    ensures stopped { OnErr result (MergesPart C.base C.tells C.tells_known C.standing from into caller.old caller.new (C.knows caller.old) (C.knows caller.new)) }
    ensures aside { LeavesAside (C.standing caller.old) from into (C.knows caller.old) (C.knows caller.new) }
{
    merge_with(caller, from, into, notes.words.as_mut_slice())
}
