//! Count tables.
ghost use Rattle.std.specs.Prelude.{◌≡◌, ◌≢◌, ℕ, ◌+◌, ◌-◌, ◌*◌, ◌^◌, ◌<◌, ◌≤◌, ◌↔◌, ◌++◌, ◌∷◌, [], List, length, IsTrue, OnOk, OnErr, slice_index, slice_index_or, None, replicate};
ghost use Rattle.std.specs.FinMap as finite;
ghost use Rattle.object_layout.specs.declared.TheConstants.{MAX_INT, MAX_SERIAL, WORD_LIMIT};
ghost use Rattle.yak_model.specs.declared.TheConstants.{BUCKETS, ENTRY_FIELDS};
ghost use Rattle.heap_words.specs.declared.TheConstants.{STACK_SLOTS};
ghost use Rattle.yak_model.specs.Room.{entry_words, key_words, table_words};
ghost use Rattle.heap_tables.specs.declared.TheConstants.{FREE_SLOTS, KEY_BYTES, MOST_MADE};
ghost use Rattle.yak_model.specs.declared.datum.Datum.TheVariants as datum;
ghost use Rattle.yak_model.specs.Private.{KnownObjects, LosesAll};
ghost use Rattle.yak_model.specs.declared.datum.Datum.{Datum};
ghost use Rattle.object_layout.specs.declared.names.Name.{Name};
ghost use Rattle.heap_tables.specs.Runs.{HasField, IsInSlot, slot_in, KeepsKnown, Ran, RanOut, stack_in, next_of, with_made, with_new};
ghost use Rattle.yak_model.specs.Tables.{Link, IsCountTable, IsTable, LacksWord};
ghost use Rattle.yak_model.specs.Texts.{WordCounts};
ghost use Rattle.heap_tables.specs.Counted.{HasCountTable, MayCount, IsCounted, IsUncounted, HasTableLook, MayLook};
ghost use Rattle.yak_model.specs.Tables.{bucket_of};
ghost use Rattle.heap_tables.specs.Walks.{IsEntryInSlot};
ghost use Rattle.heap_tables.specs.declared.chains.Look.TheVariants as look;
ghost use Rattle.heap_tables.specs.Asides.{LacksValue, KnowsWithNext, LacksTable};
ghost use Rattle.heap_tables.specs.Adds.{AddRan, AddRanOut, AddsNear, AddsPresent, HasTable, MakesForNew, MayAdd, MayRaise, with_count, HasBlank, with_fields, with_linked, IsAddedTo, Grows, StayAfter};

use crate::chains::{Look, climb, find};
use crate::keys::{bucket_of, group, make_key};
use crate::steps::{field_int, load, pop, pop_all, push_new, put_int, stack_size, store};
use heap_words::STACK_SLOTS;
use object_layout::OutOfHeap;
use yak_model::{BUCKETS, Caller, ENTRY_FIELDS};

/// Raises the count of an entry.
pub(crate) fn raise<C: Caller>(caller: &mut C, entry: u32, n: u64, top: u32)
    requires entry { MayRaise (C.standing caller.old) (C.knows caller.old) entry n }
    requires room { length (stack_in (C.standing caller.old)) < STACK_SLOTS }
    requires top { length (stack_in (C.standing caller.old)) ≡ top }
    ensures ran { Ran C.base C.tells C.tells_known C.standing caller.old caller.new 0 }
    ensures own { (C.standing caller.new).own ≡ (C.standing caller.old).own }
    ensures raised { (known : KnownObjects) (next : Datum) (link : Link) → C.knows caller.old known → IsEntryInSlot (C.standing caller.old) known entry next link → C.knows caller.new (with_count known next link (link.count + n)) }
    ensures aside { (other : KnownObjects) → C.knows caller.old other → LacksValue other (slot_in (C.standing caller.old) entry) → C.knows caller.new other }
{
    let count = field_int(caller, entry, 2, top);
    put_int(caller, entry, 2, count + n, top);
}

/// Pushes a new table of no words.
///
/// # Errors
///
/// `OutOfHeap` where the heap has no room for the table.
pub fn make<C: Caller>(caller: &mut C) -> Result<(), OutOfHeap>
    requires room { length (stack_in (C.standing caller.old)) + FREE_SLOTS ≤ STACK_SLOTS }
    requires names { (C.standing caller.old).own.made ≤ MOST_MADE }
    ensures ran { OnOk result (Ran C.base C.tells C.tells_known C.standing caller.old caller.new table_words) }
    ensures pushed { OnOk result ((C.standing caller.new).own ≡ with_made (C.standing caller.old)) }
    ensures made { OnOk result ((known : KnownObjects) → C.knows caller.old known → C.knows caller.new (with_new (C.standing caller.old) known BUCKETS) × ((table : IsCountTable (with_new (C.standing caller.old) known BUCKETS) (next_of (C.standing caller.old)) finite.empty) × ((b : ℕ) → table.buckets b ≡ [])) × (finite.get known (next_of (C.standing caller.old)) ≡ None)) }
    ensures same { OnErr result ((C.standing caller.new).own ≡ (C.standing caller.old).own) }
    ensures keeps { OnErr result (KeepsKnown (C.knows caller.old) (C.knows caller.new)) }
    ensures ran_out { OnErr result (RanOut C.base C.tells C.tells_known C.standing caller.old caller.new 0 BUCKETS) }
{
    push_new(caller, BUCKETS as u32)
}

/// Adds to the count of a word that is in the table, and tells whether it is. The place of the walk is put into the table for a while.
fn add_far<C: Caller>(caller: &mut C, table: u32, word: &[u8], n: u64, top: u32) -> bool
    requires table { HasTable (C.standing caller.old) (C.knows caller.old) table word.now n }
    requires word { length word.now ≤ KEY_BYTES }
    requires room { length (stack_in (C.standing caller.old)) + FREE_SLOTS ≤ STACK_SLOTS }
    requires top { length (stack_in (C.standing caller.old)) ≡ top }
    ensures ran { Ran C.base C.tells C.tells_known C.standing caller.old caller.new 0 }
    ensures own { (C.standing caller.new).own ≡ (C.standing caller.old).own }
    ensures added { (known : KnownObjects) (name : Name) (heads : List Datum) (buckets : ℕ → List Link) → C.knows caller.old known → MayAdd (C.standing caller.old) known table word.now n name heads buckets → AddsPresent known word.now n name buckets result (C.knows caller.new) }
    ensures aside { (known : KnownObjects) (name : Name) (heads : List Datum) (buckets : ℕ → List Link) (other : KnownObjects) → C.knows caller.old known → MayAdd (C.standing caller.old) known table word.now n name heads buckets → C.knows caller.old other → LacksTable other name buckets → C.knows caller.new other }
{
    let bucket = bucket_of(word);
    if find(caller, table, bucket, word, top) {
        raise(caller, top + 1, n, top + 2);
        pop(caller);
        pop(caller);
        true
    } else {
        pop(caller);
        false
    }
}

/// Whether a look has found the word.
fn is_found(said: Look) -> bool
    ensures { IsTrue result ↔ (said ≡ look.Found) }
{
    said == Look::Found
}

/// Adds to the count of a word that is among the first entries of its chain, as many as the stack has room for. Tells whether it is
/// there, or further, or nowhere.
fn add_near<C: Caller>(
    caller: &mut C,
    table: u32,
    bucket: u32,
    word: &[u8],
    n: u64,
    top: u32,
) -> Look
    requires table { HasTable (C.standing caller.old) (C.knows caller.old) table word.now n }
    requires bucket { bucket ≡ bucket_of word.now }
    requires word { length word.now ≤ KEY_BYTES }
    requires room { length (stack_in (C.standing caller.old)) + FREE_SLOTS ≤ STACK_SLOTS }
    requires top { length (stack_in (C.standing caller.old)) ≡ top }
    ensures ran { Ran C.base C.tells C.tells_known C.standing caller.old caller.new 0 }
    ensures own { (C.standing caller.new).own ≡ (C.standing caller.old).own }
    ensures added { (known : KnownObjects) (name : Name) (heads : List Datum) (buckets : ℕ → List Link) → C.knows caller.old known → MayAdd (C.standing caller.old) known table word.now n name heads buckets → AddsNear known word.now n name buckets result (C.knows caller.new) }
    ensures aside { (known : KnownObjects) (name : Name) (heads : List Datum) (buckets : ℕ → List Link) (other : KnownObjects) → C.knows caller.old known → MayAdd (C.standing caller.old) known table word.now n name heads buckets → C.knows caller.old other → LacksTable other name buckets → C.knows caller.new other }
{
    load(caller, table, bucket);
    let looks = STACK_SLOTS as u32 - (top + 3);
    let (said, passed) = climb(caller, word, group(word, 0), top, looks);
    if !is_found(said) {
        pop_all(caller, passed + 1);
        return said;
    }
    raise(caller, top + passed, n, top + passed + 1);
    pop_all(caller, passed + 1);
    Look::Found
}

/// Adds to the count of a word that is in the table, and tells whether it is.
pub(crate) fn add_present<C: Caller>(
    caller: &mut C,
    table: u32,
    word: &[u8],
    n: u64,
    top: u32,
) -> bool
    requires table { HasTable (C.standing caller.old) (C.knows caller.old) table word.now n }
    requires word { length word.now ≤ KEY_BYTES }
    requires room { length (stack_in (C.standing caller.old)) + FREE_SLOTS ≤ STACK_SLOTS }
    requires top { length (stack_in (C.standing caller.old)) ≡ top }
    ensures ran { Ran C.base C.tells C.tells_known C.standing caller.old caller.new 0 }
    ensures own { (C.standing caller.new).own ≡ (C.standing caller.old).own }
    ensures added { (known : KnownObjects) (name : Name) (heads : List Datum) (buckets : ℕ → List Link) → C.knows caller.old known → MayAdd (C.standing caller.old) known table word.now n name heads buckets → AddsPresent known word.now n name buckets result (C.knows caller.new) }
    ensures aside { (known : KnownObjects) (name : Name) (heads : List Datum) (buckets : ℕ → List Link) (other : KnownObjects) → C.knows caller.old known → MayAdd (C.standing caller.old) known table word.now n name heads buckets → C.knows caller.old other → LacksTable other name buckets → C.knows caller.new other }
{
    let bucket = bucket_of(word);
    match add_near(caller, table, bucket, word, n, top) {
        Look::Found => true,
        Look::End => false,
        Look::Further => add_far(caller, table, word, n, top),
    }
}

/// Fills in the fields of a new entry.
fn fill_entry<C: Caller>(caller: &mut C, entry: u32, next: u32, key: u32, n: u64, top: u32)
    requires number { n ≤ MAX_INT }
    requires entry { HasBlank (C.standing caller.old) (C.knows caller.old) entry }
    requires next { next < length (stack_in (C.standing caller.old)) }
    requires key { key < length (stack_in (C.standing caller.old)) }
    requires room { length (stack_in (C.standing caller.old)) < STACK_SLOTS }
    requires top { length (stack_in (C.standing caller.old)) ≡ top }
    ensures ran { Ran C.base C.tells C.tells_known C.standing caller.old caller.new 0 }
    ensures own { (C.standing caller.new).own ≡ (C.standing caller.old).own }
    ensures filled { (known : KnownObjects) (name : Name) (values : List Datum) → C.knows caller.old known → IsInSlot (C.standing caller.old) known entry name values → length values ≡ ENTRY_FIELDS → C.knows caller.new (with_fields known name (slot_in (C.standing caller.old) next) (slot_in (C.standing caller.old) key) n) }
{
    store(caller, entry, 0, next);
    store(caller, entry, 1, key);
    put_int(caller, entry, 2, n, top);
}

/// Makes an entry for the key in the top slot, and puts it at the front of a bucket, which the slot below has.
pub(crate) fn link_new<C: Caller>(
    caller: &mut C,
    table: u32,
    bucket: u32,
    n: u64,
    front: u32,
) -> Result<(), OutOfHeap>
    requires number { n ≤ MAX_INT }
    requires table { HasField (C.standing caller.old) (C.knows caller.old) table bucket }
    requires names { (C.standing caller.old).own.made < MAX_SERIAL }
    requires room { length (stack_in (C.standing caller.old)) + 1 < STACK_SLOTS }
    requires top { length (stack_in (C.standing caller.old)) ≡ front + 2 }
    ensures ran { OnOk result (Ran C.base C.tells C.tells_known C.standing caller.old caller.new entry_words) }
    ensures own { OnOk result ((C.standing caller.new).own ≡ record (C.standing caller.old).own { made = (C.standing caller.old).own.made + 1 }) }
    ensures linked { OnOk result ((known : KnownObjects) (name : Name) (heads : List Datum) → C.knows caller.old known → IsInSlot (C.standing caller.old) known table name heads → bucket < length heads → C.knows caller.new (with_linked (C.standing caller.old) known name heads bucket front n) × (finite.get known (next_of (C.standing caller.old)) ≡ None)) }
    ensures aside { OnOk result ((other : KnownObjects) → C.knows caller.old other → (finite.get other (next_of (C.standing caller.old)) ≡ None) × ((after : KnownObjects) → LacksValue other (slot_in (C.standing caller.old) table) → LosesAll (with_fields other (next_of (C.standing caller.old)) (slot_in (C.standing caller.old) front) (slot_in (C.standing caller.old) (front + 1)) n) (next_of (C.standing caller.old)) after → C.knows caller.new after)) }
    ensures same { OnErr result ((C.standing caller.new).own ≡ (C.standing caller.old).own) }
    ensures keeps { OnErr result (KeepsKnown (C.knows caller.old) (C.knows caller.new)) }
    ensures ran_out { OnErr result (RanOut C.base C.tells C.tells_known C.standing caller.old caller.new 0 ENTRY_FIELDS) }
{
    push_new(caller, ENTRY_FIELDS as u32)?;
    fill_entry(caller, front + 2, front, front + 1, n, front + 3);
    store(caller, table, bucket, front + 2);
    pop(caller);
    Ok(())
}

/// Puts a new entry of a new word at the front of its bucket, which the top slot has.
fn insert_new<C: Caller>(
    caller: &mut C,
    table: u32,
    bucket: u32,
    word: &[u8],
    n: u64,
    front: u32,
) -> Result<(), OutOfHeap>
    requires number { n ≤ MAX_INT }
    requires table { HasField (C.standing caller.old) (C.knows caller.old) table bucket }
    requires word { length word.now ≤ WORD_LIMIT }
    requires names { (C.standing caller.old).own.made + 1 < MAX_SERIAL }
    requires room { length (stack_in (C.standing caller.old)) + 2 < STACK_SLOTS }
    requires top { length (stack_in (C.standing caller.old)) ≡ front + 1 }
    ensures ran { OnOk result (Ran C.base C.tells C.tells_known C.standing caller.old caller.new (key_words word.now + entry_words)) }
    ensures ran_out { OnErr result (AddRanOut C.base C.tells C.tells_known C.standing caller.old caller.new word.now) }
    ensures own { OnOk result ((C.standing caller.new).own ≡ record (C.standing caller.old).own { made = (C.standing caller.old).own.made + 2 }) }
    ensures added { OnOk result ((known : KnownObjects) (name : Name) (heads : List Datum) (buckets : ℕ → List Link) → C.knows caller.old known → slot_in (C.standing caller.old) table ≡ datum.Object name → IsTable known name heads buckets → slot_in (C.standing caller.old) front ≡ slice_index_or heads bucket datum.Null → bucket_of word.now ≡ bucket → bucket < BUCKETS → LacksWord word.now (buckets bucket) → (added : IsAddedTo known word.now n name buckets (C.knows caller.new)) × StayAfter (C.standing caller.old) (buckets (bucket_of word.now)) added.links) }
    ensures aside { OnOk result ((other : KnownObjects) → C.knows caller.old other → LacksValue other (slot_in (C.standing caller.old) table) → LacksValue other (slot_in (C.standing caller.old) front) → C.knows caller.new other) }
    ensures stack { OnErr result (stack_in (C.standing caller.new) ≡ stack_in (C.standing caller.old)) }
    ensures kept { OnErr result ((known : KnownObjects) → C.knows caller.old known → (after : KnownObjects) × C.knows caller.new after × Grows known after) }
    ensures left { OnErr result ((other : KnownObjects) → C.knows caller.old other → KnowsWithNext (C.standing caller.old) other (C.knows caller.new)) }
{
    make_key(caller, word, front + 1)?;
    match link_new(caller, table, bucket, n, front) {
        Ok(()) => {
            pop(caller);
            Ok(())
        }
        Err(full) => {
            pop(caller);
            Err(full)
        }
    }
}

/// Adds to the count of a word, as far as chains go.
fn add_links<C: Caller>(
    caller: &mut C,
    table: u32,
    word: &[u8],
    n: u64,
    top: u32,
) -> Result<(), OutOfHeap>
    requires table { HasTable (C.standing caller.old) (C.knows caller.old) table word.now n }
    requires word { length word.now ≤ WORD_LIMIT }
    requires names { (C.standing caller.old).own.made ≤ MOST_MADE }
    requires room { length (stack_in (C.standing caller.old)) + FREE_SLOTS ≤ STACK_SLOTS }
    requires top { length (stack_in (C.standing caller.old)) ≡ top }
    ensures ran { OnOk result (AddRan C.base C.tells C.tells_known C.standing caller.old caller.new word.now) }
    ensures ran_out { OnErr result (AddRanOut C.base C.tells C.tells_known C.standing caller.old caller.new word.now) }
    ensures stack { stack_in (C.standing caller.new) ≡ stack_in (C.standing caller.old) }
    ensures added { OnOk result ((known : KnownObjects) (name : Name) (heads : List Datum) (buckets : ℕ → List Link) → C.knows caller.old known → MayAdd (C.standing caller.old) known table word.now n name heads buckets → (added : IsAddedTo known word.now n name buckets (C.knows caller.new)) × StayAfter (C.standing caller.old) (buckets (bucket_of word.now)) added.links) }
    ensures kept { OnErr result ((known : KnownObjects) (name : Name) (heads : List Datum) (buckets : ℕ → List Link) → C.knows caller.old known → MayAdd (C.standing caller.old) known table word.now n name heads buckets → (after : KnownObjects) × C.knows caller.new after × Grows known after × LacksWord word.now (buckets (bucket_of word.now))) }
    ensures made { OnOk result ((known : KnownObjects) (name : Name) (heads : List Datum) (buckets : ℕ → List Link) → C.knows caller.old known → MayAdd (C.standing caller.old) known table word.now n name heads buckets → MakesForNew (C.standing caller.old) (C.standing caller.new) word.now (buckets (bucket_of word.now))) }
    ensures aside { OnOk result ((known : KnownObjects) (name : Name) (heads : List Datum) (buckets : ℕ → List Link) (other : KnownObjects) → C.knows caller.old known → MayAdd (C.standing caller.old) known table word.now n name heads buckets → C.knows caller.old other → LacksTable other name buckets → C.knows caller.new other) }
    ensures left { OnErr result ((known : KnownObjects) (name : Name) (heads : List Datum) (buckets : ℕ → List Link) (other : KnownObjects) → C.knows caller.old known → MayAdd (C.standing caller.old) known table word.now n name heads buckets → C.knows caller.old other → LacksTable other name buckets → KnowsWithNext (C.standing caller.old) other (C.knows caller.new)) }
{
    if add_present(caller, table, word, n, top) {
        return Ok(());
    }
    let bucket = bucket_of(word);
    load(caller, table, bucket);
    match insert_new(caller, table, bucket, word, n, top) {
        Ok(()) => {
            pop(caller);
            Ok(())
        }
        Err(full) => {
            pop(caller);
            Err(full)
        }
    }
}

/// Adds to the count of a word. A new word gets a key and an entry at the front of its bucket.
///
/// # Errors
///
/// `OutOfHeap` where the word is new and the heap has no room for its key or its entry. The table is unchanged then.
pub fn add<C: Caller>(caller: &mut C, table: u32, word: &[u8], n: u64) -> Result<(), OutOfHeap>
    requires table { HasCountTable (C.standing caller.old) (C.knows caller.old) table word.now n }
    requires word { length word.now ≤ WORD_LIMIT }
    requires names { (C.standing caller.old).own.made ≤ MOST_MADE }
    requires room { length (stack_in (C.standing caller.old)) + FREE_SLOTS ≤ STACK_SLOTS }
    ensures ran { OnOk result (AddRan C.base C.tells C.tells_known C.standing caller.old caller.new word.now) }
    ensures ran_out { OnErr result (AddRanOut C.base C.tells C.tells_known C.standing caller.old caller.new word.now) }
    ensures stack { stack_in (C.standing caller.new) ≡ stack_in (C.standing caller.old) }
    ensures counted { OnOk result ((known : KnownObjects) (name : Name) (counts : WordCounts) (may : MayCount (C.standing caller.old) known table word.now n name counts) → C.knows caller.old known → IsCounted (C.standing caller.old) (C.standing caller.new) known table word.now n name counts may (C.knows caller.new)) }
    ensures kept { OnErr result ((known : KnownObjects) (name : Name) (counts : WordCounts) (may : MayCount (C.standing caller.old) known table word.now n name counts) → C.knows caller.old known → IsUncounted (C.standing caller.old) known table word.now n name counts may (C.knows caller.new)) }
    ensures aside { OnOk result ((known : KnownObjects) (name : Name) (counts : WordCounts) (may : MayCount (C.standing caller.old) known table word.now n name counts) (other : KnownObjects) → C.knows caller.old known → C.knows caller.old other → LacksTable other name (may.is_table).buckets → C.knows caller.new other) }
    ensures left { OnErr result ((known : KnownObjects) (name : Name) (counts : WordCounts) (may : MayCount (C.standing caller.old) known table word.now n name counts) (other : KnownObjects) → C.knows caller.old known → C.knows caller.old other → LacksTable other name (may.is_table).buckets → KnowsWithNext (C.standing caller.old) other (C.knows caller.new)) }
{
    let top = stack_size(caller, table);
    add_links(caller, table, word, n, top)
}

/// The count of a word that is in the table, and `None` for another.
fn look_up<C: Caller>(caller: &mut C, table: u32, word: &[u8], top: u32) -> Option<u64>
    requires table { HasTableLook (C.standing caller.old) (C.knows caller.old) table word.now }
    requires word { length word.now ≤ WORD_LIMIT }
    requires room { length (stack_in (C.standing caller.old)) + FREE_SLOTS ≤ STACK_SLOTS }
    requires top { length (stack_in (C.standing caller.old)) ≡ top }
    ensures ran { Ran C.base C.tells C.tells_known C.standing caller.old caller.new 0 }
    ensures own { (C.standing caller.new).own ≡ (C.standing caller.old).own }
    ensures kept { (known : KnownObjects) (name : Name) (counts : WordCounts) → C.knows caller.old known → MayLook (C.standing caller.old) known table word.now name counts → C.knows caller.new known }
    ensures aside { (known : KnownObjects) (name : Name) (counts : WordCounts) (may : MayLook (C.standing caller.old) known table word.now name counts) (other : KnownObjects) → C.knows caller.old known → C.knows caller.old other → LacksTable other name (may.is_table).buckets → C.knows caller.new other }
    ensures count { (known : KnownObjects) (name : Name) (counts : WordCounts) → C.knows caller.old known → MayLook (C.standing caller.old) known table word.now name counts → result ≡ finite.get counts word.now }
{
    let bucket = bucket_of(word);
    if !find(caller, table, bucket, word, top) {
        pop(caller);
        return None;
    }
    let count = field_int(caller, top + 1, 2, top + 2);
    pop(caller);
    pop(caller);
    Some(count)
}

/// The count of a word, and `None` where the table doesn't have the word. The table is as it was.
pub fn count_of<C: Caller>(caller: &mut C, table: u32, word: &[u8]) -> Option<u64>
    requires table { HasTableLook (C.standing caller.old) (C.knows caller.old) table word.now }
    requires word { length word.now ≤ WORD_LIMIT }
    requires room { length (stack_in (C.standing caller.old)) + FREE_SLOTS ≤ STACK_SLOTS }
    ensures ran { Ran C.base C.tells C.tells_known C.standing caller.old caller.new 0 }
    ensures own { (C.standing caller.new).own ≡ (C.standing caller.old).own }
    ensures kept { (known : KnownObjects) (name : Name) (counts : WordCounts) → C.knows caller.old known → MayLook (C.standing caller.old) known table word.now name counts → C.knows caller.new known }
    ensures aside { (known : KnownObjects) (name : Name) (counts : WordCounts) (may : MayLook (C.standing caller.old) known table word.now name counts) (other : KnownObjects) → C.knows caller.old known → C.knows caller.old other → LacksTable other name (may.is_table).buckets → C.knows caller.new other }
    ensures count { (known : KnownObjects) (name : Name) (counts : WordCounts) → C.knows caller.old known → MayLook (C.standing caller.old) known table word.now name counts → result ≡ finite.get counts word.now }
{
    let top = stack_size(caller, table);
    look_up(caller, table, word, top)
}
