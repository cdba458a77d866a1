//! Single calls of a caller, where it is known that they aren't refused.
ghost use Rattle.std.specs.Prelude.{◌≡◌, ◌≢◌, ℕ, ◌+◌, ◌-◌, ◌^◌, ◌<◌, ◌≤◌, ◌++◌, ◌∷◌, [], List, length, OnOk, OnErr, slice_index_or, None, IsTrue, true, false, ◌↔◌};
ghost use Rattle.std.specs.FinMap as finite;
ghost use Rattle.yak_model.specs.Private.{GivesAway, KnownObjects};
ghost use Rattle.heap_tables.specs.Asides.{LacksValue};
ghost use Rattle.heap_tables.specs.Runs.{KeepsKnown, IsInSlot, HasField, KnowsSome, Ran, stack_in, slot_in, pushed, popped, without_top, next_of, with_made, with_new, with_field, IsShown, RanOut};
ghost use Rattle.object_layout.specs.declared.names.Name.{Name};
ghost use Rattle.object_layout.specs.declared.TheConstants.{MAX_FIELDS, MAX_INT, MAX_SERIAL, OBJECT_WORDS};
ghost use Rattle.heap_words.specs.declared.TheConstants.{STACK_SLOTS};
ghost use Rattle.object_layout.specs.declared.replies.Reply.TheVariants as said;
ghost use Rattle.object_layout.specs.declared.replies.Refusal.TheVariants as refusal;
ghost use Rattle.yak_model.specs.declared.datum.Datum.{Datum};
ghost use Rattle.yak_model.specs.declared.datum.Datum.TheVariants as datum;

use heap_words::STACK_SLOTS;
use object_layout::{Call, OutOfHeap, Refusal, Reply};
use yak_model::Caller;

/// Pushes a field of a known object.
#[inline(always)]
pub fn load<C: Caller>(caller: &mut C, s: u32, f: u32)
    requires field { HasField (C.standing caller.old) (C.knows caller.old) s f }
    requires room { length (stack_in (C.standing caller.old)) < STACK_SLOTS }
    ensures ran { Ran C.base C.tells C.tells_known C.standing caller.old caller.new 0 }
    ensures keeps { KeepsKnown (C.knows caller.old) (C.knows caller.new) }
    ensures pushed { (known : KnownObjects) (name : Name) (values : List Datum) → C.knows caller.old known → IsInSlot (C.standing caller.old) known s name values → f < length values → (C.standing caller.new).own ≡ pushed (C.standing caller.old).own (slice_index_or values f datum.Null) }
{
    let _reply = caller.make_call(Call::Load(s, f));
}

/// Whether a reply says that the call was made.
#[inline(always)]
fn is_ok(reply: Reply) -> bool
    ensures { IsTrue result ↔ (reply ≡ said.Ok) }
{
    reply == Reply::Ok
}

/// Pushes a field of an object, and tells whether there is one: a slot may be null, and an object may have no such field.
#[inline(always)]
pub fn try_load<C: Caller>(caller: &mut C, s: u32, f: u32) -> bool
    requires some { KnowsSome (C.knows caller.old) }
    requires room { length (stack_in (C.standing caller.old)) < STACK_SLOTS }
    ensures ran { Ran C.base C.tells C.tells_known C.standing caller.old caller.new 0 }
    ensures keeps { KeepsKnown (C.knows caller.old) (C.knows caller.new) }
    ensures null { slot_in (C.standing caller.old) s ≡ datum.Null → (result ≡ false) × ((C.standing caller.new).own ≡ (C.standing caller.old).own) }
    ensures past { (known : KnownObjects) (name : Name) (values : List Datum) → C.knows caller.old known → IsInSlot (C.standing caller.old) known s name values → length values ≤ f → (result ≡ false) × ((C.standing caller.new).own ≡ (C.standing caller.old).own) }
    ensures pushed { (known : KnownObjects) (name : Name) (values : List Datum) → C.knows caller.old known → IsInSlot (C.standing caller.old) known s name values → f < length values → (result ≡ true) × ((C.standing caller.new).own ≡ pushed (C.standing caller.old).own (slice_index_or values f datum.Null)) }
{
    let reply = caller.make_call(Call::Load(s, f));
    is_ok(reply)
}

/// Pushes an integer.
#[inline(always)]
pub fn push_int<C: Caller>(caller: &mut C, i: u64)
    requires some { KnowsSome (C.knows caller.old) }
    requires number { i ≤ MAX_INT }
    requires room { length (stack_in (C.standing caller.old)) < STACK_SLOTS }
    ensures ran { Ran C.base C.tells C.tells_known C.standing caller.old caller.new 0 }
    ensures keeps { KeepsKnown (C.knows caller.old) (C.knows caller.new) }
    ensures pushed { (C.standing caller.new).own ≡ pushed (C.standing caller.old).own (datum.Int i) }
{
    let _reply = caller.make_call(Call::Int(i));
}

/// Drops the top slot.
#[inline(always)]
pub fn pop<C: Caller>(caller: &mut C)
    requires some { KnowsSome (C.knows caller.old) }
    requires slot { 0 < length (stack_in (C.standing caller.old)) }
    ensures ran { Ran C.base C.tells C.tells_known C.standing caller.old caller.new 0 }
    ensures keeps { KeepsKnown (C.knows caller.old) (C.knows caller.new) }
    ensures popped { (C.standing caller.new).own ≡ popped (C.standing caller.old).own }
{
    let _reply = caller.make_call(Call::Pop);
}

/// Drops so many slots from the top.
#[inline(always)]
pub fn pop_all<C: Caller>(caller: &mut C, n: u32)
    requires some { KnowsSome (C.knows caller.old) }
    requires slots { n ≤ length (stack_in (C.standing caller.old)) }
    ensures ran { Ran C.base C.tells C.tells_known C.standing caller.old caller.new 0 }
    ensures keeps { KeepsKnown (C.knows caller.old) (C.knows caller.new) }
    ensures popped { (C.standing caller.new).own ≡ without_top (C.standing caller.old).own n }
{
    for i in 0..n {
        pop(caller);
    }
}

/// What a slot shows.
#[inline(always)]
pub fn get<C: Caller>(caller: &mut C, s: u32) -> Reply
    requires some { KnowsSome (C.knows caller.old) }
    ensures ran { Ran C.base C.tells C.tells_known C.standing caller.old caller.new 0 }
    ensures keeps { KeepsKnown (C.knows caller.old) (C.knows caller.new) }
    ensures own { (C.standing caller.new).own ≡ (C.standing caller.old).own }
    ensures shown { s < length (stack_in (C.standing caller.old)) → IsShown (slot_in (C.standing caller.old) s) result }
    ensures past { length (stack_in (C.standing caller.old)) ≤ s → result ≡ said.Refused refusal.BadSlot }
{
    caller.make_call(Call::Get(s))
}

/// Stores the value of a slot in a field of a known object.
#[inline(always)]
pub fn store<C: Caller>(caller: &mut C, s: u32, f: u32, x: u32)
    requires field { HasField (C.standing caller.old) (C.knows caller.old) s f }
    requires value { x < length (stack_in (C.standing caller.old)) }
    ensures ran { Ran C.base C.tells C.tells_known C.standing caller.old caller.new 0 }
    ensures own { (C.standing caller.new).own ≡ (C.standing caller.old).own }
    ensures stored { (known : KnownObjects) (name : Name) (values : List Datum) → C.knows caller.old known → IsInSlot (C.standing caller.old) known s name values → f < length values → C.knows caller.new (with_field known name values f (slot_in (C.standing caller.old) x)) }
    ensures aside { (other after : KnownObjects) → C.knows caller.old other → LacksValue other (slot_in (C.standing caller.old) s) → GivesAway other (slot_in (C.standing caller.old) x) after → C.knows caller.new after }
{
    let _reply = caller.make_call(Call::Store(s, f, x));
}

/// Makes an object of null fields, and pushes a reference to it.
pub fn push_new<C: Caller>(caller: &mut C, k: u32) -> Result<(), OutOfHeap>
    requires fields { k ≤ MAX_FIELDS }
    requires room { length (stack_in (C.standing caller.old)) < STACK_SLOTS }
    requires names { (C.standing caller.old).own.made < MAX_SERIAL }
    ensures ran { OnOk result (Ran C.base C.tells C.tells_known C.standing caller.old caller.new (k + OBJECT_WORDS)) }
    ensures pushed { OnOk result ((C.standing caller.new).own ≡ with_made (C.standing caller.old)) }
    ensures made { OnOk result ((known : KnownObjects) → C.knows caller.old known → C.knows caller.new (with_new (C.standing caller.old) known k) × (finite.get known (next_of (C.standing caller.old)) ≡ None)) }
    ensures same { OnErr result ((C.standing caller.new).own ≡ (C.standing caller.old).own) }
    ensures keeps { OnErr result (KeepsKnown (C.knows caller.old) (C.knows caller.new)) }
    ensures ran_out { OnErr result (RanOut C.base C.tells C.tells_known C.standing caller.old caller.new 0 k) }
{
    if caller.make_call(Call::New(k)) == Reply::OutOfHeap {
        Err(OutOfHeap)
    } else {
        Ok(())
    }
}

/// What a field of a known object shows.
#[inline(always)]
pub fn peek<C: Caller>(caller: &mut C, s: u32, f: u32, top: u32) -> Reply
    requires field { HasField (C.standing caller.old) (C.knows caller.old) s f }
    requires room { length (stack_in (C.standing caller.old)) < STACK_SLOTS }
    requires top { length (stack_in (C.standing caller.old)) ≡ top }
    ensures ran { Ran C.base C.tells C.tells_known C.standing caller.old caller.new 0 }
    ensures keeps { KeepsKnown (C.knows caller.old) (C.knows caller.new) }
    ensures own { (C.standing caller.new).own ≡ (C.standing caller.old).own }
    ensures shown { (known : KnownObjects) (name : Name) (values : List Datum) → C.knows caller.old known → IsInSlot (C.standing caller.old) known s name values → f < length values → IsShown (slice_index_or values f datum.Null) result }
{
    load(caller, s, f);
    let shown = get(caller, top);
    pop(caller);
    shown
}

/// Whether a reply shows this integer.
#[inline(always)]
fn is_int(shown: Reply, n: u64) -> bool
    ensures { IsTrue result ↔ (shown ≡ said.Int n) }
{
    shown == Reply::Int(n)
}

/// Whether a slot is this integer.
#[inline(always)]
pub fn slot_is<C: Caller>(caller: &mut C, s: u32, n: u64) -> bool
    requires some { KnowsSome (C.knows caller.old) }
    requires slot { s < length (stack_in (C.standing caller.old)) }
    ensures ran { Ran C.base C.tells C.tells_known C.standing caller.old caller.new 0 }
    ensures keeps { KeepsKnown (C.knows caller.old) (C.knows caller.new) }
    ensures own { (C.standing caller.new).own ≡ (C.standing caller.old).own }
    ensures answer { IsTrue result ↔ (slot_in (C.standing caller.old) s ≡ datum.Int n) }
{
    let shown = get(caller, s);
    is_int(shown, n)
}

/// Whether a field of a known object is this integer.
#[inline(always)]
pub fn field_is<C: Caller>(caller: &mut C, s: u32, f: u32, top: u32, n: u64) -> bool
    requires field { HasField (C.standing caller.old) (C.knows caller.old) s f }
    requires room { length (stack_in (C.standing caller.old)) < STACK_SLOTS }
    requires top { length (stack_in (C.standing caller.old)) ≡ top }
    ensures ran { Ran C.base C.tells C.tells_known C.standing caller.old caller.new 0 }
    ensures keeps { KeepsKnown (C.knows caller.old) (C.knows caller.new) }
    ensures own { (C.standing caller.new).own ≡ (C.standing caller.old).own }
    ensures answer { (known : KnownObjects) (name : Name) (values : List Datum) → C.knows caller.old known → IsInSlot (C.standing caller.old) known s name values → f < length values → IsTrue result ↔ (slice_index_or values f datum.Null ≡ datum.Int n) }
{
    let shown = peek(caller, s, f, top);
    is_int(shown, n)
}

/// Puts an integer into a field of a known object.
pub fn put_int<C: Caller>(caller: &mut C, s: u32, f: u32, n: u64, top: u32)
    requires number { n ≤ MAX_INT }
    requires field { HasField (C.standing caller.old) (C.knows caller.old) s f }
    requires room { length (stack_in (C.standing caller.old)) < STACK_SLOTS }
    requires top { length (stack_in (C.standing caller.old)) ≡ top }
    ensures ran { Ran C.base C.tells C.tells_known C.standing caller.old caller.new 0 }
    ensures own { (C.standing caller.new).own ≡ (C.standing caller.old).own }
    ensures stored { (known : KnownObjects) (name : Name) (values : List Datum) → C.knows caller.old known → IsInSlot (C.standing caller.old) known s name values → f < length values → C.knows caller.new (with_field known name values f (datum.Int n)) }
    ensures aside { (other : KnownObjects) → C.knows caller.old other → LacksValue other (slot_in (C.standing caller.old) s) → C.knows caller.new other }
{
    push_int(caller, n);
    store(caller, s, f, top);
    pop(caller);
}

/// Whether a reply shows null.
#[inline(always)]
fn is_null(shown: Reply) -> bool
    ensures { IsTrue result ↔ (shown ≡ said.Null) }
{
    shown == Reply::Null
}

/// Whether a slot is null.
#[inline(always)]
pub fn slot_is_null<C: Caller>(caller: &mut C, s: u32) -> bool
    requires some { KnowsSome (C.knows caller.old) }
    requires slot { s < length (stack_in (C.standing caller.old)) }
    ensures ran { Ran C.base C.tells C.tells_known C.standing caller.old caller.new 0 }
    ensures keeps { KeepsKnown (C.knows caller.old) (C.knows caller.new) }
    ensures own { (C.standing caller.new).own ≡ (C.standing caller.old).own }
    ensures answer { IsTrue result ↔ (slot_in (C.standing caller.old) s ≡ datum.Null) }
{
    let shown = get(caller, s);
    is_null(shown)
}

/// The integer that a reply shows, or 0.
#[inline(always)]
pub(crate) fn int_of(shown: Reply) -> u64
    ensures { (n : ℕ) → shown ≡ said.Int n → result ≡ n }
{
    match shown {
        Reply::Int(n) => n,
        _ => 0,
    }
}

/// The integer in a field of a known object.
#[inline(always)]
pub fn field_int<C: Caller>(caller: &mut C, s: u32, f: u32, top: u32) -> u64
    requires field { HasField (C.standing caller.old) (C.knows caller.old) s f }
    requires room { length (stack_in (C.standing caller.old)) < STACK_SLOTS }
    requires top { length (stack_in (C.standing caller.old)) ≡ top }
    ensures ran { Ran C.base C.tells C.tells_known C.standing caller.old caller.new 0 }
    ensures keeps { KeepsKnown (C.knows caller.old) (C.knows caller.new) }
    ensures own { (C.standing caller.new).own ≡ (C.standing caller.old).own }
    ensures value { (known : KnownObjects) (name : Name) (values : List Datum) (n : ℕ) → C.knows caller.old known → IsInSlot (C.standing caller.old) known s name values → f < length values → slice_index_or values f datum.Null ≡ datum.Int n → result ≡ n }
{
    let shown = peek(caller, s, f, top);
    int_of(shown)
}

/// Whether a reply says that there is no such slot.
fn is_bad_slot(shown: Reply) -> bool
    ensures { IsTrue result ↔ (shown ≡ said.Refused refusal.BadSlot) }
{
    shown == Reply::Refused(Refusal::BadSlot)
}

/// The number of slots of the caller's stack, which has this one.
pub fn stack_size<C: Caller>(caller: &mut C, slot: u32) -> u32
    requires some { KnowsSome (C.knows caller.old) }
    requires slot { slot < length (stack_in (C.standing caller.old)) }
    requires room { length (stack_in (C.standing caller.old)) ≤ STACK_SLOTS }
    ensures ran { Ran C.base C.tells C.tells_known C.standing caller.old caller.new 0 }
    ensures keeps { KeepsKnown (C.knows caller.old) (C.knows caller.new) }
    ensures own { (C.standing caller.new).own ≡ (C.standing caller.old).own }
    ensures size { result ≡ length (stack_in (C.standing caller.old)) }
{
    for top in slot + 1..STACK_SLOTS as u32 {
        if is_bad_slot(get(caller, top)) {
            return top;
        }
    }
    STACK_SLOTS as u32
}
