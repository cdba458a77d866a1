//! Calls that wait for nobody, on a seat that is inside.
ghost use Rattle.std.specs.Prelude.{◌≡◌, ◌≤◌, ◌<◌, ◌∷◌, [], ℕ, None, length as list_length};
ghost use Rattle.object_layout.specs.declared.TheConstants.{MAX_INT};
ghost use Rattle.object_layout.specs.declared.calls.Call.TheVariants as the_call;
ghost use Rattle.object_layout.specs.declared.replies.Reply.TheVariants as the_reply;
ghost use Rattle.heap_words.specs.declared.map.Areas.{Areas};
ghost use Rattle.heap_words.specs.declared.TheConstants.{STACK_SLOTS};
ghost use Rattle.calls_in_flight.specs.Actors.{Actor, IsAnswered, MayLoad, MayTell};
ghost use Rattle.calls_in_flight.specs.Kinds.{IsPlainReply};
ghost use Rattle.calls_in_flight.specs.OwnStores.{IsPushOf};
ghost use Rattle.calls_in_flight.specs.Steps.{length_at};
ghost use Rattle.safepoint_gate.specs.Seats.{IsOf};
ghost use Rattle.safepoint_gate.specs.Steps.{first_thread};
ghost use Rattle.safepoint_gate.specs.Singles.{IsQuiet, IsSo, Loaded, actor};
ghost use Rattle.mutator.specs.Making.{Searches};
ghost use Rattle.mutator.specs.Quick.{Answered, Answers, ShowsSlot, told_by};

use barriers::{depth_place, length_place, slot_place};
use heap_words::{MAX_DEPTH, STACK_SLOTS};
use object_layout::{Call, Event, Refusal, Reply, Value, decode_value, encode_value, field_count};
use safepoint_gate::{Gate, Inside};

// The event of a call that made no collection.
#[inline(always)]
pub(crate) fn told(call: Call, reply: Reply) -> Event
    ensures { result ≡ told_by call reply }
{
    Event {
        call,
        reply,
        collected: false,
    }
}

// Loads an own word again that shows a reply, and adds the entry of the call with the reply.
#[inline(always)]
pub(crate) fn tell(inside: &mut Inside, gate: &Gate, at: usize, call: Call, reply: Reply) -> Reply
    requires gate { IsOf gate.now inside.old.seat.table_id inside.old.seat.me.0 }
    requires own { MayLoad inside.old.seat.me.0.map (actor inside.old.seat.me.0) at }
    requires event { MayTell inside.old.seat.me.0.map (actor inside.old.seat.me.0) (told_by call reply) }
    ensures gate { IsOf gate.now inside.new.seat.table_id inside.new.seat.me.0 }
    ensures reply { result ≡ reply }
    ensures answered { (word : ℕ) × Answers inside.old.seat.me.0 call reply (record { place = at; word = word } ∷ []) inside.new.seat.me.0 }
    ensures thread { inside.new.thread ≡ inside.old.thread }
{
    inside.load_own(gate, at, Some(told(call, reply)));
    reply
}

// Puts a word on the stack, whose length is known, as the call asks.
#[inline(always)]
fn grow(inside: &mut Inside, gate: &Gate, length: usize, word: u64, call: Call) -> Reply
    requires gate { IsOf gate.now inside.old.seat.table_id inside.old.seat.me.0 }
    requires quiet { IsQuiet inside.old.seat.me.0 }
    requires length { length ≡ list_length (actor inside.old.seat.me.0).told.stack }
    requires room { length < STACK_SLOTS }
    requires push { IsPushOf inside.old.seat.me.0.map (actor inside.old.seat.me.0) call word }
    ensures gate { IsOf gate.now inside.new.seat.table_id inside.new.seat.me.0 }
    ensures reply { result ≡ the_reply.Ok }
    ensures answered { Answers inside.old.seat.me.0 call the_reply.Ok [] inside.new.seat.me.0 }
    ensures thread { inside.new.thread ≡ inside.old.thread }
{
    let map = gate.map();
    let thread = inside.thread();
    inside.store_own(gate, slot_place(map, thread, length), word, None);
    let event = Some(told(call, Reply::Ok));
    inside.store_own(gate, length_place(map, thread), length as u64 + 1, event);
    Reply::Ok
}

// The length of the stack.
#[inline(always)]
pub(crate) fn stack_length(inside: &mut Inside, gate: &Gate) -> usize
    requires gate { IsOf gate.now inside.old.seat.table_id inside.old.seat.me.0 }
    requires quiet { IsQuiet inside.old.seat.me.0 }
    ensures gate { IsOf gate.now inside.new.seat.table_id inside.new.seat.me.0 }
    ensures loaded { Loaded inside.old.seat.me.0 (length_at inside.old.seat.me.0.map (first_thread inside.old.seat.me.0.own)) None result inside.new.seat.me.0 }
    ensures length { result ≡ list_length (actor inside.old.seat.me.0).told.stack }
    ensures thread { inside.new.thread ≡ inside.old.thread }
{
    let at = length_place(gate.map(), inside.thread());
    inside.load_own(gate, at, None) as usize
}

// A refusal that the length of the stack shows.
pub(crate) fn refuse(inside: &mut Inside, gate: &Gate, call: Call, why: Refusal) -> Reply
    requires gate { IsOf gate.now inside.old.seat.table_id inside.old.seat.me.0 }
    requires event { MayTell inside.old.seat.me.0.map (actor inside.old.seat.me.0) (told_by call (the_reply.Refused why)) }
    ensures gate { IsOf gate.now inside.new.seat.table_id inside.new.seat.me.0 }
    ensures reply { result ≡ the_reply.Refused why }
    ensures answered { (word : ℕ) × Answers inside.old.seat.me.0 call (the_reply.Refused why) (record { place = length_at inside.old.seat.me.0.map (first_thread inside.old.seat.me.0.own); word = word } ∷ []) inside.new.seat.me.0 }
    ensures thread { inside.new.thread ≡ inside.old.thread }
{
    let at = length_place(gate.map(), inside.thread());
    tell(inside, gate, at, call, Reply::Refused(why))
}

// Pushes a word, of an integer or null.
#[inline(always)]
fn push_word(inside: &mut Inside, gate: &Gate, word: u64, call: Call) -> Reply
    requires gate { IsOf gate.now inside.old.seat.table_id inside.old.seat.me.0 }
    requires quiet { IsQuiet inside.old.seat.me.0 }
    requires push { (m : Areas) → (a : Actor) → IsPushOf m a call word }
    ensures gate { IsOf gate.now inside.new.seat.table_id inside.new.seat.me.0 }
    ensures answered { Answered inside.old.seat.me.0 call result inside.new.seat.me.0 }
    ensures thread { inside.new.thread ≡ inside.old.thread }
{
    let length = stack_length(inside, gate);
    if length >= STACK_SLOTS {
        return refuse(inside, gate, call, Refusal::StackFull);
    }
    grow(inside, gate, length, word, call)
}

/// Pushes an integer.
#[inline(always)]
pub(crate) fn push_int(inside: &mut Inside, gate: &Gate, i: u64) -> Reply
    requires gate { IsOf gate.now inside.old.seat.table_id inside.old.seat.me.0 }
    requires quiet { IsQuiet inside.old.seat.me.0 }
    requires number { i ≤ MAX_INT }
    ensures gate { IsOf gate.now inside.new.seat.table_id inside.new.seat.me.0 }
    ensures answered { Answered inside.old.seat.me.0 (Call.Int i) result inside.new.seat.me.0 }
    ensures thread { inside.new.thread ≡ inside.old.thread }
{
    push_word(inside, gate, encode_value(Value::Int(i)), Call::Int(i))
}

/// Pushes null.
#[inline(always)]
pub(crate) fn push_null(inside: &mut Inside, gate: &Gate) -> Reply
    requires gate { IsOf gate.now inside.old.seat.table_id inside.old.seat.me.0 }
    requires quiet { IsQuiet inside.old.seat.me.0 }
    ensures gate { IsOf gate.now inside.new.seat.table_id inside.new.seat.me.0 }
    ensures answered { Answered inside.old.seat.me.0 Call.Null result inside.new.seat.me.0 }
    ensures thread { inside.new.thread ≡ inside.old.thread }
{
    push_word(inside, gate, encode_value(Value::Null), Call::Null)
}

/// Pushes the value of a slot.
#[inline(always)]
pub(crate) fn dup(inside: &mut Inside, gate: &Gate, s: u32) -> Reply
    requires gate { IsOf gate.now inside.old.seat.table_id inside.old.seat.me.0 }
    requires quiet { IsQuiet inside.old.seat.me.0 }
    ensures gate { IsOf gate.now inside.new.seat.table_id inside.new.seat.me.0 }
    ensures answered { Answered inside.old.seat.me.0 (Call.Dup s) result inside.new.seat.me.0 }
    ensures thread { inside.new.thread ≡ inside.old.thread }
{
    let length = stack_length(inside, gate);
    if s as usize >= length {
        return refuse(inside, gate, Call::Dup(s), Refusal::BadSlot);
    }
    if length >= STACK_SLOTS {
        return refuse(inside, gate, Call::Dup(s), Refusal::StackFull);
    }
    let at = slot_place(gate.map(), inside.thread(), s as usize);
    let word = inside.load_own(gate, at, None);
    grow(inside, gate, length, word, Call::Dup(s))
}

/// Drops the top slot.
#[inline(always)]
pub(crate) fn pop(inside: &mut Inside, gate: &Gate) -> Reply
    requires gate { IsOf gate.now inside.old.seat.table_id inside.old.seat.me.0 }
    requires quiet { IsQuiet inside.old.seat.me.0 }
    ensures gate { IsOf gate.now inside.new.seat.table_id inside.new.seat.me.0 }
    ensures answered { Answered inside.old.seat.me.0 Call.Pop result inside.new.seat.me.0 }
    ensures thread { inside.new.thread ≡ inside.old.thread }
{
    let length = stack_length(inside, gate);
    if length == 0 {
        return refuse(inside, gate, Call::Pop, Refusal::StackEmpty);
    }
    let at = length_place(gate.map(), inside.thread());
    inside.store_own(
        gate,
        at,
        length as u64 - 1,
        Some(told(Call::Pop, Reply::Ok)),
    );
    Reply::Ok
}

// What the word of a slot shows.
#[inline(always)]
fn shown(inside: &mut Inside, gate: &Gate, word: u64) -> Reply
    requires gate { IsOf gate.now inside.old.seat.table_id inside.old.seat.me.0 }
    requires so { IsSo inside.old.seat.me.0 }
    requires slot { (k : ℕ) × ShowsSlot inside.old.seat.me.0 k word }
    ensures gate { IsOf gate.now inside.new.seat.table_id inside.new.seat.me.0 }
    ensures searched { Searches inside.old.seat.me.0 inside.new.seat.me.0 }
    ensures reply { (k : ℕ) → ShowsSlot inside.old.seat.me.0 k word → IsAnswered inside.new.seat.me.0.map (actor inside.new.seat.me.0) (the_call.Get k) result }
    ensures plain { IsPlainReply result }
    ensures thread { inside.new.thread ≡ inside.old.thread }
{
    match decode_value(word) {
        Some(Value::Int(i)) => Reply::Int(i),
        Some(Value::Ref(object)) => {
            Reply::Object(field_count(inside.load_header(gate, object, None)) as u16)
        }
        Some(Value::Null) => Reply::Null,
        None => Reply::Null,
    }
}

/// Shows the value of a slot.
#[inline(always)]
pub(crate) fn get(inside: &mut Inside, gate: &Gate, s: u32) -> Reply
    requires gate { IsOf gate.now inside.old.seat.table_id inside.old.seat.me.0 }
    requires quiet { IsQuiet inside.old.seat.me.0 }
    ensures gate { IsOf gate.now inside.new.seat.table_id inside.new.seat.me.0 }
    ensures answered { Answered inside.old.seat.me.0 (Call.Get s) result inside.new.seat.me.0 }
    ensures thread { inside.new.thread ≡ inside.old.thread }
{
    if s as usize >= stack_length(inside, gate) {
        return refuse(inside, gate, Call::Get(s), Refusal::BadSlot);
    }
    let at = slot_place(gate.map(), inside.thread(), s as usize);
    let word = inside.load_own(gate, at, None);
    let reply = shown(inside, gate, word);
    tell(inside, gate, at, Call::Get(s), reply)
}

/// Tells whether two slots hold the same value.
#[inline(always)]
pub(crate) fn same(inside: &mut Inside, gate: &Gate, s: u32, x: u32) -> Reply
    requires gate { IsOf gate.now inside.old.seat.table_id inside.old.seat.me.0 }
    requires quiet { IsQuiet inside.old.seat.me.0 }
    ensures gate { IsOf gate.now inside.new.seat.table_id inside.new.seat.me.0 }
    ensures answered { Answered inside.old.seat.me.0 (Call.Same s x) result inside.new.seat.me.0 }
    ensures thread { inside.new.thread ≡ inside.old.thread }
{
    let length = stack_length(inside, gate);
    if s as usize >= length || x as usize >= length {
        return refuse(inside, gate, Call::Same(s, x), Refusal::BadSlot);
    }
    let first = slot_place(gate.map(), inside.thread(), s as usize);
    let second = slot_place(gate.map(), inside.thread(), x as usize);
    let word = inside.load_own(gate, first, None);
    let other = inside.load_own(gate, second, None);
    let reply = if word == other { Reply::Yes } else { Reply::No };
    tell(inside, gate, second, Call::Same(s, x), reply)
}

/// Opens an epoch.
pub(crate) fn begin(inside: &mut Inside, gate: &Gate) -> Reply
    requires gate { IsOf gate.now inside.old.seat.table_id inside.old.seat.me.0 }
    requires quiet { IsQuiet inside.old.seat.me.0 }
    ensures gate { IsOf gate.now inside.new.seat.table_id inside.new.seat.me.0 }
    ensures answered { Answered inside.old.seat.me.0 Call.Begin result inside.new.seat.me.0 }
    ensures thread { inside.new.thread ≡ inside.old.thread }
{
    let at = depth_place(gate.map(), inside.thread());
    let depth = inside.load_own(gate, at, None);
    if depth >= u64::from(MAX_DEPTH) {
        return tell(
            inside,
            gate,
            at,
            Call::Begin,
            Reply::Refused(Refusal::TooDeep),
        );
    }
    inside.store_own(gate, at, depth + 1, Some(told(Call::Begin, Reply::Ok)));
    Reply::Ok
}
