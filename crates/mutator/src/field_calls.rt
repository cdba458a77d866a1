//! Loads and stores of fields that wait for nobody, on a seat that is inside.
ghost use Rattle.std.specs.Prelude.{◌≡◌, ◌<◌, IfErr, IfOk, length};
ghost use Rattle.object_layout.specs.declared.replies.Refusal.{Refusal as TheRefusal};
ghost use Rattle.object_layout.specs.declared.replies.Reply.TheVariants as the_reply;
ghost use Rattle.safepoint_gate.specs.Seats.{IsOf};
ghost use Rattle.safepoint_gate.specs.Singles.{IsQuiet, IsSo, actor};
ghost use Rattle.barriers.specs.Barred.{IsLogFull};
ghost use Rattle.mutator.specs.FieldCalls.{FindsField, ReachesField};
ghost use Rattle.mutator.specs.Quick.{Answered, AnswersStore};

use crate::quick_calls::{refuse, stack_length, tell, told};
use barriers::{length_place, load_barrier, slot_place, store_barrier};
use heap_words::STACK_SLOTS;
use object_layout::{Addr, Call, LogFull, Refusal, Reply, address, field_count};
use safepoint_gate::{Gate, Inside};

// The object to which a slot refers, where it has the field, or the refusal of the call, which is told.
#[inline(always)]
fn field_of(inside: &mut Inside, gate: &Gate, s: u32, f: u32, call: Call) -> Result<Addr, Reply>
    requires gate { IsOf gate.now inside.old.seat.table_id inside.old.seat.me.0 }
    requires quiet { IsQuiet inside.old.seat.me.0 }
    requires so { IsSo inside.old.seat.me.0 }
    requires slot { s < length (actor inside.old.seat.me.0).told.stack }
    requires call { ReachesField (length (actor inside.old.seat.me.0).told.stack) s f call }
    ensures gate { IsOf gate.now inside.new.seat.table_id inside.new.seat.me.0 }
    ensures found { IfOk result (λ object. FindsField inside.old.seat.me.0 s f object.0 inside.new.seat.me.0) }
    ensures refused { IfErr result (λ said. Answered inside.old.seat.me.0 call said inside.new.seat.me.0 × ((why : TheRefusal) × (said ≡ the_reply.Refused why))) }
    ensures thread { inside.new.thread ≡ inside.old.thread }
{
    let at = slot_place(gate.map(), inside.thread(), s as usize);
    let word = inside.load_own(gate, at, None);
    let Some(object) = address(word) else {
        return Err(tell(
            inside,
            gate,
            at,
            call,
            Reply::Refused(Refusal::NotAReference),
        ));
    };
    let object = Addr(object as u32);
    if f as usize >= field_count(inside.load_header(gate, object, None)) {
        let reply = Reply::Refused(Refusal::BadField);
        inside.load_header(gate, object, Some(told(call, reply)));
        return Err(reply);
    }
    Ok(object)
}

/// Pushes a field of a slot's object.
#[inline(always)]
pub(crate) fn load(inside: &mut Inside, gate: &Gate, s: u32, f: u32) -> Reply
    requires gate { IsOf gate.now inside.old.seat.table_id inside.old.seat.me.0 }
    requires quiet { IsQuiet inside.old.seat.me.0 }
    ensures gate { IsOf gate.now inside.new.seat.table_id inside.new.seat.me.0 }
    ensures answered { Answered inside.old.seat.me.0 (Call.Load s f) result inside.new.seat.me.0 }
    ensures thread { inside.new.thread ≡ inside.old.thread }
{
    let call = Call::Load(s, f);
    let length = stack_length(inside, gate);
    if s as usize >= length {
        return refuse(inside, gate, call, Refusal::BadSlot);
    }
    let object = match field_of(inside, gate, s, f, call) {
        Ok(object) => object,
        Err(reply) => return reply,
    };
    if length >= STACK_SLOTS {
        return refuse(inside, gate, call, Refusal::StackFull);
    }
    let word = load_barrier(inside, gate, call, object, f as u16);
    inside.store_own(
        gate,
        slot_place(gate.map(), inside.thread(), length),
        word,
        None,
    );
    inside.store_own(
        gate,
        length_place(gate.map(), inside.thread()),
        length as u64 + 1,
        None,
    );
    Reply::Ok
}

/// Puts the value of a slot into a field of a slot's object.
///
/// # Errors
///
/// `LogFull` exactly where no refusal applies, the slot must be recorded and the store buffer is full. Nothing has changed then.
#[inline(always)]
pub(crate) fn store(
    inside: &mut Inside,
    gate: &Gate,
    s: u32,
    f: u32,
    x: u32,
) -> Result<Reply, LogFull>
    requires gate { IsOf gate.now inside.old.seat.table_id inside.old.seat.me.0 }
    requires quiet { IsQuiet inside.old.seat.me.0 }
    ensures gate { IsOf gate.now inside.new.seat.table_id inside.new.seat.me.0 }
    ensures answered { IfOk result (λ said. AnswersStore inside.old.seat.me.0 (Call.Store s f x) said inside.new.seat.me.0) }
    ensures full { IfErr result (λ _. IsLogFull inside.old.seat.me.0 (Call.Store s f x) inside.new.seat.me.0) }
    ensures thread { inside.new.thread ≡ inside.old.thread }
{
    let call = Call::Store(s, f, x);
    let length = stack_length(inside, gate);
    if s as usize >= length || x as usize >= length {
        return Ok(refuse(inside, gate, call, Refusal::BadSlot));
    }
    let object = match field_of(inside, gate, s, f, call) {
        Ok(object) => object,
        Err(reply) => return Ok(reply),
    };
    let at = slot_place(gate.map(), inside.thread(), x as usize);
    let word = inside.load_own(gate, at, None);
    store_barrier(inside, gate, call, object, f as u16, word)?;
    Ok(Reply::Ok)
}
