//! The two barriers.
ghost use Rattle.std.specs.Prelude.{◌≡◌, ◌+◌, ◌*◌, ℕ, IfErr, IfOk, MatchOption};
ghost use Rattle.calls_in_flight.specs.Actors.{RefersTo};
ghost use Rattle.calls_in_flight.specs.FieldSteps.{LoadsFrom, MeetsCrossing, StoresInto};
ghost use Rattle.calls_in_flight.specs.OwnStores.{done_by};
ghost use Rattle.safepoint_gate.specs.Seats.{IsOf};
ghost use Rattle.safepoint_gate.specs.Singles.{IsQuiet, actor};
ghost use Rattle.barriers.specs.Barred.{Crossed, FieldBarred, HasLogged, HasNoRoomToLog, IsLogFull, MeetsSpace, StoreBarred};

use crate::places::{entry_place, logged_place};
use epoch_lattice::{Space, space_at};
use heap_words::BUFFER_ENTRIES;
use object_layout::{Addr, Call, LogFull, OBJECT_WORDS, decode_header};
use safepoint_gate::{Gate, Inside};

// The heap word to which the word of a value refers, if it refers to one.
fn reference(word: u64) -> Option<u64>
    ensures { MatchOption result ((to : ℕ) → word ≡ 2 * (to + 1) → ⊥) (λ to. word ≡ 2 * (to + 1)) }
{
    if word == 0 || word % 2 == 1 {
        None
    } else {
        Some(word / 2 - 1)
    }
}

// The space of an object to which the thread's stack refers, by its header.
fn space_of(inside: &mut Inside, gate: &Gate, object: Addr) -> Space
    requires gate { IsOf gate.now inside.old.seat.table_id inside.old.seat.me.0 }
    requires refers { (k : ℕ) × RefersTo inside.old.seat.me.0.map (actor inside.old.seat.me.0) k object.0 }
    ensures gate { IsOf gate.now inside.new.seat.table_id inside.new.seat.me.0 }
    ensures space { MeetsSpace inside.old.seat.me.0 object.0 result inside.new.seat.me.0 }
    ensures thread { inside.new.thread ≡ inside.old.thread }
{
    let word = inside.load_header(gate, object, None);
    let Some(header) = decode_header(word) else {
        unreachable!();
    };
    let Some(space) = space_at(header.space) else {
        unreachable!();
    };
    space
}

/// Loads a field of an object, and adds the entry of the call that loads it. Where the value refers into a region of another
/// thread, the thread's bit is set in the region's readers word. The slot and the stack's length are still to be stored then.
pub fn load_barrier(inside: &mut Inside, gate: &Gate, call: Call, object: Addr, field: u16) -> u64
    requires gate { IsOf gate.now inside.old.seat.table_id inside.old.seat.me.0 }
    requires field { LoadsFrom inside.old.seat.me.0.map (actor inside.old.seat.me.0) call object.0 field }
    ensures gate { IsOf gate.now inside.new.seat.table_id inside.new.seat.me.0 }
    ensures loaded { FieldBarred inside.old.seat.me.0 (done_by call) result inside.new.seat.me.0 }
    ensures thread { inside.new.thread ≡ inside.old.thread }
{
    let word = inside.load_field(gate, call, object, field);
    if let Some(target) = reference(word) {
        let region = space_of(inside, gate, Addr(target as u32));
        if let Space::Region {
            thread: owner,
            depth: _,
        } = region
        {
            if owner != inside.thread() {
                inside.set_reader(gate, region);
            }
        }
    }
    word
}

// Tells whether a word, stored into a field of an object, refers into a region other than the object's space.
fn crosses(
    inside: &mut Inside,
    gate: &Gate,
    call: Call,
    object: Addr,
    field: u16,
    word: u64,
) -> bool
    requires gate { IsOf gate.now inside.old.seat.table_id inside.old.seat.me.0 }
    requires field { StoresInto inside.old.seat.me.0.map (actor inside.old.seat.me.0) call object.0 field word }
    requires quiet { IsQuiet inside.old.seat.me.0 }
    ensures gate { IsOf gate.now inside.new.seat.table_id inside.new.seat.me.0 }
    ensures crossed { Crossed inside.old.seat.me.0 call object.0 field word result inside.new.seat.me.0 }
    ensures thread { inside.new.thread ≡ inside.old.thread }
{
    let Some(target) = reference(word) else {
        return false;
    };
    let from = space_of(inside, gate, object);
    let into = space_of(inside, gate, Addr(target as u32));
    into != Space::Control && into != from
}

// Puts the slot of a field that must be recorded into the thread's store buffer.
fn record(
    inside: &mut Inside,
    gate: &Gate,
    call: Call,
    object: Addr,
    field: u16,
    word: u64,
) -> Result<(), LogFull>
    requires gate { IsOf gate.now inside.old.seat.table_id inside.old.seat.me.0 }
    requires field { StoresInto inside.old.seat.me.0.map (actor inside.old.seat.me.0) call object.0 field word }
    requires crossing { MeetsCrossing inside.old.seat.me.0.map (actor inside.old.seat.me.0) object.0 word }
    requires quiet { IsQuiet inside.old.seat.me.0 }
    ensures gate { IsOf gate.now inside.new.seat.table_id inside.new.seat.me.0 }
    ensures logged { IfOk result (λ _. HasLogged inside.old.seat.me.0 call object.0 field word inside.new.seat.me.0) }
    ensures full { IfErr result (λ _. HasNoRoomToLog inside.old.seat.me.0 inside.new.seat.me.0) }
    ensures thread { inside.new.thread ≡ inside.old.thread }
{
    let thread = inside.thread();
    let length = inside.load_own(gate, logged_place(gate.map(), thread), None);
    if length >= BUFFER_ENTRIES as u64 {
        return Err(LogFull);
    }
    let slot = u64::from(object.0) + u64::from(OBJECT_WORDS) + u64::from(field);
    inside.store_own(
        gate,
        entry_place(gate.map(), thread, length as usize),
        slot,
        None,
    );
    inside.store_own(gate, logged_place(gate.map(), thread), length + 1, None);
    Ok(())
}

/// Stores a word into a field of an object, and adds the entry of the call that stores it. Where a reference crosses from the
/// object's space into a region, the field's slot is put into the thread's store buffer before.
///
/// # Errors
///
/// `LogFull` exactly where the slot must be recorded and the store buffer is full; the field is unchanged then.
pub fn store_barrier(
    inside: &mut Inside,
    gate: &Gate,
    call: Call,
    object: Addr,
    field: u16,
    word: u64,
) -> Result<(), LogFull>
    requires gate { IsOf gate.now inside.old.seat.table_id inside.old.seat.me.0 }
    requires field { StoresInto inside.old.seat.me.0.map (actor inside.old.seat.me.0) call object.0 field word }
    requires quiet { IsQuiet inside.old.seat.me.0 }
    ensures gate { IsOf gate.now inside.new.seat.table_id inside.new.seat.me.0 }
    ensures stored { IfOk result (λ _. StoreBarred inside.old.seat.me.0 call inside.new.seat.me.0) }
    ensures full { IfErr result (λ _. IsLogFull inside.old.seat.me.0 call inside.new.seat.me.0) }
    ensures thread { inside.new.thread ≡ inside.old.thread }
{
    if crosses(inside, gate, call, object, field, word) {
        record(inside, gate, call, object, field, word)?;
    }
    inside.store_field(gate, call, object, field, word);
    Ok(())
}
