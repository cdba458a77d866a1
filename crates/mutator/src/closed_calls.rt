//! Calls behind the closed gate.
ghost use Rattle.std.specs.Prelude.{◌≡◌};
ghost use Rattle.safepoint_gate.specs.Seats.{IsOf};
ghost use Rattle.safepoint_gate.specs.Singles.{IsQuiet};
ghost use Rattle.mutator.specs.Calls.{FlushesBuffers, IsClosedCall, MakesCall};

use heap_core::{Core, Stepped};
use object_layout::{Call, Event};
use remember_sets::file_logs;
use safepoint_gate::{Gate, Inside};
use std::sync::Wait;

/// Closes the gate, makes the call of the thread on the words, and opens the gate with the call in the history.
pub(crate) fn step_closed<R: Wait>(
    rt: &R,
    gate: &Gate,
    inside: Inside,
    call: Call,
) -> (Inside, Stepped)
    requires gate { IsOf gate.now inside.seat.table_id inside.seat.me.0 }
    requires quiet { IsQuiet inside.seat.me.0 }
    requires call { IsClosedCall call }
    ensures gate { IsOf gate.now result.0.seat.table_id result.0.seat.me.0 }
    ensures quiet { IsQuiet result.0.seat.me.0 }
    ensures makes { MakesCall inside.seat.me.0 result.0.seat.me.0 call result.1 }
{
    let thread = inside.thread();
    let mut core = Core::over(inside.close(rt, gate), gate.map());
    let stepped = core.step(thread, call);
    let event = Event {
        call,
        reply: stepped.reply,
        collected: stepped.collected,
    };
    (core.into_words().open(Some(event)), stepped)
}

/// Closes the gate, files all store buffers, and opens the gate.
pub(crate) fn flush_closed<R: Wait>(rt: &R, gate: &Gate, inside: Inside) -> Inside
    requires gate { IsOf gate.now inside.seat.table_id inside.seat.me.0 }
    requires quiet { IsQuiet inside.seat.me.0 }
    ensures gate { IsOf gate.now result.seat.table_id result.seat.me.0 }
    ensures quiet { IsQuiet result.seat.me.0 }
    ensures flushes { FlushesBuffers inside.seat.me.0 result.seat.me.0 }
{
    let mut closed = inside.close(rt, gate);
    file_logs(&mut closed, gate.map());
    closed.open(None)
}
