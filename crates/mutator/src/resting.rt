//! Mutators of threads that are away.
ghost use Rattle.std.specs.Prelude.{◌≡◌, length};
ghost use Rattle.safepoint_gate.specs.declared.rule.Place.TheVariants.{Inside as InsidePlace};
ghost use Rattle.safepoint_gate.specs.Seats.{IsOf};
ghost use Rattle.safepoint_gate.specs.Steps.{at_place};
ghost use Rattle.mutator.specs.Running.{IsOfHeap, view_in};

use crate::heap::Heap;
use crate::running::Mutator;
use safepoint_gate::Away;
use std::sync::Wait;

/// One thread's way to a heap, while the thread makes no calls.
#[derive(Drop)]
pub struct Resting {
    pub(crate) away: Away,
    ghost single: { length away.seat.me.0.own ≡ 1 },
}

impl Resting {
    // The thread of the seat rests.
    pub(crate) fn of(away: Away) -> Resting
        requires single { length away.seat.me.0.own ≡ 1 }
        ensures away { result.away ≡ away }
    {
        Resting { away }
    }

    /// The number of its thread.
    pub fn thread(&self) -> u8
        ensures { result ≡ self.now.away.thread }
    {
        self.away.thread()
    }

    /// Goes in, once no thread is closing the gate.
    pub fn enter<R: Wait>(self, rt: &R, heap: &Heap) -> Mutator
        requires heap { IsOf heap.now.gate self.away.seat.table_id self.away.seat.me.0 }
        ensures heap { IsOfHeap heap.now result.inside }
        ensures view { view_in result.inside ≡ at_place self.away.seat.me.0 InsidePlace }
    {
        let Resting { away } = self;
        Mutator::of(away.enter(rt, &heap.gate))
    }
}
