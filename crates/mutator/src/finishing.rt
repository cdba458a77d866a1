//! The end of all calls on a heap.
ghost use Rattle.std.specs.Prelude.{◌≡◌, length};
ghost use Rattle.mutator.specs.Finishing.{AllOf, Finishes};
ghost use Rattle.mutator.specs.Resting.{seats_of};

use crate::heap::Heap;
use crate::resting::Resting;
use safepoint_gate::{Away, Finished, close_all};

/// Takes the heap back from all its mutators. The calls of all threads are then the parts of
/// one history, and the words stand for the state that it leaves. Epochs may still be open.
pub fn finish(heap: Heap, mut resting: Vec<Resting>) -> Finished
    requires all { length (seats_of resting.items) ≡ heap.gate.map.threads }
    requires seats { AllOf heap.gate (seats_of resting.items) }
    ensures finished { Finishes result.seat.me.0 (seats_of resting.items) }
    ensures map { result.seat.me.0.map ≡ heap.gate.map }
{
    let Heap { gate } = heap;
    let Resting { away: mut first } = resting.remove(0);
    while !resting.is_empty() {
        let Resting { away } = resting.remove(0);
        first.take_in(&gate, away);
    }
    close_all(gate, first)
}
