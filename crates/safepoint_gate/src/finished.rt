//! A gate that all threads have come back from.
ghost use Rattle.std.specs.Prelude.{◌≡◌, ◌≤◌, [], length, slice_index};
ghost use Rattle.heap_words.specs.Map.{IsAreas, total_of};
ghost use Rattle.safepoint_gate.specs.declared.rule.Place.TheVariants.{Away as AwayPlace, Closed as ClosedPlace};
ghost use Rattle.safepoint_gate.specs.Seats.{IsOf};
ghost use Rattle.safepoint_gate.specs.Steps.{Closes, IsClosing, at_gate};

use crate::ALONE;
use crate::gate::Gate;
use crate::rule::{Get, Seal, Set, Token};
use crate::seats::Away;
use heap_words::{Areas, Words};

/// The words of a heap that no thread uses any more. They are its owner's, with the entries of all threads in one history.
#[derive(Drop)]
pub struct Finished {
    gate: Gate,
    pub(crate) seat: Token,
    reads: u64,
    ghost same: { seat.table_id ≡ gate.table.shared.table_id },
    ghost same_map: { seat.me.0.map ≡ gate.map },
    ghost closed: { seat.me.0.place ≡ ClosedPlace },
    ghost holds_none: { seat.me.1 ≡ [] },
    ghost areas: { IsAreas seat.me.0.map },
    ghost wide: { length seat.me.0.words ≡ total_of seat.me.0.map },
    ghost gate_zero: { slice_index seat.me.0.words 0 ≡ 0 },
}

impl Words for Finished {
    ghost use Rattle.atomic_table.specs.Seated.{TableId};
    ghost use Rattle.safepoint_gate.specs.declared.rule.View.{View};
    ghost use Rattle.safepoint_gate.specs.Steps.{written};

    ghost Base = { TableId × View };

    ghost words = { λ c. c.seat.me.0.words };

    ghost reads = { λ c. c.reads };

    ghost base = { λ c. (c.seat.table_id, written c.seat.me.0 []) };

    ghost map = { λ b. b.1.map };

    ghost gate_hidden = { λ c. c.gate_zero };

    ghost within_limits = { λ c. c.areas };

    ghost whole = { λ c. c.wide };

    fn get(&mut self, i: usize) -> u64 {
        self.reads = self.reads.saturating_add(1);
        let gate = &self.gate;
        gate.table.shared.load::<Get>(&mut self.seat, i)
    }

    fn set(&mut self, i: usize, word: u64) {
        let gate = &self.gate;
        gate.table.shared.store::<Set>(&mut self.seat, i, word)
    }
}

impl Finished {
    /// The map of the words.
    pub fn map(&self) -> Areas
        ensures { result ≡ self.now.seat.me.0.map }
    {
        self.gate.map()
    }
}

impl Gate {
    // Closes the gate for good, for a seat that stands for all threads.
    fn seal(&self, seat: &mut Token)
        requires seat { IsOf self.now seat.old.table_id seat.old.me.0 }
        requires away { seat.old.me.0.place ≡ AwayPlace }
        requires all { length seat.old.me.0.own ≡ self.now.map.threads }
        ensures same { (seat.new.table_id ≡ seat.old.table_id) × (seat.new.me.1 ≡ seat.old.me.1) }
        ensures closed { Closes seat.old.me seat.new.me }
    {
        self.table.shared.store::<Seal>(seat, 0, ALONE);
    }
}

/// Takes the gate back, by a seat that stands for all its threads.
pub fn close_all(gate: Gate, away: Away) -> Finished
    requires gate { IsOf gate away.seat.table_id away.seat.me.0 }
    requires all { length away.seat.me.0.own ≡ gate.map.threads }
    ensures view { result.seat.me.0 ≡ at_gate away.seat.me.0 result.seat.me.0.words result.seat.me.0.history }
    ensures closing { IsClosing result.seat.me.0 }
    ensures reads { result.reads ≡ 0 }
{
    let Away {
        mut seat,
        thread: _,
    } = away;
    gate.seal(&mut seat);
    Finished {
        gate,
        seat,
        reads: 0,
    }
}
