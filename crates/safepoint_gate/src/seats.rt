//! Seats of threads that are away or inside.
ghost use Rattle.std.specs.Prelude.{◌≡◌, ◌≢◌, ◌<◌, ◌≤◌, [], length};
ghost use Rattle.heap_words.specs.Map.{HasThread};
ghost use Rattle.safepoint_gate.specs.declared.rule.Place.TheVariants.{Away as AwayPlace, Inside as InsidePlace, Retreating, Asking};
ghost use Rattle.safepoint_gate.specs.Rule.{AllRest, asking, closed, present};
ghost use Rattle.safepoint_gate.specs.Seats.{IsOf};
ghost use Rattle.safepoint_gate.specs.Singles.{IsQuiet};
ghost use Rattle.safepoint_gate.specs.Steps.{at_place, first_thread, of_both};

use crate::CLOSING;
use crate::gate::Gate;
use crate::rule::{Enter, FirstThread, Leave, Token};
use std::sync::Wait;
use std::thread;

/// The seat of a thread that is outside the gate, or the seats of several threads as one.
#[derive(Drop)]
pub struct Away {
    pub(crate) seat: Token,
    pub(crate) thread: u8,
    ghost numbered: { first_thread seat.me.0.own ≡ thread },
    ghost threaded: { HasThread seat.me.0.map thread },
    ghost away: { seat.me.0.place ≡ AwayPlace },
    ghost holds_none: { seat.me.1 ≡ [] },
}

/// The seat of a thread that is inside the gate. While it is, no other thread closes the gate.
#[derive(Drop)]
pub struct Inside {
    pub(crate) seat: Token,
    pub(crate) thread: u8,
    ghost numbered: { first_thread seat.me.0.own ≡ thread },
    ghost threaded: { HasThread seat.me.0.map thread },
    ghost inside: { seat.me.0.place ≡ InsidePlace },
    ghost holds_none: { seat.me.1 ≡ [] },
    ghost single: { length seat.me.0.own ≡ 1 },
}

impl Gate {
    // Counts one more, and tells what the gate was.
    fn arrive(&self, seat: &mut Token) -> u64
        requires seat { seat.old.table_id ≡ self.now.table.shared.table_id }
        requires away { seat.old.me.0.place ≡ AwayPlace }
        requires single { length seat.old.me.0.own ≡ 1 }
        ensures same { (seat.new.table_id ≡ seat.old.table_id) × (seat.new.me.1 ≡ seat.old.me.1) }
        ensures inside { result < CLOSING → seat.new.me.0 ≡ at_place seat.old.me.0 InsidePlace }
        ensures retreating { CLOSING ≤ result → seat.new.me.0 ≡ at_place seat.old.me.0 Retreating }
        ensures rests { AllRest seat.old.me.0.own }
    {
        self.table.shared.fetch_add::<Enter>(seat, 0, 1)
    }

    // Counts one less.
    fn go(&self, seat: &mut Token)
        requires seat { seat.old.table_id ≡ self.now.table.shared.table_id }
        requires present { (present seat.old.me.0 ≡ 1) × (asking seat.old.me.0 ≡ 0) × (closed seat.old.me.0 ≡ 0) }
        requires rests { AllRest seat.old.me.0.own }
        ensures same { (seat.new.table_id ≡ seat.old.table_id) × (seat.new.me.1 ≡ seat.old.me.1) }
        ensures away { seat.new.me.0 ≡ at_place seat.old.me.0 AwayPlace }
    {
        self.table.shared.fetch_sub::<Leave>(seat, 0, 1);
    }
}

impl Away {
    /// The thread for which the seat stands, or the first of them.
    pub fn thread(&self) -> u8
        ensures { result ≡ self.now.thread }
    {
        self.thread
    }

    /// Goes in, once no thread is closing the gate.
    pub fn enter<R: Wait>(self, rt: &R, gate: &Gate) -> Inside
        requires gate { IsOf gate.now self.seat.table_id self.seat.me.0 }
        requires single { length self.seat.me.0.own ≡ 1 }
        ensures gate { IsOf gate.now result.seat.table_id result.seat.me.0 }
        ensures view { result.seat.me.0 ≡ at_place self.seat.me.0 InsidePlace }
        ensures quiet { IsQuiet result.seat.me.0 }
        ensures thread { result.thread ≡ self.thread }
    {
        let Away { mut seat, thread } = self;
        for _ in rt.forever() {
            if gate.arrive(&mut seat) < CLOSING {
                return Inside { seat, thread };
            }
            gate.go(&mut seat);
            thread::yield_now();
        }
        unreachable!()
    }

    /// Takes in another seat, and stands for its threads too.
    pub fn take_in(&mut self, gate: &Gate, other: Away)
        requires gate { IsOf gate.now self.old.seat.table_id self.old.seat.me.0 }
        requires other { IsOf gate.now other.seat.table_id other.seat.me.0 }
        ensures gate { IsOf gate.now self.new.seat.table_id self.new.seat.me.0 }
        ensures view { self.new.seat.me.0 ≡ of_both self.old.seat.me.0 other.seat.me.0 }
        ensures thread { self.new.thread ≡ self.old.thread }
    {
        let Away { seat, thread: _ } = other;
        gate.table
            .shared
            .join_seat::<FirstThread>(&mut self.seat, seat);
    }
}

impl Inside {
    /// The thread for which the seat stands.
    pub fn thread(&self) -> u8
        ensures { result ≡ self.now.thread }
    {
        self.thread
    }

    /// Goes out. No call of the thread may be in flight.
    pub fn leave(self, gate: &Gate) -> Away
        requires gate { IsOf gate.now self.seat.table_id self.seat.me.0 }
        requires quiet { IsQuiet self.seat.me.0 }
        ensures gate { IsOf gate.now result.seat.table_id result.seat.me.0 }
        ensures view { result.seat.me.0 ≡ at_place self.seat.me.0 AwayPlace }
        ensures thread { result.thread ≡ self.thread }
    {
        let Inside { mut seat, thread } = self;
        gate.go(&mut seat);
        Away { seat, thread }
    }
}
