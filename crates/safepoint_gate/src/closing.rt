//! A gate that one thread has closed.
ghost use Rattle.std.specs.Prelude.{◌≡◌, ◌≢◌, ◌<◌, ◌≤◌, [], length, slice_index, MatchOption};
ghost use Rattle.heap_words.specs.Map.{HasThread, IsAreas, total_of};
ghost use Rattle.safepoint_gate.specs.declared.rule.Place.TheVariants.{Inside as InsidePlace, Asking, Closed as ClosedPlace};
ghost use Rattle.safepoint_gate.specs.Rule.{AllRest};
ghost use Rattle.safepoint_gate.specs.Seats.{IsOf};
ghost use Rattle.safepoint_gate.specs.Singles.{IsQuiet};
ghost use Rattle.safepoint_gate.specs.Steps.{Closes, IsClosing, MayOpen, Opened, OpenedWith, at_gate, at_place, first_thread};

use crate::gate::Gate;
use crate::rule::{Adds, Ask, Get, Look, Open, OpenWith, Set, Token};
use crate::seats::Inside;
use crate::{ALONE, CLOSING, COUNT};
use heap_words::Words;
use object_layout::Event;
use std::marker::Brand;
use std::sync::Wait;
use std::thread;

/// A gate that this thread has closed. All words but the gate are its own until it opens the gate.
#[derive(Drop)]
pub struct Closed<'g> {
    gate: &'g Gate,
    pub(crate) seat: Token,
    pub(crate) thread: u8,
    reads: u64,
    ghost numbered: { first_thread seat.me.0.own ≡ thread },
    ghost threaded: { HasThread seat.me.0.map thread },
    ghost same: { seat.table_id ≡ gate.now.table.shared.table_id },
    ghost same_map: { seat.me.0.map ≡ gate.now.map },
    ghost closed: { seat.me.0.place ≡ ClosedPlace },
    ghost holds_none: { seat.me.1 ≡ [] },
    ghost single: { length seat.me.0.own ≡ 1 },
    ghost areas: { IsAreas seat.me.0.map },
    ghost wide: { length seat.me.0.words ≡ total_of seat.me.0.map },
    ghost gate_zero: { slice_index seat.me.0.words 0 ≡ 0 },
}

impl<'g> Words for Closed<'g> {
    ghost use Rattle.atomic_table.specs.Seated.{TableId};
    ghost use Rattle.safepoint_gate.specs.declared.rule.View.{View};
    ghost use Rattle.safepoint_gate.specs.Steps.{written};

    ghost Base = { TableId × View };

    ghost words = { λ c. c.seat.me.0.words };

    ghost reads = { λ c. c.reads };

    ghost base = { λ c. (c.seat.table_id, written c.seat.me.0 []) };

    ghost map = { λ b. b.1.map };

    ghost gate_hidden = { λ c. c.gate_zero };

    ghost within_limits = { λ c. c.areas };

    ghost whole = { λ c. c.wide };

    fn get(&mut self, i: usize) -> u64 {
        self.reads = self.reads.saturating_add(1);
        self.gate.table.shared.load::<Get>(&mut self.seat, i)
    }

    fn set(&mut self, i: usize, word: u64) {
        self.gate.table.shared.store::<Set>(&mut self.seat, i, word)
    }
}

impl Gate {
    // Sets the closing bit, and tells what the gate was.
    fn ask(&self, seat: &mut Token) -> u64
        requires seat { seat.old.table_id ≡ self.now.table.shared.table_id }
        requires inside { seat.old.me.0.place ≡ InsidePlace }
        requires single { length seat.old.me.0.own ≡ 1 }
        requires rests { AllRest seat.old.me.0.own }
        ensures same { (seat.new.table_id ≡ seat.old.table_id) × (seat.new.me.1 ≡ seat.old.me.1) }
        ensures asked { result < CLOSING → seat.new.me.0 ≡ at_place seat.old.me.0 Asking }
        ensures refused { CLOSING ≤ result → seat.new.me.0 ≡ seat.old.me.0 }
    {
        self.table.shared.fetch_or::<Ask>(seat, 0, CLOSING)
    }

    // Loads the gate, which is closed once no other thread is counted.
    fn look(&self, seat: &mut Token) -> u64
        requires seat { seat.old.table_id ≡ self.now.table.shared.table_id }
        requires asked { seat.old.me.0.place ≡ Asking }
        requires single { length seat.old.me.0.own ≡ 1 }
        ensures same { (seat.new.table_id ≡ seat.old.table_id) × (seat.new.me.1 ≡ seat.old.me.1) }
        ensures closed { result ≡ ALONE → Closes seat.old.me seat.new.me }
        ensures waiting { result ≢ ALONE → seat.new.me.0 ≡ seat.old.me.0 }
    {
        self.table.shared.load::<Look>(seat, 0)
    }

    // Waits until no other thread is counted.
    fn wait_alone<'g, R: Wait>(&'g self, rt: &R, mut seat: Token, thread: u8) -> Closed<'g>
        requires gate { IsOf self.now seat.table_id seat.me.0 }
        requires asked { seat.me.0.place ≡ Asking }
        requires single { length seat.me.0.own ≡ 1 }
        requires holds_none { seat.me.1 ≡ [] }
        requires numbered { first_thread seat.me.0.own ≡ thread }
        requires threaded { HasThread seat.me.0.map thread }
        ensures gate { IsOf self.now result.seat.table_id result.seat.me.0 }
        ensures view { result.seat.me.0 ≡ at_gate seat.me.0 result.seat.me.0.words result.seat.me.0.history }
        ensures closing { IsClosing result.seat.me.0 }
        ensures thread { result.thread ≡ thread }
        ensures reads { result.reads ≡ 0 }
    {
        for _ in rt.forever() {
            if self.look(&mut seat) == ALONE {
                return Closed {
                    gate: self,
                    seat,
                    thread,
                    reads: 0,
                };
            }
            thread::yield_now();
        }
        unreachable!()
    }
}

impl Inside {
    /// Closes the gate, once no other thread is inside. No call of the thread may be in flight.
    pub fn close<'g, R: Wait>(self, rt: &R, gate: &'g Gate) -> Closed<'g>
        requires gate { IsOf gate.now self.seat.table_id self.seat.me.0 }
        requires quiet { IsQuiet self.seat.me.0 }
        ensures gate { IsOf gate.now result.seat.table_id result.seat.me.0 }
        ensures view { result.seat.me.0 ≡ at_gate self.seat.me.0 result.seat.me.0.words result.seat.me.0.history }
        ensures closing { IsClosing result.seat.me.0 }
        ensures thread { result.thread ≡ self.thread }
        ensures reads { result.reads ≡ 0 }
    {
        let mut inside = self;
        for _ in rt.forever() {
            if gate.ask(&mut inside.seat) < CLOSING {
                let Inside { seat, thread } = inside;
                return gate.wait_alone(rt, seat, thread);
            }
            inside = inside.leave(gate).enter(rt, gate);
        }
        unreachable!()
    }
}

impl Gate {
    // Clears the closing bit, over words of the state of the closing.
    fn unbar(&self, seat: &mut Token)
        requires seat { seat.old.table_id ≡ self.now.table.shared.table_id }
        requires closed { seat.old.me.0.place ≡ ClosedPlace }
        requires single { length seat.old.me.0.own ≡ 1 }
        requires still { MayOpen seat.old.me.0 None }
        ensures same { (seat.new.table_id ≡ seat.old.table_id) × (seat.new.me.1 ≡ seat.old.me.1) }
        ensures opened { Opened seat.old.me.0 None seat.new.me.0 }
        ensures rests { AllRest seat.new.me.0.own }
    {
        self.table.shared.fetch_and::<Open>(seat, 0, COUNT);
    }

    // Clears the closing bit, and adds the entries of an event.
    fn unbar_with<E: Adds>(&self, seat: &mut Token, event: Event)
        requires seat { seat.old.table_id ≡ self.now.table.shared.table_id }
        requires closed { seat.old.me.0.place ≡ ClosedPlace }
        requires single { length seat.old.me.0.own ≡ 1 }
        requires event { E.event ≡ event }
        requires continues { MayOpen seat.old.me.0 (Some event) }
        ensures same { (seat.new.table_id ≡ seat.old.table_id) × (seat.new.me.1 ≡ seat.old.me.1) }
        ensures opened { OpenedWith seat.old.me.0 event seat.new.me.0 }
        ensures rests { AllRest seat.new.me.0.own }
    {
        self.table.shared.fetch_and::<OpenWith<E>>(seat, 0, COUNT);
    }
}

impl<'g> Closed<'g> {
    /// Opens the gate, and adds the entries of the event to the history.
    pub fn open(self, event: Option<Event>) -> Inside
        requires may_open { MayOpen self.seat.me.0 event }
        ensures gate { IsOf self.entry.gate.now result.seat.table_id result.seat.me.0 }
        ensures table { result.seat.table_id ≡ self.entry.seat.table_id }
        ensures opened { Opened self.entry.seat.me.0 event result.seat.me.0 }
        ensures quiet { IsQuiet result.seat.me.0 }
        ensures thread { result.thread ≡ self.entry.thread }
    {
        let Closed {
            gate,
            mut seat,
            thread,
            reads: _,
        } = self;
        match event {
            None => gate.unbar(&mut seat),
            Some(event) => gate.unbar_with::<Brand>(&mut seat, event),
        }
        Inside { seat, thread }
    }
}
