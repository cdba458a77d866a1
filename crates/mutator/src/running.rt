//! Mutators of threads that are inside.
ghost use Rattle.std.specs.Prelude.{◌≡◌, ℕ, List, IsSome, Some};
ghost use Rattle.object_layout.specs.Calls.{IsCall};
ghost use Rattle.safepoint_gate.specs.declared.rule.Place.TheVariants.{Away as AwayPlace, Inside as InsidePlace};
ghost use Rattle.safepoint_gate.specs.Seats.{IsOf};
ghost use Rattle.safepoint_gate.specs.Singles.{IsQuiet};
ghost use Rattle.safepoint_gate.specs.Steps.{at_place, first_thread};
ghost use Rattle.calls_in_flight.specs.declared.notes.Known.{Known};
ghost use Rattle.heap_core.specs.Steps.{plain};
ghost use Rattle.barriers.specs.Barred.{OnlyLoads};
ghost use Rattle.mutator.specs.Calls.{FlushesBuffers, IsClosedCall, Makes, MakesCall, MakesReply};
ghost use Rattle.mutator.specs.Quick.{AnswersOrCollects};
ghost use Rattle.mutator.specs.Callers.{first_told};
ghost use Rattle.mutator.specs.Running.{IsOfHeap, view_in};

use crate::closed_calls::{flush_closed, step_closed};
use crate::heap::Heap;
use crate::resting::Resting;
use barriers::depth_place;
use heap_core::Stepped;
use object_layout::{Call, NoPage, Reply};
use safepoint_gate::Inside;
use std::sync::Wait;

/// How many calls a caller of a running thread makes before it lets other threads close the gate.
pub(crate) const CALLS_BETWEEN_POLLS: u16 = 256;

/// One thread's way to a heap, while the thread makes calls. It takes its seat out and puts it back where a call closes the gate.
#[derive(Drop)]
pub struct Mutator {
    pub(crate) inside: Option<Inside>,
    ghost present: { IsSome inside },
    // no call of it is in flight
    ghost quiet: { IsQuiet (view_in inside) },
}

impl Mutator {
    // The thread of the seat makes calls.
    pub(crate) fn of(inside: Inside) -> Mutator
        requires quiet { IsQuiet inside.seat.me.0 }
        ensures inside { result.inside ≡ Some inside }
    {
        Mutator {
            inside: Some(inside),
        }
    }

    // Its seat.
    fn into_inside(self) -> Inside
        ensures inside { self.inside ≡ Some result }
    {
        let Mutator { inside } = self;
        match inside {
            Some(inside) => inside,
            None => unreachable!(),
        }
    }

    /// The number of its thread.
    pub fn thread(&self) -> u8
        ensures { result ≡ first_thread (view_in self.now.inside).own }
    {
        match &self.inside {
            Some(inside) => inside.thread(),
            None => unreachable!(),
        }
    }

    /// Goes out, so that other threads may close the gate.
    pub fn rest(self, heap: &Heap) -> Resting
        requires heap { IsOfHeap heap.now self.inside }
        ensures heap { IsOf heap.now.gate result.away.seat.table_id result.away.seat.me.0 }
        ensures view { result.away.seat.me.0 ≡ at_place (view_in self.inside) AwayPlace }
    {
        Resting::of(self.into_inside().leave(&heap.gate))
    }

    /// Goes out and in, so that another thread may close the gate meanwhile.
    pub fn poll<R: Wait>(&mut self, rt: &R, heap: &Heap)
        requires heap { IsOfHeap heap.now self.old.inside }
        ensures heap { IsOfHeap heap.now self.new.inside }
        ensures view { view_in self.new.inside ≡ at_place (view_in self.old.inside) InsidePlace }
    {
        if let Some(inside) = self.inside.take() {
            self.inside = Some(inside.leave(&heap.gate).enter(rt, &heap.gate));
        }
    }

    /// Lets another thread close the gate where so many calls were made since the last time.
    #[inline(always)]
    pub(crate) fn give_way<R: Wait>(&mut self, rt: &R, heap: &Heap, calls: u16)
        requires heap { IsOfHeap heap.now self.old.inside }
        ensures heap { IsOfHeap heap.now self.new.inside }
        ensures own { (view_in self.new.inside).own ≡ (view_in self.old.inside).own }
        ensures map { (view_in self.new.inside).map ≡ (view_in self.old.inside).map }
    {
        if calls == CALLS_BETWEEN_POLLS {
            self.poll(rt, heap);
        }
    }

    /// Files all store buffers behind the closed gate.
    pub fn flush<R: Wait>(&mut self, rt: &R, heap: &Heap)
        requires heap { IsOfHeap heap.now self.old.inside }
        ensures heap { IsOfHeap heap.now self.new.inside }
        ensures flushes { FlushesBuffers (view_in self.old.inside) (view_in self.new.inside) }
    {
        if let Some(inside) = self.inside.take() {
            self.inside = Some(flush_closed(rt, &heap.gate, inside));
        }
    }

    /// Makes a call behind the closed gate. Where a new object doesn't fit the thread's current page and no page is free, and where
    /// an end needs more pages than are free, one collection of the control space comes first.
    fn call_closed<R: Wait>(&mut self, rt: &R, heap: &Heap, call: Call) -> Stepped
        requires heap { IsOfHeap heap.now self.old.inside }
        requires call { IsClosedCall call }
        ensures heap { IsOfHeap heap.now self.new.inside }
        ensures makes { MakesCall (view_in self.old.inside) (view_in self.new.inside) call result }
    {
        match self.inside.take() {
            Some(inside) => {
                let (inside, stepped) = step_closed(rt, &heap.gate, inside, call);
                self.inside = Some(inside);
                stepped
            }
            None => unreachable!(),
        }
    }

    /// Ends the innermost epoch, behind the closed gate.
    pub fn end<R: Wait>(&mut self, rt: &R, heap: &Heap) -> Stepped
        requires heap { IsOfHeap heap.now self.old.inside }
        ensures heap { IsOfHeap heap.now self.new.inside }
        ensures makes { MakesCall (view_in self.old.inside) (view_in self.new.inside) Call.End result }
    {
        self.call_closed(rt, heap, Call::End)
    }

    /// Collects the control space, behind the closed gate.
    pub fn collect<R: Wait>(&mut self, rt: &R, heap: &Heap) -> Reply
        requires heap { IsOfHeap heap.now self.old.inside }
        ensures heap { IsOfHeap heap.now self.new.inside }
        ensures makes { MakesReply (view_in self.old.inside) (view_in self.new.inside) Call.Collect result }
    {
        let stepped = self.call_closed(rt, heap, Call::Collect);
        stepped.reply
    }

    /// Counts the pages, behind the closed gate.
    pub fn census<R: Wait>(&mut self, rt: &R, heap: &Heap) -> Reply
        requires heap { IsOfHeap heap.now self.old.inside }
        ensures heap { IsOfHeap heap.now self.new.inside }
        ensures makes { MakesReply (view_in self.old.inside) (view_in self.new.inside) Call.Census result }
    {
        let stepped = self.call_closed(rt, heap, Call::Census);
        stepped.reply
    }

    /// Makes an object of k fields in the innermost space. Where it doesn't fit the thread's current page and no page was left, the
    /// gate is closed and the object is tried again, after one collection of the control space where it still has no room.
    pub fn new_or_collect<R: Wait>(&mut self, rt: &R, heap: &Heap, k: u32) -> Stepped
        requires heap { IsOfHeap heap.now self.old.inside }
        ensures heap { IsOfHeap heap.now self.new.inside }
        ensures makes { AnswersOrCollects (view_in self.old.inside) k result (view_in self.new.inside) }
    {
        match self.new_object(heap, k) {
            Ok(reply) => Stepped {
                reply,
                collected: false,
                full: None,
                shortage: None,
            },
            Err(NoPage) => self.call_closed(rt, heap, Call::New(k)),
        }
    }

    // The depth of the thread.
    #[inline(always)]
    fn depth(&mut self, heap: &Heap) -> u8
        requires heap { IsOfHeap heap.now self.old.inside }
        ensures heap { IsOfHeap heap.now self.new.inside }
        ensures depth { result ≡ (first_told (view_in self.old.inside).own).depth }
        ensures loads { (more lasting : List Known) × OnlyLoads (view_in self.old.inside) more lasting (view_in self.new.inside) }
    {
        match &mut self.inside {
            Some(inside) => {
                let at = depth_place(heap.gate.map(), inside.thread());
                inside.load_own(&heap.gate, at, None) as u8
            }
            None => unreachable!(),
        }
    }

    // Stores, and files all buffers before where the own one is full.
    #[inline(always)]
    fn store_or_flush<R: Wait>(&mut self, rt: &R, heap: &Heap, s: u32, f: u32, x: u32) -> Reply
        requires heap { IsOfHeap heap.now self.old.inside }
        ensures heap { IsOfHeap heap.now self.new.inside }
        ensures made { Makes (view_in self.old.inside) (Call.Store s f x) (plain result) (view_in self.new.inside) }
    {
        for _ in rt.forever() {
            if let Ok(reply) = self.store(heap, s, f, x) {
                return reply;
            }
            self.flush(rt, heap);
        }
        unreachable!()
    }

    /// Makes a call, by whichever way, and tells the thread's depth at the call beside what the step says. Where the store buffer is
    /// full, all buffers are filed before.
    #[inline(always)]
    pub fn call_told<R: Wait>(&mut self, rt: &R, heap: &Heap, call: Call) -> (Stepped, u8)
        requires heap { IsOfHeap heap.now self.old.inside }
        requires number { IsCall call }
        ensures heap { IsOfHeap heap.now self.new.inside }
        ensures made { Makes (view_in self.old.inside) call result.0 (view_in self.new.inside) }
        ensures depth { result.1 ≡ (first_told (view_in self.old.inside).own).depth }
    {
        let depth = self.depth(heap);
        let reply = match call {
            Call::Int(i) => self.push_int(heap, i),
            Call::Null => self.push_null(heap),
            Call::Dup(s) => self.dup(heap, s),
            Call::Pop => self.pop(heap),
            Call::Load(s, f) => self.load(heap, s, f),
            Call::Store(s, f, x) => self.store_or_flush(rt, heap, s, f, x),
            Call::Get(s) => self.get(heap, s),
            Call::Same(s, x) => self.same(heap, s, x),
            Call::Begin => self.begin(heap),
            Call::New(k) => return (self.new_or_collect(rt, heap, k), depth),
            Call::End | Call::Collect | Call::Census => {
                return (self.call_closed(rt, heap, call), depth);
            }
        };
        let stepped = Stepped {
            reply,
            collected: false,
            full: None,
            shortage: None,
        };
        (stepped, depth)
    }
}
