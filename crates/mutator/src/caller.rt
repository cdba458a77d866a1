//! A caller for a thread of a heap that threads share.
ghost use Rattle.std.specs.Prelude.{◌≡◌, ◌↔◌, ℕ, None, refl};
ghost use Rattle.std.specs.FinMap.{empty};
ghost use Rattle.std.specs.Option.{ForSome};
ghost use Rattle.object_layout.specs.Calls.{IsCall};
ghost use Rattle.yak_model.specs.Private.{KnownObjects};
ghost use Rattle.yak_model.specs.Standing.{Counted, MovesKnown, Stays};
ghost use Rattle.safepoint_gate.specs.Seats.{IsOf};
ghost use Rattle.mutator.specs.Callers.{IsAtEnd, KnowsPart, standing_shared};
ghost use Rattle.mutator.specs.Running.{IsOfHeap, view_in};

use crate::heap::Heap;
use crate::running::{CALLS_BETWEEN_POLLS, Mutator};
use heap_core::{count_up, words_asked, words_made};
use object_layout::{Call, Census, Reply};
use std::sync::Wait;
use yak_model::Caller;

/// One thread's way to a heap that threads share. It knows each part of the objects that its thread alone knows into which no
/// other of them refers, and it tells its own list. A call may wait.
#[derive(Drop)]
pub struct MutatorCaller<'h, R: Wait> {
    rt: &'h R,
    heap: &'h Heap,
    mutator: Mutator,
    /// How many calls it made since it last let other threads close the gate.
    calls: u16,
    /// The words of the objects that it made, or the greatest number where they are more.
    made: u64,
    /// How many calls were answered by `OutOfHeap`, or the greatest number where they are more.
    refusals: u64,
    /// The pages, the thread's depth and the words asked for at the last of them.
    last: Option<(Census, u8, u16)>,
    // the mutator is of the heap
    pub ghost of_heap: { ForSome mutator.inside (λ inside. IsOf heap.now.gate inside.seat.table_id inside.seat.me.0) },
    // the map without objects is a part of its private map
    pub ghost knows_none: { ∥ KnowsPart (view_in mutator.inside).own empty ∥₁ },
    // there is a last call that was answered by `OutOfHeap` exactly where there were some, and no page was free then
    pub ghost some: { last ≡ None ↔ refusals ≡ 0 },
    pub ghost none_free: { ForSome last (λ l. l.0.free ≡ 0) },
}

impl<'h, R: Wait> Caller for MutatorCaller<'h, R> {
    ghost use Rattle.mutator.specs.declared.heap.Heap.{Heap};

    ghost Base = { Heap };

    ghost base = { λ s. s.heap.now };

    ghost standing = { λ s. standing_shared (view_in s.mutator.inside).own s.made s.refusals s.last };

    ghost knows = { λ s known. KnowsPart (view_in s.mutator.inside).own known };

    ghost tells = { λ s t own. ⊥ };

    ghost tells_known = { λ s t known. ⊥ };

    ghost standard = { λ s. refl };

    ghost knows_none = { λ s. s.knows_none };

    ghost fit = { λ s known k. k.1 };

    ghost told = { λ s. record { some = s.some; none_free = s.none_free } };

    #[inline(always)]
    fn make_call(&mut self, call: Call) -> Reply
        requires { IsCall call }
        ensures stays { Stays ⟦<MutatorCaller<'h, R> as Caller>⟧.base ⟦<MutatorCaller<'h, R> as Caller>⟧.tells ⟦<MutatorCaller<'h, R> as Caller>⟧.tells_known self.old self.new }
        ensures counted { Counted (⟦<MutatorCaller<'h, R> as Caller>⟧.standing self.old) call result (⟦<MutatorCaller<'h, R> as Caller>⟧.standing self.new) }
        ensures known { (known : KnownObjects) → ⟦<MutatorCaller<'h, R> as Caller>⟧.knows self.old known → MovesKnown (⟦<MutatorCaller<'h, R> as Caller>⟧.standing self.old) known call result (⟦<MutatorCaller<'h, R> as Caller>⟧.standing self.new).own (⟦<MutatorCaller<'h, R> as Caller>⟧.knows self.new) }
        ensures at_end { IsAtEnd (view_in self.new.mutator.inside).map (view_in self.old.mutator.inside).own (view_in self.new.mutator.inside).own call result }
    {
        self.mutator.give_way(self.rt, self.heap, self.calls);
        self.calls = self.calls % CALLS_BETWEEN_POLLS + 1;
        let (stepped, depth) = self.mutator.call_told(self.rt, self.heap, call);
        self.made = count_up(self.made, words_made(call, stepped.reply));
        if let Some(census) = stepped.full {
            self.refusals = count_up(self.refusals, 1);
            self.last = Some((census, depth, words_asked(call)));
        }
        stepped.reply
    }

    fn full(&self) -> Option<(Census, u8, u16)> {
        self.last
    }
}

impl Mutator {
    /// A caller for the thread.
    pub fn as_caller<'h, R: Wait>(self, rt: &'h R, heap: &'h Heap) -> MutatorCaller<'h, R>
        requires heap { IsOfHeap heap.now self.inside }
        ensures mutator { result.mutator ≡ self }
        ensures heap { result.heap.now ≡ heap.now }
        ensures fresh { (result.made ≡ 0) × (result.refusals ≡ 0) × (result.last ≡ None) }
    {
        MutatorCaller {
            rt,
            heap,
            mutator: self,
            calls: 0,
            made: 0,
            refusals: 0,
            last: None,
        }
    }
}

impl<'h, R: Wait> MutatorCaller<'h, R> {
    /// The mutator, as it is now.
    pub fn into_mutator(self) -> Mutator
        ensures mutator { result ≡ self.entry.mutator }
        ensures heap { IsOfHeap self.entry.heap.now result.inside }
    {
        self.mutator
    }
}
