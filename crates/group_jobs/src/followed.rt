//! A thread's way to a shared heap on which its calls are followed in the one history.
ghost use Rattle.std.specs.Prelude.{◌≡◌, List, []};
ghost use Rattle.std.specs.FinMap.{empty};
ghost use Rattle.yak_model.specs.Standing.{counted_on};
ghost use Rattle.safepoint_gate.specs.declared.rule.Own.{Own};
ghost use Rattle.safepoint_gate.specs.Steps.{first_calls};
ghost use Rattle.mutator.specs.Running.{view_in};
ghost use Rattle.group_jobs.specs.Followed.{Follows, IsSettled, KnowsOwn, made_in, refused_in};

use mutator::MutatorCaller;
use object_layout::{Call, Census, Reply};
use std::marker::{Brand, PhantomData};
use std::sync::Wait;
use yak_model::Caller;

/// What a thread knew when it began to be followed. No value tells it.
pub(crate) trait Past {
    ghost begun: { List Own };
}

impl Past for Brand {
    ghost begun = { [] };
}

/// A caller whose calls are followed from some point on: the one history after each of them goes on from what it was then.
#[derive(Drop)]
pub(crate) struct Followed<'h, R: Wait, P: Past> {
    caller: MutatorCaller<'h, R>,
    past: PhantomData<P>,
    // the words that it made are those of the entries since then, and so are the calls that found no room
    pub ghost counts: { counted_on caller.made (made_in (first_calls P.begun)) ≡ counted_on 0 (made_in (first_calls (view_in caller.mutator.inside).own)) },
    pub ghost refuses: { counted_on caller.refusals (refused_in (first_calls P.begun)) ≡ counted_on 0 (refused_in (first_calls (view_in caller.mutator.inside).own)) },
    pub ghost follows: { ∥ Follows (view_in caller.mutator.inside).map P.begun (view_in caller.mutator.inside).own ∥₁ },
    // the map without objects has none of another thread
    pub ghost owns_none: { ∥ KnowsOwn (view_in caller.mutator.inside).own empty ∥₁ },
}

impl<'h, R: Wait, P: Past> Caller for Followed<'h, R, P> {
    ghost use Rattle.std.specs.Prelude.{refl};
    ghost use Rattle.mutator.specs.declared.heap.Heap.{Heap};
    ghost use Rattle.mutator.specs.Callers.{standing_shared};

    ghost Base = { Heap };

    ghost base = { λ s. s.caller.heap.now };

    ghost standing = { λ s. standing_shared (view_in s.caller.mutator.inside).own s.caller.made s.caller.refusals s.caller.last };

    ghost knows = { λ s known. KnowsOwn (view_in s.caller.mutator.inside).own known };

    ghost tells = { λ s t own. ⊥ };

    ghost tells_known = { λ s t known. ⊥ };

    ghost standard = { λ s. refl };

    ghost knows_none = { λ s. s.owns_none };

    ghost fit = { λ s known k. k.0.1 };

    ghost told = { λ s. record { some = s.caller.some; none_free = s.caller.none_free } };

    #[inline(always)]
    fn make_call(&mut self, call: Call) -> Reply {
        self.caller.make_call(call)
    }

    fn full(&self) -> Option<(Census, u8, u16)> {
        self.caller.full()
    }
}

impl<'h, R: Wait, P: Past> Followed<'h, R, P> {
    /// The caller, whose calls are followed from here on.
    pub(crate) fn of(caller: MutatorCaller<'h, R>) -> Followed<'h, R, P>
        requires begun { P.begun ≡ (view_in caller.mutator.inside).own }
        requires settled { ∥ IsSettled (view_in caller.mutator.inside).map (view_in caller.mutator.inside).own ∥₁ }
        requires fresh { (caller.made ≡ 0) × (caller.refusals ≡ 0) }
        ensures caller { result.caller ≡ caller.entry }
    {
        Followed {
            caller,
            past: PhantomData,
        }
    }

    /// The caller, as it is now.
    pub(crate) fn into_caller(self) -> MutatorCaller<'h, R>
        ensures caller { result ≡ self.entry.caller }
        ensures counts { counted_on self.entry.caller.made (made_in (first_calls P.begun)) ≡ counted_on 0 (made_in (first_calls (view_in self.entry.caller.mutator.inside).own)) }
        ensures refuses { counted_on self.entry.caller.refusals (refused_in (first_calls P.begun)) ≡ counted_on 0 (refused_in (first_calls (view_in self.entry.caller.mutator.inside).own)) }
        ensures follows { ∥ Follows (view_in self.entry.caller.mutator.inside).map P.begun (view_in self.entry.caller.mutator.inside).own ∥₁ }
    {
        self.caller
    }
}
