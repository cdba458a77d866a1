//! One thread's way to a heap, whatever kind of heap it is.
ghost use Rattle.std.specs.Prelude.{◌≡◌, ℕ};
ghost use Rattle.std.specs.FinMap.{empty};
ghost use Rattle.object_layout.specs.Calls.{IsCall};
ghost use Rattle.yak_model.specs.Graph.{Thread, standard_limits};
ghost use Rattle.yak_model.specs.Private.{FitPages, KnownObjects};
ghost use Rattle.yak_model.specs.Standing.{Counted, MovesKnown, Standing, Stays, TellsLast};

use object_layout::{Call, Census, Reply};

/// One thread's way to a heap.
///
/// It stands for what the thread itself can tell: its stack, depth and number of objects made, what it counts of its calls,
/// and the maps of objects that it alone knows. What it told of the other threads stays told.
pub trait Caller {
    // the type of all else that the caller stands for
    ghost Base: { Type 0 };

    // all else that the caller stands for, which no call changes
    ghost base: { Self → Base };

    // what the caller can tell of its own thread, and what it counts
    ghost standing: { Self → Standing };

    // whether the caller knows a map of objects that its thread alone knows
    ghost knows: { Self → KnownObjects → Type 0 };

    // whether it tells the stack, depth and number made of another thread
    ghost tells: { Self → ℕ → Thread → Type 0 };

    // whether it tells a map of objects that another thread alone knows
    ghost tells_known: { Self → ℕ → KnownObjects → Type 0 };

    /// Makes a call and gives its reply.
    fn make_call(&mut self, call: Call) -> Reply
        requires { IsCall call }
        ensures stays { Stays base tells tells_known self.old self.new }
        ensures counted { Counted (standing self.old) call result (standing self.new) }
        ensures known { (known : KnownObjects) → knows self.old known → MovesKnown (standing self.old) known call result (standing self.new).own (knows self.new) };

    /// The census, the depth and the words asked for of the last call that was answered by `OutOfHeap`.
    fn full(&self) -> Option<(Census, u8, u16)>
        ensures { result ≡ (standing self.now).last };

    // the limits are those of every heap
    ghost standard: { (s : Self) → (standing s).limits ≡ standard_limits };

    // the map without objects is known
    ghost knows_none: { (s : Self) → ∥ knows s empty ∥₁ };

    // the objects that are known fit pages
    ghost fit: { (s : Self) (known : KnownObjects) → knows s known → FitPages (standing s).limits known };

    // what is told of the last call that was answered by `OutOfHeap` is so
    ghost told: { (s : Self) → TellsLast (standing s) };
}
