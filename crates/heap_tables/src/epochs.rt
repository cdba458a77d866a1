//! Epochs of a caller.
ghost use Rattle.std.specs.Prelude.{◌≡◌, ℕ, ◌+◌, ◌-◌, ◌<◌};
ghost use Rattle.heap_tables.specs.Epochs.{GrowsBy, IsBegun, IsEnd, Went};
ghost use Rattle.heap_tables.specs.Runs.{KeepsKnown, KnowsSome};

use object_layout::Call;
use yak_model::Caller;

/// Begins an epoch.
///
/// The heap refuses that at its greatest depth alone, at which the caller's thread may not be.
pub fn begin<C: Caller>(caller: &mut C)
    requires some { KnowsSome (C.knows caller.old) }
    requires depth { (C.standing caller.old).own.depth < (C.standing caller.old).limits.depth }
    ensures went { Went C.base C.tells C.tells_known C.standing caller.old caller.new 0 }
    ensures keeps { KeepsKnown (C.knows caller.old) (C.knows caller.new) }
    ensures own { (C.standing caller.new).own ≡ record (C.standing caller.old).own { depth = (C.standing caller.old).own.depth + 1 } }
    ensures list { GrowsBy (IsBegun (C.standing caller.old).thread) (C.standing caller.old).list (C.standing caller.new).list }
{
    let _reply = caller.make_call(Call::Begin);
}

/// Ends the innermost epoch: the objects of its region that are reached from elsewhere move out of it, and its pages are freed.
///
/// The heap refuses that where no epoch is open, so the caller's thread must be in one.
pub fn end<C: Caller>(caller: &mut C)
    requires some { KnowsSome (C.knows caller.old) }
    requires depth { 0 < (C.standing caller.old).own.depth }
    ensures went { Went C.base C.tells C.tells_known C.standing caller.old caller.new 0 }
    ensures keeps { KeepsKnown (C.knows caller.old) (C.knows caller.new) }
    ensures own { (C.standing caller.new).own ≡ record (C.standing caller.old).own { depth = (C.standing caller.old).own.depth - 1 } }
    ensures list { GrowsBy (IsEnd (C.standing caller.old).thread) (C.standing caller.old).list (C.standing caller.new).list }
{
    let _reply = caller.make_call(Call::End);
}
