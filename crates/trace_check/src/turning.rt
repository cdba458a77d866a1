//! Steps of the plain machine of spaces.
ghost use Rattle.std.specs.Prelude.{◌≡◌, ◌≢◌, ℕ, Bool, IfOk, MatchBool, true, false, length};
ghost use Rattle.object_layout.specs.Calls.{IsCall};
ghost use Rattle.object_layout.specs.declared.calls.Call.TheVariants as asked;
ghost use Rattle.object_layout.specs.declared.replies.Reply.TheVariants as said;
ghost use Rattle.yak_model.specs.Graph.{IsThread};
ghost use Rattle.yak_model.specs.declared.history.Entry.TheVariants.{Collected, Said};
ghost use Rattle.yak_model.specs.Machine.{CanTurn};
ghost use Rattle.yak_model.specs.Spaces.{Turns};
ghost use Rattle.trace_check.specs.Steps.{IsPossible, entry_of, thread_of};

use crate::traces::Step;
use object_layout::{Call, NoMemory, Refusal, Reply};
use yak_model::SpaceState;
use yak_model::laws::uniqueness;

/// Whether a reply is that to a tight end.
pub(crate) fn is_tight(reply: Reply) -> bool
    ensures ended { (moved : ℕ) (tight : Bool) → reply ≡ said.Ended moved tight → result ≡ tight }
    ensures tight { MatchBool result ((moved : ℕ) × (reply ≡ said.Ended moved true)) ((moved : ℕ) → reply ≡ said.Ended moved true → ⊥) }
{
    matches!(reply, Reply::Ended { tight: true, .. })
}

/// Whether two replies are the same.
fn is_same(reply: Reply, other: Reply) -> bool
    ensures { MatchBool result (reply ≡ other) (reply ≢ other) }
{
    reply == other
}

/// Ends the innermost epoch of a thread where the reply is right. Where it isn't, the state is of no use.
fn turn_end(spaces: &mut SpaceState, thread: u8, reply: Reply) -> Result<bool, NoMemory>
    requires { IsThread spaces.old.graph thread }
    ensures allowed { IfOk result (λ done. done ≡ true → Turns spaces.old (Said thread asked.End reply) spaces.new) }
    ensures denied { IfOk result (λ done. done ≡ false → CanTurn spaces.old (Said thread asked.End reply) → ⊥) }
    ensures threads { length spaces.new.graph.threads ≡ length spaces.old.graph.threads }
{
    uniqueness();
    let tight = is_tight(reply);
    Ok(match spaces.end(thread, tight)? {
        Some(moved) => is_same(reply, Reply::Ended { moved, tight }),
        None => is_same(reply, Reply::Refused(Refusal::NoEpoch)),
    })
}

/// Collects the control space where the reply is right. Where it isn't, the state is of no use.
fn turn_collect(spaces: &mut SpaceState, thread: u8, reply: Reply) -> Result<bool, NoMemory>
    requires { IsThread spaces.old.graph thread }
    ensures allowed { IfOk result (λ done. done ≡ true → Turns spaces.old (Said thread asked.Collect reply) spaces.new) }
    ensures denied { IfOk result (λ done. done ≡ false → CanTurn spaces.old (Said thread asked.Collect reply) → ⊥) }
    ensures threads { length spaces.new.graph.threads ≡ length spaces.old.graph.threads }
{
    spaces.collect()?;
    Ok(reply == Reply::Ok)
}

/// Makes a call where the reply is right. Where it isn't, the state is of no use.
fn turn_call(
    spaces: &mut SpaceState,
    thread: u8,
    call: Call,
    reply: Reply,
) -> Result<bool, NoMemory>
    requires thread { IsThread spaces.old.graph thread }
    requires number { IsCall call }
    ensures allowed { IfOk result (λ done. done ≡ true → Turns spaces.old (Said thread call reply) spaces.new) }
    ensures denied { IfOk result (λ done. done ≡ false → CanTurn spaces.old (Said thread call reply) → ⊥) }
    ensures threads { length spaces.new.graph.threads ≡ length spaces.old.graph.threads }
{
    match call {
        Call::End => turn_end(spaces, thread, reply),
        Call::Collect => turn_collect(spaces, thread, reply),
        _ => spaces.call(thread, call, reply),
    }
}

/// Makes a step where the state allows it. Where it doesn't, the state is of no use.
pub(crate) fn turn(spaces: &mut SpaceState, step: Step) -> Result<bool, NoMemory>
    requires thread { IsThread spaces.old.graph (thread_of step) }
    requires number { IsPossible step }
    ensures allowed { IfOk result (λ done. done ≡ true → Turns spaces.old (entry_of step) spaces.new) }
    ensures denied { IfOk result (λ done. done ≡ false → CanTurn spaces.old (entry_of step) → ⊥) }
    ensures threads { length spaces.new.graph.threads ≡ length spaces.old.graph.threads }
{
    match step {
        Step::Said(thread, call, reply) => turn_call(spaces, thread, call, reply),
        Step::Collected(_) => {
            spaces.collect()?;
            Ok(true)
        }
    }
}
