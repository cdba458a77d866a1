//! What may follow a step, as far as collections and the room in the pages go.
ghost use Rattle.std.specs.Prelude.{◌≡◌, ◌+◌, ◌*◌, ◌<◌, ◌≤◌, ℕ, [], ◌∷◌, Some, IfOk, IfNone, IfSome, IsTrue, ◌↔◌, MatchBool, length, true, false};
ghost use Rattle.object_layout.specs.declared.calls.Call.TheVariants as asked;
ghost use Rattle.object_layout.specs.declared.replies.Reply.TheVariants as said;
ghost use Rattle.heap_words.specs.declared.TheConstants.{MAX_PAGES};
ghost use Rattle.yak_model.specs.Graph.{IsThread, standard_limits, thread_of};
ghost use Rattle.yak_model.specs.Lawful.{BeginsWithCause, EndsAsked, EndsCollected, HasWords, IsCensus, IsReplyLawful, open_regions, present_words};
ghost use Rattle.yak_model.specs.Machine.{CanTurn};
ghost use Rattle.yak_model.specs.Spaces.{Escapes, Turns, innermost};
ghost use Rattle.trace_check.specs.Breaks.{HasRoom};
ghost use Rattle.trace_check.specs.Steps.{IsCaused, IsPossible, MayFollow, entry_of, last_alone};

use crate::traces::Step;
use crate::turning::{is_tight, turn};
use object_layout::{Call, NoMemory, PAGE_WORDS, Reply};
use yak_model::SpaceState;

/// Whether a step is a call of the thread that makes collections, and wasn't refused: what follows a collection inside a call.
fn is_cause(step: Step, thread: u8) -> bool
    ensures { MatchBool result (BeginsWithCause (entry_of step ∷ []) thread) (BeginsWithCause (entry_of step ∷ []) thread → ⊥) }
{
    match step {
        Step::Said(caller, Call::New(_), Reply::Ok | Reply::OutOfHeap) => caller == thread,
        Step::Said(caller, Call::End, Reply::Ended { .. }) => caller == thread,
        _ => false,
    }
}

/// The thread that made the last step, where that is a collection inside a call.
fn inside(last: Option<Step>) -> Option<u8>
    ensures none { IfNone result ((t : ℕ) → EndsCollected (last_alone last) t → ⊥) }
    ensures some { IfSome result (λ thread. EndsCollected (last_alone last) thread) }
    ensures only { IfSome result (λ thread. (t : ℕ) → EndsCollected (last_alone last) t → t ≡ thread) }
{
    match last {
        Some(Step::Collected(thread)) => Some(thread),
        _ => None,
    }
}

/// Whether a step may follow the last one: after a collection that was made inside a call only that call may.
fn is_caused(last: Option<Step>, step: Step) -> bool
    ensures { MatchBool result (IsCaused last step) (IsCaused last step → ⊥) }
{
    match inside(last) {
        Some(thread) => is_cause(step, thread),
        None => true,
    }
}

/// Whether the last step was a collection that the thread made inside a call.
fn ends_collected(last: Option<Step>, thread: u8) -> bool
    ensures { MatchBool result (EndsCollected (last_alone last) thread) (EndsCollected (last_alone last) thread → ⊥) }
{
    match last {
        Some(Step::Collected(caller)) => caller == thread,
        _ => false,
    }
}

/// Whether the last step is no collection inside a call, which would lack that call.
pub(crate) fn is_settled(last: Option<Step>) -> bool
    ensures { MatchBool result ((t : ℕ) → EndsCollected (last_alone last) t → ⊥) (((t : ℕ) → EndsCollected (last_alone last) t → ⊥) → ⊥) }
{
    match inside(last) {
        Some(_) => false,
        None => true,
    }
}

/// Whether a call is a collection that was made.
fn is_collected(call: Call, reply: Reply) -> bool
    ensures { MatchBool result ((call ≡ asked.Collect) × (reply ≡ said.Ok)) ((call ≡ asked.Collect) × (reply ≡ said.Ok) → ⊥) }
{
    call == Call::Collect && reply == Reply::Ok
}

/// Whether a step is a collection that was asked for.
fn is_asked(step: Step) -> bool
    ensures { MatchBool result (EndsAsked (entry_of step ∷ [])) (EndsAsked (entry_of step ∷ []) → ⊥) }
{
    match step {
        Step::Said(_, call, reply) => is_collected(call, reply),
        Step::Collected(_) => false,
    }
}

/// Whether the last step was a collection that was asked for.
fn ends_asked(last: Option<Step>) -> bool
    ensures { MatchBool result (EndsAsked (last_alone last)) (EndsAsked (last_alone last) → ⊥) }
{
    match last {
        Some(step) => is_asked(step),
        None => false,
    }
}

/// The words of so many pages.
fn page_words(pages: u32) -> u64
    ensures { result ≡ PAGE_WORDS * pages }
{
    u64::from(PAGE_WORDS) * u64::from(pages)
}

/// Whether the heap is as full as it is where a new object finds no room.
fn is_full(spaces: &SpaceState, pages: u32) -> bool
    requires limits { spaces.now.graph.limits ≡ standard_limits }
    requires pages { pages ≤ MAX_PAGES }
    ensures { IsTrue result ↔ (spaces.now.graph.limits.page * pages ≤ 2 * present_words spaces.now + spaces.now.graph.limits.page * (open_regions spaces.now + 1)) }
{
    let present = spaces.control_words() + spaces.region_words();
    page_words(pages) <= 2 * present + page_words(spaces.open_regions() + 1)
}

/// Whether the heap is as short of pages as it is where an end is tight.
fn is_short(spaces: &SpaceState, pages: u32, thread: u8) -> Result<bool, NoMemory>
    requires limits { spaces.now.graph.limits ≡ standard_limits }
    requires pages { pages ≤ MAX_PAGES }
    requires thread { IsThread spaces.now.graph thread }
    requires open_epoch { 0 < (thread_of spaces.now.graph thread).depth }
    ensures { IfOk result (λ short. IsTrue short ↔ ((escaped : ℕ) × HasWords spaces.now (Escapes spaces.now thread (innermost spaces.now.graph thread)) escaped
        × (spaces.now.graph.limits.page * pages < (2 * present_words spaces.now + 2 * escaped) + 2 * spaces.now.graph.limits.page * (open_regions spaces.now + 1)))) }
{
    let present = spaces.control_words() + spaces.region_words();
    let escaped = spaces.escape_words(thread)?;
    Ok(page_words(pages) < 2 * present + 2 * escaped + 2 * page_words(spaces.open_regions() + 1))
}

/// Whether three numbers of pages are those that a census may tell.
fn is_census(
    spaces: &SpaceState,
    pages: u32,
    last: Option<Step>,
    free: u32,
    region: u32,
    control: u32,
) -> bool
    requires { spaces.now.graph.limits ≡ standard_limits }
    ensures { MatchBool result (IsCensus pages (last_alone last) spaces.now free region control) (IsCensus pages (last_alone last) spaces.now free region control → ⊥) }
{
    let in_control = spaces.control_words();
    let in_regions = spaces.region_words();
    let all = u64::from(free) + u64::from(region) + u64::from(control);
    all == u64::from(pages)
        && in_control <= page_words(control)
        && in_regions <= page_words(region)
        && page_words(region) <= 2 * in_regions + page_words(spaces.open_regions())
        && (!ends_asked(last) || page_words(control) <= 2 * in_control + page_words(1))
}

/// Whether a reply to a thread may come after the last step, as far as the room in the pages goes.
fn has_room_for(
    spaces: &SpaceState,
    pages: u32,
    last: Option<Step>,
    thread: u8,
    reply: Reply,
) -> Result<bool, NoMemory>
    requires limits { spaces.now.graph.limits ≡ standard_limits }
    requires pages { pages ≤ MAX_PAGES }
    requires thread { IsThread spaces.now.graph thread }
    requires open_epoch { (moved : ℕ) → reply ≡ said.Ended moved true → 0 < (thread_of spaces.now.graph thread).depth }
    ensures { IfOk result (λ may. MatchBool may (IsReplyLawful pages (last_alone last) spaces.now thread reply) (IsReplyLawful pages (last_alone last) spaces.now thread reply → ⊥)) }
{
    match reply {
        Reply::OutOfHeap => Ok(ends_collected(last, thread) && is_full(spaces, pages)),
        Reply::Ended { tight: true, .. } => {
            Ok(ends_collected(last, thread) && is_short(spaces, pages, thread)?)
        }
        Reply::Pages {
            free,
            region,
            control,
        } => Ok(is_census(spaces, pages, last, free, region, control)),
        _ => Ok(true),
    }
}

/// Whether a step may come after the last one, as far as the room in the pages goes.
fn has_room(
    spaces: &SpaceState,
    pages: u32,
    last: Option<Step>,
    step: Step,
) -> Result<bool, NoMemory>
    requires limits { spaces.now.graph.limits ≡ standard_limits }
    requires pages { pages ≤ MAX_PAGES }
    requires thread { IsThread spaces.now.graph (Rattle.trace_check.specs.Steps.thread_of step) }
    ensures { IfOk result (λ may. MatchBool may (HasRoom pages (last_alone last) spaces.now (entry_of step)) (HasRoom pages (last_alone last) spaces.now (entry_of step) → CanTurn spaces.now (entry_of step) → ⊥)) }
{
    match step {
        Step::Said(thread, _, reply) => {
            if is_tight(reply) && spaces.depth(thread) == 0 {
                return Ok(false);
            }
            has_room_for(spaces, pages, last, thread, reply)
        }
        Step::Collected(_) => Ok(true),
    }
}

/// Makes a step where it may come after the last one. Where it may not, the state is of no use.
pub(crate) fn take_step(
    spaces: &mut SpaceState,
    pages: u32,
    last: Option<Step>,
    step: Step,
) -> Result<bool, NoMemory>
    requires limits { spaces.old.graph.limits ≡ standard_limits }
    requires pages { pages ≤ MAX_PAGES }
    requires thread { IsThread spaces.old.graph (Rattle.trace_check.specs.Steps.thread_of step) }
    requires number { IsPossible step }
    ensures follows { IfOk result (λ done. done ≡ true → MayFollow pages last spaces.old step) }
    ensures turns { IfOk result (λ done. done ≡ true → Turns spaces.old (entry_of step) spaces.new) }
    ensures denied { IfOk result (λ done. done ≡ false → MayFollow pages last spaces.old step → CanTurn spaces.old (entry_of step) → ⊥) }
    ensures threads { length spaces.new.graph.threads ≡ length spaces.old.graph.threads }
{
    if !is_caused(last, step) || !has_room(spaces, pages, last, step)? {
        return Ok(false);
    }
    turn(spaces, step)
}
