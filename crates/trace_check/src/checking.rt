//! Checking a trace.
ghost use Rattle.std.specs.Prelude.{◌≡◌, ◌<◌, ◌≤◌, ◌+◌, ◌++◌, ◌∷◌, ℕ, [], List, None, Some, IfOk, IfSome, IfNone, MatchBool, length, slice_index, true, false};
ghost use Rattle.script_text.specs.Printing.{IsValid, Rises};
ghost use Rattle.trace_check.specs.declared.traces.Entry.{Entry};
ghost use Rattle.trace_check.specs.declared.traces.Entry.TheVariants as entry;
ghost use Rattle.trace_check.specs.Breaks.{Continues, IsLawfulTrace, IsWhole, NamesNext, TraceBreaksAt};
ghost use Rattle.trace_check.specs.Cursors.{PointAtNext};
ghost use Rattle.trace_check.specs.Progress.{IsAt, IsStepOf, Names, script_of};
ghost use Rattle.trace_check.specs.Steps.{last_alone};
ghost use Rattle.trace_check.specs.Traces.{AreOfThreads, IsOfThreads};
ghost use Rattle.yak_model.specs.Graph.{standard_limits};
ghost use Rattle.yak_model.specs.Spaces.{SpaceState as State};

use crate::cursors::{cursor_at, first_places, next_place};
use crate::rooms::{is_settled, take_step};
use crate::traces::{Entry, Step, TraceText};
use heap_words::MAX_PAGES;
use object_layout::{NoMemory, Reply};
use script_text::{Line, Script};
use std::alloc::Global;
use yak_model::SpaceState;
use yak_model::laws::{agreement, uniqueness};

/// The step of the next line of a number, with a reply, where that line is the next of its thread.
fn take_line(
    lines: &[Line],
    threads: u8,
    cursors: &mut [usize],
    number: u32,
    reply: Reply,
) -> Option<Step>
    requires rise { Rises threads 2 lines.now }
    ensures named { (before : List Entry) → PointAtNext lines.now threads before cursors.old → IfSome result (λ step. Names lines.now before (entry.Said number reply) step) }
    ensures step { IfSome result (λ step. IsStepOf threads step) }
    ensures next { (before : List Entry) → PointAtNext lines.now threads before cursors.old → IfSome result (λ step. PointAtNext lines.now threads (before ++ entry.Said number reply ∷ []) cursors.new) }
    ensures none { (before : List Entry) → PointAtNext lines.now threads before cursors.old → IfNone result (NamesNext lines.now before (entry.Said number reply) → ⊥) }
{
    let Some(i) = cursor_at(lines, cursors, number) else {
        return None;
    };
    let place = cursors[i];
    let line = lines[place];
    cursors[i] = next_place(lines, line.thread, place + 1);
    Some(Step::Said(line.thread, line.call, reply))
}

/// The step that an entry tells, where it names a line in its turn.
fn step_of(lines: &[Line], threads: u8, cursors: &mut [usize], next: Entry) -> Option<Step>
    requires rise { Rises threads 2 lines.now }
    requires thread { IsOfThreads threads next }
    ensures named { (before : List Entry) → PointAtNext lines.now threads before cursors.old → IfSome result (λ step. Names lines.now before next step) }
    ensures step { IfSome result (λ step. IsStepOf threads step) }
    ensures next { (before : List Entry) → PointAtNext lines.now threads before cursors.old → IfSome result (λ step. PointAtNext lines.now threads (before ++ next ∷ []) cursors.new) }
    ensures none { (before : List Entry) → PointAtNext lines.now threads before cursors.old → IfNone result (NamesNext lines.now before next → ⊥) }
{
    match next {
        Entry::Said { line, reply } => take_line(lines, threads, cursors, line, reply),
        Entry::Collected { thread } => Some(Step::Collected(thread)),
    }
}

/// Whether no thread has a line left.
fn all_named(lines: &[Line], cursors: &[usize]) -> bool
    ensures { MatchBool result ((i : ℕ) → i < length cursors.now → length lines.now ≤ slice_index cursors.now i) (((i : ℕ) → i < length cursors.now → length lines.now ≤ slice_index cursors.now i) → ⊥) }
{
    for place in cursors {
        if *place < lines.len() {
            return false;
        }
    }
    true
}

/// Checks one more entry, and gives its step where it goes on. Where it breaks, nothing more can be checked.
fn goes_on(
    lines: &[Line],
    threads: u8,
    pages: u32,
    spaces: &mut SpaceState,
    last: Option<Step>,
    cursors: &mut [usize],
    next: Entry,
) -> Result<Option<Step>, NoMemory>
    requires rise { Rises threads 2 lines.now }
    requires thread { IsOfThreads threads next }
    requires pages { pages ≤ MAX_PAGES }
    requires limits { spaces.old.graph.limits ≡ standard_limits }
    requires threads { length spaces.old.graph.threads ≡ threads }
    ensures goes { (before : List Entry) → IsAt (script_of pages threads lines.now) before spaces.old last cursors.old → IfOk result (λ done. IfSome done (λ step. IsAt (script_of pages threads lines.now) (before ++ next ∷ []) spaces.new (Some step) cursors.new)) }
    ensures breaks { (before : List Entry) → IsAt (script_of pages threads lines.now) before spaces.old last cursors.old → IfOk result (λ done. IfNone done (Continues (script_of pages threads lines.now) before next → ⊥)) }
{
    uniqueness();
    let Some(step) = step_of(lines, threads, cursors, next) else {
        return Ok(None);
    };
    if take_step(spaces, pages, last, step)? {
        Ok(Some(step))
    } else {
        Ok(None)
    }
}

/// Whether all is told: no collection is left without its cause, and each command line is named.
fn is_whole(lines: &[Line], last: Option<Step>, cursors: &[usize]) -> bool
    ensures { (pages threads : ℕ) (entries : List Entry) (s : State) → IsAt (script_of pages threads lines.now) entries s last cursors.now → MatchBool result (IsWhole (script_of pages threads lines.now) entries) (IsWhole (script_of pages threads lines.now) entries → ⊥) }
{
    let settled = is_settled(last);
    let all = all_named(lines, cursors);
    settled && all
}

/// Where a trace breaks of which nothing was checked yet.
fn break_from(
    lines: &[Line],
    threads: u8,
    pages: u32,
    spaces: &mut SpaceState,
    cursors: &mut [usize],
    entries: &[Entry],
) -> Result<Option<u32>, NoMemory>
    requires rise { Rises threads 2 lines.now }
    requires pages { pages ≤ MAX_PAGES }
    requires threads { AreOfThreads threads entries.now }
    requires few { length entries.now < 4294967295 }
    requires at { IsAt (script_of pages threads lines.now) [] spaces.old None cursors.old }
    ensures lawful { IfOk result (λ answer. IfNone answer (IsLawfulTrace (script_of pages threads lines.now) entries.now)) }
    ensures breaks { IfOk result (λ answer. IfSome answer (λ k. TraceBreaksAt (script_of pages threads lines.now) entries.now k)) }
{
    agreement();
    let mut last = None;
    let mut number: u32 = 1;
    'entries: for next in entries {
        let done = goes_on(lines, threads, pages, spaces, last, cursors, *next)?;
        let Some(step) = done else {
            return Ok(Some(number));
        };
        last = Some(step);
        number += 1;
    }
    if is_whole(lines, last, cursors) {
        Ok(None)
    } else {
        Ok(Some(number))
    }
}

/// Where a trace breaks.
fn first_break(alloc: Global, script: &Script, entries: &[Entry]) -> Result<Option<u32>, NoMemory>
    requires valid { IsValid script.now }
    requires threads { AreOfThreads script.now.heap.threads entries.now }
    requires few { length entries.now < 4294967295 }
    ensures lawful { IfOk result (λ answer. IfNone answer (IsLawfulTrace script.now entries.now)) }
    ensures breaks { IfOk result (λ answer. IfSome answer (λ k. TraceBreaksAt script.now entries.now k)) }
{
    let mut spaces = SpaceState::new(alloc, script.threads)?;
    let mut cursors = first_places(alloc, &script.lines, script.threads)?;
    break_from(
        &script.lines,
        script.threads,
        script.pages,
        &mut spaces,
        &mut cursors,
        entries,
    )
}

/// Checks a trace: `None` where it is lawful, and else the first entry that breaks, from 1, or one past the last where all go on
/// and not all is told.
pub fn check(alloc: Global, text: &TraceText) -> Result<Option<u32>, NoMemory>
    requires valid { IsValid text.now.script }
    requires threads { AreOfThreads text.now.script.heap.threads text.now.entries }
    requires few { length text.now.entries < 4294967295 }
    ensures lawful { IfOk result (λ answer. IfNone answer (IsLawfulTrace text.now.script text.now.entries)) }
    ensures breaks { IfOk result (λ answer. IfSome answer (λ k. TraceBreaksAt text.now.script text.now.entries k)) }
    ensures every_lawful { IsLawfulTrace text.now.script text.now.entries → IfOk result (λ answer. answer ≡ None) }
    ensures every_break { (k : ℕ) → TraceBreaksAt text.now.script text.now.entries k → IfOk result (λ answer. answer ≡ Some k) }
{
    uniqueness();
    first_break(alloc, &text.script, &text.entries)
}
