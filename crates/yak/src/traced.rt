//! Making traces and checking them.
ghost use Rattle.std.specs.Prelude.{◌≡◌, ◌≤◌, ℕ, List, [], IfOk, IfErr, MatchOption, OnErr, length, map, string_bytes};
ghost use Rattle.script_text.specs.Printing.{IsValid};
ghost use Rattle.script_text.specs.Scripts.{IsBadLine};
ghost use Rattle.script_text.specs.Words.{lines};
ghost use Rattle.trace_check.specs.Breaks.{IsLawfulTrace, TraceBreaksAt};
ghost use Rattle.trace_check.specs.Reading.{IsBadScript, IsBadTrace, IsTraceOf};
ghost use Rattle.trace_check.specs.Traces.{Trace as Contents};
ghost use Rattle.yak.specs.Endings.{KeepsNothing, ends_by, input_of, output_of};
ghost use Rattle.yak.specs.Forms.{IsTraced, IsUntraced};
ghost use Rattle.yak.specs.Keeping.{Keeping};
ghost use Rattle.yak.specs.Traced.{AnswersCheck, AnswersTrace, IsTraceText, checks_to, traced_means, traces_to, tracing_means, tracing_to};

use crate::endings::Status;
use crate::forms::{Tracing, read_form};
use crate::plain::{read_input, refusal};
use object_layout::NoMemory;
use script_text::{Bad, ReadError, Script, law_script_or_refusal, read_script};
use std::alloc::{AllocError, Global};
use trace_check::{TraceError, check, law_lawful_or_breaks, print_trace, read_trace, trace};
use yak_io::{INPUT_LIMIT, Sink, Source, write_all};

/// A status, and the text that belongs to it.
#[derive(Drop)]
struct Told {
    status: Status,
    text: Vec<u8>,
}

/// A status of which nothing is written.
fn silent(alloc: Global, status: Status) -> Told
    ensures status { result.status ≡ status }
    ensures text { result.text.items ≡ [] }
{
    Told {
        status,
        text: Vec::new(alloc),
    }
}

/// Tells the first bad line of a script.
fn tell_bad_script(alloc: Global, bad: Bad) -> Told
    ensures makes { (bytes : List ℕ) → IsBadLine bytes bad → traces_to result.status bytes result.text.items }
    ensures checks { (bytes : List ℕ) → IsBadScript (lines bytes) bad → checks_to result.status bytes result.text.items }
{
    match refusal(alloc, bad) {
        Ok(text) => Told {
            status: Status::Refused,
            text,
        },
        Err(_) => silent(alloc, Status::NoMemory),
    }
}

/// The trace of a script's run, as text.
fn trace_of(alloc: Global, script: &Script) -> Result<Vec<u8>, NoMemory>
    requires { IsValid script.now }
    ensures { IfOk result (λ text. IsTraceText script.now text.items) }
{
    let entries = trace(alloc, script)?;
    print_trace(alloc, script, &entries)
}

/// Reads a text as a script, and makes the trace of its run.
fn make(alloc: Global, bytes: &[u8]) -> Told
    requires { length bytes.now ≤ INPUT_LIMIT }
    ensures { traces_to result.status bytes.now result.text.items }
{
    let script = match read_script(alloc, bytes) {
        Ok(script) => script,
        Err(ReadError::Refused(bad)) => return tell_bad_script(alloc, bad),
        Err(ReadError::Memory) => return silent(alloc, Status::NoMemory),
    };
    match trace_of(alloc, &script) {
        Ok(text) => Told {
            status: Status::Done,
            text,
        },
        Err(_) => silent(alloc, Status::NoMemory),
    }
}

/// The line that tells a line that isn't one of a trace.
fn bad_trace_line(alloc: Global, line: u32) -> Result<Vec<u8>, AllocError>
    ensures { IfOk result (λ text. text.items ≡ Rattle.yak.specs.Traced.bad_trace_line line) }
{
    let text = format!(in alloc; "line {line}: bad trace\n")?;
    Ok(text.into_bytes())
}

/// Tells the first line that isn't one of a trace.
fn tell_bad_trace(alloc: Global, line: u32) -> Told
    ensures { (bytes : List ℕ) → IsBadTrace (lines bytes) line → checks_to result.status bytes result.text.items }
{
    match bad_trace_line(alloc, line) {
        Ok(text) => Told {
            status: Status::BadTrace,
            text,
        },
        Err(_) => silent(alloc, Status::NoMemory),
    }
}

/// Tells that a trace is lawful.
fn tell_lawful(alloc: Global) -> Told
    ensures { (bytes : List ℕ) (trace : Contents) → IsTraceOf (lines bytes) trace → IsLawfulTrace trace.script trace.entries → checks_to result.status bytes result.text.items }
{
    match Vec::from_slice(alloc, b"lawful\n") {
        Ok(text) => Told {
            status: Status::Done,
            text,
        },
        Err(_) => silent(alloc, Status::NoMemory),
    }
}

/// The line that tells the entry that breaks a trace.
fn entry_line(alloc: Global, entry: u32) -> Result<Vec<u8>, AllocError>
    ensures { IfOk result (λ text. text.items ≡ Rattle.yak.specs.Traced.entry_line entry) }
{
    let text = format!(in alloc; "entry {entry}\n")?;
    Ok(text.into_bytes())
}

/// Tells the first entry that breaks a trace.
fn tell_break(alloc: Global, entry: u32) -> Told
    ensures { (bytes : List ℕ) (trace : Contents) → IsTraceOf (lines bytes) trace → TraceBreaksAt trace.script trace.entries entry → checks_to result.status bytes result.text.items }
{
    match entry_line(alloc, entry) {
        Ok(text) => Told {
            status: Status::NotLawful,
            text,
        },
        Err(_) => silent(alloc, Status::NoMemory),
    }
}

/// Reads a text as a trace, and checks it.
fn judge(alloc: Global, bytes: &[u8]) -> Told
    requires { length bytes.now ≤ INPUT_LIMIT }
    ensures { checks_to result.status bytes.now result.text.items }
{
    let text = match read_trace(alloc, bytes) {
        Ok(text) => text,
        Err(TraceError::Script(bad)) => return tell_bad_script(alloc, bad),
        Err(TraceError::BadTrace(line)) => return tell_bad_trace(alloc, line),
        Err(TraceError::Memory) => return silent(alloc, Status::NoMemory),
    };
    match check(alloc, &text) {
        Ok(None) => tell_lawful(alloc),
        Ok(Some(entry)) => tell_break(alloc, entry),
        Err(_) => silent(alloc, Status::NoMemory),
    }
}

/// Makes the trace of a text, or checks the text as one.
fn answer(alloc: Global, tracing: Tracing, bytes: &[u8]) -> Told
    requires { length bytes.now ≤ INPUT_LIMIT }
    ensures { tracing_to tracing result.status bytes.now result.text.items }
{
    match tracing {
        Tracing::Make => make(alloc, bytes),
        Tracing::Check => judge(alloc, bytes),
    }
}

/// Does all but the writing.
#[tactic(auto, using(crate::proofs::Tracings::of_bytes))]
fn prepare<S: Source>(alloc: Global, tracing: Tracing, source: &mut S) -> Told
    ensures { tracing_means tracing result.status
        (input_of (S.left source.old) (S.left source.new) (S.faults source.old) (S.faults source.new)) result.text.items }
{
    match read_input(alloc, source) {
        Ok(bytes) => answer(alloc, tracing, &bytes),
        Err(status) => silent(alloc, status),
    }
}

/// Makes a trace or checks one, and says how that ended.
fn written<S: Source, K: Sink>(
    alloc: Global,
    tracing: Tracing,
    source: &mut S,
    sink: &mut K,
) -> Status
    ensures { (kept : Keeping) → KeepsNothing kept → ends_by (traced_means tracing) result
        (input_of (S.left source.old) (S.left source.new) (S.faults source.old) (S.faults source.new))
        (output_of (K.written sink.old) (K.written sink.new) (K.faults sink.old) (K.faults sink.new)) kept }
{
    let told = prepare(alloc, tracing, source);
    if write_all(sink, &told.text).is_err() {
        return Status::WriteFault;
    }
    told.status
}

/// Makes a trace or checks one, and gives the number of the status with which that ended.
pub fn traced<S: Source, K: Sink>(
    alloc: Global,
    tracing: Tracing,
    source: &mut S,
    sink: &mut K,
) -> u8
    ensures makes { tracing ≡ Tracing.Make → (kept : Keeping) → KeepsNothing kept → AnswersTrace result
        (input_of (S.left source.old) (S.left source.new) (S.faults source.old) (S.faults source.new))
        (output_of (K.written sink.old) (K.written sink.new) (K.faults sink.old) (K.faults sink.new)) kept }
    ensures checks { tracing ≡ Tracing.Check → (kept : Keeping) → KeepsNothing kept → AnswersCheck result
        (input_of (S.left source.old) (S.left source.new) (S.faults source.old) (S.faults source.new))
        (output_of (K.written sink.old) (K.written sink.new) (K.faults sink.old) (K.faults sink.new)) kept }
{
    law_script_or_refusal();
    law_lawful_or_breaks();
    written(alloc, tracing, source, sink) as u8
}

/// What the words ask for of traces.
pub fn asked_tracing(args: &[String]) -> Option<Tracing>
    ensures { MatchOption result (IsUntraced (map string_bytes args.now)) (λ tracing. IsTraced (map string_bytes args.now) tracing) }
{
    let Some(form) = read_form(args) else {
        return None;
    };
    form.tracing()
}
