//! The top call for words of all forms.
ghost use Rattle.std.specs.Prelude.{◌≡◌, ◌≤◌, map, [], IfOk, MatchBool, OnErr, length, string_bytes};
ghost use Rattle.yak_io.specs.declared.TheConstants.{INPUT_LIMIT};
ghost use Rattle.yak.specs.Answers.{Answers};
ghost use Rattle.yak.specs.Endings.{input_of, output_of, ends_by, KeepsNothing};
ghost use Rattle.yak.specs.Forms.{IsReading, IsShared, IsThreads, IsTraced, IsUnshared, IsUntraced};
ghost use Rattle.yak.specs.declared.forms.Options.{Options};
ghost use Rattle.yak.specs.declared.forms.Tracing.TheVariants.{Check, Make};
ghost use Rattle.yak.specs.Keeping.{kept_by, nothing, shared};
ghost use Rattle.yak.specs.SharedCounts.{AnswersShared};
ghost use Rattle.yak.specs.Threaded.{AnswersThreads, runs_to, threads_mean};
ghost use Rattle.yak.specs.Traced.{AnswersCheck, AnswersTrace};

use crate::endings::Status;
use crate::forms::read_form;
use crate::plain::{KeptHeap, Prepared, plain, read_input, refused, stopped};
use crate::shared::{asked_count, count_shared};
use crate::summaries::reply_lines;
use heap_words::{Image, Words};
use object_layout::NoMemory;
use safepoint_gate::Finished;
use script_runner::run_threads;
use script_text::{ReadError, law_script_or_refusal, read_script};
use std::alloc::Global;
use std::sync::Wait;
use std::thread::Threads;
use yak_io::{Brake, Sink, Source, write_all};

/// A run that wrote a text and left a heap that threads shared.
pub fn done(text: Result<Vec<u8>, NoMemory>, alloc: Global, finished: Finished) -> Prepared
    ensures done { IfOk text (λ bytes. (result.status ≡ Status.Done) × (result.text.items ≡ bytes.items) × (kept_by ⟦<Image as Words>⟧.words result.kept ≡ shared finished.seat.me.0)) }
    ensures none { OnErr text ((result.status ≡ Status.NoMemory) × (result.text.items ≡ []) × (kept_by ⟦<Image as Words>⟧.words result.kept ≡ nothing)) }
{
    match text {
        Ok(text) => Prepared {
            status: Status::Done,
            text,
            kept: KeptHeap::Shared(finished),
        },
        Err(_) => stopped(alloc, Status::NoMemory),
    }
}

/// Reads a text, and runs it in threads.
fn answer<R: Threads + Wait + Sync, B: Brake + Sync>(
    rt: &R,
    alloc: Global,
    bytes: &[u8],
    brake: &B,
) -> Prepared
    requires { length bytes.now ≤ INPUT_LIMIT }
    ensures { runs_to result.status bytes.now result.text.items (kept_by ⟦<Image as Words>⟧.words result.kept) }
{
    let script = match read_script(alloc, bytes) {
        Ok(script) => script,
        Err(ReadError::Refused(bad)) => return refused(alloc, bad),
        Err(ReadError::Memory) => return stopped(alloc, Status::NoMemory),
    };
    match run_threads(rt, alloc, &script, brake) {
        Ok(threaded) => {
            let text = reply_lines(alloc, &script.lines, &threaded.replies);
            done(text, alloc, threaded.finished)
        }
        Err(_) => stopped(alloc, Status::NoMemory),
    }
}

/// Does all of a run in threads but the writing.
fn prepare<R: Threads + Wait + Sync, S: Source, B: Brake + Sync>(
    rt: &R,
    alloc: Global,
    source: &mut S,
    brake: &B,
) -> Prepared
    ensures later { S.faults source.old ≤ S.faults source.new }
    ensures text { threads_mean result.status
        (input_of (S.left source.old) (S.left source.new) (S.faults source.old) (S.faults source.new)) result.text.items (kept_by ⟦<Image as Words>⟧.words result.kept) }
{
    match read_input(alloc, source) {
        Ok(bytes) => answer(rt, alloc, &bytes, brake),
        Err(status) => stopped(alloc, status),
    }
}

/// Runs a script in threads, and says how that ended.
fn written<R: Threads + Wait + Sync, S: Source, K: Sink, B: Brake + Sync>(
    rt: &R,
    alloc: Global,
    source: &mut S,
    sink: &mut K,
    brake: &B,
    kept: &mut KeptHeap,
) -> Status
    requires { KeepsNothing (kept_by ⟦<Image as Words>⟧.words kept.old) }
    ensures { ends_by threads_mean result
        (input_of (S.left source.old) (S.left source.new) (S.faults source.old) (S.faults source.new))
        (output_of (K.written sink.old) (K.written sink.new) (K.faults sink.old) (K.faults sink.new)) (kept_by ⟦<Image as Words>⟧.words kept.new) }
{
    let prepared = prepare(rt, alloc, source, brake);
    if write_all(sink, &prepared.text).is_err() {
        return Status::WriteFault;
    }
    *kept = prepared.kept;
    prepared.status
}

/// Runs a script in threads, and gives the number of the status with which that ended.
fn threads<R: Threads + Wait + Sync, S: Source, K: Sink, B: Brake + Sync>(
    rt: &R,
    alloc: Global,
    source: &mut S,
    sink: &mut K,
    brake: &B,
    kept: &mut KeptHeap,
) -> u8
    requires { KeepsNothing (kept_by ⟦<Image as Words>⟧.words kept.old) }
    ensures { AnswersThreads result
        (input_of (S.left source.old) (S.left source.new) (S.faults source.old) (S.faults source.new))
        (output_of (K.written sink.old) (K.written sink.new) (K.faults sink.old) (K.faults sink.new)) (kept_by ⟦<Image as Words>⟧.words kept.new) }
{
    law_script_or_refusal();
    written(rt, alloc, source, sink, brake, kept) as u8
}

/// Whether the words ask for a run in threads.
#[tactic(auto, using(crate::proofs::Unasked::threads_form, crate::proofs::Unasked::unthreaded, crate::proofs::Unasked::none_threads))]
pub(crate) fn asks_threads(args: &[String]) -> bool
    ensures { MatchBool result (IsThreads (map string_bytes args.now)) (IsThreads (map string_bytes args.now) → ⊥) }
{
    match read_form(args) {
        Some(form) => form.is_threads(),
        None => false,
    }
}

/// Does what the words ask for, and gives the number of the status with which that ended.
///
/// `threads` reads the source's bytes as a script and runs it, each thread's commands in order by a worker in a thread of its own,
/// and writes a line for the reply to each command, in the order of the script. Before each command the brake is asked. `count` with
/// two or more workers, or with `--feed`, counts the words of the source's bytes, each worker in a thread of its own, and writes a line
/// for each word. The tasks are dealt out to the workers in turn, or with `--feed` each worker takes the next one from a queue. Before
/// each task of a worker the brake is asked. All other words are answered as `plain` does. Nothing may be kept at the call; afterwards
/// the heap is kept where the status is 0, and where such a count ran out of heap.
pub fn run<R: Threads + Wait + Sync, S: Source, K: Sink, B: Brake + Sync>(
    rt: &R,
    alloc: Global,
    args: &[String],
    source: &mut S,
    sink: &mut K,
    brake: &B,
    kept: &mut KeptHeap,
) -> u8
    requires { KeepsNothing (kept_by ⟦<Image as Words>⟧.words kept.old) }
    ensures threads { IsThreads (map string_bytes args.now) → AnswersThreads result
        (input_of (S.left source.old) (S.left source.new) (S.faults source.old) (S.faults source.new))
        (output_of (K.written sink.old) (K.written sink.new) (K.faults sink.old) (K.faults sink.new)) (kept_by ⟦<Image as Words>⟧.words kept.new) }
    ensures shared { (options : Options) → IsShared (map string_bytes args.now) options → AnswersShared options result
        (input_of (S.left source.old) (S.left source.new) (S.faults source.old) (S.faults source.new))
        (output_of (K.written sink.old) (K.written sink.new) (K.faults sink.old) (K.faults sink.new)) (kept_by ⟦<Image as Words>⟧.words kept.new) }
    ensures answers { (IsThreads (map string_bytes args.now) → ⊥) → IsUnshared (map string_bytes args.now) → IsUntraced (map string_bytes args.now) → Answers result (map string_bytes args.now)
        (input_of (S.left source.old) (S.left source.new) (S.faults source.old) (S.faults source.new))
        (output_of (K.written sink.old) (K.written sink.new) (K.faults sink.old) (K.faults sink.new)) (kept_by ⟦<Image as Words>⟧.words kept.new) }
    ensures traces { IsTraced (map string_bytes args.now) Make → AnswersTrace result
        (input_of (S.left source.old) (S.left source.new) (S.faults source.old) (S.faults source.new))
        (output_of (K.written sink.old) (K.written sink.new) (K.faults sink.old) (K.faults sink.new)) (kept_by ⟦<Image as Words>⟧.words kept.new) }
    ensures checks { IsTraced (map string_bytes args.now) Check → AnswersCheck result
        (input_of (S.left source.old) (S.left source.new) (S.faults source.old) (S.faults source.new))
        (output_of (K.written sink.old) (K.written sink.new) (K.faults sink.old) (K.faults sink.new)) (kept_by ⟦<Image as Words>⟧.words kept.new) }
    ensures unread { (IsReading (map string_bytes args.now) → ⊥) → (IsThreads (map string_bytes args.now) → ⊥) → IsUnshared (map string_bytes args.now) → IsUntraced (map string_bytes args.now) → source.new ≡ source.old }
{
    if asks_threads(args) {
        return threads(rt, alloc, source, sink, brake, kept);
    }
    if let Some(options) = asked_count(args) {
        return count_shared(rt, alloc, options, source, sink, brake, kept);
    }
    plain(alloc, args, source, sink, kept)
}
