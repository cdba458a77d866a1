//! Counts by workers with threads of their own.
ghost use Rattle.std.specs.Prelude.{◌≡◌, ◌*◌, ◌≤◌, IfErr, IfOk, MatchOption, false, length, map, string_bytes};
ghost use Rattle.heap_words.specs.Map.{IsAreas, page_words};
ghost use Rattle.yak_model.specs.Room.{least_room};
ghost use Rattle.yak_model.specs.Texts.{counts_of, words_of};
ghost use Rattle.yak_io.specs.declared.TheConstants.{INPUT_LIMIT};
ghost use Rattle.group_jobs.specs.LongWords.{has_long_word};
ghost use Rattle.group_jobs.specs.Shared.{TellsWhyShared};
ghost use Rattle.yak.specs.Endings.{input_of, output_of, ends_by, KeepsNothing};
ghost use Rattle.yak.specs.Forms.{IsShared, IsUnshared};
ghost use Rattle.yak.specs.Keeping.{kept_by};
ghost use Rattle.yak.specs.SharedCounts.{AnswersShared, IsCountedBy, shares_mean, shares_to, size_of_heap};

use crate::endings::Status;
use crate::forms::{Options, read_form};
use crate::plain::{KeptHeap, Prepared, read_input, stopped, too_long};
use crate::threaded::done;
use group_jobs::{CountError, Counts, Fed, count_fed, count_many, long_word, print_counts};
use heap_words::{Image, Words};
use safepoint_gate::Finished;
use std::alloc::Global;
use std::sync::Wait;
use std::thread::Threads;
use yak_io::{Brake, Sink, Source, write_all};

/// The counts of a text by the workers that were asked for: with fixed shares of the tasks, or with tasks from a queue.
fn count_tasks<R: Threads + Wait + Sync, B: Brake + Sync>(
    rt: &R,
    alloc: Global,
    options: Options,
    bytes: &[u8],
    brake: &B,
) -> Result<Counts, CountError<Finished>>
    requires size { IsAreas (size_of_heap options) }
    requires lines { 1 ≤ options.task }
    requires short { length bytes.now ≤ INPUT_LIMIT }
    requires words { has_long_word bytes.now ≡ false }
    ensures list { IfOk result (λ counts. counts.list.items ≡ counts_of (words_of bytes.now)) }
    ensures counted { IfOk result (λ counts. IsCountedBy options.feed (size_of_heap options) options.task bytes.now counts.finished.seat.me.0) }
    ensures room { IfOk result (λ _. least_room (words_of bytes.now) ≤ page_words (size_of_heap options) * options.pages) }
    ensures why { IfErr result (λ error. TellsWhyShared (size_of_heap options) options.task bytes.now error) }
{
    let Options {
        workers,
        task,
        pages,
        feed,
    } = options;
    let workers = workers as u8;
    if feed {
        let Fed {
            list,
            taken: _,
            finished,
        } = count_fed(rt, alloc, pages, workers, task, bytes, brake)?;
        return Ok(Counts { list, finished });
    }
    count_many(rt, alloc, pages, workers, task, bytes, brake)
}

/// Counts the words of a text by the workers that were asked for.
fn answer<R: Threads + Wait + Sync, B: Brake + Sync>(
    rt: &R,
    alloc: Global,
    options: Options,
    bytes: &[u8],
    brake: &B,
) -> Prepared
    requires size { IsAreas (size_of_heap options) }
    requires lines { 1 ≤ options.task }
    requires short { length bytes.now ≤ INPUT_LIMIT }
    ensures { shares_to options result.status bytes.now result.text.items (kept_by ⟦<Image as Words>⟧.words result.kept) }
{
    if let Some(line) = long_word(bytes) {
        return too_long(alloc, line);
    }
    match count_tasks(rt, alloc, options, bytes, brake) {
        Ok(counts) => {
            let text = print_counts(alloc, &counts.list);
            done(text, alloc, counts.finished)
        }
        Err(CountError::OutOfHeap(_, finished)) => Prepared {
            status: Status::OutOfHeap,
            text: Vec::new(alloc),
            kept: KeptHeap::Shared(finished),
        },
        Err(CountError::Memory) => stopped(alloc, Status::NoMemory),
    }
}

/// Does all of such a count but the writing.
fn prepare<R: Threads + Wait + Sync, S: Source, B: Brake + Sync>(
    rt: &R,
    alloc: Global,
    options: Options,
    source: &mut S,
    brake: &B,
) -> Prepared
    requires size { IsAreas (size_of_heap options) }
    requires lines { 1 ≤ options.task }
    ensures { shares_mean options result.status
        (input_of (S.left source.old) (S.left source.new) (S.faults source.old) (S.faults source.new)) result.text.items (kept_by ⟦<Image as Words>⟧.words result.kept) }
{
    match read_input(alloc, source) {
        Ok(bytes) => answer(rt, alloc, options, &bytes, brake),
        Err(status) => stopped(alloc, status),
    }
}

/// Counts the words of a source's bytes by the workers that were asked for, and says how that ended.
fn written<R: Threads + Wait + Sync, S: Source, K: Sink, B: Brake + Sync>(
    rt: &R,
    alloc: Global,
    options: Options,
    source: &mut S,
    sink: &mut K,
    brake: &B,
    kept: &mut KeptHeap,
) -> Status
    requires size { IsAreas (size_of_heap options) }
    requires lines { 1 ≤ options.task }
    requires nothing { KeepsNothing (kept_by ⟦<Image as Words>⟧.words kept.old) }
    ensures { ends_by (shares_mean options) result
        (input_of (S.left source.old) (S.left source.new) (S.faults source.old) (S.faults source.new))
        (output_of (K.written sink.old) (K.written sink.new) (K.faults sink.old) (K.faults sink.new)) (kept_by ⟦<Image as Words>⟧.words kept.new) }
{
    let prepared = prepare(rt, alloc, options, source, brake);
    if write_all(sink, &prepared.text).is_err() {
        return Status::WriteFault;
    }
    *kept = prepared.kept;
    prepared.status
}

/// Counts the words of a source's bytes by the workers that were asked for, and gives the number of the status with which that ended.
pub fn count_shared<R: Threads + Wait + Sync, S: Source, K: Sink, B: Brake + Sync>(
    rt: &R,
    alloc: Global,
    options: Options,
    source: &mut S,
    sink: &mut K,
    brake: &B,
    kept: &mut KeptHeap,
) -> u8
    requires size { IsAreas (size_of_heap options) }
    requires lines { 1 ≤ options.task }
    requires nothing { KeepsNothing (kept_by ⟦<Image as Words>⟧.words kept.old) }
    ensures { AnswersShared options result
        (input_of (S.left source.old) (S.left source.new) (S.faults source.old) (S.faults source.new))
        (output_of (K.written sink.old) (K.written sink.new) (K.faults sink.old) (K.faults sink.new)) (kept_by ⟦<Image as Words>⟧.words kept.new) }
{
    written(rt, alloc, options, source, sink, brake, kept) as u8
}

/// What a count by workers with threads of their own is made with, where the words ask for one.
pub fn asked_count(args: &[String]) -> Option<Options>
    ensures { MatchOption result (IsUnshared (map string_bytes args.now)) (λ options. IsShared (map string_bytes args.now) options) }
{
    let form = read_form(args)?;
    form.shared_count()
}
