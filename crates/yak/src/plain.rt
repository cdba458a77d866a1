//! The top call.
ghost use Rattle.std.specs.Prelude.{◌≡◌, ◌≢◌, ◌≤◌, ◌<◌, ◌⊎◌, ℕ, true, false, List, [], None, Option, map, codes, Some, IfOk, IfErr, OnErr, IfSome, length, string_bytes};
ghost use Rattle.std.specs.Io.KnownBytes.{Appends};
ghost use Rattle.script_text.specs.ScriptContents.{ScriptContents};
ghost use Rattle.yak_io.specs.Causes.{Rose};
ghost use Rattle.script_text.specs.Scripts.{IsBadLine, IsScript};
ghost use Rattle.group_jobs.specs.LongWords.{has_long_word, long_word_line};
ghost use Rattle.yak.specs.declared.forms.Options.{Options};
ghost use Rattle.yak.specs.declared.forms.Tracing.TheVariants.{Check, Make};
ghost use Rattle.yak.specs.Forms.{IsAsked, IsCount, IsGen, IsReading, IsReplay, IsTraced, IsUntraced};
ghost use Rattle.script_text.specs.declared.faults.Bad.{Bad};
ghost use Rattle.script_runner.specs.Runs.{held_of};
ghost use Rattle.yak.specs.Keeping.{alone, kept_by, nothing};
ghost use Rattle.yak.specs.Answers.{Answers};
ghost use Rattle.yak.specs.Endings.{usage_line, input_of, output_of, IsInput, refusal_line, KeepsNothing, comes_to, counts, generates, gives_none, belongs, ends, Input};
ghost use Rattle.yak.specs.SharedCounts.{shares_to};
ghost use Rattle.yak.specs.Threaded.{runs_to};
ghost use Rattle.yak.specs.Traced.{AnswersCheck, AnswersTrace};

use crate::endings::Status;
use crate::forms::{Form, MAX_ROUNDS, Options, asked_form};
use crate::generator::generated_script;
use crate::summaries::{reply_lines, summed_up};
use crate::traced::{asked_tracing, traced};
use group_jobs::{CountError, count_one, long_word, print_counts};
use heap_core::Core;
use heap_words::{Image, MAX_PAGES, Words};
use object_layout::NoMemory;
use safepoint_gate::Finished;
use script_runner::replay;
use script_text::{Bad, ReadError, law_script_or_refusal, read_script};
use std::alloc::{AllocError, Global};
use yak_io::{INPUT_LIMIT, ReadAllError, Sink, Source, read_all, write_all};

/// The heap as a run left it.
#[derive(Drop)]
pub enum KeptHeap {
    /// No heap.
    Nothing,
    /// The heap after the last call of a replay, or of a count by one worker.
    Alone(Core<Image>),
    /// The heap after the last call of a run in threads, or of a count by workers with threads of their own.
    Shared(Finished),
}

const USAGE: &[u8] =
    b"usage: yak replay | threads | count [--workers n] [--task lines] [--pages p] [--feed] | gen n | trace | check\n";

/// The whole input, or why there is none.
pub fn read_input<S: Source>(alloc: Global, source: &mut S) -> Result<Vec<u8>, Status>
    ensures later { S.faults source.old ≤ S.faults source.new }
    ensures read { IfOk result (λ bytes. IsInput (input_of (S.left source.old) (S.left source.new) (S.faults source.old) (S.faults source.new)) bytes.items) }
    ensures none { IfErr result (λ status. gives_none status (input_of (S.left source.old) (S.left source.new) (S.faults source.old) (S.faults source.new))) }
{
    match read_all(alloc, source, INPUT_LIMIT as u64) {
        Ok(bytes) => Ok(bytes),
        Err(ReadAllError::Failed) => Err(Status::ReadFault),
        Err(ReadAllError::TooLarge) => Err(Status::TooLarge),
        Err(ReadAllError::Memory) => Err(Status::NoMemory),
    }
}

/// What a run comes to before anything is written.
#[derive(Drop)]
pub struct Prepared {
    pub status: Status,
    pub text: Vec<u8>,
    pub kept: KeptHeap,
}

/// A run that ends with a status, and writes and keeps nothing.
pub fn stopped(alloc: Global, status: Status) -> Prepared
    ensures status { result.status ≡ status }
    ensures text { result.text.items ≡ [] }
    ensures kept { kept_by ⟦<Image as Words>⟧.words result.kept ≡ nothing }
{
    Prepared {
        status,
        text: Vec::new(alloc),
        kept: KeptHeap::Nothing,
    }
}

/// The line that tells the first bad line of a text and its reason.
pub fn refusal(alloc: Global, bad: Bad) -> Result<Vec<u8>, AllocError>
    ensures { IfOk result (λ text. text.items ≡ refusal_line bad) }
{
    let line = format!(in alloc; "{bad}\n")?;
    Ok(line.into_bytes())
}

/// A run that wrote a text and left a heap.
fn done(alloc: Global, text: Result<Vec<u8>, NoMemory>, core: Core<Image>) -> Prepared
    ensures done { IfOk text (λ bytes. (result.status ≡ Status.Done) × (result.text.items ≡ bytes.items) × (kept_by ⟦<Image as Words>⟧.words result.kept ≡ alone (held_of core.map (⟦<Image as Words>⟧.words core.words)))) }
    ensures none { OnErr text ((result.status ≡ Status.NoMemory) × (result.text.items ≡ []) × (kept_by ⟦<Image as Words>⟧.words result.kept ≡ nothing)) }
{
    match text {
        Ok(text) => Prepared {
            status: Status::Done,
            text,
            kept: KeptHeap::Alone(core),
        },
        Err(_) => stopped(alloc, Status::NoMemory),
    }
}

/// Reads and runs a text.
fn answer(alloc: Global, bytes: &[u8]) -> Prepared
    requires { length bytes.now ≤ INPUT_LIMIT }
    ensures { comes_to result.status bytes.now result.text.items (kept_by ⟦<Image as Words>⟧.words result.kept) }
{
    let script = match read_script(alloc, bytes) {
        Ok(script) => script,
        Err(ReadError::Refused(bad)) => return refused(alloc, bad),
        Err(ReadError::Memory) => return stopped(alloc, Status::NoMemory),
    };
    match replay(alloc, &script) {
        Ok(replayed) => {
            let text = reply_lines(alloc, &script.lines, &replayed.replies);
            done(alloc, text, replayed.core)
        }
        Err(_) => stopped(alloc, Status::NoMemory),
    }
}

/// Makes, reads and runs the script of so many rounds.
fn generate(alloc: Global, rounds: u32) -> Prepared
    requires { rounds ≤ MAX_ROUNDS }
    ensures { generates result.status rounds result.text.items (kept_by ⟦<Image as Words>⟧.words result.kept) }
{
    let Ok(script) = generated_script(alloc, rounds) else {
        return stopped(alloc, Status::NoMemory);
    };
    match replay(alloc, &script) {
        Ok(replayed) => {
            let text = summed_up(alloc, &script.lines, &replayed.replies);
            done(alloc, text, replayed.core)
        }
        Err(_) => stopped(alloc, Status::NoMemory),
    }
}

/// The line that tells the first line with a word that is too long.
fn long_line(alloc: Global, line: u32) -> Result<Vec<u8>, AllocError>
    ensures { IfOk result (λ text. text.items ≡ Rattle.yak.specs.Endings.long_line line) }
{
    let line = format!(in alloc; "line {line}: long word\n")?;
    Ok(line.into_bytes())
}

/// A run that is refused for a word that is too long.
pub fn too_long(alloc: Global, line: u32) -> Prepared
    ensures alone { (options : Options) (bytes : List ℕ) → long_word_line bytes ≡ Some line → has_long_word bytes ≡ true → counts result.status options bytes result.text.items (kept_by ⟦<Image as Words>⟧.words result.kept) }
    ensures shared { (options : Options) (bytes : List ℕ) → long_word_line bytes ≡ Some line → has_long_word bytes ≡ true → shares_to options result.status bytes result.text.items (kept_by ⟦<Image as Words>⟧.words result.kept) }
{
    match long_line(alloc, line) {
        Ok(text) => Prepared {
            status: Status::LongWord,
            text,
            kept: KeptHeap::Nothing,
        },
        Err(_) => stopped(alloc, Status::NoMemory),
    }
}

/// Counts the words of a text by one worker.
fn count(alloc: Global, options: Options, bytes: &[u8]) -> Prepared
    requires short { length bytes.now ≤ INPUT_LIMIT }
    requires pages { (1 ≤ options.pages) × (options.pages ≤ MAX_PAGES) }
    requires lines { 1 ≤ options.task }
    ensures { counts result.status options bytes.now result.text.items (kept_by ⟦<Image as Words>⟧.words result.kept) }
{
    if let Some(line) = long_word(bytes) {
        return too_long(alloc, line);
    }
    match count_one(alloc, options.pages, options.task, bytes) {
        Ok(counted) => {
            let text = print_counts(alloc, &counted.list);
            done(alloc, text, counted.core)
        }
        Err(CountError::OutOfHeap(_, _)) => stopped(alloc, Status::OutOfHeap),
        Err(CountError::Memory) => stopped(alloc, Status::NoMemory),
    }
}

/// A run that is refused for a bad line.
pub fn refused(alloc: Global, bad: Bad) -> Prepared
    ensures replay { (bytes : List ℕ) → IsBadLine bytes bad → comes_to result.status bytes result.text.items (kept_by ⟦<Image as Words>⟧.words result.kept) }
    ensures threads { (bytes : List ℕ) → IsBadLine bytes bad → runs_to result.status bytes result.text.items (kept_by ⟦<Image as Words>⟧.words result.kept) }
{
    match refusal(alloc, bad) {
        Ok(text) => Prepared {
            status: Status::Refused,
            text,
            kept: KeptHeap::Nothing,
        },
        Err(_) => stopped(alloc, Status::NoMemory),
    }
}

/// A run whose words are of no form that is answered.
fn usage(alloc: Global) -> Prepared
    ensures { (words : List (List ℕ)) (input : Input) → (IsAsked words → ⊥) → belongs words result.status input result.text.items (kept_by ⟦<Image as Words>⟧.words result.kept) }
{
    match Vec::from_slice(alloc, USAGE) {
        Ok(text) => Prepared {
            status: Status::Usage,
            text,
            kept: KeptHeap::Nothing,
        },
        Err(_) => stopped(alloc, Status::NoMemory),
    }
}

/// Does all but the writing.
fn prepare<S: Source>(alloc: Global, args: &[String], source: &mut S) -> Prepared
    requires { IsUntraced (map string_bytes args.now) }
    ensures later { S.faults source.old ≤ S.faults source.new }
    ensures unread { (IsReading (map string_bytes args.now) → ⊥) → source.new ≡ source.old }
    ensures text { belongs (map string_bytes args.now) result.status
        (input_of (S.left source.old) (S.left source.new) (S.faults source.old) (S.faults source.new)) result.text.items (kept_by ⟦<Image as Words>⟧.words result.kept) }
{
    match asked_form(args) {
        Some(Form::Replay) => match read_input(alloc, source) {
            Ok(bytes) => answer(alloc, &bytes),
            Err(status) => stopped(alloc, status),
        },
        Some(Form::Count(options)) => match read_input(alloc, source) {
            Ok(bytes) => count(alloc, options, &bytes),
            Err(status) => stopped(alloc, status),
        },
        Some(Form::Gen(rounds)) => generate(alloc, rounds),
        Some(Form::Traced(_)) => unreachable!(),
        Some(Form::Threads) | None => usage(alloc),
    }
}

/// Runs what the words ask for, and says how that ended.
fn written<S: Source, K: Sink>(
    alloc: Global,
    args: &[String],
    source: &mut S,
    sink: &mut K,
    kept: &mut KeptHeap,
) -> Status
    requires untraced { IsUntraced (map string_bytes args.now) }
    requires nothing { KeepsNothing (kept_by ⟦<Image as Words>⟧.words kept.old) }
    ensures unread { (IsReading (map string_bytes args.now) → ⊥) → source.new ≡ source.old }
    ensures ends { ends result (map string_bytes args.now)
        (input_of (S.left source.old) (S.left source.new) (S.faults source.old) (S.faults source.new))
        (output_of (K.written sink.old) (K.written sink.new) (K.faults sink.old) (K.faults sink.new)) (kept_by ⟦<Image as Words>⟧.words kept.new) }
{
    let prepared = prepare(alloc, args, source);
    if write_all(sink, &prepared.text).is_err() {
        return Status::WriteFault;
    }
    *kept = prepared.kept;
    prepared.status
}

/// Does on one core what the words ask for, and gives the number of the status with which that ended.
///
/// `replay` reads the source's bytes as a script and runs it, and writes a line for the reply to each command. `count` with one
/// worker and without `--feed` counts the words of the source's bytes in a heap, and writes a line for each word. `gen n` makes a
/// script of n rounds as bytes, runs it as `replay` does, and writes a summary of the replies. `trace` reads a script and runs it as
/// `replay` does, and writes its trace: the script, and each entry of the history. `check` reads a trace, and writes whether it is
/// lawful, or the first entry that breaks it. Other words get the usage line. Nothing may be kept at the call; afterwards the heap is
/// kept where the status is 0, but nothing after `trace` and `check`. All output is made in memory before the first byte is written.
/// `docs/FORMAT.md` has the forms and the statuses.
pub fn plain<S: Source, K: Sink>(
    alloc: Global,
    args: &[String],
    source: &mut S,
    sink: &mut K,
    kept: &mut KeptHeap,
) -> u8
    requires { KeepsNothing (kept_by ⟦<Image as Words>⟧.words kept.old) }
    ensures answers { IsUntraced (map string_bytes args.now) → Answers result (map string_bytes args.now)
        (input_of (S.left source.old) (S.left source.new) (S.faults source.old) (S.faults source.new))
        (output_of (K.written sink.old) (K.written sink.new) (K.faults sink.old) (K.faults sink.new)) (kept_by ⟦<Image as Words>⟧.words kept.new) }
    ensures traces { IsTraced (map string_bytes args.now) Make → AnswersTrace result
        (input_of (S.left source.old) (S.left source.new) (S.faults source.old) (S.faults source.new))
        (output_of (K.written sink.old) (K.written sink.new) (K.faults sink.old) (K.faults sink.new)) (kept_by ⟦<Image as Words>⟧.words kept.new) }
    ensures checks { IsTraced (map string_bytes args.now) Check → AnswersCheck result
        (input_of (S.left source.old) (S.left source.new) (S.faults source.old) (S.faults source.new))
        (output_of (K.written sink.old) (K.written sink.new) (K.faults sink.old) (K.faults sink.new)) (kept_by ⟦<Image as Words>⟧.words kept.new) }
    ensures unread { (IsReading (map string_bytes args.now) → ⊥) → IsUntraced (map string_bytes args.now) → source.new ≡ source.old }
{
    if let Some(tracing) = asked_tracing(args) {
        return traced(alloc, tracing, source, sink);
    }
    law_script_or_refusal();
    written(alloc, args, source, sink, kept) as u8
}
