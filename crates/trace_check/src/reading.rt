//! Reading a trace.
ghost use Rattle.std.specs.Prelude.{◌≡◌, ◌≢◌, ◌≤◌, ◌<◌, ◌+◌, ◌++◌, ◌∷◌, ◌⊎◌, codes, decimal, ℕ, [], List, Ok, Err, IfErr, IfNone, IfOk, IfSome, MatchBool, MatchOption, OnOk, drop, length};
ghost use Rattle.script_text.specs.declared.faults.Bad.{Bad};
ghost use Rattle.script_text.specs.Printing.{IsValid};
ghost use Rattle.script_text.specs.Words.{lines, words};
ghost use Rattle.trace_check.specs.declared.traces.Entry.{Entry as Told};
ghost use Rattle.trace_check.specs.declared.traces.TraceError.TheVariants.{BadTrace, Memory, Script};
ghost use Rattle.trace_check.specs.Reading.{AddsEntry, HasNoMark, HoldsEntries, IsBadScript, IsBadTrace, IsEntry, IsMark, IsMarked, IsTraceOf, RefusesEntries, RefusesTrace, StopsAt, entry_words};
ghost use Rattle.trace_check.specs.Traces.{AreOfThreads, Trace};

use crate::traces::{Entry, TraceError, TraceText};
use script_text::{
    LineWords, ReadError, is_silent, number_of, read_front, read_reply, read_script, text_lines,
};
use std::alloc::Global;
use yak_io::INPUT_LIMIT;

/// Whether a line parts a script from its trace.
fn is_mark(line: &[u8]) -> bool
    ensures { MatchBool result (IsMark line.now) (IsMark line.now → ⊥) }
{
    let mut words = LineWords::of(line);
    !is_silent(line) && words.next() == Some(b"==".as_slice()) && words.next().is_none()
}

/// The number of lines before the first mark, where there is one.
fn mark_at(bytes: &[u8]) -> Option<u32>
    requires { length bytes.now ≤ INPUT_LIMIT }
    ensures some { IfSome result (λ before. IsMarked (lines bytes.now) before) }
    ensures few { IfSome result (λ before. before < INPUT_LIMIT) }
    ensures none { IfNone result (HasNoMark (lines bytes.now)) }
{
    let mut rest = text_lines(bytes);
    let mut before: u32 = 0;
    'lines: while let Some(line) = rest.next() {
        if is_mark(line) {
            return Some(before);
        }
        before += 1;
    }
    None
}

/// The thread of the words behind `collected`.
fn read_thread(words: &mut LineWords, threads: u8) -> Option<u8>
    ensures { MatchOption result ((thread : ℕ) → 1 ≤ thread → thread ≤ threads → words.old ≢ decimal thread ∷ []) (λ thread. (1 ≤ thread) × (thread ≤ threads) × (words.old ≡ decimal thread ∷ [])) }
{
    let thread = number_of(words.next()?, 1, u64::from(threads))?;
    if words.next().is_some() {
        None
    } else {
        Some(thread as u8)
    }
}

/// Whether a word is that of a collection.
fn is_collected(word: &[u8]) -> bool
    ensures { MatchBool result (word.now ≡ codes "collected") (word.now ≢ codes "collected") }
{
    word == b"collected".as_slice()
}

/// The entry of a line that isn't silent.
#[tactic(auto, using(crate::proofs::Digits::not_collected))]
fn read_entry(line: &[u8], threads: u8) -> Option<Entry>
    ensures { MatchOption result ((told : Told) → IsEntry threads told → words line.now ≢ entry_words told) (λ told. IsEntry threads told × (words line.now ≡ entry_words told)) }
{
    let mut words = LineWords::of(line);
    let first = words.next()?;
    if is_collected(first) {
        let Some(thread) = read_thread(&mut words, threads) else {
            return None;
        };
        return Some(Entry::Collected { thread });
    }
    let number = number_of(first, 0, u64::from(u32::MAX))?;
    let reply = read_reply(words.rest())?;
    Some(Entry::Said {
        line: number as u32,
        reply,
    })
}

/// Adds the entry of a line, if it holds one.
fn add_entry(
    entries: &mut Vec<Entry>,
    line: &[u8],
    number: u32,
    threads: u8,
) -> Result<(), TraceError>
    ensures ok { OnOk result (AddsEntry threads line.now entries.old.items entries.new.items) }
    ensures err { IfErr result (λ error. StopsAt threads number line.now error) }
{
    if is_silent(line) {
        return Ok(());
    }
    let Some(entry) = read_entry(line, threads) else {
        return Err(TraceError::BadTrace(number));
    };
    match entries.push(entry) {
        Ok(()) => Ok(()),
        Err(_) => Err(TraceError::Memory),
    }
}

/// The entries of the lines behind so many, of a script of so many threads.
fn read_entries(
    alloc: Global,
    bytes: &[u8],
    skipped: u32,
    threads: u8,
) -> Result<Vec<Entry>, TraceError>
    requires short { length bytes.now ≤ INPUT_LIMIT }
    requires few { skipped ≤ INPUT_LIMIT }
    ensures found { IfOk result (λ entries. HoldsEntries threads (drop skipped (lines bytes.now)) entries.items) }
    ensures few { IfOk result (λ entries. length entries.items ≤ length bytes.now) }
    ensures bad { IfErr result (λ error. RefusesEntries threads (skipped + 1) (drop skipped (lines bytes.now)) error) }
{
    let mut rest = text_lines(bytes);
    let mut passed: u32 = 0;
    'skipping: while passed < skipped {
        let Some(_) = rest.next() else {
            return Ok(Vec::new(alloc));
        };
        passed += 1;
    }
    let mut number = skipped + 1;
    let mut entries = Vec::new(alloc);
    'lines: while let Some(line) = rest.next() {
        add_entry(&mut entries, line, number, threads)?;
        number += 1;
    }
    Ok(entries)
}

/// The number of lines of a text.
fn count_lines(bytes: &[u8]) -> u32
    requires { length bytes.now ≤ INPUT_LIMIT }
    ensures count { result ≡ length (lines bytes.now) }
    ensures few { result ≤ INPUT_LIMIT }
{
    let mut rest = text_lines(bytes);
    let mut count: u32 = 0;
    'lines: while let Some(_) = rest.next() {
        count += 1;
    }
    count
}

/// The script and the entries of a text.
fn read_parts(alloc: Global, bytes: &[u8]) -> Result<TraceText, TraceError>
    requires { length bytes.now ≤ INPUT_LIMIT }
    ensures found { IfOk result (λ text. IsTraceOf (lines bytes.now) text) }
    ensures valid { IfOk result (λ text. IsValid text.script × AreOfThreads text.script.heap.threads text.entries) }
    ensures few { IfOk result (λ text. length text.entries ≤ length bytes.now) }
    ensures refused { IfErr result (λ error. RefusesTrace (lines bytes.now) error) }
{
    let Some(before) = mark_at(bytes) else {
        return match read_script(alloc, bytes) {
            Ok(_) => Err(TraceError::BadTrace(count_lines(bytes) + 1)),
            Err(ReadError::Refused(bad)) => Err(TraceError::Script(bad)),
            Err(ReadError::Memory) => Err(TraceError::Memory),
        };
    };
    let script = match read_front(alloc, bytes, before) {
        Ok(script) => script,
        Err(ReadError::Refused(bad)) => return Err(TraceError::Script(bad)),
        Err(ReadError::Memory) => return Err(TraceError::Memory),
    };
    let entries = read_entries(alloc, bytes, before + 1, script.threads)?;
    Ok(TraceText { script, entries })
}

/// Reads a trace: a script, a line `==`, and the lines of entries.
pub fn read_trace(alloc: Global, bytes: &[u8]) -> Result<TraceText, TraceError>
    requires { length bytes.now ≤ INPUT_LIMIT }
    ensures found { IfOk result (λ text. IsTraceOf (lines bytes.now) text) }
    ensures valid { IfOk result (λ text. IsValid text.script × AreOfThreads text.script.heap.threads text.entries) }
    ensures few { IfOk result (λ text. length text.entries ≤ length bytes.now) }
    ensures refused { IfErr result (λ error. RefusesTrace (lines bytes.now) error) }
    ensures every_trace { (text : Trace) → IsTraceOf (lines bytes.now) text → (result ≡ Ok text) ⊎ (result ≡ Err Memory) }
    ensures every_bad_script { (bad : Bad) → IsBadScript (lines bytes.now) bad → (result ≡ Err (Script bad)) ⊎ (result ≡ Err Memory) }
    ensures every_bad_trace { (number : ℕ) → IsBadTrace (lines bytes.now) number → (result ≡ Err (BadTrace number)) ⊎ (result ≡ Err Memory) }
{
    read_parts(alloc, bytes)
}
