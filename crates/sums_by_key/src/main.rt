//! Sums up numbers by key: a program that keeps its tables in a heap.
//!
//! It reads lines of a key, a space and a number, and writes a line for each key: the sum of its numbers, a space and the key, in
//! ascending order of the keys.
#![tactic(auto)]

ghost use Rattle.std.specs.Prelude.{IfOk};
ghost use Rattle.heap_words.specs.Map.{IsAreas};
ghost use Rattle.sums_by_key.specs.Printed.{PrintsSums};

mod lines;
mod sums;
mod tables;

use group_jobs::print_counts;
use lines::{LineError, read_lines};
use std::alloc::{AllocError, Global};
use std::io;
use std::process::ExitCode;
use sums::{SumError, sum_lines};
use yak_io::{Sink, StdSink, StdSource, read_all, write_all};

/// The most bytes that are read.
pub const MOST_BYTES: u64 = 1073741824;
/// The most lines of a text.
pub const MOST_LINES: usize = 16777216;
/// How many lines are summed up in one epoch.
pub const LINES: usize = 1024;
/// The slot of the stack with the table. Below it is the root.
pub const TABLE_SLOT: u32 = 1;
/// The pages of the heap.
const PAGES: u32 = 1024;

/// Why a text has no sums.
#[derive(Clone, Copy, Drop)]
enum TextError {
    /// The line of this number is bad.
    Line(u64, LineError),
    Sum(SumError),
}

/// The text of the sums of a text's lines.
fn sum_text(alloc: Global, bytes: &[u8]) -> Result<Vec<u8>, TextError>
    ensures { IfOk result (λ text. PrintsSums bytes.now text.items) }
{
    let lines = match read_lines(alloc, bytes) {
        Ok(lines) => lines,
        Err((number, error)) => return Err(TextError::Line(number, error)),
    };
    let list = match sum_lines(alloc, PAGES, &lines) {
        Ok(list) => list,
        Err(error) => return Err(TextError::Sum(error)),
    };
    match print_counts(alloc, &list) {
        Ok(text) => Ok(text),
        Err(_) => Err(TextError::Sum(SumError::Memory)),
    }
}

/// The line that tells an error.
fn message(alloc: Global, error: TextError) -> Result<String, AllocError> {
    match error {
        TextError::Line(number, error) => format!(in alloc; "line {number}: {error}\n"),
        TextError::Sum(SumError::OutOfHeap) => format!(in alloc; "the heap has no room\n"),
        TextError::Sum(SumError::Memory) => format!(in alloc; "no memory\n"),
    }
}

/// Writes a text, and gives the status, or 4 where the write failed.
fn written<K: Sink>(sink: &mut K, text: &[u8], status: u8) -> u8 {
    match write_all(sink, text) {
        Ok(()) => status,
        Err(_) => 4,
    }
}

/// Answers an input, and gives the status: 0, or 1 where the input has no sums.
fn answer<K: Sink>(alloc: Global, sink: &mut K, bytes: &[u8]) -> u8 {
    match sum_text(alloc, bytes) {
        Ok(text) => written(sink, &text, 0),
        Err(error) => match message(alloc, error) {
            Ok(text) => written(sink, text.as_bytes(), 1),
            Err(_) => 5,
        },
    }
}

fn main(rt: HostRuntime) -> ExitCode {
    let alloc = rt.alloc();
    let mut source = StdSource::new(rt.reader());
    let mut sink = StdSink::new(io::writer(&rt));
    match read_all(alloc, &mut source, MOST_BYTES) {
        Ok(bytes) => ExitCode::from(answer(alloc, &mut sink, &bytes)),
        Err(_) => ExitCode::from(3),
    }
}
