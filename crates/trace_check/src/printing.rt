//! Printing a trace.
ghost use Rattle.std.specs.Prelude.{◌≡◌, ◌++◌, IfOk, OnOk};
ghost use Rattle.script_text.specs.Printing.{IsValid};
ghost use Rattle.script_text.specs.Words.{lines};
ghost use Rattle.trace_check.specs.Reading.{HasNumbers, HaveNumbers, IsTraceOf};
ghost use Rattle.trace_check.specs.Texts.{collected_line, entries_text, entry_line, mark_line, trace_text};
ghost use Rattle.trace_check.specs.Traces.{AreOfThreads};

use crate::traces::Entry;
use object_layout::NoMemory;
use script_text::{Script, print_reply, print_script};
use std::alloc::{AllocError, Global};

/// Appends the line of a collection.
fn append_collected(alloc: Global, text: &mut Vec<u8>, thread: u8) -> Result<(), AllocError>
    ensures { OnOk result (text.new.items ≡ text.old.items ++ collected_line thread) }
{
    let line = format!(in alloc; "collected {thread}\n")?;
    text.extend_from_slice(line.as_bytes())
}

/// Appends the line of an entry.
fn push_entry(alloc: Global, text: &mut Vec<u8>, entry: Entry) -> Result<(), NoMemory>
    ensures { OnOk result (text.new.items ≡ text.old.items ++ entry_line entry) }
{
    match entry {
        Entry::Said { line, reply } => print_reply(alloc, text, line, reply),
        Entry::Collected { thread } => {
            append_collected(alloc, text, thread).map_err(|_| NoMemory)
        }
    }
}

/// The numbers of an entry are those of its type.
fn numbers_fit(_entry: Entry)
    ensures { HasNumbers _entry }
{}

/// Appends the lines of entries.
fn push_entries(alloc: Global, text: &mut Vec<u8>, entries: &[Entry]) -> Result<(), NoMemory>
    ensures text { OnOk result (text.new.items ≡ text.old.items ++ entries_text entries.now) }
    ensures numbers { OnOk result (HaveNumbers entries.now) }
{
    'entries: for entry in entries {
        numbers_fit(*entry);
        push_entry(alloc, text, *entry)?;
    }
    Ok(())
}

/// Appends the line that parts a script from its trace.
fn push_mark(text: &mut Vec<u8>) -> Result<(), NoMemory>
    ensures { OnOk result (text.new.items ≡ text.old.items ++ mark_line) }
{
    text.extend_from_slice(b"==\n").map_err(|_| NoMemory)
}

/// The text of a trace: the script as `print_script` prints it, the line `==`, and a line for each entry. Where it is at most
/// `INPUT_LIMIT` bytes, reading it gives the script and the entries again.
pub fn print_trace(alloc: Global, script: &Script, entries: &[Entry]) -> Result<Vec<u8>, NoMemory>
    requires valid { IsValid script.now }
    requires threads { AreOfThreads script.now.heap.threads entries.now }
    ensures text { IfOk result (λ text. text.items ≡ trace_text script.now entries.now) }
    ensures reads { IfOk result (λ text. IsTraceOf (lines text.items) (record { script = script.now; entries = entries.now })) }
{
    let mut text = print_script(alloc, script)?;
    push_mark(&mut text)?;
    push_entries(alloc, &mut text, entries)?;
    Ok(text)
}
