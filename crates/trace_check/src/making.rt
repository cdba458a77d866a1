//! Making a trace: a script runs, and each entry of its history is told.
ghost use Rattle.std.specs.Prelude.{◌≡◌, ◌++◌, ◌∷◌, [], IfOk, OnOk, None};
ghost use Rattle.heap_words.specs.Map.{HasThread};
ghost use Rattle.heap_words.specs.Contents.{contents};
ghost use Rattle.yak_model.specs.Recorded.{StandsRecorded};
ghost use Rattle.object_layout.specs.Calls.{IsCall};
ghost use Rattle.script_text.specs.Printing.{IsValid};
ghost use Rattle.yak_model.specs.Graph.{standard_limits};
ghost use Rattle.yak_model.specs.Spaces.{opening_spaces};
ghost use Rattle.trace_check.specs.Breaks.{IsLawfulTrace};
ghost use Rattle.trace_check.specs.Making.{TracesLine, held_of, step_entries};
ghost use Rattle.trace_check.specs.Traces.{AreOfThreads, all_named};

use crate::traces::Entry;
use heap_core::Core;
use heap_words::{Image, MakeError, Words};
use object_layout::{NoMemory, Reply};
use script_text::{Line, Script};
use std::alloc::Global;
use yak_model::laws::{agreement, uniqueness};

/// A new heap of a script's pages and threads.
fn open(alloc: Global, script: &Script) -> Result<Core<Image>, NoMemory>
    requires { IsValid script.now }
    ensures pages { IfOk result (λ core. core.map.pages ≡ script.now.heap.pages) }
    ensures threads { IfOk result (λ core. core.map.threads ≡ script.now.heap.threads) }
    ensures opening { IfOk result (λ core. StandsRecorded core.map (contents core.map (⟦<Image as Words>⟧.words core.words)) (opening_spaces standard_limits script.now.heap.threads)) }
{
    match Core::new(alloc, script.pages, script.threads) {
        Ok(core) => Ok(core),
        Err(MakeError::Memory) => Err(NoMemory),
        Err(MakeError::BadConfig) => unreachable!(),
    }
}

/// Puts an entry behind the others.
fn add(entries: &mut Vec<Entry>, entry: Entry) -> Result<(), NoMemory>
    ensures { OnOk result (entries.new.items ≡ entries.old.items ++ entry ∷ []) }
{
    entries.push(entry).map_err(|_| NoMemory)
}

/// Puts the collection of a step, where it made one, and its call behind the others.
fn add_step(
    entries: &mut Vec<Entry>,
    line: Line,
    collected: bool,
    reply: Reply,
) -> Result<(), NoMemory>
    ensures { OnOk result (entries.new.items ≡ entries.old.items ++ step_entries line collected reply) }
{
    if collected {
        add(
            entries,
            Entry::Collected {
                thread: line.thread,
            },
        )?;
    }
    add(
        entries,
        Entry::Said {
            line: line.number,
            reply,
        },
    )
}

/// Makes the call of a line, and tells its entries.
fn trace_line(core: &mut Core<Image>, entries: &mut Vec<Entry>, line: Line) -> Result<(), NoMemory>
    requires thread { HasThread core.old.map line.thread }
    requires number { IsCall line.call }
    ensures traces { OnOk result (TracesLine line
        (held_of core.old.map (⟦<Image as Words>⟧.words core.old.words))
        (held_of core.new.map (⟦<Image as Words>⟧.words core.new.words))
        entries.old.items entries.new.items) }
    ensures map { core.new.map ≡ core.old.map }
{
    let stepped = core.step(line.thread, line.call);
    add_step(entries, line, stepped.collected, stepped.reply)
}

/// Runs a script on a new heap, in the order of its lines, and tells each entry of the history: the collections that calls made,
/// and the calls with their replies.
pub fn trace(alloc: Global, script: &Script) -> Result<Vec<Entry>, NoMemory>
    requires { IsValid script.now }
    ensures lines { IfOk result (λ entries. all_named script.now.lines entries.items ≡ script.now.lines) }
    ensures lawful { IfOk result (λ entries. IsLawfulTrace script.now entries.items) }
    ensures threads { IfOk result (λ entries. AreOfThreads script.now.heap.threads entries.items) }
{
    agreement();
    uniqueness();
    let mut core = open(alloc, script)?;
    let mut entries = Vec::new(alloc);
    'lines: for line in &script.lines {
        trace_line(&mut core, &mut entries, *line)?;
    }
    Ok(entries)
}
