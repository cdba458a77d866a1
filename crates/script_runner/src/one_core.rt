//! Running a script on one core.
ghost use Rattle.std.specs.Prelude.{◌≡◌, ◌++◌, [], ◌∷◌, IfOk, OnOk};
ghost use Rattle.heap_words.specs.Map.{HasThread};
ghost use Rattle.object_layout.specs.Calls.{IsCall};
ghost use Rattle.script_text.specs.Printing.{IsValid};
ghost use Rattle.script_runner.specs.Runs.{RunsLine, IsRun, held_of};

use heap_core::Core;
use heap_words::{Image, MakeError, Words};
use object_layout::{NoMemory, Reply};
use script_text::{Line, Script};
use std::alloc::Global;
use yak_model::laws::{agreement, uniqueness};

/// The replies, one for each command line, and the heap after the last call.
#[derive(Drop)]
pub struct Replayed {
    pub replies: Vec<Reply>,
    pub core: Core<Image>,
}

/// Makes the call of a line.
fn run_line(core: &mut Core<Image>, line: Line) -> Reply
    requires thread { HasThread core.old.map line.thread }
    requires number { IsCall line.call }
    ensures runs { RunsLine line result
        (held_of core.old.map (⟦<Image as Words>⟧.words core.old.words))
        (held_of core.new.map (⟦<Image as Words>⟧.words core.new.words)) }
    ensures map { core.new.map ≡ core.old.map }
{
    let stepped = core.step(line.thread, line.call);
    stepped.reply
}

/// Puts a reply behind the others.
fn add(replies: &mut Vec<Reply>, reply: Reply) -> Result<(), NoMemory>
    ensures { OnOk result (replies.new.items ≡ replies.old.items ++ reply ∷ []) }
{
    replies.push(reply).map_err(|_| NoMemory)
}

/// Runs the commands of a script on a new heap, in the order of their lines. Each has one reply.
///
/// # Errors
///
/// `NoMemory` where an allocation was refused.
pub fn replay(alloc: Global, script: &Script) -> Result<Replayed, NoMemory>
    requires valid { IsValid script.now }
    ensures { IfOk result (λ replayed. IsRun script.now.heap script.now.lines replayed.replies.items
        (held_of replayed.core.map (⟦<Image as Words>⟧.words replayed.core.words))) }
{
    let mut core = match Core::new(alloc, script.pages, script.threads) {
        Ok(core) => core,
        Err(MakeError::Memory) => return Err(NoMemory),
        Err(MakeError::BadConfig) => unreachable!(),
    };
    agreement();
    uniqueness();
    let mut replies = Vec::new(alloc);
    'lines: for line in &script.lines {
        let reply = run_line(&mut core, *line);
        add(&mut replies, reply)?;
    }
    Ok(Replayed { replies, core })
}
