//! A run of the program, and how it ends.
ghost use Rattle.std.specs.Prelude.{◌≡◌, ◌≤◌, ◌⊎◌, ℕ, List, length, Err, IfOk, IfErr};
ghost use Rattle.script_text.specs.ScriptContents.{ScriptContents};
ghost use Rattle.script_text.specs.Scripts.{IsBadLine, IsScript, Refuses};
ghost use Rattle.script_text.specs.declared.faults.Bad.{Bad};
ghost use Rattle.script_text.specs.declared.faults.ReadError.TheVariants.{Memory, Refused};
ghost use Rattle.heap_picture.specs.Endings.{answers, ends, refusal_line, told_of};
ghost use Rattle.heap_picture.specs.Pictures.{Draws};

use crate::picture::picture;
use script_runner::replay;
use script_text::{Bad, ReadError, read_script};
use std::alloc::{AllocError, Global};
use yak_io::{INPUT_LIMIT, ReadAllError, Sink, Source, read_all, write_all};

/// How a run ends: the number of a variant is the exit status.
#[derive(Clone, Copy, Debug, PartialEq, Eq, Drop)]
pub enum Status {
    /// The picture was written.
    Done = 0,
    /// The input is no script, and the line that tells why was written.
    Refused = 1,
    /// The input could not be read, or is too large.
    Unreadable = 3,
    /// The output could not be written.
    Unwritable = 4,
    /// An allocation was refused.
    NoMemory = 5,
}

/// The picture of the heap that the script in a text leaves.
///
/// # Errors
///
/// `Refused` where the text is no script.
pub fn draw(alloc: Global, bytes: &[u8]) -> Result<Vec<u8>, ReadError>
    requires short { length bytes.now ≤ INPUT_LIMIT }
    ensures drawn { IfOk result (λ text. Draws bytes.now text.items) }
    ensures refused { IfErr result (λ error. Refuses bytes.now error) }
    ensures every_script { (script : ScriptContents) → IsScript bytes.now script → IfErr result (λ error. error ≡ Memory) }
    ensures every_fault { (bad : Bad) → IsBadLine bytes.now bad → (result ≡ Err (Refused bad)) ⊎ (result ≡ Err Memory) }
{
    let script = read_script(alloc, bytes)?;
    let Ok(replayed) = replay(alloc, &script) else {
        return Err(ReadError::Memory);
    };
    match picture(alloc, replayed.core) {
        Ok(text) => Ok(text),
        Err(_) => Err(ReadError::Memory),
    }
}

/// The line that tells the first bad line of a text and its reason.
fn refusal(alloc: Global, bad: Bad) -> Result<Vec<u8>, AllocError>
    ensures { IfOk result (λ text. text.items ≡ refusal_line bad) }
{
    let line = format!(in alloc; "{bad}\n")?;
    Ok(line.into_bytes())
}

/// Writes a picture.
fn write_picture<K: Sink>(sink: &mut K, text: &[u8]) -> Status
    ensures { (bytes : List ℕ) → Draws bytes text.now → answers result bytes (told_of (K.written sink.old) (K.written sink.new) (K.faults sink.old) (K.faults sink.new)) }
{
    match write_all(sink, text) {
        Ok(()) => Status::Done,
        Err(_) => Status::Unwritable,
    }
}

/// Writes the line that tells why a text is no script.
fn write_refusal<K: Sink>(alloc: Global, sink: &mut K, bad: Bad) -> Status
    ensures { (bytes : List ℕ) → IsBadLine bytes bad → answers result bytes (told_of (K.written sink.old) (K.written sink.new) (K.faults sink.old) (K.faults sink.new)) }
{
    let Ok(line) = refusal(alloc, bad) else {
        return Status::NoMemory;
    };
    match write_all(sink, &line) {
        Ok(()) => Status::Refused,
        Err(_) => Status::Unwritable,
    }
}

/// Writes the picture of the heap that the script in a text leaves, or why the text is no script.
fn answer<K: Sink>(alloc: Global, sink: &mut K, bytes: &[u8]) -> Status
    requires { length bytes.now ≤ INPUT_LIMIT }
    ensures { answers result bytes.now (told_of (K.written sink.old) (K.written sink.new) (K.faults sink.old) (K.faults sink.new)) }
{
    match draw(alloc, bytes) {
        Ok(text) => write_picture(sink, &text),
        Err(ReadError::Refused(bad)) => write_refusal(alloc, sink, bad),
        Err(ReadError::Memory) => Status::NoMemory,
    }
}

/// Reads a script, runs it, and writes the picture of the heap that it leaves, all of which is made before the first byte is written.
pub fn run<S: Source, K: Sink>(alloc: Global, source: &mut S, sink: &mut K) -> Status
    ensures { ends result
        (told_of (S.left source.old) (S.left source.new) (S.faults source.old) (S.faults source.new))
        (told_of (K.written sink.old) (K.written sink.new) (K.faults sink.old) (K.faults sink.new)) }
{
    match read_all(alloc, source, INPUT_LIMIT as u64) {
        Ok(bytes) => answer(alloc, sink, &bytes),
        Err(ReadAllError::Memory) => Status::NoMemory,
        Err(ReadAllError::Failed | ReadAllError::TooLarge) => Status::Unreadable,
    }
}
