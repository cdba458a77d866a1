//! Printing a script.
ghost use Rattle.std.specs.Prelude.{◌≡◌, ◌++◌, replicate, IfOk, OnOk, string_bytes};
ghost use Rattle.script_text.specs.Printing.{spaced, script_text, IsValid};
ghost use Rattle.script_text.specs.Scripts.{header_words, IsScript};

use crate::commands::push_command;
use crate::scripts::Script;
use object_layout::NoMemory;
use std::alloc::{AllocError, Global};

/// Appends the words of a header, parted by a space.
fn push_header(text: &mut String, script: &Script) -> Result<(), AllocError>
    ensures { OnOk result (string_bytes text.new ≡ string_bytes text.old ++ spaced (header_words script.now.heap)) }
{
    let pages = script.pages;
    let threads = script.threads;
    write!(text, "heap {pages} {threads}")
}

/// Ends so many lines.
fn push_feeds(text: &mut String, count: u32) -> Result<(), AllocError>
    ensures { OnOk result (string_bytes text.new ≡ string_bytes text.old ++ replicate count 10) }
{
    for _ in 0..count {
        text.push('\n')?;
    }
    Ok(())
}

/// The text of a script, as a string.
fn script_string(alloc: Global, script: &Script) -> Result<String, AllocError>
    requires { IsValid script.now }
    ensures text { IfOk result (λ text. string_bytes text ≡ script_text script.now) }
    ensures reads { IfOk result (λ text. IsScript (string_bytes text) script.now) }
{
    let mut text = String::new(alloc);
    push_header(&mut text, script)?;
    text.push('\n')?;
    let mut printed: u32 = 1;
    'lines: for line in script.lines.as_slice() {
        push_feeds(&mut text, line.number - printed - 1)?;
        push_command(&mut text, line.thread, line.call)?;
        text.push('\n')?;
        printed = line.number;
    }
    Ok(text)
}

/// The text of a script: single spaces, line feeds, and an empty line for each number that has no command. Where it
/// is at most `INPUT_LIMIT` bytes, reading it gives the script again.
pub fn print_script(alloc: Global, script: &Script) -> Result<Vec<u8>, NoMemory>
    requires { IsValid script.now }
    ensures text { IfOk result (λ text. text.items ≡ script_text script.now) }
    ensures reads { IfOk result (λ text. IsScript text.items script.now) }
{
    match script_string(alloc, script) {
        Ok(text) => Ok(text.into_bytes()),
        Err(_) => Err(NoMemory),
    }
}
