//! Reading a script.
ghost use Rattle.std.specs.Prelude.{◌≡◌, ◌≤◌, ◌+◌, ◌⊎◌, ◌∷◌, [], Ok, Err, MatchOption, MatchResult, MatchBool, IfOk, IfErr, IfSome, OnOk, length, take};
ghost use Rattle.script_text.specs.declared.faults.Bad.{Bad};
ghost use Rattle.script_text.specs.declared.faults.ReadError.TheVariants.{Refused, Memory};
ghost use Rattle.script_text.specs.ScriptContents.{ScriptContents, Heap};
ghost use Rattle.script_text.specs.Printing.{IsValid};
ghost use Rattle.script_text.specs.Words.{lines};
ghost use Rattle.script_text.specs.Scripts.{IsSilent, IsCommand, IsFault, IsHeader, IsScript, IsScriptOf, IsBadLine, Refuses, RefusesOf, Adds, Stops};

use crate::commands::read_command;
use crate::faults::{Bad, ReadError, Reason};
use crate::numbers::number_of;
use crate::scripts::{Line, Script};
use crate::words::LineWords;
use bstr::{ByteSlice, Lines};
use heap_words::MAX_PAGES;
use object_layout::{Call, MAX_THREADS};
use std::alloc::Global;
use yak_io::INPUT_LIMIT;

/// What a header tells.
#[derive(Clone, Copy, Drop)]
struct Header {
    pages: u32,
    threads: u8,
}

/// The numbers of a header's line.
fn read_header(line: &[u8]) -> Option<Header>
    ensures { MatchOption result ((heap : Heap) → IsHeader line.now heap → ⊥) (λ header. IsHeader line.now (record { pages = header.pages; threads = header.threads })) }
{
    let mut words = LineWords::of(line);
    if words.next()? != b"heap".as_slice() {
        return None;
    }
    let pages = number_of(words.next()?, 1, u64::from(MAX_PAGES))?;
    let threads = number_of(words.next()?, 1, u64::from(MAX_THREADS))?;
    if words.next().is_some() {
        None
    } else {
        Some(Header {
            pages: pages as u32,
            threads: threads as u8,
        })
    }
}

/// Whether a line is empty or a comment.
pub fn is_silent(line: &[u8]) -> bool
    ensures { MatchBool result (IsSilent line.now) (IsSilent line.now → ⊥) }
{
    LineWords::of(line).next().is_none() || line.first() == Some(&b'#')
}

/// The thread and the call of a line, or none where the line is silent.
fn read_line(line: &[u8], threads: u8) -> Result<Option<(u8, Call)>, Reason>
    ensures { MatchResult result
        (λ entry. MatchOption entry (IsSilent line.now) (λ command. IsCommand threads line.now command.0 command.1))
        (λ reason. IsFault threads line.now reason) }
{
    if is_silent(line) {
        return Ok(None);
    }
    match read_command(line, threads) {
        Ok(command) => Ok(Some(command)),
        Err(reason) => Err(reason),
    }
}

/// Adds the command of a line, if it holds one.
fn add_line(
    commands: &mut Vec<Line>,
    line: &[u8],
    number: u32,
    threads: u8,
) -> Result<(), ReadError>
    ensures ok { OnOk result (Adds threads number line.now commands.old.items commands.new.items) }
    ensures err { IfErr result (λ error. Stops threads number line.now error) }
{
    match read_line(line, threads) {
        Ok(None) => Ok(()),
        Ok(Some((thread, call))) => match commands.push(Line {
            number,
            thread,
            call,
        }) {
            Ok(()) => Ok(()),
            Err(_) => Err(ReadError::Memory),
        },
        Err(reason) => Err(ReadError::Refused(Bad {
            line: number,
            reason,
        })),
    }
}

/// The lines of a text: without the line feed that ends each, and without a carriage return before it.
#[tactic(auto, using(crate::proofs::Lines::cut_lines))]
pub fn text_lines<'a>(bytes: &'a [u8]) -> Lines<'a>
    ensures value { result ≡ lines bytes.now }
    ensures few { length result ≤ length bytes.now }
{
    bytes.lines()
}

/// The next of the first so many lines.
fn next_of<'a>(lines: &mut Lines<'a>, left: &mut u32) -> Option<&'a [u8]>
    ensures next { MatchOption result (take left.old lines.old ≡ []) (λ line. take left.old lines.old ≡ line.now ∷ take left.new lines.new) }
    ensures shorter { IfSome result (λ line. length lines.old ≡ length lines.new + 1) }
{
    if *left == 0 {
        return None;
    }
    *left -= 1;
    lines.next()
}

/// A text has no more lines than bytes.
fn few_lines(bytes: &[u8])
    ensures { length (lines bytes.now) ≤ length bytes.now }
{
    let _lines = text_lines(bytes);
}

/// The script of the first lines of a text.
fn read_lines(alloc: Global, bytes: &[u8], count: u32) -> Result<Script, ReadError>
    requires { length bytes.now ≤ INPUT_LIMIT }
    ensures found { IfOk result (λ script. IsScriptOf (take count (lines bytes.now)) script) }
    ensures refused { IfErr result (λ error. RefusesOf (take count (lines bytes.now)) error) }
{
    let bad_header = Bad {
        line: 1,
        reason: Reason::BadHeader,
    };
    let mut lines = text_lines(bytes);
    let mut left = count;
    let Some(first) = next_of(&mut lines, &mut left) else {
        return Err(ReadError::Refused(bad_header));
    };
    let Some(header) = read_header(first) else {
        return Err(ReadError::Refused(bad_header));
    };
    let mut commands = Vec::new(alloc);
    let mut number: u32 = 2;
    'lines: while let Some(line) = next_of(&mut lines, &mut left) {
        match add_line(&mut commands, line, number, header.threads) {
            Ok(()) => number += 1,
            Err(error) => return Err(error),
        }
    }
    Ok(Script {
        pages: header.pages,
        threads: header.threads,
        lines: commands,
    })
}

/// Reads the first lines of a text as a script, as `read_script` reads all of them.
pub fn read_front(alloc: Global, bytes: &[u8], count: u32) -> Result<Script, ReadError>
    requires { length bytes.now ≤ INPUT_LIMIT }
    ensures found { IfOk result (λ script. IsScriptOf (take count (lines bytes.now)) script × IsValid script) }
    ensures refused { IfErr result (λ error. RefusesOf (take count (lines bytes.now)) error) }
{
    read_lines(alloc, bytes, count)
}

/// Reads a script. A text that is none is refused at its first bad line, for the first reason that applies to it.
/// `docs/FORMAT.md` has the format.
pub fn read_script(alloc: Global, bytes: &[u8]) -> Result<Script, ReadError>
    requires { length bytes.now ≤ INPUT_LIMIT }
    ensures found { IfOk result (λ script. IsScript bytes.now script × IsValid script) }
    ensures refused { IfErr result (λ error. Refuses bytes.now error) }
    ensures every_script { (script : ScriptContents) → IsScript bytes.now script → (result ≡ Ok script) ⊎ (result ≡ Err Memory) }
    ensures every_fault { (bad : Bad) → IsBadLine bytes.now bad → (result ≡ Err (Refused bad)) ⊎ (result ≡ Err Memory) }
{
    few_lines(bytes);
    read_lines(alloc, bytes, u32::MAX)
}
