//! Lines of a key and a number.
ghost use Rattle.std.specs.Prelude.{◌≡◌, ◌<◌, ◌++◌, ◌∷◌, [], List, ℕ, length, map, slice_index, IfOk, IfSome};
ghost use Rattle.script_text.specs.Words as text;
ghost use Rattle.sums_by_key.specs.Held.{AreSummable};
ghost use Rattle.sums_by_key.specs.Sums.{line_text, total_of};
ghost use Rattle.sums_by_key.specs.declared.lines.Line.{Line};

use crate::MOST_LINES;
use object_layout::{MAX_INT, WORD_LIMIT};
use script_text::{number_of, text_lines};
use std::alloc::Global;
use thiserror::Error;

/// A line: a key and a number.
#[derive(Clone, Copy, Drop)]
pub struct Line<'a> {
    pub key: &'a [u8],
    pub number: u64,
}

/// Why lines weren't read.
#[derive(Clone, Copy, Debug, PartialEq, Eq, Drop, Error)]
pub enum LineError {
    /// A line isn't a key, a space and a number.
    #[error("a key, a space and a number are wanted")]
    Form,
    /// A key is longer than tables hold.
    #[error("a key has at most {WORD_LIMIT} bytes")]
    LongKey,
    /// There are too many lines.
    #[error("a text has at most {MOST_LINES} lines")]
    TooMany,
    /// The numbers add up to more than a table holds.
    #[error("the numbers add up to more than {MAX_INT}")]
    TooLarge,
    /// An allocation was refused.
    #[error("no memory")]
    Memory,
}

/// Where the first space of a line stands.
fn space_in(bytes: &[u8]) -> Option<usize>
    ensures { IfSome result (λ at. (at < length bytes.now) × (slice_index bytes.now at ≡ 32)) }
{
    for at in 0..bytes.len() {
        if bytes[at] == b' ' {
            return Some(at);
        }
    }
    None
}

/// Reads a line.
fn read_line<'a>(bytes: &'a [u8]) -> Option<Line<'a>>
    ensures { IfSome result (λ line. bytes.now ≡ line_text line) }
{
    let at = space_in(bytes)?;
    let number = number_of(&bytes[at + 1..], 0, MAX_INT)?;
    Some(Line {
        key: &bytes[..at],
        number,
    })
}

/// Adds a line to those that were read, and gives the sum of all numbers.
fn push_line<'a>(lines: &mut Vec<Line<'a>>, total: u64, line: Line<'a>) -> Result<u64, LineError>
    requires summable { AreSummable lines.old.items }
    requires total { total ≡ total_of lines.old.items }
    ensures summable { IfOk result (λ _. AreSummable lines.new.items) }
    ensures total { IfOk result (λ after. after ≡ total_of lines.new.items) }
    ensures pushed { IfOk result (λ _. lines.new.items ≡ lines.old.items ++ line.entry ∷ []) }
{
    if line.key.len() > WORD_LIMIT as usize {
        return Err(LineError::LongKey);
    }
    if lines.len() >= MOST_LINES {
        return Err(LineError::TooMany);
    }
    if line.number > MAX_INT - total {
        return Err(LineError::TooLarge);
    }
    let after = total + line.number;
    match lines.push(line) {
        Ok(()) => Ok(after),
        Err(_) => Err(LineError::Memory),
    }
}

/// Reads the lines of a text.
///
/// # Errors
///
/// The number of the first line that is bad, from 1, and what is bad there.
pub fn read_lines<'a>(alloc: Global, bytes: &'a [u8]) -> Result<Vec<Line<'a>>, (u64, LineError)>
    ensures summable { IfOk result (λ lines. AreSummable lines.items) }
    ensures text { IfOk result (λ lines. text.lines bytes.now ≡ map line_text lines.items) }
{
    let mut lines = Vec::new(alloc);
    let mut total = 0;
    let mut texts = text_lines(bytes);
    'texts: while let Some(text) = texts.next() {
        let number = lines.len() as u64 + 1;
        let Some(line) = read_line(text) else {
            return Err((number, LineError::Form));
        };
        match push_line(&mut lines, total, line) {
            Ok(after) => total = after,
            Err(error) => return Err((number, error)),
        }
    }
    Ok(lines)
}
