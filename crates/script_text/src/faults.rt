//! Why text is refused.
ghost use Rattle.std.specs.Prelude.{Some};
ghost use Rattle.script_text.specs.Reasons.{reason_text, bad_text};

use std::fmt;
use thiserror::Error;

/// Why a line is refused: the first of these that applies.
#[derive(Clone, Copy, Debug, PartialEq, Eq, Drop)]
pub enum Reason {
    /// Line 1 isn't `heap` with a number of pages and a number of threads.
    BadHeader,
    /// The first word isn't the number of a thread.
    BadThread,
    /// The second word isn't a command's.
    BadCommand,
    /// A number isn't of the form or the range of its place.
    BadNumber,
    /// A word follows the last number.
    ExtraWord,
    /// The command's word or one of its numbers is missing.
    MissingWord,
}

impl fmt::Display for Reason {
    ghost output = { λ reason. Some (reason_text reason) };

    fn fmt<W: fmt::Write>(&self, f: &mut fmt::Formatter<W>) -> fmt::Result {
        f.write_str(match self {
            Reason::BadHeader => "bad header",
            Reason::BadThread => "bad thread",
            Reason::BadCommand => "bad command",
            Reason::BadNumber => "bad number",
            Reason::ExtraWord => "extra word",
            Reason::MissingWord => "missing word",
        })
    }
}

/// The first bad line of a text, numbered from 1, and its reason. It is shown as `line 2: bad thread`.
#[derive(Clone, Copy, Debug, PartialEq, Eq, Drop)]
pub struct Bad {
    pub line: u32,
    pub reason: Reason,
}

impl fmt::Display for Bad {
    ghost output = { λ bad. Some (bad_text bad) };

    fn fmt<W: fmt::Write>(&self, f: &mut fmt::Formatter<W>) -> fmt::Result {
        let line = self.line;
        let reason = self.reason;
        write!(f, "line {line}: {reason}")
    }
}

/// Why bytes gave no script.
#[derive(Clone, Copy, Debug, PartialEq, Eq, Drop, Error)]
pub enum ReadError {
    /// The bytes are no script.
    #[error("{0}")]
    Refused(Bad),
    /// An allocation was refused.
    #[error("no memory")]
    Memory,
}
