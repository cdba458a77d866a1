//! Traces.
ghost use Rattle.trace_check.specs.Traces.{Trace};

use object_layout::{Call, Reply};
use script_text::{Bad, Script};
use std::marker::Model;
use thiserror::Error;

/// A line of a trace.
#[derive(Clone, Copy, Debug, PartialEq, Eq, Drop)]
pub enum Entry {
    /// The call of a command line had this reply.
    Said { line: u32, reply: Reply },
    /// A thread made a collection inside the call that follows.
    Collected { thread: u8 },
}

/// A script, and what a run of it did.
#[derive(Drop)]
pub struct TraceText {
    pub script: Script,
    pub entries: Vec<Entry>,
}

impl Model for TraceText {
    ghost Value = { Trace };

    ghost view = { λ t. record { script = t.script; entries = t.entries.items } };
}

/// Why bytes gave no trace.
#[derive(Clone, Copy, Debug, PartialEq, Eq, Drop, Error)]
pub enum TraceError {
    /// What stands before the line `==` is no script.
    #[error("{0}")]
    Script(Bad),
    /// The line isn't one of a trace; or one past the last line, where there is no line `==`.
    #[error("line {0}: bad trace")]
    BadTrace(u32),
    /// An allocation was refused.
    #[error("no memory")]
    Memory,
}

/// An entry of the history that a trace tells: a thread's call with its reply, or a collection that it makes inside a call.
#[derive(Clone, Copy, Debug, Drop)]
pub(crate) enum Step {
    Said(u8, Call, Reply),
    Collected(u8),
}
