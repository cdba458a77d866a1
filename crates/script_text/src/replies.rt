//! Printing replies.
ghost use Rattle.std.specs.Prelude.{◌≡◌, ◌++◌, Some, OnOk, OnErr};
ghost use Rattle.script_text.specs.Replies.{refusal_text, reply_line, reply_text};

use object_layout::{NoMemory, Refusal, Reply};
use std::alloc::{AllocError, Global};
use std::fmt;

/// A refusal as it is printed.
#[derive(Clone, Copy, Drop)]
struct RefusalText(Refusal);

impl fmt::Display for RefusalText {
    ghost output = { λ shown. Some (refusal_text shown.0) };

    fn fmt<W: fmt::Write>(&self, f: &mut fmt::Formatter<W>) -> fmt::Result {
        f.write_str(match self.0 {
            Refusal::BadSlot => "bad slot",
            Refusal::NotAReference => "not a reference",
            Refusal::BadField => "bad field",
            Refusal::StackFull => "stack full",
            Refusal::StackEmpty => "stack empty",
            Refusal::TooDeep => "too deep",
            Refusal::NoEpoch => "no epoch",
            Refusal::TooLong => "too long",
            Refusal::NamesSpent => "names spent",
        })
    }
}

/// A reply as it is printed.
#[derive(Clone, Copy, Drop)]
struct ReplyText(Reply);

impl fmt::Display for ReplyText {
    ghost output = { λ shown. Some (reply_text shown.0) };

    fn fmt<W: fmt::Write>(&self, f: &mut fmt::Formatter<W>) -> fmt::Result {
        match self.0 {
            Reply::Ok => f.write_str("ok"),
            Reply::Null => f.write_str("null"),
            Reply::Int(number) => write!(f, "int {number}"),
            Reply::Object(fields) => write!(f, "ref {fields}"),
            Reply::Yes => f.write_str("yes"),
            Reply::No => f.write_str("no"),
            Reply::Ended {
                moved,
                tight: false,
            } => write!(f, "ok moved {moved}"),
            Reply::Ended { moved, tight: true } => write!(f, "ok moved {moved} tight"),
            Reply::Pages {
                free,
                region,
                control,
            } => { write!(f, "pages free {free} region {region} control {control}") }
            Reply::OutOfHeap => f.write_str("out of heap"),
            Reply::Refused(refusal) => {
                let refusal = RefusalText(refusal);
                write!(f, "{refusal}")
            }
        }
    }
}

/// Appends a line as `print_reply` does.
fn append(alloc: Global, into: &mut Vec<u8>, line: u32, reply: Reply) -> Result<(), AllocError>
    ensures ok { OnOk result (into.new.items ≡ into.old.items ++ reply_line line reply) }
    ensures err { OnErr result (into.new.items ≡ into.old.items) }
{
    let reply = ReplyText(reply);
    let text = format!(in alloc; "{line} {reply}\n")?;
    into.extend_from_slice(text.as_bytes())
}

/// Appends a line: the number of a command's line, a space and the command's reply. Where memory is wanting, nothing is
/// appended.
pub fn print_reply(
    alloc: Global,
    into: &mut Vec<u8>,
    line: u32,
    reply: Reply,
) -> Result<(), NoMemory>
    ensures ok { OnOk result (into.new.items ≡ into.old.items ++ reply_line line reply) }
    ensures err { OnErr result (into.new.items ≡ into.old.items) }
{
    append(alloc, into, line, reply).map_err(|_| NoMemory)
}
