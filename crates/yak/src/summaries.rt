//! What is written of replies.
ghost use Rattle.std.specs.Prelude.{◌≡◌, ◌<◌, ◌++◌, ◌^◌, ◌≢◌, [], length, codes, decimal, IfOk, OnOk};
ghost use Rattle.std.specs.List.{sum_by};
ghost use Rattle.script_text.specs.Replies.{reply_text};
ghost use Rattle.yak.specs.Texts.{last_of, moved_in, replies_text, summary};

use object_layout::{NoMemory, Reply};
use script_text::{Line, print_reply};
use std::alloc::{AllocError, Global};

/// The lines of the replies.
pub fn reply_lines(alloc: Global, lines: &[Line], replies: &[Reply]) -> Result<Vec<u8>, NoMemory>
    requires { length replies.now ≡ length lines.now }
    ensures { IfOk result (λ text. text.items ≡ replies_text lines.now replies.now) }
{
    let mut text = Vec::new(alloc);
    'lines: for at in 0..lines.len() {
        print_reply(alloc, &mut text, lines[at].number, replies[at])?;
    }
    Ok(text)
}

/// How many objects an end moved, and 0 for other replies.
fn moved_by(reply: Reply) -> u64
    ensures { result ≡ moved_in reply }
{
    match reply {
        Reply::Ended { moved, tight: _ } => moved,
        _ => 0,
    }
}

/// How many objects all ends moved.
fn moved_total(replies: &[Reply]) -> u128
    requires { length replies.now < 2 ^ 32 }
    ensures { result ≡ sum_by moved_in replies.now }
{
    let mut total: u128 = 0;
    'replies: for reply in replies {
        total += u128::from(moved_by(*reply));
    }
    total
}

/// The first two lines of a summary.
fn counts(alloc: Global, calls: usize, moved: u128) -> Result<Vec<u8>, AllocError>
    ensures { IfOk result (λ text. text.items ≡ codes "calls " ++ decimal calls ++ codes "\nmoved " ++ decimal moved ++ codes "\n") }
{
    let text = format!(in alloc; "calls {calls}\nmoved {moved}\n")?;
    Ok(text.into_bytes())
}

/// Appends the text of a reply, and a line feed.
fn push_reply(alloc: Global, text: &mut Vec<u8>, reply: Reply) -> Result<(), NoMemory>
    ensures { OnOk result (text.new.items ≡ text.old.items ++ reply_text reply ++ codes "\n") }
{
    let mut line = Vec::new(alloc);
    print_reply(alloc, &mut line, 0, reply)?;
    // What stands behind the number 0 and the space.
    match text.extend_from_slice(&line[2..]) {
        Ok(()) => Ok(()),
        Err(_) => Err(NoMemory),
    }
}

/// The summary of the replies to so many calls.
pub fn summed_up(alloc: Global, lines: &[Line], replies: &[Reply]) -> Result<Vec<u8>, NoMemory>
    requires some { replies.now ≢ [] }
    requires few { length replies.now < 2 ^ 32 }
    ensures { IfOk result (λ text. text.items ≡ summary lines.now replies.now) }
{
    let Ok(mut text) = counts(alloc, lines.len(), moved_total(replies)) else {
        return Err(NoMemory);
    };
    push_reply(alloc, &mut text, replies[replies.len() - 1])?;
    Ok(text)
}
