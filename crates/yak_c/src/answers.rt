//! Answers of calls, and the numbers that tell them to C.

ghost use Rattle.std.specs.Prelude.{◌≡◌};
ghost use Rattle.yak_c.specs.Answers.{flag, refusal_code, reply_code, status_of, told_end, told_pages, told_same, told_value};

use crate::{
    Ended, Pages, Value, YAK_BAD_FIELD, YAK_BAD_NUMBER, YAK_BAD_SLOT, YAK_INT, YAK_NAMES_SPENT,
    YAK_NO_EPOCH, YAK_NO_HEAP, YAK_NO_THREAD, YAK_NOT_A_REFERENCE, YAK_NULL, YAK_OBJECT, YAK_OK,
    YAK_OUT_OF_HEAP, YAK_STACK_EMPTY, YAK_STACK_FULL, YAK_TOO_DEEP, YAK_TOO_LONG,
};
use heap_core::Stepped;
use object_layout::{Refusal, Reply};

/// Why no call was made.
#[derive(Clone, Copy, Debug, PartialEq, Eq, Drop)]
pub(crate) enum Fault {
    /// The memory is too short or too long for a heap of its numbers, or no heap has them.
    NoHeap,
    /// The heap has no such thread.
    NoThread,
    /// An integer is greater than values hold.
    BadNumber,
}

/// What a call comes to.
pub(crate) type Answer = Result<Stepped, Fault>;

fn refusal_code(why: Refusal) -> u32
    ensures { result ≡ refusal_code why }
{
    match why {
        Refusal::BadSlot => YAK_BAD_SLOT,
        Refusal::NotAReference => YAK_NOT_A_REFERENCE,
        Refusal::BadField => YAK_BAD_FIELD,
        Refusal::StackFull => YAK_STACK_FULL,
        Refusal::StackEmpty => YAK_STACK_EMPTY,
        Refusal::TooDeep => YAK_TOO_DEEP,
        Refusal::NoEpoch => YAK_NO_EPOCH,
        Refusal::TooLong => YAK_TOO_LONG,
        Refusal::NamesSpent => YAK_NAMES_SPENT,
    }
}

fn reply_code(reply: Reply) -> u32
    ensures { result ≡ reply_code reply }
{
    match reply {
        Reply::OutOfHeap => YAK_OUT_OF_HEAP,
        Reply::Refused(why) => refusal_code(why),
        _ => YAK_OK,
    }
}

/// The status that tells an answer.
pub(crate) fn status(answer: Answer) -> u32
    ensures { result ≡ status_of answer }
{
    match answer {
        Ok(stepped) => reply_code(stepped.reply),
        Err(Fault::NoHeap) => YAK_NO_HEAP,
        Err(Fault::NoThread) => YAK_NO_THREAD,
        Err(Fault::BadNumber) => YAK_BAD_NUMBER,
    }
}

/// The value that is told, or what was there before.
pub(crate) fn told_value(answer: Answer, before: Value) -> Value
    ensures { result ≡ told_value answer before }
{
    match answer {
        Ok(stepped) => match stepped.reply {
            Reply::Null => Value {
                kind: YAK_NULL,
                number: 0,
            },
            Reply::Int(number) => Value {
                kind: YAK_INT,
                number,
            },
            Reply::Object(fields) => Value {
                kind: YAK_OBJECT,
                number: u64::from(fields),
            },
            _ => before,
        },
        Err(_) => before,
    }
}

/// 1 for what is so, and else 0.
fn flag(is: bool) -> u32
    ensures { result ≡ flag is }
{
    if is { 1 } else { 0 }
}

/// Whether two slots hold the same, or what was there before.
pub(crate) fn told_same(answer: Answer, before: u32) -> u32
    ensures { result ≡ told_same answer before }
{
    match answer {
        Ok(stepped) => match stepped.reply {
            Reply::Yes => 1,
            Reply::No => 0,
            _ => before,
        },
        Err(_) => before,
    }
}

/// How the epoch ended, or what was there before.
pub(crate) fn told_end(answer: Answer, before: Ended) -> Ended
    ensures { result ≡ told_end answer before }
{
    match answer {
        Ok(stepped) => match stepped.reply {
            Reply::Ended { moved, tight } => Ended {
                moved,
                tight: flag(tight),
                collected: flag(stepped.collected),
            },
            _ => before,
        },
        Err(_) => before,
    }
}

/// The pages, or what was there before.
pub(crate) fn told_pages(answer: Answer, before: Pages) -> Pages
    ensures { result ≡ told_pages answer before }
{
    match answer {
        Ok(stepped) => match stepped.reply {
            Reply::Pages {
                free,
                region,
                control,
            } => Pages {
                free,
                region,
                control,
            },
            _ => before,
        },
        Err(_) => before,
    }
}
