//! The text of scripts and of replies, both ways.
#![tactic(auto)]

mod commands;
mod faults;
mod laws;
mod numbers;
mod printing;
mod reading;
mod replies;
mod saying;
mod scripts;
#[cfg(test)]
mod tests;
mod words;

pub use faults::{Bad, ReadError, Reason};
pub use laws::{
    law_one_refusal, law_one_reply, law_one_script, law_printed_script, law_reply_words,
    law_script_or_refusal,
};
pub use numbers::number_of;
pub use printing::print_script;
pub use reading::{is_silent, read_front, read_script, text_lines};
pub use replies::print_reply;
pub use saying::read_reply;
pub use scripts::{Line, Script};
pub use words::LineWords;
