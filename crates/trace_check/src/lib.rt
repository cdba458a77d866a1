//! Traces of scripts: the entries of a run, one by one, made, printed, read back and checked.
#![tactic(auto)]

mod checking;
mod cursors;
mod laws;
mod making;
mod printing;
mod reading;
mod rooms;
mod traces;
mod turning;

pub use checking::check;
pub use laws::{law_lawful_or_breaks, law_one_trace};
pub use making::trace;
pub use printing::print_trace;
pub use reading::read_trace;
pub use traces::{Entry, TraceError, TraceText};
