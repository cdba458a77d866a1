//! A heap's words in a table that threads share, behind a gate: a thread that closes the gate has the words for itself, and one
//! history tells the calls of all threads.
#![tactic(auto)]

mod closing;
mod finished;
mod gate;
mod made;
mod rule;
mod seats;
mod singles;

pub use closing::Closed;
pub use finished::{Finished, close_all};
pub use gate::Gate;
pub use rule::{Own, Place, View};
pub use seats::{Away, Inside};

/// The bit of the gate that a thread sets to close it. The bits below count the threads that are inside or retreating.
pub const CLOSING: u64 = 4294967296;
/// The gate once the thread that closes it is alone.
pub const ALONE: u64 = 4294967297;
/// The bits of the gate that count.
pub const COUNT: u64 = 4294967295;
