//! Calls in flight over the words of a heap: what the words stand for while threads are in the middle of their calls.
#![tactic(auto)]

mod notes;

pub use notes::{Cover, Flight, Known, Reading};
