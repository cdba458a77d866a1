//! What the passes of a feed's queue know.
use std::collections::LinkedList;

/// What a pass knows: its parts of the right to know the whole, and how many there are; the tasks that were put; the signs of the
/// end that wait for it and those that it has taken; and its tasks. No value of it is made.
pub struct Hand {
    pub parts: u64,
    pub all: u64,
    pub put: u64,
    pub due: u64,
    pub ends: u64,
    pub taken: LinkedList<u32>,
}
