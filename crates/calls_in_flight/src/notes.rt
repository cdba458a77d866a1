//! What a call in flight has in the words, for what steps on a shared heap tell.

use std::collections::LinkedList;

/// A covered place: the word that stands there, and the word that the state shows there. No value of it is made.
pub struct Cover {
    pub place: usize,
    pub stands: u64,
    pub shown: u64,
}

/// A region of which a thread becomes a reader.
pub struct Reading {
    pub owner: u8,
    pub depth: u8,
}

/// A call in flight of a thread. No value of it is made.
pub struct Flight {
    pub thread: u8,
    pub covers: LinkedList<Cover>,
    /// The pages that it has claimed and not entered yet.
    pub claimed: LinkedList<u32>,
    /// The region of which it has yet to become a reader.
    pub reading: Option<Reading>,
    /// The claims that it may still make.
    pub claims: u64,
}

/// A word that a thread has met at a place.
pub struct Known {
    pub place: usize,
    pub word: u64,
}
