//! Entries of a history.
use object_layout::{Call, Reply};

/// A call of a thread and its reply, or a collection that a thread makes inside a call.
#[derive(Clone, Copy, Debug, PartialEq, Eq, Drop)]
pub enum Entry {
    Said(u8, Call, Reply),
    Collected(u8),
}
