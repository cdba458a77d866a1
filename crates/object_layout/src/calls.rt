//! What a thread asks of a heap. Stack slots are numbered from the bottom, from 0.

use crate::replies::Reply;

/// A call of a thread on a heap.
#[derive(Clone, Copy, Debug, PartialEq, Eq, Drop)]
pub enum Call {
    /// Pushes an integer, at most `MAX_INT`.
    Int(u64),
    /// Pushes null.
    Null,
    /// Pushes the value of a slot.
    Dup(u32),
    /// Drops the top slot.
    Pop,
    /// Makes an object of a number of fields in the innermost space, and pushes a reference to it.
    New(u32),
    /// Pushes a field of a slot's object: slot, field.
    Load(u32, u32),
    /// Puts a slot's value into a field of a slot's object: slot of the object, field, slot of the value.
    Store(u32, u32, u32),
    /// Shows the value of a slot.
    Get(u32),
    /// Tells whether two slots hold the same value.
    Same(u32, u32),
    /// Opens an epoch.
    Begin,
    /// Ends the innermost epoch.
    End,
    /// Collects the control space.
    Collect,
    /// Counts the pages.
    Census,
}

/// A call of a thread with its reply, and whether the call made a collection of the control space before it.
#[derive(Clone, Copy, Debug, PartialEq, Eq, Drop)]
pub struct Event {
    pub call: Call,
    pub reply: Reply,
    pub collected: bool,
}
