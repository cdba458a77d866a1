//! What a heap answers.

/// Why a call is refused. A refused call changes nothing.
#[derive(Clone, Copy, Debug, PartialEq, Eq, Drop)]
pub enum Refusal {
    /// A slot number is at or past the stack's length.
    BadSlot,
    /// The slot holds null or an integer.
    NotAReference,
    /// The field is at or past the object's number of fields.
    BadField,
    /// The stack has no room for another slot.
    StackFull,
    /// The stack has no slot.
    StackEmpty,
    /// The thread has `MAX_DEPTH` epochs open.
    TooDeep,
    /// The thread has no epoch open.
    NoEpoch,
    /// More than `MAX_FIELDS` fields were asked for.
    TooLong,
    /// The thread has made `MAX_SERIAL` objects.
    NamesSpent,
}

/// What a heap answers to a call.
#[derive(Clone, Copy, Debug, PartialEq, Eq, Drop)]
pub enum Reply {
    /// The call is done.
    Ok,
    /// The slot holds null.
    Null,
    /// The slot holds this integer.
    Int(u64),
    /// The slot refers to an object of this number of fields.
    Object(u16),
    /// Both slots hold the same value.
    Yes,
    /// The slots hold different values.
    No,
    /// The epoch has ended: how many objects moved, and whether they had to stay in the region's own pages.
    Ended {
        moved: u64,
        tight: bool,
    },
    /// How many pages are free, belong to regions, and belong to Control.
    Pages {
        free: u32,
        region: u32,
        control: u32,
    },
    /// The heap has no room for the object, after a collection.
    OutOfHeap,
    /// The call is refused.
    Refused(Refusal),
}

/// How many pages are free, belong to regions, and belong to Control.
#[derive(Clone, Copy, Debug, PartialEq, Eq, Drop)]
pub struct Census {
    pub free: u32,
    pub region: u32,
    pub control: u32,
}

/// How many pages an epoch's end would claim, and how many are free: fewer.
#[derive(Clone, Copy, Debug, PartialEq, Eq, Drop)]
pub struct Shortage {
    pub needed: u32,
    pub free: u32,
}
