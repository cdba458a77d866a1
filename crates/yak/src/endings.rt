//! How a run ends.

/// What the process tells its caller: the number of a variant is its exit status.
#[derive(Clone, Copy, Debug, PartialEq, Eq, Drop)]
pub enum Status {
    /// The input was read to its end, and all output was taken.
    Done,
    /// The words are of no stated form.
    Usage,
    /// The input is no script.
    Refused,
    /// The source failed.
    ReadFault,
    /// The sink failed.
    WriteFault,
    /// An allocation was refused.
    NoMemory,
    /// The input has more than `INPUT_LIMIT` bytes.
    TooLarge,
    /// The heap of a count had no room for an object.
    OutOfHeap,
    /// The text has a word that is too long to be counted.
    LongWord,
    /// A line isn't one of a trace.
    BadTrace,
    /// An entry of the trace breaks it.
    NotLawful,
}
