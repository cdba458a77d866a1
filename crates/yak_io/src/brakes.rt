//! What holds the threads of a run back.

/// Is asked before each command of a thread whether the thread may go on. It can't change a reply.
pub trait Brake {
    /// Holds a thread before the command of a line, or a worker before a task of this number. It may wait, by a handle of its own.
    fn hold(&self, thread: u32, line: u64);
}

/// A brake that holds no thread.
pub struct NoBrake;

impl Brake for NoBrake {
    fn hold(&self, _thread: u32, _line: u64) {}
}
