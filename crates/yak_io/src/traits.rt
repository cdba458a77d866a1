//! A source and a sink of bytes.
ghost use Rattle.std.specs.Prelude.{ℕ, List, Option, IfOk, length, ◌<◌};
ghost use Rattle.std.specs.Io.{ReadsAtMost, WritesAtMost};
ghost use Rattle.std.specs.Io.KnownBytes.{ReadConsumes, WriteAppends};
ghost use Rattle.yak_io.specs.Causes.{HasCause};

use thiserror::Error;

/// The outside failed, and its count of faults rose.
#[derive(Clone, Copy, Debug, PartialEq, Eq, Drop, Error)]
#[error("the outside failed")]
pub struct Failed;

/// Where bytes come from.
pub trait Source {
    // The bytes still to come, where the source tells them.
    ghost left: { Self → Option (List ℕ) };

    // How many reads have failed so far.
    ghost faults: { Self → ℕ };

    /// Reads the next bytes into the front of `into`, and gives their number. No byte read into a piece that has room
    /// is the end of the input.
    ///
    /// # Errors
    ///
    /// `Failed` where the count of faults rose, or stands at its last value. No byte was taken then.
    fn read(&mut self, into: &mut [u8]) -> Result<usize, Failed>
        ensures bound { ReadsAtMost result into.new }
        ensures bytes { ReadConsumes (left self.old) (left self.new) result into.new }
        ensures cause { HasCause (faults self.old) (faults self.new) result };
}

/// Where bytes go to.
pub trait Sink {
    // The bytes taken so far, where the sink tells them.
    ghost written: { Self → Option (List ℕ) };

    // How many writes have failed so far.
    ghost faults: { Self → ℕ };

    /// Appends a front of `piece`, of a piece that is not empty at least one byte, and gives the number of bytes taken.
    ///
    /// # Errors
    ///
    /// `Failed` where the count of faults rose, or stands at its last value. No byte was appended then.
    fn write(&mut self, piece: &[u8]) -> Result<usize, Failed>
        ensures bound { WritesAtMost result piece.now }
        ensures some { IfOk result (λ count. 0 < length piece.now → 0 < count) }
        ensures bytes { WriteAppends (written self.old) (written self.new) result piece.now }
        ensures cause { HasCause (faults self.old) (faults self.new) result };
}
