//! A source over any reader, and a sink over any writer: the edge to the outside.
ghost use Rattle.std.specs.Prelude.{◌≡◌, ◌+◌, ◌-◌, ◌^◌, ◌<◌, length, min, IfOk, OnOk, OnErr};
ghost use Rattle.std.specs.Io.{ReadsAtMost, WritesAtMost};
ghost use Rattle.std.specs.Io.KnownBytes.{ReadConsumes, WriteAppends};
ghost use Rattle.yak_io.specs.Causes.{HasCause};

use crate::traits::{Failed, Sink, Source};
use std::io::{Read, Write};

/// A reader of std, and how many of its reads have failed. It tells of the bytes what the reader tells: of standard input nothing.
#[derive(Drop)]
pub struct StdSource<I> {
    reader: I,
    faults: u64,
}

impl<I: Read> StdSource<I> {
    /// A source that reads from this reader, of which no read has failed yet.
    pub fn new(reader: I) -> StdSource<I>
        ensures reader { result.reader ≡ reader }
        ensures begins { result.faults ≡ 0 }
    {
        StdSource { reader, faults: 0 }
    }
}

impl<I: Read> Source for StdSource<I> {
    ghost left = { λ s. I.remaining s.reader };

    ghost faults = { λ s. s.faults };

    fn read(&mut self, into: &mut [u8]) -> Result<usize, Failed>
        ensures bound { ReadsAtMost result into.new }
        ensures bytes { ReadConsumes (I.remaining self.old.reader) (I.remaining self.new.reader) result into.new }
        ensures cause { HasCause self.old.faults self.new.faults result }
        ensures well { OnOk result (self.new.faults ≡ self.old.faults) }
        ensures counted { OnErr result (self.new.faults ≡ min (self.old.faults + 1) (2 ^ 64 - 1)) }
    {
        match self.reader.read(into) {
            Ok(count) => Ok(count),
            Err(_) => {
                self.faults = self.faults.saturating_add(1);
                Err(Failed)
            }
        }
    }
}

/// A writer of std, and how many of its writes have failed. Taking no byte of a piece that is not empty is a failure. It tells of
/// the bytes what the writer tells: of standard output nothing.
#[derive(Drop)]
pub struct StdSink<O> {
    writer: O,
    faults: u64,
}

impl<O: Write> StdSink<O> {
    /// A sink that writes to this writer, of which no write has failed yet.
    pub fn new(writer: O) -> StdSink<O>
        ensures writer { result.writer ≡ writer }
        ensures begins { result.faults ≡ 0 }
    {
        StdSink { writer, faults: 0 }
    }
}

impl<O: Write> Sink for StdSink<O> {
    ghost written = { λ s. O.contents s.writer };

    ghost faults = { λ s. s.faults };

    fn write(&mut self, piece: &[u8]) -> Result<usize, Failed>
        ensures bound { WritesAtMost result piece.now }
        ensures some { IfOk result (λ count. 0 < length piece.now → 0 < count) }
        ensures bytes { WriteAppends (O.contents self.old.writer) (O.contents self.new.writer) result piece.now }
        ensures cause { HasCause self.old.faults self.new.faults result }
        ensures well { OnOk result (self.new.faults ≡ self.old.faults) }
        ensures counted { OnErr result (self.new.faults ≡ min (self.old.faults + 1) (2 ^ 64 - 1)) }
    {
        match self.writer.write(piece) {
            Ok(count) if count > 0 || piece.is_empty() => Ok(count),
            _ => {
                self.faults = self.faults.saturating_add(1);
                Err(Failed)
            }
        }
    }
}

#[cfg(test)]
mod tests {
    use super::*;
    use crate::whole::{ReadAllError, read_all, write_all};
    use std::io::{Error, ErrorKind};
    use std::test::Fail;

    /// A reader of four bytes, one in each call. The call of the number `fails`, from 1, fails.
    #[derive(Drop)]
    struct FailingReader {
        calls: u32,
        fails: u32,
        left: u32,
    }

    impl Read for FailingReader {
        fn read(&mut self, into: &mut [u8]) -> std::io::Result<usize> {
            self.calls = self.calls.saturating_add(1);
            if self.calls == self.fails {
                return Err(Error::from(ErrorKind::Other));
            }
            if self.left == 0 || into.is_empty() {
                return Ok(0);
            }
            self.left -= 1;
            into[0] = b'a';
            Ok(1)
        }
    }

    /// A writer that takes at most two bytes in a call. The call of the number `stops` takes none, and that of `fails` fails.
    #[derive(Drop)]
    struct ShortWriter {
        calls: u32,
        stops: u32,
        fails: u32,
        taken: usize,
    }

    impl Write for ShortWriter {
        fn write(&mut self, piece: &[u8]) -> std::io::Result<usize> {
            self.calls = self.calls.saturating_add(1);
            if self.calls == self.fails {
                return Err(Error::from(ErrorKind::Other));
            }
            if self.calls == self.stops {
                return Ok(0);
            }
            let count = piece.len().min(2);
            self.taken = self.taken.saturating_add(count);
            Ok(count)
        }

        fn flush(&mut self) -> std::io::Result<()> {
            Ok(())
        }
    }

    #[test]
    fn a_failing_read_is_no_end_of_input(rt: HostRuntime) -> Result<(), Fail> {
        let alloc = rt.alloc();
        for (fails, faults) in [(1, 1), (3, 1), (5, 1), (6, 0)] {
            let mut source = StdSource::new(FailingReader {
                calls: 0,
                fails,
                left: 4,
            });
            match read_all(alloc, &mut source, 4) {
                Ok(bytes) => assert_eq!(rt; bytes.as_slice(), b"aaaa".as_slice(), "call {fails}"),
                Err(error) => assert_eq!(rt; error, ReadAllError::Failed, "call {fails}"),
            }
            assert_eq!(rt; source.faults, faults, "call {fails}");
        }
        Ok(())
    }

    #[test]
    fn a_short_write_is_no_fault(rt: HostRuntime) {
        for (stops, fails, taken, faults) in [
            (0, 0, 5, 0),
            (0, 1, 0, 1),
            (0, 3, 4, 1),
            (2, 0, 2, 1),
            (4, 4, 5, 0),
        ] {
            let mut sink = StdSink::new(ShortWriter {
                calls: 0,
                stops,
                fails,
                taken: 0,
            });
            let wrote = write_all(&mut sink, b"abcde");
            assert_eq!(rt; wrote.is_err(), faults == 1, "calls {stops} {fails}");
            assert_eq!(rt; sink.writer.taken, taken, "calls {stops} {fails}");
            assert_eq!(rt; sink.faults, faults, "calls {stops} {fails}");
        }
    }
}
