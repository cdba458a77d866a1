//! Where bytes come from and go to, with a count of the faults met there.
#![tactic(auto)]

mod brakes;
mod memory;
mod standard;
mod traits;
mod whole;

pub use brakes::{Brake, NoBrake};
pub use memory::{MemorySink, MemorySource, SureSource};
pub use standard::{StdSink, StdSource};
pub use traits::{Failed, Sink, Source};
pub use whole::{ReadAllError, read_all, write_all};

/// The greatest number of bytes of a script or text that is read.
pub const INPUT_LIMIT: usize = 16777216;

#[cfg(test)]
mod tests {
    use super::*;
    use std::test::Fail;

    #[test]
    fn an_input_is_read_whole_or_is_too_large(rt: HostRuntime) -> Result<(), Fail> {
        let alloc = rt.alloc();
        let mut source = SureSource::new(Vec::from_slice(alloc, b"abc")?);
        let bytes = read_all(alloc, &mut source, 3)?;
        assert_eq!(rt; bytes.as_slice(), b"abc".as_slice());
        let mut source = SureSource::new(Vec::from_slice(alloc, b"abc")?);
        let refused = read_all(alloc, &mut source, 2);
        assert!(rt; matches!(refused, Err(ReadAllError::TooLarge)));
        Ok(())
    }

    #[test]
    fn the_named_calls_fail(rt: HostRuntime) -> Result<(), Fail> {
        let alloc = rt.alloc();
        let fails = Vec::from_slice(alloc, &[2u32])?;
        let mut source = MemorySource::new(Vec::from_slice(alloc, b"abc")?, 2, fails);
        let mut piece = [0u8; 8];
        assert_eq!(rt; source.read(&mut piece), Ok(2));
        assert_eq!(rt; source.read(&mut piece), Err(Failed));
        assert_eq!(rt; source.read(&mut piece), Ok(1));
        assert_eq!(rt; source.read(&mut piece), Ok(0));
        let fails = Vec::from_slice(alloc, &[1u32])?;
        let mut sink = MemorySink::new(alloc, 4, fails)?;
        assert_eq!(rt; sink.write(b"abc"), Err(Failed));
        assert_eq!(rt; write_all(&mut sink, b"abcde"), Err(Failed));
        assert_eq!(rt; sink.written(), b"abcd".as_slice());
        Ok(())
    }
}
