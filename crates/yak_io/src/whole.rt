//! A whole input and a whole output.
ghost use Rattle.std.specs.Prelude.{◌<◌, ◌≤◌, length, IfOk, IfSome, IsErrOf, OnOk, OnErr};
ghost use Rattle.std.specs.Io.KnownBytes.{Appends};
ghost use Rattle.yak_io.specs.Causes.{Rose};
ghost use Rattle.yak_io.specs.Transfers.{TookAll, TookFront};

use crate::traits::{Failed, Sink, Source};
use std::alloc::Global;
use thiserror::Error;

/// Why an input was not read to its end.
#[derive(Clone, Copy, Debug, PartialEq, Eq, Drop, Error)]
pub enum ReadAllError {
    /// The source failed, and its count of faults rose.
    #[error("the input could not be read")]
    Failed,
    /// The source gave more bytes than the limit before its end.
    #[error("the input is too large")]
    TooLarge,
    /// An allocation was refused.
    #[error("no memory")]
    Memory,
}

/// Reads the bytes up to the end of the input, which is to have at most `limit` of them.
///
/// # Errors
///
/// `Failed` where the source failed, `TooLarge` where it gave more than `limit` bytes before its end, and `Memory`
/// where the bytes could not be held.
pub fn read_all<S: Source>(
    alloc: Global,
    source: &mut S,
    limit: u64,
) -> Result<Vec<u8>, ReadAllError>
    ensures later { S.faults source.old ≤ S.faults source.new }
    ensures whole { IfOk result (λ bytes. TookAll (S.left source.old) (S.left source.new) bytes.items) }
    ensures within { IfOk result (λ bytes. length bytes.items ≤ limit) }
    ensures failed { IsErrOf result ReadAllError.Failed → Rose (S.faults source.old) (S.faults source.new) }
    ensures too_large { IsErrOf result ReadAllError.TooLarge → IfSome (S.left source.old) (λ told. limit < length told) }
{
    let mut bytes = Vec::new(alloc);
    let mut piece = [0u8; 4096];
    'turns: loop {
        let Ok(count) = source.read(&mut piece) else {
            return Err(ReadAllError::Failed);
        };
        if count == 0 {
            return Ok(bytes);
        }
        if count as u64 > limit - bytes.len() as u64 {
            return Err(ReadAllError::TooLarge);
        }
        if bytes.extend_from_slice(&piece[..count]).is_err() {
            return Err(ReadAllError::Memory);
        }
    }
}

/// Writes all of the bytes. It takes no memory.
///
/// # Errors
///
/// `Failed` where the sink failed: a front of the bytes was taken then.
pub fn write_all<K: Sink>(sink: &mut K, bytes: &[u8]) -> Result<(), Failed>
    ensures later { K.faults sink.old ≤ K.faults sink.new }
    ensures all { OnOk result (Appends (K.written sink.old) (K.written sink.new) bytes.now) }
    ensures some { OnErr result (0 < length bytes.now) }
    ensures front { OnErr result (TookFront (K.written sink.old) (K.written sink.new) bytes.now) }
    ensures failed { OnErr result (Rose (K.faults sink.old) (K.faults sink.new)) }
{
    let mut taken = 0;
    'turns: while taken < bytes.len() {
        match sink.write(&bytes[taken..]) {
            Ok(count) => taken += count,
            Err(Failed) => return Err(Failed),
        }
    }
    Ok(())
}
