//! A source and a sink in memory.
ghost use Rattle.std.specs.Prelude.{◌≡◌, [], ◌+◌, ◌≤◌, Some, drop, IfOk, IsOk, IsErr, Contains, vec_len, vec_capacity, length, min, ◌<◌, ◌⊎◌, ◌↔◌, ◌^◌, ◌-◌};
ghost use Rattle.std.specs.Io.KnownBytes.{ReadConsumes, WriteAppends};
ghost use Rattle.yak_io.specs.Causes.{HasCause};
ghost use Rattle.std.specs.Io.{ReadsAtMost, WritesAtMost};

use crate::traits::{Failed, Sink, Source};
use object_layout::NoMemory;
use std::alloc::Global;

/// Bytes in memory, whose reads never fail.
#[derive(Drop)]
pub struct SureSource {
    bytes: Vec<u8>,
    at: usize,
    ghost within: { at ≤ vec_len bytes },
}

impl SureSource {
    /// A source of these bytes.
    pub fn new(bytes: Vec<u8>) -> SureSource
        ensures { ⟦<SureSource as Source>⟧.left result ≡ Some bytes.items }
    {
        SureSource { bytes, at: 0 }
    }
}

impl Source for SureSource {
    ghost left = { λ s. Some (drop s.at s.bytes.items) };

    ghost faults = { λ _. 0 };

    fn read(&mut self, into: &mut [u8]) -> Result<usize, Failed>
        ensures bound { ReadsAtMost result into.new }
        ensures bytes { ReadConsumes (Some (drop self.old.at self.old.bytes.items)) (Some (drop self.new.at self.new.bytes.items)) result into.new }
        ensures cause { HasCause 0 0 result }
        ensures sure { IsOk result }
    {
        let rest = &self.bytes[self.at..];
        let count = rest.len().min(into.len());
        into[..count].copy_from_slice(&rest[..count]);
        self.at += count;
        Ok(count)
    }
}

/// Bytes in memory, given in pieces. The reads whose numbers stand in `fails`, from 1, fail.
#[derive(Drop)]
pub struct MemorySource {
    bytes: Vec<u8>,
    at: usize,
    piece: usize,
    fails: Vec<u32>,
    calls: u32,
    faults: u64,
    ghost within: { at ≤ vec_len bytes },
    ghost some: { 1 ≤ piece },
}

impl MemorySource {
    /// Gives at most `piece` bytes in a call.
    pub fn new(bytes: Vec<u8>, piece: usize, fails: Vec<u32>) -> MemorySource
        requires { 1 ≤ piece }
        ensures bytes { ⟦<MemorySource as Source>⟧.left result ≡ Some bytes.items }
        ensures begins { (result.piece ≡ piece) × (result.fails ≡ fails) × (result.calls ≡ 0) × (result.faults ≡ 0) }
    {
        MemorySource {
            bytes,
            at: 0,
            piece,
            fails,
            calls: 0,
            faults: 0,
        }
    }
}

impl Source for MemorySource {
    ghost left = { λ s. Some (drop s.at s.bytes.items) };

    ghost faults = { λ s. s.faults };

    fn read(&mut self, into: &mut [u8]) -> Result<usize, Failed>
        ensures bound { ReadsAtMost result into.new }
        ensures bytes { ReadConsumes (Some (drop self.old.at self.old.bytes.items)) (Some (drop self.new.at self.new.bytes.items)) result into.new }
        ensures cause { HasCause self.old.faults self.new.faults result }
        ensures fails { IsErr result ↔ Contains self.old.fails.items (min (self.old.calls + 1) (2 ^ 32 - 1)) }
        ensures counted { (self.new.calls ≡ min (self.old.calls + 1) (2 ^ 32 - 1)) × (self.new.fails ≡ self.old.fails) }
        ensures pieces { IfOk result (λ count. count ≤ self.old.piece) × (self.new.piece ≡ self.old.piece) }
    {
        self.calls = self.calls.saturating_add(1);
        if self.fails.contains(&self.calls) {
            self.faults = self.faults.saturating_add(1);
            return Err(Failed);
        }
        let rest = &self.bytes[self.at..];
        let count = rest.len().min(into.len()).min(self.piece);
        into[..count].copy_from_slice(&rest[..count]);
        self.at += count;
        Ok(count)
    }
}

/// Bytes in memory, up to the room that is reserved for them. The writes whose numbers stand in `fails`, from 1, fail.
#[derive(Drop)]
pub struct MemorySink {
    bytes: Vec<u8>,
    room: usize,
    fails: Vec<u32>,
    calls: u32,
    faults: u64,
    ghost reserved: { room ≤ vec_capacity bytes },
}

impl MemorySink {
    /// Reserves `room` bytes.
    ///
    /// # Errors
    ///
    /// `NoMemory` where they are refused.
    pub fn new(alloc: Global, room: usize, fails: Vec<u32>) -> Result<MemorySink, NoMemory>
        ensures empty { IfOk result (λ sink. ⟦<MemorySink as Sink>⟧.written sink ≡ Some []) }
        ensures begins { IfOk result (λ sink. (sink.room ≡ room) × (sink.fails ≡ fails) × (sink.calls ≡ 0) × (sink.faults ≡ 0)) }
    {
        Ok(MemorySink {
            bytes: Vec::with_capacity(alloc, room).map_err(|_| NoMemory)?,
            room,
            fails,
            calls: 0,
            faults: 0,
        })
    }

    /// The bytes taken so far.
    pub fn written(&self) -> &[u8]
        ensures { ⟦<MemorySink as Sink>⟧.written self.now ≡ Some result.now }
    {
        &self.bytes
    }
}

impl Sink for MemorySink {
    ghost written = { λ s. Some s.bytes.items };

    ghost faults = { λ s. s.faults };

    fn write(&mut self, piece: &[u8]) -> Result<usize, Failed>
        ensures bound { WritesAtMost result piece.now }
        ensures some { IfOk result (λ count. 0 < length piece.now → 0 < count) }
        ensures bytes { WriteAppends (Some self.old.bytes.items) (Some self.new.bytes.items) result piece.now }
        ensures cause { HasCause self.old.faults self.new.faults result }
        ensures fails { IsErr result ↔ (Contains self.old.fails.items (min (self.old.calls + 1) (2 ^ 32 - 1)) ⊎ ((0 < length piece.now) × (self.old.room ≤ vec_len self.old.bytes))) }
        ensures counted { (self.new.calls ≡ min (self.old.calls + 1) (2 ^ 32 - 1)) × (self.new.fails ≡ self.old.fails) × (self.new.room ≡ self.old.room) }
    {
        self.calls = self.calls.saturating_add(1);
        let room = self.room.saturating_sub(self.bytes.len());
        let count = room.min(piece.len());
        if self.fails.contains(&self.calls) {
            self.faults = self.faults.saturating_add(1);
            return Err(Failed);
        }
        if count == 0 && !piece.is_empty() {
            self.faults = self.faults.saturating_add(1);
            return Err(Failed);
        }
        match self.bytes.extend_from_slice(&piece[..count]) {
            Ok(()) => Ok(count),
            Err(_) => unreachable!(),
        }
    }
}
