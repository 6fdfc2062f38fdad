//! A source and a sink that never fail: their counts of faults are 0 always.

ghost use Rattle.std.specs.Prelude.{◌≡◌, ◌≤◌, ◌<◌, ◌+◌, ◌-◌, ◌++◌, ◌||◌, length, take, drop, min, nat_lt, List, ℕ, Some, Ok, [], false, OnErr, vec_capacity};
ghost use Rattle.std.specs.Io.{ReadsAtMost, WritesAtMost};
ghost use Rattle.std.specs.Io.KnownBytes.{ReadConsumes};
ghost use Rattle.ae_io.specs.Moves.{Rose, WriteGets, idle_reads};
ghost use Rattle.ae_io.specs.States.{kept_written};

use crate::memory::keep;
use crate::traits::{Failed, Sink, Source};
use std::marker::Model;

/// Bytes in memory. No read of them fails.
#[derive(Drop)]
pub struct FaultlessSource {
    bytes: Vec<u8>,
    at: usize,
}

impl Model for FaultlessSource {
    ghost use Rattle.std.specs.Prelude.{◌≤◌, List, ℕ, length, drop};

    ghost Value = { List ℕ };

    ghost view = { λ s. drop s.at s.bytes.items };

    ghost invariant = { λ s. s.at ≤ length s.bytes.items };
}

impl FaultlessSource {
    /// A source of these bytes.
    pub fn new(bytes: Vec<u8>) -> FaultlessSource
        ensures { result ≡ bytes.items }
    {
        FaultlessSource { bytes, at: 0 }
    }
}

impl Source for FaultlessSource {
    ghost left = { λ s. Some s };

    ghost faults = { λ _. 0 };

    fn read(&mut self, buf: &mut [u8]) -> Result<usize, Failed>
        ensures bound { ReadsAtMost result buf.new }
        ensures bytes { ReadConsumes (Some self.old) (Some self.new) result buf.new }
        ensures later { 0 ≤ 0 }
        ensures cause { OnErr result (Rose 0 0) }
        ensures counted { 0 ≤ 0 + 1 }
        ensures idle { 0 ≤ 0 + idle_reads result }

        ensures count { result ≡ Ok (min (length self.old) (length buf.new)) }
    {
        let count = (self.bytes.len() - self.at).min(buf.len());
        buf[..count].copy_from_slice(&self.bytes[self.at..self.at + count]);
        self.at += count;
        Ok(count)
    }
}

/// Room in memory, which drops what comes when it is full. No write to it fails.
#[derive(Drop)]
pub struct FaultlessSink {
    kept: Vec<u8>,
    room: usize,
    dropped: bool,
}

impl Model for FaultlessSink {
    ghost use Rattle.std.specs.Prelude.{◌≤◌, length, vec_capacity};
    ghost use Rattle.ae_io.specs.States.{KeptState};

    ghost Value = { KeptState };

    ghost view = { λ s. record { kept = s.kept.items; room = s.room; dropped = s.dropped } };

    ghost invariant = { λ s. (length s.kept.items ≤ s.room) × (s.room ≤ vec_capacity s.kept) };
}

impl FaultlessSink {
    /// A sink that keeps as many bytes as `room` has capacity for, and takes no memory. It tells
    /// what was written until it has dropped a byte.
    pub fn new(room: Vec<u8>) -> FaultlessSink
        requires { room.items ≡ [] }
        ensures { result ≡ record { kept = []; room = vec_capacity room; dropped = false } }
    {
        let size = room.capacity();
        FaultlessSink {
            kept: room,
            room: size,
            dropped: false,
        }
    }

    /// The bytes that it keeps.
    pub fn kept(&self) -> &[u8]
        ensures { result.now ≡ self.now.kept }
    {
        self.kept.as_slice()
    }
}

impl Sink for FaultlessSink {
    ghost written = { kept_written };

    ghost faults = { λ _. 0 };

    fn write(&mut self, bytes: &[u8]) -> Result<usize, Failed>
        ensures bound { WritesAtMost result bytes.now }
        ensures bytes { WriteGets (kept_written self.old) (kept_written self.new) result bytes.now }
        ensures later { 0 ≤ 0 }
        ensures cause { OnErr result (Rose 0 0) }
        ensures none { result ≡ Ok 0 → 0 < length bytes.now → Rose 0 0 }
        ensures counted { 0 ≤ 0 + 1 }

        ensures all { result ≡ Ok (length bytes.now) }
        ensures kept { self.new.kept ≡ self.old.kept ++ take (self.old.room - length self.old.kept) bytes.now }
        ensures room { self.new.room ≡ self.old.room }
        ensures dropped { self.new.dropped ≡ (self.old.dropped || nat_lt (self.old.room - length self.old.kept) (length bytes.now)) }
    {
        let count = bytes.len().min(self.room - self.kept.len());
        keep(&mut self.kept, &bytes[..count]);
        self.dropped = self.dropped || count < bytes.len();
        Ok(bytes.len())
    }
}
