//! A source and a sink in memory, which fail at the calls that they are told.

ghost use Rattle.std.specs.Prelude.{cond, ◌==◌, ◌≡◌, ◌≤◌, ◌<◌, ◌+◌, ◌-◌, ◌++◌, ◌⊎◌, ◌↔◌, length, take, drop, min, List, ℕ, Some, Ok, [], IfOk, OnErr, IsErr, Contains, vec_capacity};
ghost use Rattle.std.specs.Io.{ReadsAtMost, WritesAtMost};
ghost use Rattle.std.specs.Io.KnownBytes.{ReadConsumes};
ghost use Rattle.ae_io.specs.Moves.{Told, Rose, WriteGets, raised, raised_by, idle_reads};

use crate::traits::{Failed, Sink, Source};
use std::marker::Model;

/// Bytes in memory, given in pieces. It fails at the calls that it was told.
#[derive(Drop)]
pub struct MemSource {
    bytes: Vec<u8>,
    at: usize,
    piece: usize,
    failing: Vec<u64>,
    call: u64,
    idle: u64,
    faults: u64,
}

impl Model for MemSource {
    ghost use Rattle.std.specs.Prelude.{◌≤◌, length, drop};
    ghost use Rattle.ae_io.specs.States.{SourceState};

    ghost Value = { SourceState };

    ghost view = { λ s. record { left = drop s.at s.bytes.items; piece = s.piece; failing = s.failing.items; call = s.call; idle = s.idle; faults = s.faults } };

    ghost invariant = { λ s. (s.at ≤ length s.bytes.items) × (1 ≤ s.piece) };
}

impl MemSource {
    /// A source of these bytes. A read gives at most `piece` of them, and the reads whose numbers,
    /// counted from 0, stand in `failing` fail. It takes no memory.
    pub fn new(bytes: Vec<u8>, piece: usize, failing: Vec<u64>) -> MemSource
        requires { 1 ≤ piece }
        ensures { result ≡ record { left = bytes.items; piece = piece; failing = failing.items; call = 0; idle = 0; faults = 0 } }
    {
        MemSource {
            bytes,
            at: 0,
            piece,
            failing,
            call: 0,
            idle: 0,
            faults: 0,
        }
    }

    /// The number of the next call, which stays at `u64::MAX` once there.
    pub fn calls(&self) -> u64
        ensures { result ≡ self.now.call }
    {
        self.call
    }
}

impl Source for MemSource {
    ghost left = { λ s. Some s.left };

    ghost faults = { λ s. s.faults };

    ghost calls = { λ s. s.call };

    ghost idle = { λ s. s.idle };

    fn read(&mut self, buf: &mut [u8]) -> Result<usize, Failed>
        ensures bound { ReadsAtMost result buf.new }
        ensures bytes { ReadConsumes (Some self.old.left) (Some self.new.left) result buf.new }
        ensures later { self.old.faults ≤ self.new.faults }
        ensures cause { OnErr result (Rose self.old.faults self.new.faults) }
        ensures counted { self.new.call ≤ self.old.call + 1 }
        ensures idle { self.new.idle ≤ self.old.idle + idle_reads result }

        ensures fails { IsErr result ↔ Contains self.old.failing self.old.call }
        ensures count { IfOk result (λ n. n ≡ min (min (length self.old.left) self.old.piece) (length buf.new)) }
        ensures moved { IfOk result (λ n. self.new ≡ record self.old { left = drop n self.old.left; call = raised self.old.call; idle = raised_by (idle_reads result) self.old.idle }) }
        ensures failed { OnErr result (self.new ≡ record self.old { call = raised self.old.call; idle = raised self.old.idle; faults = raised self.old.faults }) }
    {
        let call = self.call;
        self.call = call.saturating_add(1);
        if self.failing.contains(&call) {
            self.idle = self.idle.saturating_add(1);
            self.faults = self.faults.saturating_add(1);
            return Err(Failed);
        }
        let count = (self.bytes.len() - self.at).min(self.piece).min(buf.len());
        self.idle = self.idle.saturating_add(idle_read(count));
        buf[..count].copy_from_slice(&self.bytes[self.at..self.at + count]);
        self.at += count;
        Ok(count)
    }
}

/// Room in memory, filled in pieces. It fails at the calls that it was told, and where a byte
/// comes for which there is no room.
#[derive(Drop)]
pub struct MemSink {
    kept: Vec<u8>,
    room: usize,
    piece: usize,
    failing: Vec<u64>,
    call: u64,
    faults: u64,
}

impl Model for MemSink {
    ghost use Rattle.std.specs.Prelude.{◌≤◌, length, vec_capacity};
    ghost use Rattle.ae_io.specs.States.{SinkState};

    ghost Value = { SinkState };

    ghost view = { λ s. record { kept = s.kept.items; room = s.room; piece = s.piece; failing = s.failing.items; call = s.call; faults = s.faults } };

    ghost invariant = { λ s. (length s.kept.items ≤ s.room) × (s.room ≤ vec_capacity s.kept) × (1 ≤ s.piece) };
}

impl MemSink {
    /// A sink that keeps as many bytes as `room` has capacity for. A write takes at most `piece` of
    /// them, and the writes whose numbers, counted from 0, stand in `failing` fail. It takes no
    /// memory.
    pub fn new(room: Vec<u8>, piece: usize, failing: Vec<u64>) -> MemSink
        requires empty { room.items ≡ [] }
        requires piece { 1 ≤ piece }
        ensures { result ≡ record { kept = []; room = vec_capacity room; piece = piece; failing = failing.items; call = 0; faults = 0 } }
    {
        let size = room.capacity();
        MemSink {
            kept: room,
            room: size,
            piece,
            failing,
            call: 0,
            faults: 0,
        }
    }

    /// The number of the next call, which stays at `u64::MAX` once there.
    pub fn calls(&self) -> u64
        ensures { result ≡ self.now.call }
    {
        self.call
    }

    /// The bytes written.
    pub fn kept(&self) -> &[u8]
        ensures { result.now ≡ self.now.kept }
    {
        self.kept.as_slice()
    }
}

impl Sink for MemSink {
    ghost written = { λ s. Told s.kept };

    ghost faults = { λ s. s.faults };

    ghost calls = { λ s. s.call };

    fn write(&mut self, bytes: &[u8]) -> Result<usize, Failed>
        ensures bound { WritesAtMost result bytes.now }
        ensures bytes { WriteGets (Told self.old.kept) (Told self.new.kept) result bytes.now }
        ensures later { self.old.faults ≤ self.new.faults }
        ensures cause { OnErr result (Rose self.old.faults self.new.faults) }
        ensures none { result ≡ Ok 0 → 0 < length bytes.now → Rose self.old.faults self.new.faults }
        ensures counted { self.new.call ≤ self.old.call + 1 }

        ensures fails { IsErr result ↔ (Contains self.old.failing self.old.call ⊎ ((0 < length bytes.now) × (self.old.room ≤ length self.old.kept))) }
        ensures count { IfOk result (λ n. n ≡ min (min (length bytes.now) self.old.piece) (self.old.room - length self.old.kept)) }
        ensures moved { IfOk result (λ n. self.new ≡ record self.old { kept = self.old.kept ++ take n bytes.now; call = raised self.old.call }) }
        ensures failed { OnErr result (self.new ≡ record self.old { call = raised self.old.call; faults = raised self.old.faults }) }
    {
        let call = self.call;
        self.call = call.saturating_add(1);
        let room = self.room - self.kept.len();
        if self.failing.contains(&call) || (room == 0 && !bytes.is_empty()) {
            self.faults = self.faults.saturating_add(1);
            return Err(Failed);
        }
        let count = bytes.len().min(self.piece).min(room);
        keep(&mut self.kept, &bytes[..count]);
        Ok(count)
    }
}

// One for a read of no byte.
fn idle_read(count: usize) -> u64
    ensures { result ≡ cond (count == 0) 1 0 }
{
    if count == 0 { 1 } else { 0 }
}

// Appends bytes for which there is room.
pub(crate) fn keep(kept: &mut Vec<u8>, bytes: &[u8])
    requires { length kept.old.items + length bytes.now ≤ vec_capacity kept.old }
    ensures items { kept.new.items ≡ kept.old.items ++ bytes.now }
    ensures capacity { vec_capacity kept.old ≤ vec_capacity kept.new }
{
    for byte in bytes {
        let _ = kept.push(*byte);
    }
}
