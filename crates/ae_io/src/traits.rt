//! What a source and a sink promise.

ghost use Rattle.std.specs.Prelude.{◌≡◌, ◌≤◌, ◌<◌, ◌+◌, List, ℕ, Option, length, Ok, OnErr};
ghost use Rattle.std.specs.Io.{ReadsAtMost, WritesAtMost};
ghost use Rattle.std.specs.Io.KnownBytes.{ReadConsumes};
ghost use Rattle.ae_io.specs.Moves.{Written, Rose, WriteGets, idle_reads};

/// A read or a write failed.
#[derive(Clone, Copy, Debug, PartialEq, Eq)]
pub struct Failed;

/// Where bytes come from.
pub trait Source {
    /// The bytes still to come, where it tells them.
    ghost left: { Self → Option (List ℕ) };

    /// How often a read has failed: a count that never falls, and may stay at `u64::MAX`.
    ghost faults: { Self → ℕ };

    /// How often it was read, where it counts that: a read adds one at most.
    ghost calls: { Self → ℕ } = { λ _. 0 };

    /// How many of its reads gave no byte, because they failed, found the end or asked for none,
    /// where it counts these.
    ghost idle: { Self → ℕ } = { λ _. 0 };

    /// Gives the next bytes: at `Ok(n)` they are the first `n` of `buf`. A buffer that has room gets
    /// none only at the end of the input. Where it fails, its count of faults rises and no byte is
    /// lost.
    fn read(&mut self, buf: &mut [u8]) -> Result<usize, Failed>
        ensures bound { ReadsAtMost result buf.new }
        ensures bytes { ReadConsumes (left self.old) (left self.new) result buf.new }
        ensures later { faults self.old ≤ faults self.new }
        ensures cause { OnErr result (Rose (faults self.old) (faults self.new)) }
        ensures counted { calls self.new ≤ calls self.old + 1 }
        ensures idle { idle self.new ≤ idle self.old + idle_reads result };
}

/// Where bytes go.
pub trait Sink {
    /// The bytes got so far, where it tells them.
    ghost written: { Self → Written };

    /// How often a write has failed: a count that never falls, and may stay at `u64::MAX`.
    ghost faults: { Self → ℕ };

    /// How often it was written to, where it counts that: a write adds one at most.
    ghost calls: { Self → ℕ } = { λ _. 0 };

    /// Takes the first `n` of these bytes at `Ok(n)`. Where it fails, its count of faults rises and
    /// no byte is taken. The count rises too where it takes none of a piece that isn't empty.
    fn write(&mut self, bytes: &[u8]) -> Result<usize, Failed>
        ensures bound { WritesAtMost result bytes.now }
        ensures bytes { WriteGets (written self.old) (written self.new) result bytes.now }
        ensures later { faults self.old ≤ faults self.new }
        ensures cause { OnErr result (Rose (faults self.old) (faults self.new)) }
        ensures none { result ≡ Ok 0 → 0 < length bytes.now → Rose (faults self.old) (faults self.new) }
        ensures counted { calls self.new ≤ calls self.old + 1 };
}
