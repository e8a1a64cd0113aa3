// The traits of sources and sinks of bytes. Each has a count of its faults, which never falls.
ghost use Rattle.std.specs.Prelude.{◌≡◌, ◌<◌, ℕ, List, Option, None, length};
ghost use Rattle.split_base.specs.Faults.{HasCause, IsCounted};
ghost use Rattle.split_base.specs.Streams.{CountsEmpty, Reads, Writes};

/// A call failed. The call has raised its object's count of faults by one, or the count is at its
/// greatest value, 2^64 - 1.
#[derive(Clone, Copy, Debug, PartialEq, Eq)]
pub struct Failed;

/// Gives bytes, up to an end.
pub trait Source {
    /// The bytes that are left to read; `None` if the object doesn't reveal them.
    ghost left: { Self → Option (List ℕ) };

    /// How many of its calls have failed, up to 2^64 - 1.
    ghost faults: { Self → ℕ };

    /// How many of its reads gave nothing, up to 2^64 - 1, if the object counts them: such a read
    /// came at the end, or had no room to read into. So a call that raises the count by at most one
    /// doesn't read again once a read has met the end.
    ghost empty_reads: { Self → ℕ } = { λ _. 0 };

    /// If the object is a sink too: what that side has written, its count of faults, and its count
    /// of calls that were given no bytes. A read leaves all three as they are.
    ghost beside: { Self → Option (List ℕ) × ℕ × ℕ } = { λ _. (None, 0, 0) };

    /// Copies the next bytes to the front of `into`, and returns how many: from 1 to the length of
    /// `into` if that isn't empty, or 0 exactly at the end.
    ///
    /// `Failed` is returned only if the count of faults has risen, by one. In that case no byte was
    /// taken. A call that answers a number leaves the count as it is.
    fn read(&mut self, into: &mut [u8]) -> Result<usize, Failed>
        ensures bytes { Reads (left self.old) (left self.new) result into.new }
        ensures empty { CountsEmpty (empty_reads self.old) (empty_reads self.new) result }
        ensures beside { beside self.new ≡ beside self.old }
        ensures cause { HasCause (faults self.old) (faults self.new) result }
        ensures count { IsCounted (faults self.old) (faults self.new) result };
}

/// Takes bytes.
pub trait Sink {
    /// The bytes that were written; `None` if the object doesn't reveal them.
    ghost written: { Self → Option (List ℕ) };

    /// How many of its calls have failed, up to 2^64 - 1.
    ghost faults: { Self → ℕ };

    /// How many of its calls were given no bytes, if the object counts them; otherwise always 0.
    ghost empty_writes: { Self → ℕ } = { λ _. 0 };

    /// If the object is a source too: what that side has left, its count of faults, and its count
    /// of reads that gave nothing. A write leaves all three as they are.
    ghost beside: { Self → Option (List ℕ) × ℕ × ℕ } = { λ _. (None, 0, 0) };

    /// Writes the front of `piece`, and returns how many bytes it wrote: from 1 to the length of
    /// `piece` if that isn't empty.
    ///
    /// `Failed` is returned only if the count of faults has risen, by one. In that case no byte was
    /// written. A call that answers a number leaves the count as it is.
    fn write(&mut self, piece: &[u8]) -> Result<usize, Failed>
        ensures bytes { Writes (written self.old) (written self.new) result piece.now }
        ensures empty { 0 < length piece.now → empty_writes self.new ≡ empty_writes self.old }
        ensures beside { beside self.new ≡ beside self.old }
        ensures cause { HasCause (faults self.old) (faults self.new) result }
        ensures count { IsCounted (faults self.old) (faults self.new) result };
}
