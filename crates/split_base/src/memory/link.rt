// A link in memory: a source and a sink joined.
ghost use Rattle.std.specs.Prelude.{◌≡◌, ◌<◌, ◌↔◌, ◌⊎◌, Contains, length, min, IfOk, MatchResult, IsErr, IsTrue, Some};
ghost use Rattle.std.proofs.Common.{refl};
ghost use Rattle.split_base.specs.Faults.{HasCause, IsCounted};
ghost use Rattle.split_base.specs.Streams.{CountsEmpty, Reads, Writes};
ghost use Rattle.split_base.specs.Memory.{counted, next_piece, source_side, sink_side, after_read, after_failed_read, after_write, after_failed_write};
ghost use Rattle.split_base.specs.MemoryPorts.{faults_of_link};

use super::{MemSink, MemSource};
use crate::{Failed, Link, Sink, Source};
use std::marker::Model;

/// A source and a sink in memory, joined: reads go to the one, writes to the other. Each of them numbers its own
/// calls. No call takes memory.
#[derive(Debug, Drop)]
pub struct MemLink {
    input: MemSource,
    output: MemSink,
}

impl Model for MemLink {
    ghost use Rattle.split_base.specs.Memory.{LinkState};

    ghost Value = { LinkState };

    ghost view = { λ l. record {
      input = l.input;
      output = l.output;
    } };
}

impl MemLink {
    /// A link that reads from `input` and writes to `output`.
    pub fn new(input: MemSource, output: MemSink) -> Self
        ensures { result ≡ record { input = input; output = output } }
    {
        MemLink { input, output }
    }

    /// Whether one of its calls has failed, on either side.
    pub fn has_fault(&self) -> bool
        ensures { IsTrue result ↔ (0 < faults_of_link self.now) }
    {
        self.input.has_fault() || self.output.has_fault()
    }

    /// The sink, with what was written.
    pub fn output(&self) -> &MemSink
        ensures { result.now ≡ self.now.output }
    {
        &self.output
    }
}

impl Source for MemLink {
    ghost left = { λ l. Some l.input.left };

    ghost faults = { λ l. l.input.faults };

    ghost empty_reads = { λ l. l.input.empty_reads };

    ghost beside = { sink_side };

    fn read(&mut self, into: &mut [u8]) -> Result<usize, Failed>
        ensures bytes { Reads (Some self.old.input.left) (Some self.new.input.left) result
            into.new }
        ensures empty { CountsEmpty self.old.input.empty_reads self.new.input.empty_reads result }
        ensures beside { sink_side self.new ≡ sink_side self.old }
        ensures cause { HasCause self.old.input.faults self.new.input.faults result }
        ensures count { IsCounted self.old.input.faults self.new.input.faults result }

        // It fails exactly when the source's number is listed, and leaves the sink as it is.
        ensures fails { IsErr result
            ↔ Contains self.old.input.fails (counted self.old.input.calls) }
        ensures taken { IfOk result (λ n.
            n
            ≡ min (next_piece self.old.input.pieces)
            (min (length into.old) (length self.old.input.left))) }
        ensures after { MatchResult result (λ n. self.new.input ≡ after_read self.old.input n)
            (λ _. self.new.input ≡ after_failed_read self.old.input) }
        ensures output { self.new.output ≡ self.old.output }
    {
        self.input.read(into)
    }
}

impl Sink for MemLink {
    ghost written = { λ l. Some l.output.written };

    ghost faults = { λ l. l.output.faults };

    ghost empty_writes = { λ l. l.output.empty_writes };

    ghost beside = { source_side };

    fn write(&mut self, piece: &[u8]) -> Result<usize, Failed>
        ensures bytes { Writes (Some self.old.output.written) (Some self.new.output.written) result
            piece.now }
        ensures empty { 0 < length piece.now
            → self.new.output.empty_writes ≡ self.old.output.empty_writes }
        ensures beside { source_side self.new ≡ source_side self.old }
        ensures cause { HasCause self.old.output.faults self.new.output.faults result }
        ensures count { IsCounted self.old.output.faults self.new.output.faults result }

        // It fails exactly when the sink's number is listed or the piece doesn't fit, and leaves the source as it
        // is.
        ensures fails { IsErr result
            ↔ (Contains self.old.output.fails (counted self.old.output.calls)
            ⊎ (self.old.output.room < length piece.now)) }
        ensures taken { IfOk result (λ n. n ≡ length piece.now) }
        ensures after { MatchResult result
            (λ _. self.new.output ≡ after_write self.old.output piece.now)
            (λ _. self.new.output ≡ after_failed_write self.old.output piece.now) }
        ensures input { self.new.input ≡ self.old.input }
    {
        self.output.write(piece)
    }
}

impl Link for MemLink {
    ghost source_beside = { λ link. refl };

    ghost sink_beside = { λ link. refl };
}
