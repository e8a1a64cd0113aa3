// A sink in memory, which keeps what is written to it.
ghost use Rattle.std.specs.Prelude.{◌≡◌, ◌<◌, ◌↔◌, ◌⊎◌, ℕ, [], Contains, length, IfOk, MatchResult, IsErr, IsTrue, Some};
ghost use Rattle.split_base.specs.Faults.{HasCause, IsCounted};
ghost use Rattle.split_base.specs.Streams.{Writes};
ghost use Rattle.split_base.specs.Memory.{counted, after_write, after_failed_write, with_empty};

use super::NoMemory;
use super::calls::Calls;
use crate::{Failed, Sink};
use std::alloc::Global;
use std::marker::Model;

/// A sink that takes each piece whole, up to its room.
///
/// Its calls of `write` are numbered from 1. A call whose number is listed as failing fails, and so does one
/// whose piece doesn't fit in the room that is left. A failed call writes nothing. No call after `new` takes
/// memory.
#[derive(Debug, Drop)]
pub struct MemSink {
    bytes: Vec<u8>,
    room: usize,
    calls: Calls,
    empty_writes: u64,
}

impl Model for MemSink {
    ghost use Rattle.std.specs.Prelude.{◌+◌, ◌≤◌, vec_len, vec_capacity};
    ghost use Rattle.split_base.specs.Memory.{SinkState};

    ghost Value = { SinkState };

    ghost view = { λ s. record {
      written = s.bytes.items;
      room = s.room;
      fails = s.calls.fails.items;
      calls = s.calls.made;
      faults = s.calls.faults;
      empty_writes = s.empty_writes;
    } };

    ghost invariant = { λ s. vec_len s.bytes + s.room ≤ vec_capacity s.bytes };
}

impl MemSink {
    /// An empty sink with the memory for `room` bytes. `fails` has the numbers of the calls that
    /// fail, from 1.
    ///
    /// `NoMemory` means that this memory could not be had.
    pub fn new(alloc: Global, room: usize, fails: Vec<u64>) -> Result<Self, NoMemory>
        ensures { IfOk result (λ sink.
            sink
            ≡ record {
              written = [];
              room = room;
              fails = fails.items;
              calls = 0;
              faults = 0;
              empty_writes = 0;
            }) }
    {
        let Ok(bytes) = Vec::with_capacity(alloc, room) else {
            return Err(NoMemory);
        };
        Ok(MemSink {
            bytes,
            room,
            calls: Calls::new(fails),
            empty_writes: 0,
        })
    }

    /// What was written.
    pub fn bytes(&self) -> &[u8]
        ensures { result.now ≡ self.now.written }
    {
        &self.bytes
    }

    /// How many of its calls were given no bytes.
    pub fn empty_writes(&self) -> u64
        ensures { result ≡ self.now.empty_writes }
    {
        self.empty_writes
    }

    // A link with a failed write counts as broken.
    pub(crate) fn has_fault(&self) -> bool
        ensures { IsTrue result ↔ (0 < self.now.faults) }
    {
        self.calls.faults > 0
    }
}

impl Sink for MemSink {
    ghost written = { λ s. Some s.written };

    ghost faults = { λ s. s.faults };

    ghost empty_writes = { λ s. s.empty_writes };

    fn write(&mut self, piece: &[u8]) -> Result<usize, Failed>
        ensures bytes { Writes (Some self.old.written) (Some self.new.written) result piece.now }
        ensures empty { 0 < length piece.now → self.new.empty_writes ≡ self.old.empty_writes }
        ensures beside { Unit {0} }
        ensures cause { HasCause self.old.faults self.new.faults result }
        ensures count { IsCounted self.old.faults self.new.faults result }

        // It fails exactly when its number is listed or the piece doesn't fit, and then changes nothing but the
        // counts.
        ensures fails { IsErr result
            ↔ (Contains self.old.fails (counted self.old.calls)
            ⊎ (self.old.room < length piece.now)) }
        ensures taken { IfOk result (λ n. n ≡ length piece.now) }
        ensures after { MatchResult result (λ _. self.new ≡ after_write self.old piece.now)
            (λ _. self.new ≡ after_failed_write self.old piece.now) }
    {
        self.empty_writes = counted_empty(self.empty_writes, piece);
        if self.calls.begin() || self.room < piece.len() {
            return Err(self.calls.fail());
        }
        self.bytes.extend_from_slice(piece).unwrap();
        self.room -= piece.len();
        Ok(piece.len())
    }
}

// The count of calls that were given no bytes, after a call with this piece.
fn counted_empty(count: u64, piece: &[u8]) -> u64
    ensures { result ≡ with_empty piece.now count }
{
    match piece {
        [] => count.saturating_add(1),
        _ => count,
    }
}
