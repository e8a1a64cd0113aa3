// A source in memory, which gives its bytes in pieces of listed sizes.
ghost use Rattle.std.specs.Prelude.{◌≡◌, ◌<◌, ◌≤◌, ◌↔◌, ℕ, All, Contains, length, min, take, drop, IfOk, MatchResult, IsErr, IsTrue, Some};
ghost use Rattle.split_base.specs.Faults.{HasCause, IsCounted};
ghost use Rattle.split_base.specs.Streams.{CountsEmpty, Reads};
ghost use Rattle.split_base.specs.Memory.{counted, next_piece, after_read, after_failed_read, with_nothing};

use super::calls::Calls;
use super::pieces::Pieces;
use crate::{Failed, Source};
use std::marker::Model;

/// A source that gives its bytes in pieces: each call gives at most the next listed number of
/// bytes, and once the list is used up, calls fill the whole buffer.
///
/// Its calls of `read` are numbered from 1. A call whose number is listed as failing fails: it
/// takes no bytes and uses up no piece.
#[derive(Debug, Drop)]
pub struct MemSource {
    bytes: Vec<u8>,
    at: usize,
    pieces: Pieces,
    calls: Calls,
    empty_reads: u64,
}

impl Model for MemSource {
    ghost use Rattle.std.specs.Prelude.{◌≤◌, drop, vec_len};
    ghost use Rattle.split_base.specs.Memory.{SourceState};

    ghost Value = { SourceState };

    ghost view = { λ s. record {
      left = drop s.at s.bytes.items;
      pieces = s.pieces;
      fails = s.calls.fails.items;
      calls = s.calls.made;
      faults = s.calls.faults;
      empty_reads = s.empty_reads;
    } };

    ghost invariant = { λ s. s.at ≤ vec_len s.bytes };
}

impl MemSource {
    /// A source of `bytes`. `pieces` lists the most bytes that each of its first successful reads
    /// gives, and `fails` has the numbers of the calls that fail, from 1.
    pub fn new(bytes: Vec<u8>, pieces: Vec<usize>, fails: Vec<u64>) -> Self
        requires { All (λ p. 0 < p) pieces.items }
        ensures { result
            ≡ record {
              left = bytes.items;
              pieces = pieces.items;
              fails = fails.items;
              calls = 0;
              faults = 0;
              empty_reads = 0;
            } }
    {
        MemSource {
            bytes,
            at: 0,
            pieces: Pieces::new(pieces),
            calls: Calls::new(fails),
            empty_reads: 0,
        }
    }

    /// How many of its reads gave nothing.
    pub fn empty_reads(&self) -> u64
        ensures { result ≡ self.now.empty_reads }
    {
        self.empty_reads
    }

    // A link with a failed read counts as broken.
    pub(crate) fn has_fault(&self) -> bool
        ensures { IsTrue result ↔ (0 < self.now.faults) }
    {
        self.calls.faults > 0
    }
}

// Copies as many of the bytes as there is room for, up to `most`.
pub(super) fn copy_front(from: &[u8], into: &mut [u8], most: usize) -> usize
    ensures count { result ≡ min most (min (length into.old) (length from.now)) }
    ensures bytes { take result into.new ≡ take result from.now }
{
    let count = most.min(into.len().min(from.len()));
    into[..count].copy_from_slice(&from[..count]);
    count
}

// The count of reads that gave nothing, after a read of this many bytes.
fn counted_empty(count: u64, read: usize) -> u64
    ensures { result ≡ with_nothing read count }
{
    match read {
        0 => count.saturating_add(1),
        _ => count,
    }
}

impl Source for MemSource {
    ghost left = { λ s. Some s.left };

    ghost faults = { λ s. s.faults };

    ghost empty_reads = { λ s. s.empty_reads };

    fn read(&mut self, into: &mut [u8]) -> Result<usize, Failed>
        ensures bytes { Reads (Some self.old.left) (Some self.new.left) result into.new }
        ensures empty { CountsEmpty self.old.empty_reads self.new.empty_reads result }
        ensures beside { Unit {0} }
        ensures cause { HasCause self.old.faults self.new.faults result }
        ensures count { IsCounted self.old.faults self.new.faults result }

        // It fails exactly when its number is listed, and then changes nothing but the counts.
        ensures fails { IsErr result ↔ Contains self.old.fails (counted self.old.calls) }
        ensures taken { IfOk result (λ n.
            n ≡ min (next_piece self.old.pieces) (min (length into.old) (length self.old.left))) }
        ensures after { MatchResult result (λ n. self.new ≡ after_read self.old n)
            (λ _. self.new ≡ after_failed_read self.old) }
    {
        if self.calls.begin() {
            return Err(self.calls.fail());
        }
        let most = self.pieces.next();
        let count = copy_front(&self.bytes[self.at..], into, most);
        self.at += count;
        self.empty_reads = counted_empty(self.empty_reads, count);
        Ok(count)
    }
}
