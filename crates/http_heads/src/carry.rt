// The bytes that a host or a client has read and not yet taken as part of an HTTP message.
ghost use Rattle.std.specs.Prelude.{◌≡◌, ◌<◌, ◌≤◌, ◌+◌, ◌++◌, ℕ, List, [], length, drop, IfOk, OnErr};
ghost use Rattle.std.specs.Io.KnownBytes.{Keeps, IsAtEnd, prepend_known};
ghost use Rattle.split_base.specs.Faults.{HasCause, IsCounted};
ghost use Rattle.split_base.specs.Streams.{CountsEmpty};

use crate::limits::MAX_HEAD;
use split_base::{Failed, Source};
use std::marker::Model;

/// The bytes that were read from a link past its last message. There are at most as many as a head
/// may have. The next message begins with them. Contracts see the bytes. It takes no memory.
#[derive(Debug, Drop)]
pub struct Carry {
    bytes: [u8; MAX_HEAD],
    len: usize,
}

impl Model for Carry {
    ghost use Rattle.std.specs.Prelude.{◌≤◌, ℕ, List, take};
    ghost use Rattle.http_heads.specs.declared.limits.TheConstants.{MAX_HEAD};

    ghost Value = { List ℕ };

    ghost view = { λ c. take c.len c.bytes };

    ghost invariant = { λ c. c.len ≤ MAX_HEAD };
}

impl Carry {
    /// An empty carry.
    pub fn new() -> Carry
        ensures { result ≡ [] }
    {
        Carry {
            bytes: [0; MAX_HEAD],
            len: 0,
        }
    }

    /// The bytes.
    pub fn as_slice(&self) -> &[u8]
        ensures bytes { result.now ≡ self.now }
        ensures most { length self.now ≤ MAX_HEAD }
    {
        &self.bytes[..self.len]
    }

    /// How many bytes there are.
    pub fn len(&self) -> usize
        ensures value { result ≡ length self.now }
        ensures most { result ≤ MAX_HEAD }
    {
        self.len
    }

    /// Removes the first bytes.
    pub fn take_front(&mut self, count: usize)
        requires { count ≤ length self.old }
        ensures { self.new ≡ drop count self.old }
    {
        self.bytes.copy_within(count..self.len, 0);
        self.len -= count;
    }

    /// Reads some more bytes after those that are there, or none at the end of the input.
    pub fn fill<S: Source>(&mut self, source: &mut S) -> Result<usize, Failed>
        requires { length self.old < MAX_HEAD }
        ensures same { Keeps (prepend_known self.old (S.left source.old))
            (prepend_known self.new (S.left source.new)) }
        ensures front { (read : List ℕ) × (self.new ≡ self.old ++ read) }
        ensures more { IfOk result (λ n. length self.new ≡ length self.old + n) }
        ensures end { IfOk result (λ n.
            n ≡ 0 → IsAtEnd (S.left source.new) × (self.new ≡ self.old)) }
        ensures failed { OnErr result (self.new ≡ self.old) }
        ensures empty { CountsEmpty (S.empty_reads source.old) (S.empty_reads source.new) result }
        ensures cause { HasCause (S.faults source.old) (S.faults source.new) result }
        ensures count { IsCounted (S.faults source.old) (S.faults source.new) result }
        ensures beside { S.beside source.new ≡ S.beside source.old }
    {
        let count = source.read(&mut self.bytes[self.len..])?;
        self.len += count;
        Ok(count)
    }

    /// Reads some bytes if there are none. The answer is 0 only at the end of the input.
    pub fn ready<S: Source>(&mut self, source: &mut S) -> Result<usize, Failed>
        ensures same { Keeps (prepend_known self.old (S.left source.old))
            (prepend_known self.new (S.left source.new)) }
        ensures more { IfOk result (λ n. length self.new ≡ n) }
        ensures end { IfOk result (λ n.
            n ≡ 0 → IsAtEnd (prepend_known self.new (S.left source.new))) }
        ensures failed { OnErr result (self.new ≡ []) }
        ensures empty { CountsEmpty (S.empty_reads source.old) (S.empty_reads source.new) result }
        ensures cause { HasCause (S.faults source.old) (S.faults source.new) result }
        ensures count { IsCounted (S.faults source.old) (S.faults source.new) result }
        ensures beside { S.beside source.new ≡ S.beside source.old }
    {
        if self.len() > 0 {
            return Ok(self.len());
        }
        self.fill(source)
    }
}
