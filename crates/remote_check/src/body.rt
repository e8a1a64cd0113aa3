// The body of a reply as a source.
ghost use Rattle.std.specs.Prelude.{◌≡◌, ◌≤◌, ◌<◌, length, take, MatchResult, IfOk};
ghost use Rattle.std.specs.Io.KnownBytes.{Consumes, IsAtEnd, Keeps};
ghost use Rattle.split_base.specs.Faults.{HasCause, IsCounted};
ghost use Rattle.split_base.specs.Streams.{CountsEmpty, Reads};
ghost use Rattle.remote_check.specs.Bodies.{count_at_fault, count_with, ends_with, given_by, under_name};

use crate::limits::FILLER;
use split_base::{Failed, Source};

// What is due of a body.
#[derive(Clone, Copy, Drop)]
pub(crate) enum Due {
    // This many bytes of the link are awaited.
    Awaited(usize),
    // The input ended within the body, and so much filler is left.
    Filler(usize),
    // A read failed before a byte that this many follow. Each read since was refused: this many.
    Refused(usize, u64),
}

// Gives as many bytes of the link as are awaited, and then ends. If the input ends within them, filler follows, more than a certificate has, so that the judge
// finds the body too long, whatever was sent of it; it finds no other so. Once a read has failed, or has met the end of the input, the link is not read again.
#[derive(Drop)]
pub(crate) struct Body<'l, S> {
    pub(crate) link: &'l mut S,
    pub(crate) due: Due,
}

impl<'l, S: Source> Body<'l, S> {
    // Gives some of the awaited bytes, this many, or filler if the input ends.
    fn take_awaited(&mut self, into: &mut [u8], count: usize) -> Result<usize, Failed>
        requires some { 0 < length into.old }
        requires due { self.old.due ≡ Due.Awaited count }
        ensures bytes { Reads (given_by self.old.due (S.left self.old.link.now))
            (given_by self.new.due (S.left self.new.link.now)) result into.new }
        ensures kept { under_name self.new.link.ghost_name
            (count_at_fault self.new.due (S.faults self.new.link.now)) (S.beside self.new.link.now)
            ≡ under_name self.old.link.ghost_name
            (count_at_fault self.old.due (S.faults self.old.link.now))
            (S.beside self.old.link.now) }
        ensures empty { CountsEmpty (ends_with self.old.due (S.empty_reads self.old.link.now))
            (ends_with self.new.due (S.empty_reads self.new.link.now)) result }
        ensures cause { HasCause (count_with self.old.due (S.faults self.old.link.now))
            (count_with self.new.due (S.faults self.new.link.now)) result }
        ensures count { IsCounted (count_with self.old.due (S.faults self.old.link.now))
            (count_with self.new.due (S.faults self.new.link.now)) result }
    {
        if count == 0 {
            return Ok(0);
        }
        let room = into.len().min(count);
        match self.link.read(&mut into[..room]) {
            Err(Failed) => {
                self.due = Due::Refused(count - 1, 0);
                Err(Failed)
            }
            Ok(0) => {
                self.due = Due::Filler(FILLER);
                Ok(self.take_filler(into, FILLER))
            }
            Ok(read) => {
                self.due = Due::Awaited(count - read);
                Ok(read)
            }
        }
    }

    // Gives some of the filler, so much, or none if none is left.
    fn take_filler(&mut self, into: &mut [u8], count: usize) -> usize
        requires { self.old.due ≡ Due.Filler count }
        ensures few { result ≤ length into.new }
        ensures bytes { Consumes (given_by self.old.due (S.left self.old.link.now))
            (given_by self.new.due (S.left self.new.link.now)) (take result into.new) }
        ensures end { result ≡ 0 → 0 < length into.new
            → IsAtEnd (given_by self.new.due (S.left self.new.link.now)) }
        ensures kept { under_name self.new.link.ghost_name
            (count_at_fault self.new.due (S.faults self.new.link.now)) (S.beside self.new.link.now)
            ≡ under_name self.old.link.ghost_name
            (count_at_fault self.old.due (S.faults self.old.link.now))
            (S.beside self.old.link.now) }
        ensures empty { ends_with self.new.due (S.empty_reads self.new.link.now)
            ≡ ends_with self.old.due (S.empty_reads self.old.link.now) }
        ensures count { count_with self.new.due (S.faults self.new.link.now)
            ≡ count_with self.old.due (S.faults self.old.link.now) }
    {
        let filled = into.len().min(count);
        into[..filled].fill(0);
        self.due = Due::Filler(count - filled);
        filled
    }
}

impl<'l, S: Source> Source for Body<'l, S> {
    ghost left = { λ body. given_by body.due (S.left body.link.now) };

    ghost faults = { λ body. count_with body.due (S.faults body.link.now) };

    ghost empty_reads = { λ body. ends_with body.due (S.empty_reads body.link.now) };

    ghost beside = { λ body. under_name body.link.ghost_name (count_at_fault body.due (S.faults body.link.now)) (S.beside body.link.now) };

    fn read(&mut self, into: &mut [u8]) -> Result<usize, Failed> {
        if into.is_empty() {
            return Ok(0);
        }
        match self.due {
            Due::Awaited(count) => self.take_awaited(into, count),
            Due::Filler(count) => Ok(self.take_filler(into, count)),
            Due::Refused(behind, more) => {
                self.due = Due::Refused(behind, more.saturating_add(1));
                Err(Failed)
            }
        }
    }
}
