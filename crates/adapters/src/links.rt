// A TCP connection as a link.
ghost use Rattle.std.specs.Prelude.{◌≡◌, ◌≤◌, ◌<◌, ◌↔◌, None, length, IfSome, IsTrue};
ghost use Rattle.std.proofs.Common.{refl};
ghost use Rattle.split_base.specs.Links.{link_faults};

use crate::counts::answered;
use crate::limits::LinkLimits;
use split_base::{Failed, Link, Sink, Source};
use std::io::{Read, Write};
use std::net::{OpenStream, Shutdown};
use std::time::{Clock, Duration, Instant};

/// A TCP connection with time limits. It reveals none of its bytes.
///
/// A read or a write fails if it waits longer than one call may, and every one fails once the time of the whole link is over.
#[derive(Drop)]
pub struct TcpLink<'r, S, C> {
    stream: S,
    clock: &'r C,
    limits: LinkLimits,
    begun: Option<Instant>,
    read_faults: u64,
    write_faults: u64,
}

impl<'r, S: Read + Write + OpenStream + Drop, C: Clock> TcpLink<'r, S, C> {
    // A link over this connection, whose time begins now. Small writes go out at once.
    //
    // If the clock or an option of the connection fails, for example because the client has already gone, every call of the link
    // fails.
    pub(crate) fn new(stream: S, clock: &'r C, limits: LinkLimits) -> Self
        ensures reads { result.read_faults ≡ 0 }
        ensures writes { result.write_faults ≡ 0 }
    {
        let is_ready = stream.set_nodelay(true).is_ok() && is_limited(&stream, limits.call);
        let begun = match Instant::now(clock) {
            Ok(begun) if is_ready => Some(begun),
            _ => None,
        };
        TcpLink {
            stream,
            clock,
            limits,
            begun,
            read_faults: 0,
            write_faults: 0,
        }
    }

    /// Whether a call of the link has failed.
    pub fn has_failed(&self) -> bool
        ensures { IsTrue result ↔ (0 < link_faults self.now.read_faults self.now.write_faults) }
    {
        self.read_faults > 0 || self.write_faults > 0
    }

    // Whether the link still has time. If less is left than one call may take, the next call may take only that long.
    fn goes_on(&self) -> bool {
        let Some(begun) = self.begun else {
            return false;
        };
        let Ok(elapsed) = begun.elapsed(self.clock) else {
            return false;
        };
        match self.limits.link.checked_sub(elapsed) {
            None => false,
            Some(left) if left < self.limits.call => is_limited(&self.stream, left),
            Some(_) => true,
        }
    }

    // Does not count its fault: `read` does that.
    fn read_now(&mut self, into: &mut [u8]) -> Option<usize>
        ensures size { IfSome result (λ n. n ≤ length into.new) }
        ensures reads { self.new.read_faults ≡ self.old.read_faults }
        ensures writes { self.new.write_faults ≡ self.old.write_faults }
    {
        if !self.goes_on() {
            return None;
        }
        self.stream.read(into).ok()
    }

    // A write that takes none of a piece has failed.
    fn write_now(&mut self, piece: &[u8]) -> Option<usize>
        ensures size { IfSome result (λ n.
            (n ≤ length piece.now) × (0 < length piece.now → 0 < n)) }
        ensures reads { self.new.read_faults ≡ self.old.read_faults }
        ensures writes { self.new.write_faults ≡ self.old.write_faults }
    {
        if !self.goes_on() {
            return None;
        }
        match self.stream.write(piece) {
            Ok(count) if count > 0 || piece.is_empty() => Some(count),
            _ => None,
        }
    }

    // Tells the client that nothing more will come, and then waits a short time for it to close, dropping what it still sends.
    //
    // A connection that is closed while bytes from the client are unread may be reset, and the client may lose the last reply
    // (RFC 9112, section 9.6). A link that has had a fault is closed at once.
    pub(crate) fn close(self) {
        if self.has_failed() {
            return;
        }
        if self.stream.shutdown(Shutdown::Write).is_err()
            || !is_limited(&self.stream, self.limits.closing)
        {
            return;
        }
        drop_rest(self.stream, self.clock, self.limits.closing);
    }
}

impl<'r, S: Read + Write + OpenStream + Drop, C: Clock> Source for TcpLink<'r, S, C> {
    ghost left = { λ _. None };

    ghost faults = { λ link. link.read_faults };

    ghost beside = { λ link. (None, link.write_faults, 0) };

    fn read(&mut self, into: &mut [u8]) -> Result<usize, Failed> {
        let count = self.read_now(into);
        answered(count, &mut self.read_faults)
    }
}

impl<'r, S: Read + Write + OpenStream + Drop, C: Clock> Sink for TcpLink<'r, S, C> {
    ghost written = { λ _. None };

    ghost faults = { λ link. link.write_faults };

    ghost beside = { λ link. (None, link.read_faults, 0) };

    fn write(&mut self, piece: &[u8]) -> Result<usize, Failed> {
        let count = self.write_now(piece);
        answered(count, &mut self.write_faults)
    }
}

impl<'r, S: Read + Write + OpenStream + Drop, C: Clock> Link for TcpLink<'r, S, C> {
    ghost source_beside = { λ link. refl };

    ghost sink_beside = { λ link. refl };
}

// Limits how long a read or a write of the connection may wait, and says whether that worked.
fn is_limited<S: OpenStream>(stream: &S, most: Duration) -> bool {
    stream.set_read_timeout(Some(most)).is_ok() && stream.set_write_timeout(Some(most)).is_ok()
}

// Reads to the end of what the client sends, but for no longer than this.
fn drop_rest<S: Read + Drop, C: Clock>(mut stream: S, clock: &C, most: Duration) {
    let Ok(begun) = Instant::now(clock) else {
        return;
    };
    let mut into = [0; 4096];
    for _ in 0..u64::MAX {
        match stream.read(&mut into) {
            Ok(count) if count > 0 => {}
            _ => return,
        }
        match begun.elapsed(clock) {
            Ok(elapsed) if elapsed < most => {}
            _ => return,
        }
    }
}
