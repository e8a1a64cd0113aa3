// A client of a port: its connection, what it has sent, and what is kept to be sent to it.
ghost use Rattle.std.specs.Prelude.{◌≡◌, ◌≤◌, length, IfSome};
ghost use Rattle.client_port.specs.Writes.{IsWritten};

use adapters::second_of;
use mio::net::TcpStream;
use split_http::{Framing, INTERIM, MAX_BODY, MAX_HEAD, framing_of};
use std::alloc::Global;
use std::io::{ErrorKind, Read, Write};
use std::net::Shutdown;
use std::time::{Clock, Duration};

/// The most bytes that are read ahead from a client: those of the longest request, and less than one further read.
const MOST_AHEAD: usize = MAX_HEAD + MAX_BODY as usize;

/// The most reads in one look at a client. What is left after that is read at the next look, or belongs to a client that is
/// closed.
const MOST_READS: usize = 16;

/// The most times in a row that a signal may interrupt a write. Linux never does that to a write that doesn't wait, so beyond that the connection has failed.
const MOST_INTERRUPTIONS: usize = 100;

/// The most room that is kept for a client that has sent nothing further.
const KEPT_ROOM: usize = 4_096;

/// What stage a client is at.
#[derive(Clone, Copy, Debug, PartialEq, Eq)]
pub(crate) enum Stage {
    /// Its next request isn't whole, or it hasn't taken the reply to the last one.
    Filling,
    /// It waits for its turn.
    Waiting,
    /// It has been handed out.
    Served,
    /// It is dropped as soon as it has closed its end.
    Closing,
}

/// Where the request at the front of the bytes ends.
#[derive(Clone, Copy, Debug, PartialEq, Eq)]
enum End {
    /// That isn't known yet.
    Open,
    /// After this many bytes.
    Behind(usize),
    /// There is no request: the host hears everything that has come, and refuses it.
    Never,
}

/// What became of a write.
#[derive(Clone, Copy, Debug, PartialEq, Eq)]
pub(crate) enum Written {
    /// The system, or the client, took this many bytes.
    Taken(usize),
    /// The write would have to wait.
    Full,
    /// The connection has failed.
    Failed,
}

/// A client.
#[derive(Drop)]
pub(crate) struct Client {
    stream: TcpStream,
    stage: Stage,
    since: Duration,
    heard: Option<u64>,
    arrived: Option<u64>,
    input: Vec<u8>,
    looked: usize,
    given: usize,
    end: End,
    output: Vec<u8>,
    sent: usize,
    kept_since: Duration,
    is_fresh: bool,
    has_interim: bool,
    is_readable: bool,
    is_ending: bool,
    has_ended: bool,
    has_failed: bool,
}

impl Client {
    // A client that has just come. What it has sent has not been looked at yet.
    pub(crate) fn new(stream: TcpStream, alloc: Global, now: Duration) -> Client {
        Client {
            stream,
            stage: Stage::Filling,
            since: now,
            heard: None,
            arrived: None,
            input: Vec::new(alloc),
            looked: 0,
            given: 0,
            end: End::Open,
            output: Vec::new(alloc),
            sent: 0,
            kept_since: now,
            is_fresh: true,
            has_interim: false,
            is_readable: true,
            is_ending: false,
            has_ended: false,
            has_failed: false,
        }
    }

    // Where the client is between its first byte and the end of its connection.
    pub(crate) fn stage(&self) -> Stage {
        self.stage
    }

    // When it came to its stage.
    pub(crate) fn since(&self) -> Duration {
        self.since
    }

    // How long until it may be dropped for another client. `None` if it has a whole request.
    pub(crate) fn droppable_in(&self, now: Duration, grace: Duration) -> Option<Duration> {
        match self.stage {
            Stage::Filling | Stage::Closing => Some(grace.saturating_sub(now.saturating_sub(
                self.since,
            ))),
            Stage::Waiting | Stage::Served => None,
        }
    }

    // Whether it has not been handed out yet.
    pub(crate) fn is_fresh(&self) -> bool {
        self.is_fresh
    }

    // Whether nothing more will come from it.
    pub(crate) fn has_ended(&self) -> bool {
        self.has_ended
    }

    // Whether its connection has failed.
    pub(crate) fn has_failed(&self) -> bool {
        self.has_failed
    }

    // How many bytes are kept for it.
    pub(crate) fn kept(&self) -> usize {
        self.output.len()
    }

    // Since when some bytes have been kept for it without a break.
    pub(crate) fn kept_since(&self) -> Duration {
        self.kept_since
    }

    // Goes on to a stage.
    pub(crate) fn enter(&mut self, stage: Stage, now: Duration) {
        self.stage = stage;
        self.since = now;
    }

    // Takes note of what the system reports about the connection.
    pub(crate) fn heed<C: Clock>(
        &mut self,
        is_readable: bool,
        is_ending: bool,
        scratch: &mut [u8],
        clock: &C,
    ) {
        if is_readable || is_ending {
            self.is_readable = true;
        }
        if is_ending {
            self.is_ending = true;
        }
        self.flush();
        self.fill(scratch, clock);
    }

    // Reads ahead what has come, and notes by the clock when the last of it was here.
    fn fill<C: Clock>(&mut self, scratch: &mut [u8], clock: &C) {
        let before = self.input.len();
        self.read_ahead(scratch);
        if self.input.len() > before {
            self.heard = second_of(clock);
        }
    }

    // Reads ahead what has come, up to the most that is kept.
    fn read_ahead(&mut self, scratch: &mut [u8]) {
        let most = scratch.len();
        for _ in 0..MOST_READS {
            if !self.is_readable || self.input.len() >= MOST_AHEAD {
                return;
            }
            match self.stream.read(scratch) {
                Ok(0) => {
                    self.is_readable = false;
                    self.has_ended = true;
                }
                Ok(count) => self.take(&scratch[..count], count < most),
                Err(error) if error.kind() == ErrorKind::WouldBlock => self.is_readable = false,
                Err(error) if error.kind() == ErrorKind::Interrupted => {}
                Err(_) => self.fail(),
            }
        }
    }

    // Keeps what was read. A short read has taken all that was there.
    fn take(&mut self, bytes: &[u8], is_short: bool) {
        if is_short && !self.is_ending {
            self.is_readable = false;
        }
        if self.stage != Stage::Closing && self.input.extend_from_slice(bytes).is_err() {
            self.fail();
        }
    }

    // A client that has failed is dropped at the next look and isn't read again.
    fn fail(&mut self) {
        self.is_readable = false;
        self.has_failed = true;
    }

    // Whether it may have a turn: its request is whole or is one that the host refuses, or it sends no more; and it has taken
    // everything that was sent to it. One that asks for an interim reply gets it here, as soon as its head is there.
    pub(crate) fn is_ready(&mut self) -> bool {
        if self.end == End::Open && self.input.len() > self.looked {
            self.look();
        }
        let has_arrived = self.is_whole() || self.is_cut();
        if has_arrived && self.arrived.is_none() {
            self.arrived = self.heard;
        }
        self.output.is_empty() && has_arrived
    }

    // When all of its current request was here, in seconds since 1970. What came after that doesn't count. `None` if the system's clock failed.
    pub(crate) fn arrived(&self) -> Option<u64> {
        self.arrived
    }

    // Looks for the end of the request at the front.
    fn look(&mut self) {
        self.looked = self.input.len();
        match framing_of(self.input.as_slice()) {
            Framing::Open => {}
            Framing::NoHead => self.end = End::Never,
            Framing::Request { bytes, expects } => {
                self.end = End::Behind(bytes);
                if expects {
                    self.send_interim();
                }
            }
        }
    }

    // The host hears the request only when all of it is there, so the port has to ask for the body.
    fn send_interim(&mut self) {
        self.has_interim = true;
        let taken = match self.write(INTERIM) {
            Written::Taken(count) => count,
            Written::Full => 0,
            Written::Failed => return,
        };
        if let Some(rest) = INTERIM.get(taken..)
            && !rest.is_empty()
        {
            let now = self.since;
            let _ = self.keep(rest, now);
        }
    }

    // Whether the host can hear the whole request at the front.
    fn is_whole(&self) -> bool {
        match self.end {
            End::Open => false,
            End::Behind(end) => end <= self.input.len(),
            End::Never => true,
        }
    }

    // Whether nothing more will come of a request that has begun, or from a connection that hasn't been handed out yet.
    fn is_cut(&self) -> bool {
        self.has_ended && (self.is_fresh || !self.input.is_empty())
    }

    // Begins its turn.
    pub(crate) fn serve(&mut self, now: Duration) {
        self.enter(Stage::Served, now);
        self.is_fresh = false;
    }

    // Where the bytes that the host may hear end.
    fn stop(&self) -> usize {
        match self.end {
            End::Behind(end) => end.min(self.input.len()),
            End::Open | End::Never => self.input.len(),
        }
    }

    // Gives bytes of the current request, as many as there are and as fit.
    pub(crate) fn give(&mut self, into: &mut [u8]) -> usize
        ensures { result ≤ length into.new }
    {
        let stop = self.stop();
        if self.given >= stop {
            return 0;
        }
        let Some(bytes) = self.input.as_slice().get(self.given..stop) else {
            return 0;
        };
        let count = bytes.len().min(into.len());
        into[..count].copy_from_slice(&bytes[..count]);
        self.given = self.given.saturating_add(count);
        count
    }

    // Whether bytes of the current request are left.
    pub(crate) fn has_more(&self) -> bool {
        self.given < self.stop()
    }

    // Whether the whole current request was given, so that another may follow.
    pub(crate) fn is_given(&self) -> bool {
        match self.end {
            End::Behind(end) => self.given >= end,
            End::Open | End::Never => false,
        }
    }

    // Goes on to the next request.
    pub(crate) fn go_on<C: Clock>(&mut self, scratch: &mut [u8], clock: &C) {
        drop_front(&mut self.input, self.given);
        if self.input.is_empty() && self.input.capacity() > KEPT_ROOM {
            self.input = Vec::new(*self.input.allocator());
        }
        self.given = 0;
        self.looked = 0;
        self.end = End::Open;
        self.has_interim = false;
        self.arrived = None;
        self.fill(scratch, clock);
    }

    // Whether this is the host's interim reply, which the client already has.
    pub(crate) fn has_this(&mut self, piece: &[u8]) -> bool {
        if self.has_interim && piece == INTERIM {
            self.has_interim = false;
            return true;
        }
        false
    }

    // Writes the front of a piece, if nothing is kept.
    pub(crate) fn write(&mut self, piece: &[u8]) -> Written
        ensures { IsWritten piece.now result }
    {
        if self.has_failed {
            return Written::Failed;
        }
        if piece.is_empty() {
            return Written::Taken(0);
        }
        if !self.output.is_empty() {
            return Written::Full;
        }
        for _ in 0..MOST_INTERRUPTIONS {
            match self.stream.write(piece) {
                Ok(count) if count > 0 => return Written::Taken(count),
                Err(error) if error.kind() == ErrorKind::Interrupted => {}
                Err(error) if error.kind() == ErrorKind::WouldBlock => return Written::Full,
                _ => break,
            }
        }
        self.fail();
        Written::Failed
    }

    // Keeps a piece to be sent.
    pub(crate) fn keep(&mut self, piece: &[u8], now: Duration) -> Option<usize>
        ensures { IfSome result (λ n. n ≡ length piece.now) }
    {
        if self.output.is_empty() {
            self.kept_since = now;
        }
        if self.output.extend_from_slice(piece).is_err() {
            self.fail();
            return None;
        }
        Some(piece.len())
    }

    // Sends what is kept, as far as the connection takes it.
    fn flush(&mut self) {
        if self.output.is_empty() || !self.sends() {
            return;
        }
        self.output = Vec::new(*self.output.allocator());
        self.sent = 0;
        if self.stage == Stage::Closing {
            self.shut();
        }
    }

    // Sends what is kept, and says whether all of it has gone out.
    fn sends(&mut self) -> bool {
        let mut left = MOST_INTERRUPTIONS;
        for _ in 0..u64::MAX {
            let rest = match self.output.as_slice().get(self.sent..) {
                Some(rest) if !rest.is_empty() => rest,
                _ => return true,
            };
            match self.stream.write(rest) {
                Ok(count) if count > 0 => self.sent = self.sent.saturating_add(count),
                Err(error) if error.kind() == ErrorKind::Interrupted && left > 0 => left -= 1,
                Err(error) if error.kind() == ErrorKind::WouldBlock => return false,
                _ => {
                    self.fail();
                    return false;
                }
            }
        }
        false
    }

    // Tells the client that nothing more will come after what is kept, and drops what it still sends.
    //
    // A connection that is closed while bytes from the client are unread may be reset, and the client may lose the last reply (RFC
    // 9112, section 9.6).
    pub(crate) fn close(&mut self, now: Duration) {
        self.enter(Stage::Closing, now);
        self.input = Vec::new(*self.input.allocator());
        if self.output.is_empty() {
            self.shut();
        }
    }

    // The client learns that nothing more comes, while its own last bytes can still be read.
    fn shut(&mut self) {
        if self.stream.shutdown(Shutdown::Write).is_err() {
            self.has_failed = true;
        }
    }
}

// Removes the first bytes.
fn drop_front(bytes: &mut Vec<u8>, count: usize) {
    let len = bytes.len();
    if count >= len {
        bytes.clear();
        return;
    }
    bytes.as_mut_slice().copy_within(count..len, 0);
    bytes.truncate(len - count);
}
