// The clients of a port, all at once.
ghost use Rattle.std.specs.Prelude.{◌≡◌, ◌<◌, ◌≤◌, length, IfSome};

use crate::accepts::{Backoff, Refusal, refusal_of};
use crate::clients::{Client, Stage, Written};
use crate::limits::PortLimits;
use mio::net::{TcpListener, TcpStream};
use mio::{Interest, Registry, Token};
use slab::Slab;
use std::alloc::Global;
use std::collections::VecDeque;
use std::time::{Clock, Duration};

/// The most connections that are accepted before the clients are looked at again.
const MOST_ACCEPTS: usize = 64;

/// How many bytes one read takes.
const READ_ROOM: usize = 16_384;

/// A turn that the port can hand out.
#[derive(Clone, Copy, Debug)]
pub(crate) enum Next {
    /// The turn of the client at this place.
    Client(usize),
    /// The turn of a client that was dropped before it had one.
    Gone,
}

/// The clients, each at a place of its own, and the line of those waiting for their turn.
#[derive(Drop)]
pub(crate) struct Crowd {
    alloc: Global,
    limits: PortLimits,
    clients: Slab<Client>,
    line: VecDeque<usize>,
    gone: u64,
    scratch: Vec<u8>,
    now: Duration,
    swept: Duration,
    is_knocked: bool,
    backoff: Backoff,
    is_broken: bool,
}

impl Crowd {
    // No clients yet. There is one place more than the number of clients that are kept, for one that comes while none can be dropped.
    pub(crate) fn new(alloc: Global, limits: PortLimits, now: Duration) -> Option<Crowd> {
        let most = limits.clients.saturating_add(1);
        Some(Crowd {
            alloc,
            limits,
            clients: Slab::with_capacity(alloc, most).ok()?,
            line: VecDeque::with_capacity(alloc, most).ok()?,
            gone: 0,
            scratch: Vec::from_elem(alloc, 0, READ_ROOM).ok()?,
            now,
            swept: now,
            is_knocked: false,
            backoff: Backoff::new(),
            is_broken: false,
        })
    }

    // The moment that counts for everything in one turn of the loop.
    pub(crate) fn now(&self) -> Duration {
        self.now
    }

    // Goes on to this moment.
    pub(crate) fn pass_to(&mut self, now: Duration) {
        self.now = now;
    }

    // Whether the listener has failed.
    pub(crate) fn is_broken(&self) -> bool {
        self.is_broken
    }

    // Called after a fault of the wait or of the clock: no more turns are handed out.
    pub(crate) fn break_off(&mut self) {
        self.is_broken = true;
    }

    // Notes that connections are waiting to be accepted.
    pub(crate) fn knock(&mut self) {
        self.is_knocked = true;
    }

    // How long until waiting connections can be accepted. `None` if none are waiting or there is no place for them.
    pub(crate) fn admits_in(&self) -> Option<Duration> {
        if !self.is_knocked {
            return None;
        }
        let left = self.backoff.left(self.now);
        if self.is_full() {
            Some(self.droppable_in()?.max(left))
        } else {
            Some(left)
        }
    }

    // Whether even the extra place is taken.
    fn is_full(&self) -> bool {
        self.clients.len() > self.limits.clients
    }

    // How many places there are.
    fn places(&self) -> usize {
        self.limits.clients.saturating_add(1)
    }

    // How long until a client may be dropped for another.
    fn droppable_in(&self) -> Option<Duration> {
        let mut least = None;
        for (_, client) in self.clients.iter() {
            if let Some(wait) = client.droppable_in(self.now, self.limits.grace) {
                least = Some(wait.min(least.unwrap_or(wait)));
            }
        }
        least
    }

    // Whether `accept` has failed since it last succeeded.
    pub(crate) fn is_refused(&self) -> bool {
        !self.backoff.is_over()
    }

    // Whether a turn can be handed out.
    pub(crate) fn has_next(&self) -> bool {
        self.gone > 0 || !self.line.is_empty()
    }

    // A client may have been dropped since its place was noted, so there may be none.
    pub(crate) fn client(&mut self, at: usize) -> Option<&mut Client> {
        self.clients.get_mut(at)
    }

    // Accepts the connections that have come, as long as there is a place or a client can be dropped for another. After a failure of the port a
    // client is dropped, since descriptors may be lacking. If that doesn't help, those that are waiting are served first.
    pub(crate) fn admit_all<C: Clock>(
        &mut self,
        listener: &TcpListener,
        registry: &Registry,
        clock: &C,
    ) {
        let mut has_failed = false;
        let mut has_dropped = false;
        for _ in 0..MOST_ACCEPTS {
            if self.is_full() && !self.drop_longest() {
                return;
            }
            match self.accept(listener, registry, clock) {
                None => {
                    has_failed = false;
                    has_dropped = false;
                }
                Some(Refusal::Nobody) => return,
                Some(Refusal::Client) => has_failed = true,
                Some(Refusal::Port) => {
                    if has_dropped || !self.drop_longest() {
                        self.lacks();
                        return;
                    }
                    has_dropped = true;
                }
            }
        }
        if has_failed {
            self.backoff.begin(self.now);
        }
    }

    // Accepts a connection, or says why there is none.
    fn accept<C: Clock>(
        &mut self,
        listener: &TcpListener,
        registry: &Registry,
        clock: &C,
    ) -> Option<Refusal> {
        match listener.accept() {
            Ok((stream, _)) => {
                self.backoff.end();
                self.admit(stream, registry, clock);
                None
            }
            Err(error) => {
                let refusal = refusal_of(&error);
                if refusal == Refusal::Nobody {
                    self.backoff.end();
                    self.is_knocked = false;
                }
                Some(refusal)
            }
        }
    }

    // Leaves the listener alone for a while after a failure of the port. If clients are waiting for a turn, the port is full rather than broken.
    fn lacks(&mut self) {
        if !self.has_next() {
            self.backoff.count();
        }
        self.backoff.begin(self.now);
        self.is_broken = self.is_broken || self.backoff.gives_up();
    }

    // Takes a client in. If that is one too many, the one that has waited longest goes.
    fn admit<C: Clock>(&mut self, mut stream: TcpStream, registry: &Registry, clock: &C) {
        if self.clients.len() >= self.limits.clients {
            let _ = self.drop_longest();
        }
        let at = self.clients.vacant_key();
        let interest = Interest::READABLE | Interest::WRITABLE;
        let is_set = stream.set_nodelay(true).is_ok()
            && registry.register(&mut stream, Token(at), interest).is_ok();
        let client = Client::new(stream, self.alloc, self.now);
        if !is_set || self.clients.insert(client).is_err() {
            self.gone = self.gone.saturating_add(1);
            return;
        }
        self.heed(at, true, false, clock);
    }

    // Takes note of what the system reports about a client.
    pub(crate) fn heed<C: Clock>(
        &mut self,
        at: usize,
        is_readable: bool,
        is_ending: bool,
        clock: &C,
    ) {
        if let Some(client) = self.clients.get_mut(at) {
            client.heed(is_readable, is_ending, self.scratch.as_mut_slice(), clock);
            self.settle(at);
        }
    }

    // Lets a client go on to its next request, and says whether that is ready.
    pub(crate) fn goes_on<C: Clock>(&mut self, at: usize, clock: &C) -> bool {
        if let Some(client) = self.clients.get_mut(at) {
            client.go_on(self.scratch.as_mut_slice(), clock);
            client.is_ready()
        } else {
            false
        }
    }

    // Puts a client that may have a turn in line, and drops one that is finished.
    fn settle(&mut self, at: usize) {
        let Some(client) = self.clients.get_mut(at) else {
            return;
        };
        match client.stage() {
            Stage::Waiting | Stage::Served => {}
            Stage::Closing => {
                if client.has_failed() || client.has_ended() && client.kept() == 0 {
                    self.drop_client(at);
                }
            }
            Stage::Filling => {
                if client.has_failed() {
                    self.drop_client(at);
                } else if client.is_ready() {
                    client.enter(Stage::Waiting, self.now);
                    if self.line.push_back(at).is_err() {
                        self.drop_client(at);
                    }
                } else if client.has_failed() || client.has_ended() && client.kept() == 0 {
                    self.drop_client(at);
                }
            }
        }
    }

    // The next turn. The client whose request was whole first comes first.
    pub(crate) fn next(&mut self) -> Option<Next> {
        if self.gone > 0 {
            self.gone -= 1;
            return Some(Next::Gone);
        }
        for _ in 0..u64::MAX {
            let at = self.line.pop_front()?;
            if let Some(client) = self.clients.get_mut(at)
                && client.stage() == Stage::Waiting
            {
                client.serve(self.now);
                return Some(Next::Client(at));
            }
        }
        None
    }

    // Drops a client at once. One that has had no turn yet is still owed one.
    pub(crate) fn drop_client(&mut self, at: usize) {
        if let Some(client) = self.clients.try_remove(at)
            && client.is_fresh()
        {
            self.gone = self.gone.saturating_add(1);
        }
    }

    // Drops the client that has been longest without a whole request, and says whether there was one that may be dropped.
    fn drop_longest(&mut self) -> bool {
        let mut longest = None;
        let mut since = Duration::MAX;
        for at in 0..self.places() {
            if let Some(client) = self.clients.get_mut(at)
                && client.droppable_in(self.now, self.limits.grace) == Some(Duration::ZERO)
                && client.since() < since
            {
                longest = Some(at);
                since = client.since();
            }
        }
        match longest {
            Some(at) => {
                self.drop_client(at);
                true
            }
            None => false,
        }
    }

    // Takes back a client whose turn is over and that may make another request.
    pub(crate) fn keep(&mut self, at: usize) {
        let now = self.now;
        if let Some(client) = self.client(at) {
            client.enter(Stage::Filling, now);
        }
        self.settle(at);
    }

    // Closes a client whose last reply has been sent or is kept.
    pub(crate) fn close<C: Clock>(&mut self, at: usize, clock: &C) {
        let now = self.now;
        if let Some(client) = self.client(at) {
            client.close(now);
        }
        self.heed(at, false, false, clock);
    }

    // Writes the front of a piece to a client. What the system doesn't take is kept.
    pub(crate) fn write(&mut self, at: usize, piece: &[u8]) -> Option<usize>
        ensures { IfSome result (λ n. (n ≤ length piece.now) × (0 < length piece.now → 0 < n)) }
    {
        let client = self.client(at)?;
        if client.has_this(piece) {
            return Some(piece.len());
        }
        match client.write(piece) {
            Written::Taken(count) => Some(count),
            Written::Full => self.keep_piece(at, piece),
            Written::Failed => None,
        }
    }

    // Keeps a whole piece for a client. If too much is kept for all clients together, those for whom something has been kept longest are
    // dropped.
    fn keep_piece(&mut self, at: usize, piece: &[u8]) -> Option<usize>
        ensures { IfSome result (λ n. n ≡ length piece.now) }
    {
        let now = self.now;
        let kept = self.client(at)?.kept();
        if kept.saturating_add(piece.len()) > self.limits.kept_of_one {
            return None;
        }
        for _ in 0..self.places() {
            if self.kept_of_all().saturating_add(piece.len()) <= self.limits.kept_of_all {
                break;
            }
            match self.longest_kept() {
                Some(other) if other != at => self.drop_client(other),
                _ => return None,
            }
        }
        self.client(at)?.keep(piece, now)
    }

    // All clients share one limit on the bytes that wait to be sent.
    fn kept_of_all(&self) -> usize {
        let mut kept = 0usize;
        for (_, client) in self.clients.iter() {
            kept = kept.saturating_add(client.kept());
        }
        kept
    }

    // The client for whom something has been kept longest.
    fn longest_kept(&mut self) -> Option<usize> {
        let mut longest = None;
        let mut since = Duration::MAX;
        for at in 0..self.places() {
            if let Some(client) = self.clients.get_mut(at)
                && client.kept() > 0
                && client.kept_since() < since
            {
                longest = Some(at);
                since = client.kept_since();
            }
        }
        longest
    }

    // Whether something is still to be sent, or some closed client hasn't closed its own end.
    pub(crate) fn is_busy(&self) -> bool {
        self.clients.iter().any(|(_, client)| client.kept() > 0 || client.stage() == Stage::Closing)
    }

    // Drops the clients whose time is over. It looks for them only once in a while.
    pub(crate) fn sweep(&mut self) {
        if self.now.saturating_sub(self.swept) < self.limits.closing {
            return;
        }
        self.swept = self.now;
        for at in 0..self.places() {
            if let Some(client) = self.clients.get_mut(at) {
                let most = match client.stage() {
                    Stage::Closing if client.kept() == 0 => self.limits.closing,
                    Stage::Filling | Stage::Closing => self.limits.idle,
                    Stage::Waiting | Stage::Served => Duration::MAX,
                };
                if self.now.saturating_sub(client.since()) > most {
                    self.drop_client(at);
                }
            }
        }
    }
}
