// A listener with its clients, and the one loop that serves them.
ghost use Rattle.std.specs.Prelude.{◌≡◌, ◌<◌, ◌≤◌, length, IfSome};

use crate::accepts::Backoff;
use crate::clients::Client;
use crate::crowd::{Crowd, Next};
use crate::limits::PortLimits;
use mio::net::TcpListener;
use mio::{Events, Interest, Poll, Token};
use std::alloc::Global;
use std::net::{IpAddr, Ipv4Addr, Net, SocketAddr};
use std::thread;
use std::time::{Clock, Duration};

/// How many events one wait takes.
const MOST_EVENTS: usize = 256;

/// How many looks closing down takes at most, if the clock has stopped.
const MOST_LOOKS: usize = 100_000;

/// For how long a look at all clients stays fresh, in microseconds.
const FRESH_MICROS: u64 = 100;

/// A listener with its clients, and the one loop that serves them.
#[derive(Drop)]
pub(crate) struct Pool {
    listener: TcpListener,
    poll: Poll,
    events: Events,
    crowd: Crowd,
    early: Backoff,
    looked: Duration,
    limits: PortLimits,
}

impl Pool {
    // Listens at a port of this machine. No client is there yet.
    pub(crate) fn open<R: Net + Clock>(
        alloc: Global,
        system: &R,
        port: u16,
        limits: PortLimits,
    ) -> Option<Pool> {
        let address = SocketAddr::new(IpAddr::V4(Ipv4Addr::LOCALHOST), port);
        let mut listener = TcpListener::bind(system, address).ok()?;
        let poll = Poll::new(system).ok()?;
        let events = Events::with_capacity(alloc, MOST_EVENTS).ok()?;
        let now = system.monotonic().ok()?;
        let crowd = Crowd::new(alloc, limits, now)?;
        poll.registry()
            .register(&mut listener, Token(usize::MAX), Interest::READABLE)
            .ok()?;
        Some(Pool {
            listener,
            poll,
            events,
            crowd,
            early: Backoff::new(),
            looked: now,
            limits,
        })
    }

    // Waits until the system reports something about a client or the time is over, and takes note of what it reports.
    pub(crate) fn turn<C: Clock>(&mut self, clock: &C, most: Duration) {
        let begun = self.crowd.now();
        let wait = self.crowd.admits_in().unwrap_or(most).min(most);
        if self.poll.poll(&mut self.events, Some(wait)).is_err() {
            self.crowd.break_off();
            return;
        }
        self.read_clock(clock);
        self.looked = self.crowd.now();
        self.rest(clock, begun, wait);
        for event in self.events.iter() {
            let at = event.token().0;
            if at == usize::MAX {
                self.crowd.knock();
            } else {
                let is_ending = event.is_read_closed() || event.is_error();
                self.crowd.heed(at, event.is_readable(), is_ending, clock);
            }
        }
        if self.crowd.admits_in() == Some(Duration::ZERO) {
            self.crowd
                .admit_all(&self.listener, self.poll.registry(), clock);
        }
        self.crowd.sweep();
    }

    // Pauses if a wait ended early without reporting anything, as when signals keep interrupting it.
    fn rest<C: Clock>(&mut self, clock: &C, begun: Duration, wait: Duration) {
        let now = self.crowd.now();
        if self.events.is_empty() && now.saturating_sub(begun) < wait {
            self.early.begin(now);
            thread::sleep(clock, self.early.left(now));
        } else {
            self.early.end();
        }
    }

    // Reads the clock. If that fails, no pause ends.
    fn read_clock<C: Clock>(&mut self, clock: &C) {
        match clock.monotonic() {
            Ok(now) => self.crowd.pass_to(now),
            Err(_) => {
                if self.crowd.is_refused() {
                    self.crowd.break_off();
                }
            }
        }
    }

    // Looks at all clients, if the last look is no longer fresh.
    fn look<C: Clock>(&mut self, clock: &C) {
        self.read_clock(clock);
        if self.crowd.now().saturating_sub(self.looked) >= Duration::from_micros(FRESH_MICROS) {
            self.turn(clock, Duration::ZERO);
        }
    }

    // Waits for the next turn; gives nothing if the listener or the system's wait has failed.
    pub(crate) fn await_next<C: Clock>(&mut self, clock: &C) -> Option<Next> {
        self.look(clock);
        for _ in 0..u64::MAX {
            if let Some(next) = self.crowd.next() {
                return Some(next);
            }
            if self.crowd.is_broken() {
                return None;
            }
            self.turn(clock, self.limits.closing);
        }
        None
    }

    // How long the host may wait for the next request of the client whose turn it is. `None` if another client is ready.
    pub(crate) fn patience(&self) -> Option<Duration> {
        if self.crowd.has_next() {
            None
        } else {
            Some(self.limits.closing)
        }
    }

    // Whether the listener, or the system's wait, has failed.
    pub(crate) fn is_broken(&self) -> bool {
        self.crowd.is_broken()
    }

    // The moment at which the loop last looked at the clock.
    pub(crate) fn now(&self) -> Duration {
        self.crowd.now()
    }

    // The limits with which the port was opened.
    pub(crate) fn limits(&self) -> PortLimits {
        self.limits
    }

    // A client may have been dropped since its place was noted, so there may be none.
    pub(crate) fn client(&mut self, at: usize) -> Option<&mut Client> {
        self.crowd.client(at)
    }

    // Lets a client go on to its next request. If there will be no wait for it, the other clients are looked at first.
    pub(crate) fn go_on<C: Clock>(&mut self, at: usize, clock: &C) {
        if self.crowd.goes_on(at, clock) || self.crowd.has_next() {
            self.look(clock);
        }
    }

    // Writes the front of a piece to a client, or keeps it whole.
    pub(crate) fn write(&mut self, at: usize, piece: &[u8]) -> Option<usize>
        ensures { IfSome result (λ n. (n ≤ length piece.now) × (0 < length piece.now → 0 < n)) }
    {
        self.crowd.write(at, piece)
    }

    // Takes back a client whose turn is over and that may make another request.
    pub(crate) fn keep(&mut self, at: usize) {
        self.crowd.keep(at);
    }

    // Closes a client whose last reply has been sent or is kept.
    pub(crate) fn close<C: Clock>(&mut self, at: usize, clock: &C) {
        self.crowd.close(at, clock);
    }

    // Drops a client at once.
    pub(crate) fn drop_client(&mut self, at: usize) {
        self.crowd.drop_client(at);
    }

    // Sends what is kept, and waits for a short time for closed clients to close their own ends.
    pub(crate) fn finish<C: Clock>(&mut self, clock: &C) {
        self.read_clock(clock);
        let end = self.crowd.now().saturating_add(self.limits.closing);
        for _ in 0..MOST_LOOKS {
            let left = end.saturating_sub(self.crowd.now());
            if left == Duration::ZERO || !self.crowd.is_busy() {
                return;
            }
            self.turn(clock, left);
        }
    }
}
