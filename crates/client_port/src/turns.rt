// A client's turn, as a link.
ghost use Rattle.std.specs.Prelude.{◌≡◌, ◌<◌, ◌≤◌, ◌↔◌, length, IfSome, IsTrue, None};
ghost use Rattle.std.proofs.Common.{refl};
ghost use Rattle.split_base.specs.Links.{link_faults};

use crate::crowd::Next;
use crate::pool::Pool;
use adapters::Arrival;
use adapters::counts::answered;
use split_base::{Failed, Link, Sink, Source};
use std::time::{Clock, Duration};

/// What a read comes to.
#[derive(Clone, Copy, Debug, PartialEq, Eq)]
enum Step {
    /// There are bytes of the current request.
    Gives,
    /// The input of the link ends.
    Ends,
    /// The connection has failed, or its time is over.
    Fails,
    /// It waits for no longer than this, and then looks again.
    Waits(Duration),
}

/// A client's turn: one request or several, each of them whole. It reveals none of its bytes.
///
/// Its input ends if the client has closed its end, and between two requests if another client is ready. In the second case the connection
/// stays, and has another turn when its next request is whole. A client that was dropped before it had a turn has one whose calls all fail.
///
/// It notes when each request had all arrived.
#[derive(Drop)]
pub struct TurnLink<'r, C> {
    pool: Pool,
    next: Next,
    clock: &'r C,
    arrival: &'r Arrival,
    is_between: bool,
    gives_way: bool,
    asked: Duration,
    read_faults: u64,
    write_faults: u64,
}

impl<'r, C: Clock> TurnLink<'r, C> {
    // A turn, which begins where the loop stands now.
    pub(crate) fn new(pool: Pool, next: Next, clock: &'r C, arrival: &'r Arrival) -> Self
        ensures reads { result.read_faults ≡ 0 }
        ensures writes { result.write_faults ≡ 0 }
    {
        let asked = pool.now();
        let mut pool = pool;
        arrival.note(arrived(&mut pool, next));
        TurnLink {
            pool,
            next,
            clock,
            arrival,
            is_between: false,
            gives_way: false,
            asked,
            read_faults: 0,
            write_faults: 0,
        }
    }

    /// Whether a call of the link has failed.
    pub fn has_failed(&self) -> bool
        ensures { IsTrue result ↔ (0 < link_faults self.now.read_faults self.now.write_faults) }
    {
        self.read_faults > 0 || self.write_faults > 0
    }

    // Turns the loop until the client has bytes, has ended or has failed, so that the others are served meanwhile.
    fn read_now(&mut self, into: &mut [u8]) -> Option<usize>
        ensures size { IfSome result (λ n. n ≤ length into.new) }
        ensures reads { self.new.read_faults ≡ self.old.read_faults }
        ensures writes { self.new.write_faults ≡ self.old.write_faults }
    {
        let Next::Client(at) = self.next else {
            return None;
        };
        for _ in 0..u64::MAX {
            match self.step(at) {
                Step::Gives => return self.gives(at, into),
                Step::Ends => return Some(0),
                Step::Fails => return None,
                Step::Waits(most) => self.pool.turn(self.clock, most),
            }
        }
        None
    }

    // Gives bytes of the current request.
    fn gives(&mut self, at: usize, into: &mut [u8]) -> Option<usize>
        ensures size { IfSome result (λ n. n ≤ length into.new) }
        ensures reads { self.new.read_faults ≡ self.old.read_faults }
        ensures writes { self.new.write_faults ≡ self.old.write_faults }
    {
        let client = self.pool.client(at)?;
        Some(client.give(into))
    }

    // What a read can do at once, without turning the loop.
    fn step(&mut self, at: usize) -> Step
        ensures reads { self.new.read_faults ≡ self.old.read_faults }
        ensures writes { self.new.write_faults ≡ self.old.write_faults }
    {
        if self.gives_way {
            return Step::Ends;
        }
        if self.is_between {
            return self.step_between(at);
        }
        let Some(client) = self.pool.client(at) else {
            return Step::Fails;
        };
        if client.has_more() {
            return Step::Gives;
        }
        if !client.is_given() {
            return Step::Ends;
        }
        self.pool.go_on(at, self.clock);
        self.is_between = true;
        self.asked = self.pool.now();
        self.step_between(at)
    }

    // What a read can do after the reply to a request, before the next one is whole.
    fn step_between(&mut self, at: usize) -> Step
        ensures reads { self.new.read_faults ≡ self.old.read_faults }
        ensures writes { self.new.write_faults ≡ self.old.write_faults }
    {
        let Some(most) = self.pool.patience() else {
            self.gives_way = true;
            return Step::Ends;
        };
        let is_over = self.pool.now().saturating_sub(self.asked) > self.pool.limits().idle;
        let is_broken = self.pool.is_broken();
        let Some(client) = self.pool.client(at) else {
            return Step::Fails;
        };
        if client.is_ready() {
            self.is_between = false;
            self.arrival.note(client.arrived());
            return Step::Gives;
        }
        if client.has_failed() || is_over || is_broken {
            return Step::Fails;
        }
        if client.has_ended() && client.kept() == 0 {
            return Step::Ends;
        }
        Step::Waits(most)
    }

    // What the connection doesn't take at once is kept, so a write never waits.
    fn write_now(&mut self, piece: &[u8]) -> Option<usize>
        ensures size { IfSome result (λ n.
            (n ≤ length piece.now) × (0 < length piece.now → 0 < n)) }
        ensures reads { self.new.read_faults ≡ self.old.read_faults }
        ensures writes { self.new.write_faults ≡ self.old.write_faults }
    {
        let Next::Client(at) = self.next else {
            return None;
        };
        self.pool.write(at, piece)
    }

    // Gives the pool back. The client goes on if it has only given way, and is otherwise closed.
    pub(crate) fn done(self) -> Pool {
        let mut pool = self.pool;
        if let Next::Client(at) = self.next {
            if self.read_faults > 0 || self.write_faults > 0 {
                pool.drop_client(at);
            } else if self.gives_way {
                pool.keep(at);
            } else {
                pool.close(at, self.clock);
            }
        }
        pool
    }
}

// When all of the first request of a turn was here.
fn arrived(pool: &mut Pool, next: Next) -> Option<u64> {
    match next {
        Next::Client(at) => pool.client(at)?.arrived(),
        Next::Gone => None,
    }
}

impl<'r, C: Clock> Source for TurnLink<'r, C> {
    ghost left = { λ _. None };

    ghost faults = { λ link. link.read_faults };

    ghost beside = { λ link. (None, link.write_faults, 0) };

    fn read(&mut self, into: &mut [u8]) -> Result<usize, Failed> {
        let count = self.read_now(into);
        answered(count, &mut self.read_faults)
    }
}

impl<'r, C: Clock> Sink for TurnLink<'r, C> {
    ghost written = { λ _. None };

    ghost faults = { λ link. link.write_faults };

    ghost beside = { λ link. (None, link.read_faults, 0) };

    fn write(&mut self, piece: &[u8]) -> Result<usize, Failed> {
        let count = self.write_now(piece);
        answered(count, &mut self.write_faults)
    }
}

impl<'r, C: Clock> Link for TurnLink<'r, C> {
    ghost source_beside = { λ link. refl };

    ghost sink_beside = { λ link. refl };
}
