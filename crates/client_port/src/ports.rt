// A TCP port of this machine, which hands out turns of its clients.
ghost use Rattle.std.specs.Prelude.{◌≡◌, None};

use crate::limits::PortLimits;
use crate::pool::Pool;
use crate::turns::TurnLink;
use adapters::Arrival;
use adapters::counts::fault;
use split_base::{Asked, Failed, Port};
use std::alloc::Global;
use std::net::Net;
use std::time::Clock;

/// The TCP ports of 127.0.0.1, which no other machine reaches. It never ends. It reads ahead from all its clients and hands out their turns,
/// in the order in which their requests became whole. There is one turn at a time: `accept` fails until the last link has been given back.
#[derive(Drop)]
pub struct TcpPort<'r, R> {
    alloc: Global,
    system: &'r R,
    arrival: &'r Arrival,
    limits: PortLimits,
    pool: Option<Pool>,
    out: u64,
    faults: u64,
    asked: Asked,
}

impl<'r, R: Net + Clock> TcpPort<'r, R> {
    /// A port that isn't listening yet and has had no fault. It takes memory when it listens, and for its clients. It notes when each request had arrived.
    pub fn new(alloc: Global, system: &'r R, arrival: &'r Arrival, limits: PortLimits) -> Self
        ensures faults { result.faults ≡ 0 }
        ensures out { result.out ≡ 0 }
    {
        TcpPort {
            alloc,
            system,
            arrival,
            limits,
            pool: None,
            out: 0,
            faults: 0,
            asked: Asked::never(),
        }
    }

    /// How many of its calls have failed.
    pub fn faults(&self) -> u64
        ensures { result ≡ self.now.faults }
    {
        self.faults
    }

    // The next turn, if no call fails.
    fn accept_now(&mut self) -> Option<TurnLink<'r, R>>
        ensures faults { self.new.faults ≡ self.old.faults }
        ensures out { self.new.out ≡ self.old.out }
        ensures asked { self.new.asked ≡ self.old.asked }
    {
        let mut pool = self.pool.take()?;
        match pool.await_next(self.system) {
            Some(next) => Some(TurnLink::new(pool, next, self.system, self.arrival)),
            None => {
                self.pool = Some(pool);
                None
            }
        }
    }

    /// Sends what is kept for clients, and waits for a short time for closed clients to close their own ends. There may be no turns after
    /// this.
    pub fn finish(&mut self)
        ensures { self.new.faults ≡ self.old.faults }
    {
        if let Some(pool) = &mut self.pool {
            pool.finish(self.system);
        }
    }
}

impl<'r, R: Net + Clock> Port for TcpPort<'r, R> {
    type Link = TurnLink<'r, R>;

    ghost to_come = { λ _. None };

    ghost given_back = { λ _. None };

    ghost places = { λ _. 0 };

    ghost asked = { λ port. port.asked };

    ghost out = { λ port. port.out };

    ghost has_ended = { λ _. ⊥ };

    ghost is_over = { λ _. ⊥ };

    ghost faults = { λ port. port.faults };

    fn listen(&mut self, port: u16) -> Result<(), Failed> {
        self.asked = self.asked.again(port);
        match Pool::open(self.alloc, self.system, port, self.limits) {
            Some(pool) => {
                self.pool = Some(pool);
                Ok(())
            }
            None => Err(fault(&mut self.faults)),
        }
    }

    fn accept(&mut self) -> Result<Option<TurnLink<'r, R>>, Failed> {
        match self.accept_now() {
            Some(link) => {
                self.out = 1;
                Ok(Some(link))
            }
            None => Err(fault(&mut self.faults)),
        }
    }

    fn done(&mut self, link: TurnLink<'r, R>) {
        self.out = self.out.saturating_sub(1);
        self.pool = Some(link.done());
    }
}
