// The system's clock, which dates a request by when it had all arrived.
ghost use Rattle.std.specs.Prelude.{◌≡◌, ◌≤◌, ⊤, IfSome};
ghost use Rattle.split_base.specs.declared.limits.TheConstants.{LAST_MOMENT};

use crate::counts::answered;
use split_base::limits::LAST_MOMENT;
use split_base::{Clock, Failed};
use std::cell::Cell;
use std::time;

/// When the request that is being answered had all arrived, in seconds since 1970: the port notes it, and the clock tells it. `None` if there is no such
/// request, or if the system's clock failed when it came.
#[derive(Drop)]
pub struct Arrival {
    second: Cell<Option<u64>>,
}

impl Arrival {
    /// No request has arrived.
    pub fn none() -> Self {
        Arrival {
            second: Cell::new(None),
        }
    }

    /// Notes when the request that is answered next had arrived.
    pub fn note(&self, second: Option<u64>) {
        self.second.set(second);
    }
}

/// The system's time of day as a clock, in whole seconds since 1970. If the time is before 1970 or after the year 9999, the call
/// fails.
///
/// While a request is answered, it tells when that request had all arrived, so that one that had to wait is not taken for late. It never tells a time that is
/// still to come, and none before one that it has told, unless the system's clock was set back.
#[derive(Drop)]
pub struct SystemClock<'r, C> {
    clock: &'r C,
    arrival: &'r Arrival,
    told: u64,
    faults: u64,
}

impl<'r, C: time::Clock> SystemClock<'r, C> {
    /// The clock of this system, which has had no fault yet.
    pub fn new(clock: &'r C, arrival: &'r Arrival) -> Self
        ensures { result.faults ≡ 0 }
    {
        SystemClock {
            clock,
            arrival,
            told: 0,
            faults: 0,
        }
    }

    /// How many of its calls have failed.
    pub fn faults(&self) -> u64
        ensures { result ≡ self.now.faults }
    {
        self.faults
    }

    // The time to tell, if it is this second now.
    fn tell(&mut self, now: u64) -> u64
        ensures past { result ≤ now }
        ensures faults { self.new.faults ≡ self.old.faults }
    {
        let arrived = self.arrival.second.get().unwrap_or(now);
        self.told = self.told.max(arrived).min(now);
        self.told
    }
}

impl<'r, C: time::Clock> Clock for SystemClock<'r, C> {
    ghost gives = { λ _ _ _. ⊤ };

    ghost faults = { λ clock. clock.faults };

    fn now(&mut self) -> Result<u64, Failed> {
        let moment = match second_of(self.clock) {
            Some(now) => Some(self.tell(now)),
            None => None,
        };
        answered(moment, &mut self.faults)
    }
}

/// The current second of the system's clock, if a date can express it.
pub fn second_of<C: time::Clock>(clock: &C) -> Option<u64>
    ensures { IfSome result (λ moment. moment ≤ LAST_MOMENT) }
{
    match clock.since_1970() {
        Ok(since) if since.as_secs() <= LAST_MOMENT => Some(since.as_secs()),
        _ => None,
    }
}
