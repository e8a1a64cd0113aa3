// A clock in memory, which gives the moments that a test lists.
ghost use Rattle.std.specs.Prelude.{◌≡◌, ◌<◌, ◌≤◌, ◌↔◌, All, Contains, IfOk, IsErr, MatchResult, Some, length};
ghost use Rattle.split_base.specs.Faults.{HasCause, IsCounted, counted};
ghost use Rattle.split_base.specs.Clocks.{answer_of};
ghost use Rattle.split_base.specs.MemoryClock.{Ticked, first_of, after_moment, after_no_moment};
ghost use Rattle.split_base.specs.declared.limits.TheConstants.{LAST_MOMENT};

use super::calls::Calls;
use crate::{Clock, Failed};
use std::marker::Model;

/// A clock that gives its moments in order, and then repeats the last one.
///
/// Its calls are numbered from 1. A call whose number is listed as failing fails, and uses up no
/// moment. No call takes memory.
#[derive(Debug, Drop)]
pub struct MemClock {
    moments: Vec<u64>,
    turn: usize,
    calls: Calls,
}

impl Model for MemClock {
    ghost use Rattle.std.specs.Prelude.{◌<◌, ◌≤◌, All, drop, vec_len};
    ghost use Rattle.split_base.specs.MemoryClock.{ClockState};
    ghost use Rattle.split_base.specs.declared.limits.TheConstants.{LAST_MOMENT};

    ghost Value = { ClockState };

    ghost view = { λ c. record {
      moments = drop c.turn c.moments.items;
      fails = c.calls.fails.items;
      calls = c.calls.made;
      faults = c.calls.faults;
    } };

    ghost invariant = { λ c. (c.turn < vec_len c.moments) × All (λ m. m ≤ LAST_MOMENT) c.moments.items };
}

impl MemClock {
    /// A clock of these moments, one or more, each at most `LAST_MOMENT`. `fails` has the numbers of
    /// the calls that fail, from 1.
    pub fn new(moments: Vec<u64>, fails: Vec<u64>) -> Self
        requires some { 0 < length moments.items }
        requires range { All (λ m. m ≤ LAST_MOMENT) moments.items }
        ensures { result
            ≡ record { moments = moments.items; fails = fails.items; calls = 0; faults = 0 } }
    {
        MemClock {
            moments,
            turn: 0,
            calls: Calls::new(fails),
        }
    }
}

impl Clock for MemClock {
    ghost use Rattle.split_base.specs.MemoryClock.{Ticked};

    ghost gives = { λ c answer d. Ticked c answer d };

    ghost faults = { λ c. c.faults };

    fn now(&mut self) -> Result<u64, Failed>
        ensures range { IfOk result (λ moment. moment ≤ LAST_MOMENT) }
        ensures gives { Ticked self.old (answer_of result) self.new }
        ensures cause { HasCause self.old.faults self.new.faults result }
        ensures count { IsCounted self.old.faults self.new.faults result }

        // It fails exactly when its number is listed, and then changes nothing but the counts.
        ensures fails { IsErr result ↔ Contains self.old.fails (counted self.old.calls) }
        ensures told { IfOk result (λ moment. first_of self.old.moments ≡ Some moment) }
        ensures after { MatchResult result (λ _. self.new ≡ after_moment self.old)
            (λ _. self.new ≡ after_no_moment self.old) }
    {
        if self.calls.begin() {
            return Err(self.calls.fail());
        }
        let moment = self.moments[self.turn];
        if self.turn + 1 < self.moments.len() {
            self.turn += 1;
        }
        Ok(moment)
    }
}
