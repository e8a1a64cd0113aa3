// How many workers share a search, and what they use.
ghost use Rattle.std.specs.Prelude.{◌≡◌, ℕ, ◌≤◌};
ghost use Rattle.search_workers.specs.declared.limits.TheConstants.{MOST_WORKERS};

use std::alloc::Global;
use std::marker::Model;

/// How many workers share a search: from 1 to `MOST_WORKERS`. Contracts see the number.
#[derive(Clone, Copy, Debug, PartialEq, Eq)]
pub struct Workers {
    count: u8,
}

impl Model for Workers {
    ghost Value = { ℕ };

    ghost view = { λ w. w.count };

    ghost invariant = { λ w. (1 ≤ w.count) × (w.count ≤ MOST_WORKERS) };

    ghost inverse = { λ count. record { count = count } };
}

impl Workers {
    /// The calling thread alone.
    pub fn one() -> Workers
        ensures { result ≡ 1 }
    {
        Workers { count: 1 }
    }

    /// This many workers.
    pub fn new(count: u8) -> Workers
        requires { (1 ≤ count) × (count ≤ MOST_WORKERS) }
        ensures { result ≡ count }
    {
        Workers { count }
    }

    /// How many workers there are.
    pub fn count(self) -> u8
        ensures same { result ≡ self }
        ensures range { (1 ≤ result) × (result ≤ MOST_WORKERS) }
    {
        self.count
    }
}

/// What a command may use for its work: memory, threads, and the gate that is told when a task begins and when it has ended.
#[derive(Drop)]
pub struct Means<'a, R, G> {
    /// Where memory comes from.
    pub alloc: Global,
    /// Starts threads.
    pub rt: &'a R,
    /// Is told about the tasks of a search.
    pub gate: &'a G,
}
