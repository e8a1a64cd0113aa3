// What the walks through the tasks of a block have counted and found so far, added up task by task.
use crate::found::{Found, better};
use crate::task::TaskEnd;
use nash_bounds::tasks_in_row_law;

/// What is counted in the first tasks of a row, and the best allocation among it.
#[derive(Drop)]
pub struct Tally {
    /// How many prefixes are counted.
    pub nodes: u32,
    /// The best of the counted allocations, the least list among equals, or `None` if there are none.
    pub best: Option<Found>,
}

impl Tally {
    ghost use Rattle.std.specs.Prelude.{◌≡◌, ℕ, ◌+◌, ◌-◌, ◌<◌, ◌≤◌, ◌^◌, Option};
    ghost use Rattle.bid_rules.specs.declared.goods.GoodsCase.{GoodsCase};
    ghost use Rattle.bid_rules.specs.declared.pair.Pair.{Pair};
    ghost use Rattle.nash_bounds.specs.Counted.{count_task, counted_leaves};
    ghost use Rattle.nash_search.specs.Ends.{EndsTask, nodes_in};
    ghost use Rattle.nash_search.specs.Progress.{AfterTask, IsTallied};

    /// Nothing counted and nothing found, before the first task.
    pub fn new() -> Tally
        ensures nodes { result.nodes ≡ 0 }
        ensures row { (case : GoodsCase) (floor : Pair) (above : Option Pair) (from : ℕ)
            → IsTallied case floor above from 0 result }
    {
        tasks_in_row_law();
        Tally {
            nodes: 0,
            best: None,
        }
    }

    /// Adds the end of the next task, which was searched with what the earlier ones left of the allowance; false if it was stopped.
    pub fn add(&mut self, end: TaskEnd) -> bool
        requires { self.old.nodes + nodes_in end < 2 ^ 32 }
        ensures { (case : GoodsCase) (floor : Pair) (above : Option Pair) (from n allowance : ℕ)
            → self.old.nodes ≤ allowance → IsTallied case floor above from n self.old
            → EndsTask case (count_task case (from + n) floor above)
            (counted_leaves case (from + n) floor above) (allowance - self.old.nodes) end
            → AfterTask case floor above from n allowance self.new result }
    {
        tasks_in_row_law();
        match end {
            TaskEnd::Done { nodes, best } => {
                self.nodes += nodes;
                let own = self.best.take();
                self.best = better(own, best);
                true
            }
            TaskEnd::Stopped { nodes } => {
                self.nodes += nodes;
                false
            }
        }
    }
}
