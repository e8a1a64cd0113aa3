// A walk through one task that can stop after any number of prefixes and go on later.
ghost use Rattle.std.specs.Prelude.{◌≡◌, ◌+◌, ◌<◌, ◌≤◌, ◌↔◌, ◌^◌, true, None};
ghost use Rattle.bid_rules.specs.Goods.{IsValidGoodsCase};
ghost use Rattle.nash_bounds.specs.Counted.{count_task};
ghost use Rattle.nash_bounds.specs.Tasks.{tasks_of};
ghost use Rattle.nash_search.specs.Pieces.{IsTaskWalk, Advanced};
ghost use Rattle.nash_search.specs.Tables.{AreTables};

use crate::found::{Found, copied};
use crate::rules::rules_of;
use crate::tables::Tables;
use crate::task::task_prefix;
use crate::walk::{Walk, start};
use bid_rules::GoodsCase;
use nash_bounds::{Pair, best_counted_law, bound_law};
use std::marker::Model;

/// A walk through the counted prefixes of a task, in pieces of any size.
#[derive(Drop)]
pub struct TaskWalk {
    task: u32,
    walk: Walk,
}

impl Model for TaskWalk {
    ghost use Rattle.nash_search.specs.Pieces.{Pieces};

    ghost Value = { Pieces };

    ghost view = { λ pieces. record {
      task = pieces.task;
      floor = pieces.walk.rules.floor;
      above = pieces.walk.rules.above;
      nodes = pieces.walk.nodes;
      best = pieces.walk.best;
      place = pieces.walk;
    } };
}

/// A walk that still has its whole task to come. It will count the prefixes whose bound is at least `floor` and, if there is an `above`,
/// greater than it. The program makes the case's tables once and walks with them by `walk_by`; this is for walking a single task.
pub fn start_walk(case: &GoodsCase, task: u32, floor: Pair, above: Option<Pair>) -> TaskWalk
    requires case { IsValidGoodsCase case.now }
    requires task { task < tasks_of case.now }
    ensures walk { IsTaskWalk case.now result }
    ensures task { result.task ≡ task }
    ensures floor { result.floor ≡ floor }
    ensures above { result.above ≡ above }
    ensures nodes { result.nodes ≡ 0 }
    ensures best { result.best ≡ None }
{
    walk_by(case, &Tables::of(case), task, floor, above)
}

/// What `start_walk` gives, by the case's tables, which a whole search makes once.
pub fn walk_by(
    case: &GoodsCase,
    tables: &Tables,
    task: u32,
    floor: Pair,
    above: Option<Pair>,
) -> TaskWalk
    requires case { IsValidGoodsCase case.now }
    requires tables { AreTables case.now tables.now }
    requires task { task < tasks_of case.now }
    ensures walk { IsTaskWalk case.now result }
    ensures task { result.task ≡ task }
    ensures floor { result.floor ≡ floor }
    ensures above { result.above ≡ above }
    ensures nodes { result.nodes ≡ 0 }
    ensures best { result.best ≡ None }
{
    bound_law();
    let prefix = task_prefix(case, &tables.points, task);
    let walk = start(case, tables.copied_lanes(), &prefix, rules_of(floor, above));
    TaskWalk { task, walk }
}

impl TaskWalk {
    /// Counts up to this many further prefixes. It answers false exactly when counted prefixes of the task are still not counted, and then
    /// it has counted this many more.
    ///
    /// `case` is the one with which the walk was started. After true, `nodes` and `best` are those of the whole task.
    pub fn advance(&mut self, case: &GoodsCase, most: u32) -> bool
        requires case { IsValidGoodsCase case.now }
        requires walk { IsTaskWalk case.now self.old }
        requires some { 1 ≤ most }
        requires fits { self.old.nodes + most < 2 ^ 32 }
        ensures walk { IsTaskWalk case.now self.new }
        ensures task { self.new.task ≡ self.old.task }
        ensures floor { self.new.floor ≡ self.old.floor }
        ensures above { self.new.above ≡ self.old.above }
        ensures advanced { Advanced case.now self.old self.new most result }
        ensures all { result ≡ true
            ↔ self.new.nodes
            ≡ count_task case.now self.old.task self.old.floor self.old.above }
    {
        best_counted_law();
        self.walk.run(case, most)
    }

    /// How many prefixes are counted so far.
    pub fn nodes(&self) -> u32
        ensures { result ≡ self.now.nodes }
    {
        self.walk.nodes
    }

    /// The best allocation so far among those that are counted.
    pub fn best(&self) -> Option<Found>
        ensures { result ≡ self.now.best }
    {
        match &self.walk.best {
            Some(found) => Some(Found {
                pair: found.pair,
                list: copied(found.list.as_slice()),
            }),
            None => None,
        }
    }
}
