// Tasks: how the search is split by the owners of the first few goods, and the search of one of them.
ghost use Rattle.std.specs.Prelude.{◌≡◌, ℕ, ◌+◌, ◌-◌, ◌*◌, ◌<◌, ◌≤◌, ◌^◌, length};
ghost use Rattle.bid_rules.specs.Goods.{IsValidGoodsCase, player_count};
ghost use Rattle.nash_bounds.specs.Prefixes.{IsPrefix, HasBound};
ghost use Rattle.nash_bounds.specs.Tasks.{depth_of, tasks_of, task_list};
ghost use Rattle.nash_bounds.specs.Counted.{count_task, counted_leaves};
ghost use Rattle.nash_search.specs.Ends.{EndsTask};
ghost use Rattle.nash_search.specs.Tables.{AreTables};
ghost use Rattle.nash_bounds.specs.Tables.{IsTable};

use crate::found::Found;
use crate::pieces::walk_by;
use crate::tables::Tables;
use bid_rules::GoodsCase;
use bid_rules::limits::MOST_STEPS;
use nash_bounds::limits::{FEWEST_LISTS, MOST_TASKS};
use nash_bounds::{Pair, PointTable, Prefix, empty_prefix, extend_by, owner_lists_law};

/// How the search of a task ended.
#[derive(Debug, Drop, PartialEq, Eq)]
pub enum TaskEnd {
    /// All counted prefixes are counted: how many, and the best allocation among them, `None` if none is an allocation.
    Done { nodes: u32, best: Option<Found> },
    /// The counted prefixes are more than the allowance, and `nodes` is one above it.
    Stopped { nodes: u32 },
}

/// How many owners each task begins with, and how many tasks there are.
#[derive(Clone, Copy)]
struct Split {
    depth: u8,
    tasks: u32,
}

// The length of the lists with which tasks begin, and how many there are.
fn split_tasks(case: &GoodsCase) -> Split
    requires { IsValidGoodsCase case.now }
    ensures depth { result.depth ≡ depth_of case.now }
    ensures tasks { result.tasks ≡ tasks_of case.now }
    ensures few { result.tasks ≤ MOST_TASKS }
    ensures short { result.depth ≤ case.now.facts.goods }
    ensures some { 0 < depth_of case.now }
{
    let players = case.values.len() as u32;
    let mut depth = 0;
    let mut tasks = 1;
    while depth < case.facts.goods && tasks < FEWEST_LISTS {
        tasks *= players;
        depth += 1;
    }
    Split { depth, tasks }
}

/// How many tasks a case has: one for each list of owners of the first few goods in search order.
///
/// The lists have the least length of which there are at least `FEWEST_LISTS`, or have an owner for each good.
pub fn tasks(case: &GoodsCase) -> u32
    requires { IsValidGoodsCase case.now }
    ensures value { result ≡ tasks_of case.now }
    ensures few { result ≤ MOST_TASKS }
{
    split_tasks(case).tasks
}

// The prefix that a task begins with.
pub(crate) fn task_prefix(case: &GoodsCase, table: &PointTable, task: u32) -> Prefix
    requires case { IsValidGoodsCase case.now }
    requires table { IsTable case.now table.now }
    requires task { task < tasks_of case.now }
    ensures owners { result.owners.items ≡ task_list case.now task }
    ensures long { length result.owners.items ≡ depth_of case.now }
    ensures some { 0 < length result.owners.items }
    ensures prefix { IsPrefix case.now result }
    ensures bound { HasBound result }
{
    owner_lists_law();
    let split = split_tasks(case);
    let players = case.values.len() as u32;
    let mut left = split.tasks;
    let mut rest = task;
    let mut prefix = empty_prefix(case);
    for _k in 0..split.depth {
        left /= players;
        prefix = extend_by(case, table, &prefix, (rest / left) as u8 + 1);
        rest %= left;
    }
    prefix
}

/// Counts the prefixes of a task whose bound is at least `floor` and, if there is an `above`, greater than it, and finds the best
/// allocation among them, the least list among equals.
///
/// `task` is a task of the case, from 0, and `allowance` at most `MOST_STEPS`. The search stops exactly when more prefixes are counted than the
/// allowance, and then it has counted one more. A search of a whole case makes the tables just once for all its tasks; this is for a single
/// task.
pub fn search_task(
    case: &GoodsCase,
    task: u32,
    floor: Pair,
    above: Option<Pair>,
    allowance: u32,
) -> TaskEnd
    requires case { IsValidGoodsCase case.now }
    requires task { task < tasks_of case.now }
    requires allowance { allowance ≤ MOST_STEPS }
    ensures { EndsTask case.now (count_task case.now task floor above)
        (counted_leaves case.now task floor above) allowance result }
{
    search_by(case, &Tables::of(case), task, floor, above, allowance)
}

/// What `search_task` gives, by the case's tables, which a whole search makes once.
pub fn search_by(
    case: &GoodsCase,
    tables: &Tables,
    task: u32,
    floor: Pair,
    above: Option<Pair>,
    allowance: u32,
) -> TaskEnd
    requires case { IsValidGoodsCase case.now }
    requires tables { AreTables case.now tables.now }
    requires task { task < tasks_of case.now }
    requires allowance { allowance ≤ MOST_STEPS }
    ensures { EndsTask case.now (count_task case.now task floor above)
        (counted_leaves case.now task floor above) allowance result }
{
    let mut walk = walk_by(case, tables, task, floor, above);
    let _all = walk.advance(case, allowance + 1);
    let nodes = walk.nodes();
    if nodes > allowance {
        return TaskEnd::Stopped { nodes };
    }
    TaskEnd::Done {
        nodes,
        best: walk.best(),
    }
}
