// The search of one block: its tasks one after another, all by one rule.
ghost use Rattle.std.specs.Prelude.{◌≡◌, ◌*◌, ◌<◌, ◌≤◌};
ghost use Rattle.bid_rules.specs.Goods.{IsValidGoodsCase};
ghost use Rattle.nash_bounds.specs.Blocks.{count_block, counted_of_block, tasks_in};
ghost use Rattle.nash_bounds.specs.Tasks.{tasks_of};
ghost use Rattle.nash_search.specs.Ends.{EndsTask};
ghost use Rattle.nash_search.specs.Tables.{AreTables};

use crate::tables::Tables;
use crate::tally::Tally;
use crate::task::{TaskEnd, search_by, tasks};
use bid_rules::GoodsCase;
use bid_rules::limits::MOST_STEPS;
use nash_bounds::limits::{BLOCK_TASKS, MOST_TASKS};
use nash_bounds::{Pair, tasks_in_row_law};

/// How many tasks a block has, the last of which may have fewer than `BLOCK_TASKS`.
pub fn tasks_in_block(case: &GoodsCase, block: u32) -> u32
    requires case { IsValidGoodsCase case.now }
    requires block { BLOCK_TASKS * block < tasks_of case.now }
    ensures tasks { result ≡ tasks_in case.now block }
    ensures some { 1 ≤ result }
    ensures most { result ≤ BLOCK_TASKS }
    ensures small { BLOCK_TASKS * block < MOST_TASKS }
{
    let all = tasks(case);
    BLOCK_TASKS.min(all - BLOCK_TASKS * block)
}

/// Searches the tasks of a block one after another, all by one rule.
///
/// It stops exactly when more of their prefixes are counted than the allowance.
pub fn search_block(
    case: &GoodsCase,
    tables: &Tables,
    block: u32,
    floor: Pair,
    above: Option<Pair>,
    allowance: u32,
) -> TaskEnd
    requires case { IsValidGoodsCase case.now }
    requires tables { AreTables case.now tables.now }
    requires block { BLOCK_TASKS * block < tasks_of case.now }
    requires allowance { allowance ≤ MOST_STEPS }
    ensures { EndsTask case.now (count_block case.now floor above block)
        (counted_of_block case.now floor above block) allowance result }
{
    tasks_in_row_law();
    let tasks = tasks_in_block(case, block);
    let from = BLOCK_TASKS * block;
    let mut tally = Tally::new();
    for place in 0..tasks {
        let left = allowance - tally.nodes;
        let end = search_by(case, tables, from + place, floor, above, left);
        if !tally.add(end) {
            return TaskEnd::Stopped { nodes: tally.nodes };
        }
    }
    TaskEnd::Done {
        nodes: tally.nodes,
        best: tally.best,
    }
}
