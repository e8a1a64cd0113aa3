// Searches one block, either in the calling thread alone or by several workers.
ghost use Rattle.std.specs.Prelude.{◌≡◌, ◌+◌, ◌*◌, ◌<◌, ◌≤◌, IfOk};
ghost use Rattle.bid_rules.specs.Goods.{IsValidGoodsCase};
ghost use Rattle.nash_bounds.specs.Tasks.{tasks_of};
ghost use Rattle.nash_search.specs.Tables.{AreTables};
ghost use Rattle.search_workers.specs.BlockEnds.{EndsBlock, crew_of};

use crate::crew::{gather, run_workers, seat_workers};
use crate::desk::open_desk;
use crate::limits::{FEW_PREFIXES, MOST_WORKERS};
use crate::view::DeskSize;
use crate::worker::BlockRule;
use bid_rules::GoodsCase;
use bid_rules::limits::MOST_STEPS;
use nash_bounds::limits::BLOCK_TASKS;
use nash_bounds::{Pair, tasks_in_row_law};
use nash_search::{Found, Tables, Tally, search_by, tasks_in_block};
use split_base::Gate;
use std::alloc::{AllocError, Global};
use std::thread::Threads;

/// How the search of a block ended.
#[derive(Debug, Drop, PartialEq, Eq)]
pub enum BlockEnd {
    /// All counted prefixes of the block's tasks are counted: how many, and the best allocation among them, or `None` if none of them is an
    /// allocation.
    Done { nodes: u32, best: Option<Found> },
    /// There are more of them than were left, and this many have been counted.
    Over { nodes: u32 },
}

// Searches a block in the calling thread alone.
fn walk_alone<G: Gate>(
    case: &GoodsCase,
    tables: &Tables,
    rule: &BlockRule,
    workers: u8,
    gate: &G,
) -> BlockEnd
    requires case { IsValidGoodsCase case.now }
    requires tables { AreTables case.now tables.now }
    requires block { BLOCK_TASKS * rule.now.block < tasks_of case.now }
    requires left { rule.now.left ≤ MOST_STEPS }
    requires workers { 1 ≤ workers }
    ensures { EndsBlock case.now rule.now.floor rule.now.above rule.now.block rule.now.left workers
        result }
{
    tasks_in_row_law();
    let tasks = tasks_in_block(case, rule.block);
    let from = BLOCK_TASKS * rule.block;
    let mut tally = Tally::new();
    'tasks: for place in 0..tasks {
        let task = from + place;
        let left = rule.left - tally.nodes;
        gate.enter(task);
        let end = search_by(case, tables, task, rule.floor, rule.above, left);
        gate.leave(task);
        if !tally.add(end) {
            return BlockEnd::Over { nodes: tally.nodes };
        }
    }
    BlockEnd::Done {
        nodes: tally.nodes,
        best: tally.best,
    }
}

// Searches a block by workers who draw its tasks at a desk. Fails if there is no memory for the desk, its seats or the workers, before any of
// them has begun.
fn share<R: Threads + Sync, G: Gate + Sync>(
    alloc: Global,
    rt: &R,
    case: &GoodsCase,
    rule: &BlockRule,
    workers: u8,
    gate: &G,
) -> Result<BlockEnd, AllocError>
    requires case { IsValidGoodsCase case.now }
    requires block { BLOCK_TASKS * rule.now.block < tasks_of case.now }
    requires left { rule.now.left ≤ MOST_STEPS }
    requires workers { (1 ≤ workers) × (workers ≤ MOST_WORKERS) }
    ensures { IfOk result
        (EndsBlock case.now rule.now.floor rule.now.above rule.now.block rule.now.left workers) }
{
    let size = DeskSize {
        left: rule.left,
        workers,
    };
    let (desk, seat) = open_desk(alloc, &size)?;
    let mut crew = seat_workers(alloc, &desk, seat, workers, rule.left)?;
    let seats = crew.as_mut_slice();
    run_workers(rt, seats, case, rule, workers, &desk, gate);
    Ok(gather(&desk, crew, case, rule, workers))
}

// How many workers a block takes: those asked for, but no more than it has tasks.
fn crew_size(case: &GoodsCase, block: u32, workers: u8) -> u8
    requires case { IsValidGoodsCase case.now }
    requires block { BLOCK_TASKS * block < tasks_of case.now }
    requires workers { 1 ≤ workers }
    ensures crew { result ≡ crew_of case.now block workers }
    ensures some { 1 ≤ result }
    ensures asked { result ≤ workers }
{
    let tasks = tasks_in_block(case, block);
    workers.min(tasks as u8)
}

// What `run_block` does, by the case's tables.
pub(crate) fn run_by<R: Threads + Sync, G: Gate + Sync>(
    alloc: Global,
    rt: &R,
    case: &GoodsCase,
    tables: &Tables,
    rule: &BlockRule,
    workers: u8,
    gate: &G,
) -> BlockEnd
    requires case { IsValidGoodsCase case.now }
    requires tables { AreTables case.now tables.now }
    requires block { BLOCK_TASKS * rule.now.block < tasks_of case.now }
    requires left { rule.now.left ≤ MOST_STEPS }
    requires workers { (1 ≤ workers) × (workers ≤ MOST_WORKERS) }
    ensures asked { EndsBlock case.now rule.now.floor rule.now.above rule.now.block rule.now.left
        workers result }
    ensures crew { EndsBlock case.now rule.now.floor rule.now.above rule.now.block rule.now.left
        (crew_of case.now rule.now.block workers) result }
{
    let crew = crew_size(case, rule.block, workers);
    if crew == 1 {
        return walk_alone(case, tables, rule, crew, gate);
    }
    match share(alloc, rt, case, rule, crew, gate) {
        Ok(end) => end,
        Err(AllocError) => walk_alone(case, tables, rule, crew, gate),
    }
}

// What `run_by` does, but the calling thread counts a few prefixes alone first. If the block has no more, or no more may be counted, no thread is
// started for it. Otherwise all workers begin the block again.
pub(crate) fn run_after_few<R: Threads + Sync, G: Gate + Sync>(
    alloc: Global,
    rt: &R,
    case: &GoodsCase,
    tables: &Tables,
    rule: &BlockRule,
    workers: u8,
    gate: &G,
) -> BlockEnd
    requires case { IsValidGoodsCase case.now }
    requires tables { AreTables case.now tables.now }
    requires block { BLOCK_TASKS * rule.now.block < tasks_of case.now }
    requires left { rule.now.left ≤ MOST_STEPS }
    requires workers { (1 ≤ workers) × (workers ≤ MOST_WORKERS) }
    ensures { EndsBlock case.now rule.now.floor rule.now.above rule.now.block rule.now.left workers
        result }
{
    if crew_size(case, rule.block, workers) > 1 {
        let few = BlockRule {
            block: rule.block,
            floor: rule.floor,
            above: rule.above,
            left: rule.left.min(FEW_PREFIXES),
        };
        let end = walk_alone(case, tables, &few, workers, gate);
        if few.left == rule.left {
            return end;
        }
        if let BlockEnd::Done { nodes, best } = end {
            return BlockEnd::Done { nodes, best };
        }
    }
    run_by(alloc, rt, case, tables, rule, workers, gate)
}

/// Searches a block by several workers, who draw its tasks at a desk and share the budget `left`, which is at most `MOST_STEPS`.
///
/// Those prefixes of the tasks are counted whose bound is at least `floor` and, if there is an `above`, greater than it. `Over` is returned
/// exactly when there are more than `left` of them. The end is the same for every number of workers, no matter which of them walks which task,
/// except for the number that `Over` gives.
///
/// It takes no more workers than the block has tasks, the calling thread among them. Each task is walked by the worker who drew it (`work`), and
/// in the end their seats are joined into one, which shows what the block came to. If it takes only one worker, or finds no memory for the desk,
/// its seats or the workers, the calling thread walks the block alone.
pub fn run_block<R: Threads + Sync, G: Gate + Sync>(
    alloc: Global,
    rt: &R,
    case: &GoodsCase,
    block: u32,
    floor: Pair,
    above: Option<Pair>,
    left: u32,
    workers: u8,
    gate: &G,
) -> BlockEnd
    requires case { IsValidGoodsCase case.now }
    requires block { BLOCK_TASKS * block < tasks_of case.now }
    requires left { left ≤ MOST_STEPS }
    requires workers { (1 ≤ workers) × (workers ≤ MOST_WORKERS) }
    ensures asked { EndsBlock case.now floor above block left workers result }
    ensures crew { EndsBlock case.now floor above block left (crew_of case.now block workers)
        result }
{
    let tables = Tables::of(case);
    let rule = BlockRule {
        block,
        floor,
        above,
        left,
    };
    run_by(alloc, rt, case, &tables, &rule, workers, gate)
}
