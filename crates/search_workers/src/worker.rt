// One worker at a desk, who draws whole tasks, walks them in pieces and reports each piece.
ghost use Rattle.std.specs.Prelude.{◌≡◌, ◌+◌, ◌*◌, ◌<◌, ◌≤◌, [], true, false};
ghost use Rattle.bid_rules.specs.Goods.{IsValidGoodsCase};
ghost use Rattle.nash_bounds.specs.Counted.{count_task, counted_leaves};
ghost use Rattle.nash_bounds.specs.Tasks.{tasks_of};
ghost use Rattle.nash_search.specs.Best.{IsFoundBest};
ghost use Rattle.nash_search.specs.Tables.{AreTables};
ghost use Rattle.search_workers.specs.Desks.{IsAt};
ghost use Rattle.search_workers.specs.Views.{desk_view};
ghost use Rattle.search_workers.specs.Works.{HasWhole, count_of_tickets, stop_count, walked_on};

use crate::desk::{Desk, DeskSeat, draw, report};
use crate::limits::{LONGEST_PIECE, MOST_REPORTED};
use bid_rules::GoodsCase;
use nash_bounds::Pair;
use nash_bounds::limits::BLOCK_TASKS;
use nash_search::{Found, Tables, better, tasks_in_block, walk_by};
use split_base::Gate;

/// What a worker counted and found.
#[derive(Debug, Drop, PartialEq, Eq)]
pub struct Walked {
    /// How many prefixes it counted and reported.
    pub nodes: u32,
    /// The best of the counted allocations, the earliest list among equals; nothing is promised about it if the worker has stopped.
    pub best: Option<Found>,
    /// Whether a report found the node word above what is left.
    pub stopped: bool,
}

/// A block, and the rule by which its prefixes are counted.
#[derive(Clone, Copy)]
pub(crate) struct BlockRule {
    /// The number of the block, from 0.
    pub(crate) block: u32,
    /// A counted prefix has at least this bound.
    pub(crate) floor: Pair,
    /// If there is such a pair, a counted prefix has a greater bound.
    pub(crate) above: Option<Pair>,
    /// How many prefixes are left to be counted.
    pub(crate) left: u32,
}

// Reports a piece that is not empty.
fn report_piece(desk: &Desk, seat: &mut DeskSeat, piece: u32, left: u32) -> bool
    requires of { IsAt seat.old.table_id desk.now.shared.table_id }
    requires piece { piece ≤ LONGEST_PIECE }
    requires going { (seat.old.me.0.stops ≡ 0) × (seat.old.me.0.allot ≡ 1)
        × (seat.old.me.0.left ≡ left) }
    requires small { seat.old.me.0.reported ≤ MOST_REPORTED }
    ensures seat { (seat.new.table_id ≡ seat.old.table_id) × (seat.new.id ≡ seat.old.id)
        × (seat.new.me.1 ≡ seat.old.me.1) }
    ensures view { seat.new.me.0 ≡ walked_on seat.old.me.0 piece result }
    ensures small { seat.new.me.0.reported ≤ MOST_REPORTED }
{
    if piece == 0 {
        return false;
    }
    report(desk, seat, piece as u16, left)
}

// Walks a task in pieces, and reports each piece.
fn walk_task(
    case: &GoodsCase,
    tables: &Tables,
    rule: &BlockRule,
    task: u32,
    desk: &Desk,
    seat: &mut DeskSeat,
) -> Walked
    requires case { IsValidGoodsCase case.now }
    requires tables { AreTables case.now tables.now }
    requires task { task < tasks_of case.now }
    requires of { IsAt seat.old.table_id desk.now.shared.table_id }
    requires going { (seat.old.me.0.stops ≡ 0) × (seat.old.me.0.allot ≡ 1)
        × (seat.old.me.0.left ≡ rule.now.left) }
    requires small { seat.old.me.0.reported ≤ MOST_REPORTED }
    ensures seat { (seat.new.table_id ≡ seat.old.table_id) × (seat.new.id ≡ seat.old.id)
        × (seat.new.me.1 ≡ seat.old.me.1) }
    ensures view { seat.new.me.0 ≡ walked_on seat.old.me.0 result.nodes result.stopped }
    ensures small { seat.new.me.0.reported ≤ MOST_REPORTED }
    ensures part { result.nodes ≤ count_task case.now task rule.now.floor rule.now.above }
    ensures whole { result.stopped ≡ false
        → (result.nodes ≡ count_task case.now task rule.now.floor rule.now.above)
        × IsFoundBest case.now (counted_leaves case.now task rule.now.floor rule.now.above)
        result.best }
{
    let mut walk = walk_by(case, tables, task, rule.floor, rule.above);
    'pieces: loop {
        let before = walk.nodes();
        let done = walk.advance(case, u32::from(LONGEST_PIECE));
        let nodes = walk.nodes();
        if report_piece(desk, seat, nodes - before, rule.left) {
            return Walked {
                nodes,
                best: None,
                stopped: true,
            };
        }
        if done {
            return Walked {
                nodes,
                best: walk.best(),
                stopped: false,
            };
        }
    }
}

// The same, between the two calls of the gate.
fn walk_gated<G: Gate>(
    case: &GoodsCase,
    tables: &Tables,
    rule: &BlockRule,
    task: u32,
    desk: &Desk,
    seat: &mut DeskSeat,
    gate: &G,
) -> Walked
    requires case { IsValidGoodsCase case.now }
    requires tables { AreTables case.now tables.now }
    requires task { task < tasks_of case.now }
    requires of { IsAt seat.old.table_id desk.now.shared.table_id }
    requires going { (seat.old.me.0.stops ≡ 0) × (seat.old.me.0.allot ≡ 1)
        × (seat.old.me.0.left ≡ rule.now.left) }
    requires small { seat.old.me.0.reported ≤ MOST_REPORTED }
    ensures seat { (seat.new.table_id ≡ seat.old.table_id) × (seat.new.id ≡ seat.old.id)
        × (seat.new.me.1 ≡ seat.old.me.1) }
    ensures view { seat.new.me.0 ≡ walked_on seat.old.me.0 result.nodes result.stopped }
    ensures small { seat.new.me.0.reported ≤ MOST_REPORTED }
    ensures part { result.nodes ≤ count_task case.now task rule.now.floor rule.now.above }
    ensures whole { result.stopped ≡ false
        → (result.nodes ≡ count_task case.now task rule.now.floor rule.now.above)
        × IsFoundBest case.now (counted_leaves case.now task rule.now.floor rule.now.above)
        result.best }
{
    gate.enter(task);
    let walked = walk_task(case, tables, rule, task, desk, seat);
    gate.leave(task);
    walked
}

// What `work` does, with the case's tables.
pub(crate) fn work_by<G: Gate>(
    case: &GoodsCase,
    tables: &Tables,
    rule: &BlockRule,
    desk: &Desk,
    seat: &mut DeskSeat,
    gate: &G,
) -> Walked
    requires case { IsValidGoodsCase case.now }
    requires tables { AreTables case.now tables.now }
    requires block { BLOCK_TASKS * rule.now.block < tasks_of case.now }
    requires of { IsAt seat.old.table_id desk.now.shared.table_id }
    requires fresh { seat.old.me.0 ≡ desk_view [] 0 1 0 rule.now.left seat.old.me.0.workers }
    ensures seat { (seat.new.table_id ≡ seat.old.table_id) × (seat.new.id ≡ seat.old.id)
        × (seat.new.me.1 ≡ seat.old.me.1) }
    ensures view { seat.new.me.0
        ≡ desk_view seat.new.me.0.tickets result.nodes 1 (stop_count result.stopped) rule.now.left
        seat.old.me.0.workers }
    ensures small { result.nodes ≤ MOST_REPORTED }
    ensures whole { result.stopped ≡ false
        → HasWhole case.now rule.now.floor rule.now.above rule.now.block seat.new.me.0.tickets
        result.nodes result.best }
    ensures part { result.nodes
        ≤ count_of_tickets case.now rule.now.floor rule.now.above rule.now.block
        seat.new.me.0.tickets }
{
    let tasks = tasks_in_block(case, rule.block);
    let mut nodes = 0;
    let mut best = None;
    'draws: loop {
        let ticket = draw(desk, seat);
        if ticket >= u64::from(tasks) {
            return Walked {
                nodes,
                best,
                stopped: false,
            };
        }
        let task = BLOCK_TASKS * rule.block + ticket as u32;
        let walked = walk_gated(case, tables, rule, task, desk, seat, gate);
        nodes += walked.nodes;
        if walked.stopped {
            return Walked {
                nodes,
                best: None,
                stopped: true,
            };
        }
        best = better(best, walked.best);
    }
}

/// One worker of a block: draws tickets, and walks the task of each.
///
/// A ticket t below the block's number of tasks stands for the task `BLOCK_TASKS * block + t`. The worker counts the task's prefixes whose
/// bound is at least `floor` and, if there is an `above`, greater than it, in pieces of at most `LONGEST_PIECE`, and reports each piece that
/// is not empty. It ends at the first ticket that is not below the block's number of tasks, or at the first report that answers true.
///
/// The seat must account for one worker and have done nothing. Unless the worker has stopped, it has counted all tasks of its tickets whole.
pub fn work<G: Gate + Sync>(
    case: &GoodsCase,
    block: u32,
    floor: Pair,
    above: Option<Pair>,
    left: u32,
    desk: &Desk,
    seat: &mut DeskSeat,
    gate: &G,
) -> Walked
    requires case { IsValidGoodsCase case.now }
    requires block { BLOCK_TASKS * block < tasks_of case.now }
    requires of { IsAt seat.old.table_id desk.now.shared.table_id }
    requires fresh { seat.old.me.0 ≡ desk_view [] 0 1 0 left seat.old.me.0.workers }
    ensures seat { (seat.new.table_id ≡ seat.old.table_id) × (seat.new.id ≡ seat.old.id)
        × (seat.new.me.1 ≡ seat.old.me.1) }
    ensures view { seat.new.me.0
        ≡ desk_view seat.new.me.0.tickets result.nodes 1 (stop_count result.stopped) left
        seat.old.me.0.workers }
    ensures small { result.nodes ≤ MOST_REPORTED }
    ensures whole { result.stopped ≡ false
        → HasWhole case.now floor above block seat.new.me.0.tickets result.nodes result.best }
    ensures part { result.nodes
        ≤ count_of_tickets case.now floor above block seat.new.me.0.tickets }
{
    let tables = Tables::of(case);
    let rule = BlockRule {
        block,
        floor,
        above,
        left,
    };
    work_by(case, &tables, &rule, desk, seat, gate)
}
