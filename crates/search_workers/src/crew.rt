// The workers of a block: each gets a seat at the desk and works in a thread, and in the end their seats become one.
ghost use Rattle.std.specs.Prelude.{◌≡◌, ℕ, ◌+◌, ◌*◌, ◌<◌, ◌≤◌, ◌^◌, ◌++◌, ◌||◌, List, [], All, length, IfOk};
ghost use Rattle.std.specs.Thread.{IsSync};
ghost use Rattle.bid_rules.specs.Goods.{IsValidGoodsCase};
ghost use Rattle.bid_rules.specs.declared.goods.GoodsCase.{GoodsCase};
ghost use Rattle.nash_bounds.specs.Tasks.{tasks_of};
ghost use Rattle.nash_search.specs.Best.{IsFoundBest};
ghost use Rattle.search_workers.specs.BlockEnds.{EndsBlock};
ghost use Rattle.search_workers.specs.Crews.{HasEnded, IsReady};
ghost use Rattle.search_workers.specs.Desks.{IsAt};
ghost use Rattle.search_workers.specs.Views.{whole};

use crate::block::BlockEnd;
use crate::desk::{Desk, DeskSeat, join_desk, learn, split_desk};
use crate::limits::MOST_WORKERS;
use crate::worker::{BlockRule, Walked, work};
use bid_rules::GoodsCase;
use nash_bounds::limits::BLOCK_TASKS;
use nash_bounds::tasks_in_row_law;
use nash_search::better;
use split_base::Gate;
use std::alloc::{AllocError, Global};
use std::thread;
use std::thread::Threads;

/// A worker's seat, and what the worker counted and found.
#[derive(Drop)]
pub(crate) struct Worker {
    pub(crate) seat: DeskSeat,
    pub(crate) walked: Walked,
}

// A worker who has done nothing yet.
fn ready(seat: DeskSeat) -> Worker
    ensures { result.seat ≡ seat }
{
    Worker {
        seat,
        walked: Walked {
            nodes: 0,
            best: None,
            stopped: false,
        },
    }
}

// Lets one worker work.
fn run_worker<G: Gate + Sync>(
    worker: &mut Worker,
    case: &GoodsCase,
    rule: &BlockRule,
    desk: &Desk,
    gate: &G,
)
    requires case { IsValidGoodsCase case.now }
    requires block { BLOCK_TASKS * rule.now.block < tasks_of case.now }
    requires of { desk.now.shared.table_id.words ≡ 2 }
    requires ready { IsReady desk.now.shared.table_id rule.now.left desk.now.shared.key.workers
        worker.old }
    ensures { HasEnded case.now rule.now desk.now.shared.table_id desk.now.shared.key.workers 1
        worker.new }
{
    worker.walked = work(
        case,
        rule.block,
        rule.floor,
        rule.above,
        rule.left,
        desk,
        &mut worker.seat,
        gate,
    );
}

// Lets all workers work, each in a thread. The calling thread takes part. If no threads can be had, they work one after another.
pub(crate) fn run_workers<R: Threads + Sync, G: Gate + Sync>(
    rt: &R,
    crew: &mut [Worker],
    case: &GoodsCase,
    rule: &BlockRule,
    workers: u8,
    desk: &Desk,
    gate: &G,
)
    requires case { IsValidGoodsCase case.now }
    requires block { BLOCK_TASKS * rule.now.block < tasks_of case.now }
    requires workers { 1 ≤ workers }
    requires of { desk.now.shared.table_id.words ≡ 2 }
    requires ready { All (IsReady desk.now.shared.table_id rule.now.left desk.now.shared.key.workers) crew.old }
    ensures ended { All
        (HasEnded case.now rule.now desk.now.shared.table_id desk.now.shared.key.workers 1)
        crew.new }
    ensures same { length crew.new ≡ length crew.old }
{
    thread::for_each_mut(
        rt,
        crew,
        usize::from(workers),
        &|_, worker|
            requires { IsSync G.row × IsValidGoodsCase case.now
                × (BLOCK_TASKS * rule.now.block < tasks_of case.now)
                × (desk.now.shared.table_id.words ≡ 2)
                × IsReady desk.now.shared.table_id rule.now.left desk.now.shared.key.workers
                worker.old }
            ensures { HasEnded case.entry.now rule.entry.now desk.entry.now.shared.table_id
                desk.entry.now.shared.key.workers 1 worker.new }
        { run_worker(worker, case, rule, desk, gate) },
    );
}

// A seat for each worker, split off from the one that accounts for them all.
pub(crate) fn seat_workers(
    alloc: Global,
    desk: &Desk,
    mut seat: DeskSeat,
    workers: u8,
    left: u32,
) -> Result<Vec<Worker>, AllocError>
    requires of { IsAt seat.table_id desk.now.shared.table_id }
    requires workers { (1 ≤ workers) × (workers ≤ MOST_WORKERS)
        × (workers ≡ desk.now.shared.key.workers) }
    requires seat { seat.me ≡ (whole left workers, []) }
    ensures ready { IfOk result
        (λ crew. All (IsReady desk.now.shared.table_id left workers) crew.items) }
    ensures count { IfOk result (λ crew. length crew.items ≡ workers) }
{
    let mut crew = Vec::with_capacity(alloc, usize::from(workers))?;
    'seats: for _ in 0..workers - 1 {
        crew.push(ready(split_desk(desk, &mut seat)))?;
    }
    crew.push(ready(seat))?;
    Ok(crew)
}

// What two workers counted and found together.
fn join_walked(one: Walked, other: Walked) -> Walked
    requires { one.nodes + other.nodes < 2 ^ 32 }
    ensures nodes { result.nodes ≡ one.nodes + other.nodes }
    ensures best { (case : GoodsCase) (xs ys : List (List ℕ)) → IsFoundBest case xs one.best
        → IsFoundBest case ys other.best → IsFoundBest case (xs ++ ys) result.best }
    ensures stopped { result.stopped ≡ one.stopped || other.stopped }
{
    Walked {
        nodes: one.nodes + other.nodes,
        best: better(one.best, other.best),
        stopped: one.stopped | other.stopped,
    }
}

// Joins another worker's seat to that of some workers, who are `stands` so far, and adds what that worker counted and found.
fn join_workers(
    desk: &Desk,
    one: Worker,
    other: Worker,
    case: &GoodsCase,
    rule: &BlockRule,
    workers: u8,
    stands: u8,
) -> Worker
    requires of { desk.now.shared.table_id.words ≡ 2 }
    requires one { HasEnded case.now rule.now desk.now.shared.table_id workers stands one }
    requires other { HasEnded case.now rule.now desk.now.shared.table_id workers 1 other }
    requires stands { (1 ≤ stands) × (stands ≤ MOST_WORKERS) }
    ensures { HasEnded case.now rule.now desk.now.shared.table_id workers (stands + 1) result }
{
    let Worker {
        mut seat,
        walked: first,
    } = one;
    let Worker {
        seat: given,
        walked: second,
    } = other;
    join_desk(desk, &mut seat, given);
    Worker {
        seat,
        walked: join_walked(first, second),
    }
}

// The end of a block whose workers have ended: their seats are joined into one.
pub(crate) fn gather(
    desk: &Desk,
    mut crew: Vec<Worker>,
    case: &GoodsCase,
    rule: &BlockRule,
    workers: u8,
) -> BlockEnd
    requires of { desk.now.shared.table_id.words ≡ 2 }
    requires ended { All (HasEnded case.now rule.now desk.now.shared.table_id workers 1) crew.items }
    requires workers { (1 ≤ workers) × (workers ≤ MOST_WORKERS) × (length crew.items ≡ workers) }
    ensures { EndsBlock case.now rule.now.floor rule.now.above rule.now.block rule.now.left workers
        result }
{
    let Some(mut all) = crew.pop() else {
        unreachable!()
    };
    let mut stands = 1;
    'joins: while let Some(other) = crew.pop() {
        all = join_workers(desk, all, other, case, rule, workers, stands);
        stands += 1;
    }
    settle(desk, all, case, rule, workers)
}

// The end of a block, from the seat that accounts for all workers.
fn settle(desk: &Desk, all: Worker, case: &GoodsCase, rule: &BlockRule, workers: u8) -> BlockEnd
    requires of { desk.now.shared.table_id.words ≡ 2 }
    requires ended { HasEnded case.now rule.now desk.now.shared.table_id workers workers all }
    requires workers { 1 ≤ workers }
    ensures { EndsBlock case.now rule.now.floor rule.now.above rule.now.block rule.now.left workers
        result }
{
    tasks_in_row_law();
    let Worker { mut seat, walked } = all;
    learn(desk, &mut seat);
    if walked.stopped {
        return BlockEnd::Over {
            nodes: walked.nodes,
        };
    }
    BlockEnd::Done {
        nodes: walked.nodes,
        best: walked.best,
    }
}
