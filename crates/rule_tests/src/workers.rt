// Tests that workers work at the same time and draw their tasks. A gate holds the first task until others have been entered or left.
use crate::goods_cases::case_of;
use bid_rules::limits::MOST_STEPS;
use nash_search::{start_value, tasks};
use search_workers::{BlockEnd, run_block};
use split_base::Gate;
use std::alloc::Global;
use std::process::Abort;
use std::sync::atomic::Ordering::SeqCst;
use std::sync::atomic::{AtomicBool, AtomicU32};
use std::thread;
use std::thread::Threads;

const TURNS: u32 = 5_000_000;

/// Holds the first task until this many calls of `enter` and of `leave` were made, or for this many turns.
#[derive(Drop)]
struct Hold {
    entered: AtomicU32,
    left: AtomicU32,
    wanted_entered: u32,
    wanted_left: u32,
    gave_up: AtomicBool,
}

impl Gate for Hold {
    fn enter(&self, task: u32) {
        self.entered.fetch_add(1, SeqCst);
        if task != 0 {
            return;
        }
        for _ in 0..TURNS {
            if self.entered.load(SeqCst) >= self.wanted_entered
                && self.left.load(SeqCst) >= self.wanted_left
            {
                return;
            }
            thread::yield_now();
        }
        self.gave_up.store(true, SeqCst);
    }

    fn leave(&self, _task: u32) {
        self.left.fetch_add(1, SeqCst);
    }
}

// Two workers come to the end of a block of 16 tasks, whose first is held until this many tasks are entered and this many left. Each task has
// to be entered and left once.
fn block_ends<R: Threads + Abort + Sync>(
    rt: &R,
    alloc: Global,
    wanted_entered: u32,
    wanted_left: u32,
) {
    let gate = Hold {
        entered: AtomicU32::new(0),
        left: AtomicU32::new(0),
        wanted_entered,
        wanted_left,
        gave_up: AtomicBool::new(false),
    };
    let case = case_of(rt, &[&[125; 8], &[125; 8]]);
    assert!(rt; tasks(&case) > 16);
    let floor = start_value(&case);
    let end = run_block(alloc, rt, &case, 0, floor, None, MOST_STEPS, 2, &gate);
    assert!(rt; matches!(end, BlockEnd::Done { nodes: _, best: _ }));
    assert!(rt; !gate.gave_up.load(SeqCst));
    assert_eq!(rt; gate.entered.load(SeqCst), 16);
    assert_eq!(rt; gate.left.load(SeqCst), 16);
}

// The first task is let go only once a second worker has entered another.
#[test]
fn two_workers_are_inside_at_once(rt: HostRuntime) {
    block_ends(&rt, rt.alloc(), 2, 0);
}

// One worker has to do all other tasks while the first is held, so no fixed share may keep any of them from it.
#[test]
fn tasks_are_drawn_and_not_dealt_out(rt: HostRuntime) {
    block_ends(&rt, rt.alloc(), 16, 15);
}
