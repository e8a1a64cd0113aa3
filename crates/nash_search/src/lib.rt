//! The search for the allocation with the greatest Nash welfare on one thread, and what a search by several shares with
//! it: tables, walks through tasks, what is found so far, and the answer with the exact step count.
//!
//! Bounds, tasks, counted prefixes and the step count are defined in `nash_bounds`, the best allocation in `bid_rules`.
//!
//! It refuses exactly when the step count is above the limit of the case, and takes no memory. A valid case has one
//! start value, one step count and at most one division (`some_steps_law`, `step_count_law`, `limit_law`).
#![tactic(auto)]

mod blocks;
mod division;
mod found;
mod laws;
mod levels;
mod pieces;
mod progress;
mod rules;
mod start;
mod tables;
mod tally;
mod task;
mod walk;

pub use blocks::{search_block, tasks_in_block};
pub use division::{GoodsDivision, OverLimit, search_alone};
pub use found::{Found, better, pair_found};
pub use laws::{limit_law, some_steps_law, step_count_law};
pub use pieces::{TaskWalk, start_walk, walk_by};
pub use progress::Progress;
pub use start::start_value;
pub use tables::Tables;
pub use tally::Tally;
pub use task::{TaskEnd, search_by, search_task, tasks};
