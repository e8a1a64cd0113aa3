//! The search for the allocation with the greatest Nash welfare by several workers, each in a thread: how they share it,
//! and that they find what one thread finds.
//!
//! The workers of a block share two words of one table (`Desk`). They draw tasks at one, and report at the other how
//! many prefixes they counted, so that they share one budget.
//!
//! `search` has the four clauses of `search_alone`, which mention neither the number of workers nor their order. Each
//! worker calls `work` with a seat at the desk, and in the end the seats become one. No task is drawn twice, and unless
//! all workers together count more prefixes than are left, each task is walked whole by the one who drew it
//! (`drawn_tickets_law`, `walked_block_law`). If there is no memory for a desk, its seats or the workers, the calling
//! thread walks the block alone. That two workers work at the same time, and draw tasks one by one, is only tested
//! (`rule_tests`).
#![tactic(auto)]

mod block;
mod blocks;
mod crew;
mod desk;
mod desk_laws;
pub mod limits;
mod plays;
mod rule_laws;
mod view;
mod worker;
mod workers;

pub use block::{BlockEnd, run_block};
pub use blocks::search;
pub use desk::{Desk, DeskSeat, draw, join_desk, learn, open_desk, report, split_desk};
pub use desk_laws::{draw_law, join_law, report_law, split_law};
pub use plays::DeskRule;
pub use rule_laws::{
    begun_desk_law, drawn_tickets_law, walked_block_law, whole_view_law, word_limits_law,
};
pub use view::{DeskSize, DeskView};
pub use worker::{Walked, work};
pub use workers::{Means, Workers};
