//! The judge of certificates: it takes the lines of any kind as they are read, in one pass and in fixed memory, and
//! asks the rules of that kind. A yes is enough to show that the printed division is best.
//!
//! Bytes have at most one verdict, and none if they have a broken line (`certificate_verdict_law`). It takes no
//! allocator. The cuts of a tree are judged by what a bound means (`goods_leaves_law`).
#![tactic(auto)]

mod checking;
mod fares;
mod gathering;
mod goods;
mod judging;
mod laws;
mod lines;
mod rent;

pub use checking::check;
pub use judging::{judge, judge_text};
pub use laws::{certificate_verdict_law, goods_leaves_law};
