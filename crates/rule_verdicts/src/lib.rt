//! The verdict of rules that are asked in order, and printed whole numbers read as small ones, or as a case of goods. The rules of
//! certificates of all kinds use it, so it has a crate of its own, below theirs.
//!
//! Each reader of numbers gives all of them, or None if one is out of range.
#![tactic(auto)]

mod goods;
mod members;
mod rows;
mod verdict;

pub use goods::{PrintedRow, printed_goods};
pub use members::{has_each, members_between};
pub use rows::{amounts, rows_of_amounts};
pub use verdict::Verdict;
