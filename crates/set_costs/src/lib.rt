//! The recursion over sets of riders, step by step: what a set costs from the costs of smaller ones, in rows that
//! the caller lends, and what is read from the finished rows.
//!
//! A complete table gives the least sum of legs over all orders of a set, the first of the cheapest
//! routes, and a rider's sum of marginal costs over all orders.
#![tactic(auto)]

mod costs;
mod laws;
mod recurrence;
mod riders;
mod rows;
mod stops;
mod sums;

pub use costs::SetCosts;
pub use laws::{rows_law, sum_limits_law};
pub use riders::{riders_of_set, without};
pub use rows::{Row, next_row};
pub use sums::{SET_ROOM, all_riders, factorial};
