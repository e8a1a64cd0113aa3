//! The rooms of greatest welfare, first as a list, with dual numbers that show it, and longest walks over weighted steps.
//!
//! It gives the one assignment with the greatest sum of keys, with dual numbers that show that it is. The walks are the
//! longest of all walks over a square matrix without a cycle of positive weight, and the ranks are the fewest steps that
//! such walks take.
#![tactic(auto)]

mod keys;
pub mod limits;
mod rooms;
mod tree;
mod walks;

pub use keys::key_at;
pub use rooms::{Rooms, best_rooms, value_walks};
pub use walks::{Matrix, Walks, longest_walks};
