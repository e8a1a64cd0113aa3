//! The whole table of what each set of riders costs, in memory of its own, and the least of the cheapest routes.
//!
//! It makes the rows of all sets, or says that there is no memory for them. It is a crate of its own because a judge of fares may not
//! reach what takes memory.
#![tactic(auto)]

mod filling;
mod table;

pub use filling::costs;
pub use table::Costs;
