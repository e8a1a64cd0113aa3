//! Bodies of JSON: the case, the proposal, the creation or the bid that one holds, or the first thing wrong with it.
//!
//! A body isn't JSON, or its first broken field is named, or each of its fields is read. Facts and bids that were
//! read have no fault. A fault in the facts is that of the field that was read last (`field_fault_law`).
#![tactic(auto)]

mod bid_bodies;
mod bodies;
mod cases;
mod creations;
mod deadlines;
mod heads;
mod held;
mod input;
mod laws;
mod proposals;
mod rules;

pub use bid_bodies::read_bid;
pub use cases::read_case;
pub use creations::read_creation;
pub use input::CaseInput;
pub use laws::{case_in_law, field_fault_law, field_rules_law, head_law};
pub use proposals::{read_goods, read_proposal};
