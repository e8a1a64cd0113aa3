//! The audit of shared fares: whether a group of riders pays more than a ride of its own would cost.
//!
//! It counts the groups of riders that pay more than a ride of their own would cost, and names the
//! one with the greatest excess, exactly. It takes no memory. The group of all riders has no excess
//! (`all_riders_law`), and a case has one audit (`one_audit_law`).
#![tactic(auto)]

mod audit;
mod laws;
mod parts;
mod texts;

pub use audit::{FareAudit, Worst, audit_fares};
pub use laws::{all_riders_law, one_audit_law};
pub use texts::fare_audit_text;
