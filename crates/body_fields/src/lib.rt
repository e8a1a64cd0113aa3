//! The fields of the bodies of cases, creations and bids, by name, and the small rules that their
//! reader and the host share.
//!
//! Each of its tests says yes exactly when the rule holds.
#![tactic(auto)]

mod bodies;
mod creations;
mod fields;
pub mod limits;
mod rules;

pub use bodies::BidBody;
pub use creations::{Creation, Name, Tag};
pub use fields::{BodyFault, FieldName};
pub use rules::{allowed_bid, is_name, is_tag, member_count};
