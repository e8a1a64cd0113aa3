//! The host of sealed bids: a machine of accepted commands.
//!
//! `answer` says what a host replies to a command at a moment, and which event goes before the reply; `apply` makes the event's change.
//! Until an instance is closed, what a caller hears of it follows from the public facts, their own bid and kept turn, and the greatest
//! moment of a kept event, and from nothing else.
//!
//! Each refusal is given exactly when it has its cause. `machine_law` says of each kept event which command it comes from,
//! `publication_law` what is published, `key_law` what a key is, and `sameness_law` which creations and bids count as equal. It is not
//! proved that a key is hard to guess.
#![tactic(auto)]

mod answers;
mod commands;
mod equals;
mod events;
mod host;
mod keys;
mod laws;
pub mod limits;
mod lookups;
mod replies;

pub use answers::answer;
pub use body_fields::{
    BidBody, BodyFault, Creation, FieldName, Name, Tag, allowed_bid, is_name, is_tag, member_count,
};
pub use commands::{Ask, Command, What};
pub use events::{Event, can_apply};
pub use host::{Host, Instance, apply, reserve, reserve_all};
pub use keys::{Key, key_of};
pub use laws::{key_law, machine_law, publication_law, sameness_law, sealing_law};
pub use lookups::{bid_of, instance_at, turn_of};
pub use replies::{Answered, Refusal, Reply};
