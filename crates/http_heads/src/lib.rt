//! What hosts and clients both need of HTTP/1.1: a buffer of bytes that were read but not used yet, finding a head in
//! it, the fields of a head, and whole numbers.
//!
//! Bytes that are held and not taken stay the same, however the input is cut into pieces. A
//! failed read is counted and ends the search.
#![tactic(auto)]

mod carry;
mod fields;
mod limits;
mod numbers;
mod search;

pub use carry::Carry;
pub use fields::{count_named, has_name, named_value, same_word};
pub use limits::{MAX_FIELDS, MAX_HEAD, ROOM};
pub use numbers::{capped_number, whole_number};
pub use search::{Ahead, HeadKind, Look, find_head, look_ahead};
