//! A certificate fetched from a host over a link: the request, the head of the reply, and its body, which
//! is judged as it comes, in fixed memory.
//!
//! `fetch` writes one request, and answers only by the bytes of the reply. A yes shows a valid
//! case and the best division of it, and bytes have one answer at most (`fetched_law`). It uses no
//! part of a host.
#![tactic(auto)]

mod ahead;
mod body;
mod ends;
mod fetching;
mod fields;
mod head;
mod judged;
mod laws;
mod limits;
mod request;
mod response_heads;

pub use ends::FetchEnd;
pub use fetching::fetch;
pub use http_heads::{MAX_FIELDS, MAX_HEAD};
pub use laws::fetched_law;
pub use limits::{MAX_LENGTH_DIGITS, OK_STATUS};
pub use request::Words;
