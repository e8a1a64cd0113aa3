//! Laws over the whole: each valid case has a best division, and what a fetch makes of a host's replies.
//!
//! Each law is the contract of a function that does nothing.
//!
//! A host's certificate is one to which a fetch says yes (`host_certificates_law`). That the host
//! reads the request of a fetch as one for that certificate is shown only by tests. Nothing is
//! built on this crate. It is a crate of its own, since its laws speak of crates that do not use each other.
#![tactic(auto)]

mod divisions;
mod replies;
mod runs;

pub use divisions::some_best_law;
pub use replies::host_reply_law;
pub use runs::host_certificates_law;
