//! The host at its links, one after the other: the heads of each in order, each with one reply, and why
//! a head is refused.
//!
//! What a link and the links of a port are due is defined over any service that answers their heads one after the other.
//!
//! `serve_one` and `serve` say of all links one run (`PortServed`), and give each link back.
//! `link_law` and `port_law` make a list of requests of it, each one step from the state that the
//! one before it left. Once the routes are made, memory is taken only where a head or a request may
//! be refused for it.
#![tactic(auto)]

mod ends;
mod laws;
mod limits;
mod links;
mod ports;
mod refusals;
mod replies;
mod turns;
mod writing;

pub use ends::LinkEnd;
pub use laws::{link_law, port_law};
pub use limits::MAX_REQUESTS;
pub use links::serve_one;
pub use ports::serve;
pub use refusals::HeadRefusal;
pub use turns::{Heard, hear};
pub use writing::finish;
