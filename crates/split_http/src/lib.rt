//! HTTP/1.1 over any link: heads and bodies of requests, however their bytes are cut into pieces;
//! routes; and replies.
//!
//! The cut does not depend on the pieces (`cut_law`), and `framing_of` tells a port where a request
//! ends by the same rule (`framing_law`). Nothing is read after a head that waits, nor if no
//! body is due. `write_reply` writes exactly the bytes of the reply, or a first part of them if
//! a write fails, and takes no memory.
#![tactic(auto)]

mod bodies;
mod fields;
mod framing;
mod head;
mod heads;
mod laws;
mod limits;
mod paths;
mod pieces;
mod replies;
mod request_heads;
mod routes;

pub use bodies::{BodyTurn, INTERIM, next_body};
pub use framing::{Framing, framing_law, framing_of};
pub use head::{Head, Verb};
pub use heads::{HeadTurn, next_head};
pub use http_heads::{Carry, MAX_FIELDS, MAX_HEAD};
pub use laws::{cut_law, head_law, phrase_law, refusal_law, reply_law};
pub use limits::{BAD_HOST, BAD_LENGTH, BODY_TOO_LARGE, FRAMING, LENGTH_MISSING, MAX_BODY};
pub use paths::PathText;
pub use replies::{Allow, HttpReply, write_reply};
pub use routes::{Place, Route, RouteFault, Routes};
pub use split_base::limits::LAST_MOMENT;
