//! A TCP port with many clients at once: one thread, one epoll instance, and turns that are handed out one by one.
//!
//! If you know epoll servers, this is where their pieces are:
//!
//! | piece | here |
//! |---|---|
//! | listener | `Pool`, which binds to 127.0.0.1 and has the one loop over events, `turn` |
//! | epoll instance, interest list | `mio::Poll`, which registers edge-triggered (EPOLLET) |
//! | connection, its buffers and its state | `Client`, `Stage` |
//! | table of connections | `Crowd`, a `Slab`: the place of a client in it is the token of its events |
//! | run queue | the line of `Crowd`, first come, first served |
//! | time slice | one request while others wait, and else a hundred, which the host counts |
//! | backpressure | a client for which bytes are kept has no turn |
//! | backoff of `accept` | `Backoff` |
//!
//! **What is registered.** The listener, to be read, under the token `usize::MAX`; and each connection, to be read and written, under its place.
//! Interest never changes, and nothing is taken off the list: a connection that is closed leaves it by itself.
//!
//! **Readiness.** An edge says only once that something has come or that there is room again, so it is remembered: a client stays readable until a
//! read would block or comes up short, and connections knock until an `accept` would block. A client is written to at once, and only what the system
//! does not take is kept and waits for the next edge.
//!
//! **States.** A connection is *filling* until its whole next request is there and it has taken its replies; then it is *waiting* in line, and then
//! *served*. It is closed for writing after its last reply, and *closing* until its client has closed its end, so that no reply is lost to a reset
//! (RFC 9112, section 9.6). The bytes of a request are read ahead of its turn, up to the length of the longest request plus one read.
//!
//! ```text
//! accepted -> Filling -> Waiting -> Served -> Closing -> gone
//!                ^                    |
//!                +--- gives way ------+
//! ```
//!
//! **The loop.** There are no threads, locks or callbacks. The port's `accept` takes turns of the loop until somebody is in line, and moves the pool
//! into the link that it hands out (`TurnLink`). The host's reads and writes then take turns of the same loop, so that the others are read ahead
//! meanwhile. When the link is given back, so is the pool.
//!
//! **Who is dropped.** When one client too many comes, the one that has been longest without a whole request is dropped; the same happens when
//! descriptors are lacking. Waiting and served clients are never dropped for another, nor is one whose first 10 ms are not over, since its request may
//! be on its way: if there are no others, newcomers stay in the system's queue. A client is also dropped if it goes ten minutes without a whole
//! request or without taking what is kept for it; and if too much is kept for all clients together, those for whom something has been kept longest are
//! dropped. Each connection that was accepted is handed out at least once, even one that was dropped before that, so that the host counts it.
//!
//! **How time is shared.** The client whose request was whole first comes first. A turn ends when another client's request is whole: the client then goes
//! to the end of the line when its own next request is whole. As long as nobody else is in line, the host waits for that.
//!
//! **What the clock says.** A request may wait in line, for a search say. It is answered as of the second in which all of it was here (`Arrival`).
//!
//! **What fails.** A connection that fails is dropped. A listener that cannot accept is left alone for a while, longer with each failure in a row, and
//! if that has not helped for ten seconds, the port has failed.
//!
//! Each call of the port or of a link that fails counts as one fault, and no other does. Nothing is revealed about what was sent. Which client comes
//! next, who is dropped and after how long are limits of this crate that no clause mentions; `.ci/clients` tries them out.
#![tactic(auto)]

mod accepts;
mod clients;
mod crowd;
pub mod limits;
mod pool;
mod ports;
mod turns;

pub use limits::PortLimits;
pub use ports::TcpPort;
pub use turns::TurnLink;
