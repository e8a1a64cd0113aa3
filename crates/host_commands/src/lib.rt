//! What `init`, `dump` and `serve` do with file, port and clock, and the law over a whole run of `serve`.
//!
//! `make` leaves a journal of 50 bytes by two calls that write or sync, or a filled file as it was.
//! `serve_port` makes the routes, opens the file, listens and serves, in that order.
#![tactic(auto)]

mod dumping;
mod headline;
mod listening;
mod making;
mod opening;
mod same_runs;

pub use dumping::dump;
pub use headline::headline_law;
pub use listening::serve_port;
pub use making::make;
pub use same_runs::one_run_law;
