//! The five rules of a certificate of fares, judged line by line in fixed memory. If all of them hold, the printed fares are the
//! Shapley value and the printed route is the least of the cheapest ones.
//!
//! That is `fares_certificate_law`. Each place of departure of a set of riders is among its starts
//! (`starts_law`).
#![tactic(auto)]

mod case;
mod ending;
mod fares;
mod laws;
mod lines;
mod route;
mod state;

pub use case::PrintedRow;
pub use laws::{fares_certificate_law, starts_law};
pub use lines::{START_ROOM, starts_of};
pub use state::{FaresState, Rows, end_fares, start_fares, take_set};
