//! One call for all kinds, from facts and bids to the best division of their case; and the searches
//! and certificates of goods that are kept.
//!
//! Bids are missing, or the limit is passed, exactly when the definitions say so. Unless memory
//! runs out, checked facts and bids have exactly one end (`solve_law`). So neither the number
//! of workers nor a kept search changes the answer. `solve_alone` gives it without threads, and
//! `certificate_once` keeps the last certificates of goods.
#![tactic(auto)]

mod alone;
mod certificates_kept;
mod kept;
mod laws;
pub mod limits;
mod solver;
mod solving;

pub use alone::solve_alone;
pub use certificates_kept::certificate_once;
pub use kept::KeptSearches;
pub use laws::solve_law;
pub use solver::Solver;
pub use solving::{SolveFault, solve, solve_once};
