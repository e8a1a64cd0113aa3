//! Fares of a taxi by the Shapley value over the costs of its riders (Shapley 1953).
//!
//! The fares sum to the cost of all riders. A case has at most one division (`division_law`), and
//! the number of members does not change it (`members_law`).
#![tactic(auto)]

mod division;
mod laws;

pub use division::{FareDivision, FareList, fares_of, solve_fares};
pub use laws::{division_law, fraction_limits_law, members_law};
