//! Rooms and prices of a shared rent by the maximin rule: envy-free, with the greatest least utility.
//!
//! `solve_rent` takes no memory and refuses nothing. A case has only one division
//! (`one_rent_division_law`), in which each number follows its formula and stays in its range
//! (`division_range_law`).
#![tactic(auto)]

mod division;
mod laws;
mod prices;

pub use division::{RentDivision, solve_rent};
pub use laws::{division_range_law, one_rent_division_law};
