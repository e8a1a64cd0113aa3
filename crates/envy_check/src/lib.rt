//! Who envies whom: envy tables of rents and cent plans, and envy over goods.
//!
//! An entry of an envy table is exact, whatever common denominator the prices have. A cent plan
//! sums to the total and is less than a cent away from each amount, and under it nobody envies
//! anyone by more than one cent (`cent_envy_law`). An allocation of maximum Nash welfare is
//! envy-free up to one good, even if the case is not valid (`one_good_law`).
#![tactic(auto)]

mod cents;
mod goods;
mod laws;
mod rents;

pub use cents::cent_plan;
pub use goods::{Ef1, ef1_table, points_of, points_table};
pub use laws::{
    cent_envy_law, cent_plan_law, ef1_law, one_good_law, worked_envy_law, worked_plans_law,
};
pub use rents::{envy_table, is_envy_free, utility_at};
