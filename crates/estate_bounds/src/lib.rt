//! What closes a prefix of allocations, so that a tree need not go on below it.
//!
//! `Weights` bound the product of the players' utilities by a weighted sum of them, and where each free good has to go to
//! another player, good by good. `Units` is the plain bound, counted in units of the greatest common divisor of all points.
//! `Prices` bound the logarithm of the product by what a point and a good cost each player. `is_short` shows that no
//! allocation gives points to more players than the answer. The laws say that no allocation that begins with a closed prefix
//! is better than the answer.
#![tactic(auto)]

mod factors;
mod gains;
mod laws;
mod lightest;
pub mod limits;
mod logs;
mod prices;
mod ratios;
mod shares;
mod shortage;
mod tops;
mod units;
mod weights;

pub use laws::{
    count_law, log_law, mean_law, one_each_law, prices_law, units_law, weighted_bound_law,
    weighted_sum_law, weights_law,
};
pub use logs::Logs;
pub use prices::Prices;
pub use shares::shares_under;
pub use shortage::is_short;
pub use units::{Units, unit_of};
pub use weights::Weights;
