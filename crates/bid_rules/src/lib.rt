//! Facts, bids and cases, the rules that they keep, and what a best division of a case is, with the sums,
//! orders, walks, keys and cent plans that laws, solvers and checkers share.
//!
//! Facts and bids are accepted exactly when their rules hold, and otherwise have a first fault,
//! with its number. Checked facts and bids make a valid case, or bids are missing (`make_case`).
//! The definitions of "best" don't mention any solver.
#![tactic(auto)]

mod bids;
mod case_laws;
mod cases;
mod fares;
mod goods;
mod limit_laws;
pub mod limits;
mod pair;
mod rents;
mod spread;

pub use bids::{Bid, BidFault, Facts, check_bid, check_facts};
pub use case_laws::case_law;
pub use cases::{Case, FareCase, Missing, make_case};
pub use fares::{Fares, check_fares, leg_place_law};
pub use goods::{Goods, GoodsCase, check_goods};
pub use limit_laws::fare_limits_law;
pub use pair::Pair;
pub use rents::{Rent, RentCase, check_rent, rent_value_law};
