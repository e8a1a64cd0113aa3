//! What follows, for all cases, from the definitions of the best division of rents, goods and
//! fares.
//!
//! Each law is the contract of a function that does nothing. Solvers and checkers rely on them.
//!
//! They say in other words what "best" means, so that nobody has to trust the wording of a single
//! definition: prices are compared over every denominator, allocations with all allocations, and
//! routes with all orders.
#![tactic(auto)]

mod fares;
mod goods;
mod rents;

pub use fares::{
    best_fares_law, coalition_law, lowest_route_law, marginal_set_law, orders_law, route_cost_law,
    route_set_law, without_rider_law, worked_fares_law,
};
pub use goods::{best_goods_law, pair_order_law, players_law, worked_goods_law};
pub use rents::{
    assignment_law, best_rent_law, envy_free_law, formula_law, key_law, least_utility_law,
    permutation_law, potential_law, price_range_law, shown_rent_law, value_cycle_law, walk_law,
};
