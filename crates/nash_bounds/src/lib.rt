//! What a search for the best allocation of goods stands on, but no search: the search order, prefixes and their
//! bounds, tasks and blocks, the start value, and the definition of the step count.
//!
//! The definitions are about allocations, and don't say how anything is searched.
//!
//! The bound of a prefix is the greatest pair of any list between what the players have and what each could have
//! (`bound_law`), and filling one point at a time gives the same pair (`slow_filling_law`). `open_prefixes_law` says
//! which prefixes a certificate may not leave out.
#![tactic(auto)]

mod contenders;
mod fitting;
mod goals;
mod lanes;
mod laws;
mod levels;
pub mod limits;
mod order;
mod owners;
mod prefix;
mod reach;
mod step_laws;
mod table;
mod vectors;

pub use bid_rules::Pair;
pub use contenders::{Contenders, contenders_of};
pub use goals::Goal;
pub use lanes::{LaneRow, LaneTable, Lanes, fork, give, join, lane_table, lanes_of, players, take};
pub use laws::{
    bound_law, longer_prefix_law, owners_by_good_law, search_order_law, slow_filling_law,
    whole_list_law,
};
pub use order::search_order;
pub use owners::{owners_by_good, owners_in_order};
pub use prefix::{Prefix, bound, empty_prefix, extend, extend_by};
pub use reach::{Reached, next_reaches, pair_so_far, reaches};
pub use step_laws::{
    allocations_law, best_before_law, best_counted_law, open_prefixes_law, owner_lists_law,
    serving_law, steps_law, tasks_in_row_law, tasks_law,
};
pub use table::{PointRow, PointTable, point_table};
