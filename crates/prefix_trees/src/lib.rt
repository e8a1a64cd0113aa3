//! Trees over the owners of the first few goods whose leaves are closed in any way, so that one allocation is the best. A crate of its own: it knows
//! neither how a leaf is closed nor how a tree is written down.
#![tactic(auto)]

mod alike;
mod closing;
mod laws;
pub mod limits;
mod twin;
mod walk;

pub use alike::AlikePlayers;
pub use closing::Closing;
pub use laws::{closed_fronts_law, closed_law, leaves_law, tree_law, twin_law, walked_law};
pub use twin::{is_allocation, is_twin, lanes_under};
pub use walk::Walk;
