//! The leaves of an estate's tree, read from its text and judged by the rules that they keep. If each leaf keeps its rule, the answer is the best division
//! (`estate_tree_law`). The judge of a whole text is to stand on this crate.
#![tactic(auto)]

mod closed;
mod ground;
mod laws;
mod leaf;
pub mod limits;
mod lines;
mod marks;
mod nearest;
mod node;

pub use ground::Ground;
pub use laws::{estate_tree_law, nodes_law};
pub use leaf::{ANSWER_RULE, CLOSED_RULE, SHAPE_RULE, TWIN_RULE, WHOLE_RULE};
pub use marks::{TakenNode, next_node};
pub use node::{Kind, Node, PriceList};
