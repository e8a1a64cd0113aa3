//! The six rules of a certificate of goods, judged mark by mark in fixed memory. If all hold, the printed owners have the greatest
//! Nash welfare (Caragiannis and others 2016), and come first among equals.
//!
//! That is `goods_certificate_law`; `goods_tree_law` says what the leaves of the tree are. `parent_of` gives what the children of
//! a node are judged by, both when a tree is read and when one is written.
#![tactic(auto)]

mod answer;
mod case;
mod laws;
mod parent;
mod path;
mod state;
mod walk;

pub use answer::Answer;
pub use laws::{goods_certificate_law, goods_tree_law};
pub use parent::{Parent, parent_of};
pub use path::Path;
pub use state::{GoodsState, end_goods, start_goods, take_mark};
pub use walk::{Kept, Walk};
