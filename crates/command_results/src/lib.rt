//! How a command ends: with its text, or by one of the reasons to stop, each with its status and its line. None of the lines takes memory.
//!
//! `owed` gives the status and the line of every ending in one definition. A caller with a buffer, such as one that is not written in
//! Rattle, is handed endings according to it.
#![tactic(auto)]

mod handing;
pub mod limits;
mod line;
mod stop;
mod text;

pub use handing::{hand_out, hand_out_stop, hand_out_verdict};
pub use line::Line;
pub use stop::{Owed, Stop};
pub use text::Text;
