//! The text of an estate's certificate, as it is read: what it says, and the first broken line of other bytes. An estate has more goods than the specified search
//! answers; weights, prices and twins keep its tree small.
//!
//! `read_estate` reads a text that the caller holds, in fixed memory. `next_given` reads one of its lines of weights and prices again.
#![tactic(auto)]

mod count;
mod ends;
mod forms;
mod given;
mod laws;
mod line;
pub mod marks;
mod read;
mod text;
mod tree;

pub use ends::EstateEnd;
pub use forms::{NumberForm, places};
pub use given::{Given, TakenGiven, next_given};
pub use laws::{estate_text_law, given_law};
pub use line::{Taken, next_row};
pub use read::read_estate;
pub use text::{BODY_ROOM, EstateText, Row};
