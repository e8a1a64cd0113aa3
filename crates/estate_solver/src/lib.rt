//! Divides estates: goods of so many members, or of so many goods, that the specified search doesn't answer.
//!
//! `advance` drives the search of `estate_search` in slices, in memory that the caller lends. When the search ends with a certificate, the verified judge of
//! `estate_checker` judges it, and the printed case is compared with the given one. Only then is the division handed out as the best: so nothing rests on the
//! search. Otherwise the best division that was found is handed out, and said to be no more than that.
#![tactic(auto)]

mod outcome;
mod solving;

pub use outcome::{Outcome, SliceEnd};
pub use solving::advance;
