//! The four rules of the text of adjusted winner, judged in one pass and in fixed memory.
//!
//! A yes shows a fair division, whatever rule made it (`winner_verdict_law`).
#![tactic(auto)]

mod case;
mod checking;
mod laws;
mod rules;
mod shares;
mod totals;
mod weights;

pub use checking::{check_pair_text, check_winner};
pub use laws::{winner_certificate_law, winner_verdict_law};
pub use rules::check_pair;
