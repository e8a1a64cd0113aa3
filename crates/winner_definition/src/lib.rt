//! The rule of adjusted winner for two players (Brams and Taylor 1996), and the laws that follow from
//! it for all cases.
//!
//! Each law is the contract of a function that does nothing. Solvers and checkers rely on them.
//!
//! Weights show that a division is efficient compared with divisions into any number of parts,
//! whatever rule made it (`weights_law`). The rule of adjusted winner leads to just one division,
//! good by good (`winner_law`, `procedure_law`, `one_winner_law`).
#![tactic(auto)]

mod laws;
mod moving_laws;
mod share_laws;

pub use laws::{one_winner_law, printed_law, procedure_law, shown_law, weights_law, winner_law};
pub use moving_laws::{last_good_law, next_good_law, next_to_move_law};
pub use share_laws::{parts_law, share_law};
