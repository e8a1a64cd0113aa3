//! Adjusted winner between two players (Brams and Taylor 1996), equitable, envy-free and efficient,
//! and its text.
//!
//! It takes no memory. A case has at most one winner and one text. The text says neither how many
//! members there are nor a limit, so it prints the case with as many as there may be
//! (`winner_lines_law`).
#![tactic(auto)]

mod laws;
mod moving;
mod text_laws;
mod texts;
mod winner;

pub use laws::{answer_law, one_answer_law, winner_text_law};
pub use text_laws::winner_lines_law;
pub use texts::{winner_text, write_winner};
pub use winner::{Winner, solve_winner};
