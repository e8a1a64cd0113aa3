//! The texts that people read: reports, lines on players and dumps; and the drawing of the cases of a trial.
//!
//! The numbers of a report are those of the division, its cent plan, exact utilities and tables of
//! envy, each by its definition. What is given fixes the report (`report_law`). The cases of a
//! trial are valid, and their goods stay within the limit of steps (`trial_law`).
#![tactic(auto)]

mod draws;
mod dump;
mod dump_output;
mod fares;
mod goods;
mod laws;
pub mod limits;
mod names;
mod player_laws;
mod players;
mod rent;
mod reports;
mod spread;
mod text;
mod trial_fares;
mod trial_laws;
mod trials;

pub use dump::dump_rows;
pub use laws::report_law;
pub use names::{Names, named};
pub use player_laws::lines_law;
pub use players::PlayerLines;
pub use reports::{named_report, report};
pub use trial_laws::trial_law;
pub use trials::trial_cases;
