//! The commands of the program, `audit` among them, over any disk, port, clock, source, sink, gate and
//! dialer.
//!
//! The clause `holds` of `run` says all. The field `ran` of its record `Holds` comes first, and the
//! others follow from it. Words name at most one command (`command_law`).
#![tactic(auto)]

mod auditing;
mod command;
mod laws;
pub mod limits;
mod program;
mod words;

pub use command::Command;
pub use command_results::Stop;
pub use host_journal::Serving;
pub use input_commands::InputCommand;
pub use laws::{command_law, output_law};
pub use program::{Status, run};
pub use serving::{LinkEnd, serve_one};
