//! A request that was read whole: its command, its reply, and the event that goes with it.
//!
//! A host whose append has failed waits: the next request opens its file again. On an honest disk a crash at any moment of a request
//! leaves the events kept before it, with or without its own.
//!
//! Each failed call of the disk is counted once and ends the request. A store fault is reported only in a request in which a call
//! failed. Memory is reported to have run out only for a body that is read or for a publication, and then there is no event: reopening
//! the file, keeping an event and all other replies take no memory.
#![tactic(auto)]

mod commands;
mod laws;
mod replies;
mod responding;
mod settling;
mod stepping;
mod telling;
mod tools;

pub use commands::command_of;
pub use laws::{sent_sealing_law, step_reply_law};
pub use responding::respond;
pub use tools::Tools;
