//! The real outside: streams, arguments, the journal's file, a TCP dialer, and the clock. It also keeps files and sockets from the three
//! standard descriptors.
//!
//! Each call that fails counts as one fault, and no other does. The adapters reveal nothing about what a real file, socket, clock or
//! stream holds, so nothing is proved about crashes of a real disk. How long it takes until a link fails is a limit of this crate that
//! no clause mentions. No test shows that a sync after a failed one writes the waiting bytes again, since a device that loses nothing
//! can't show it.
#![tactic(auto)]

mod arguments;
mod clocks;
pub mod counts;
mod dialers;
mod files;
mod held;
pub mod limits;
mod links;
mod standard;
mod streams;
mod words;

pub use arguments::{Arguments, Started};
pub use clocks::{Arrival, SystemClock, second_of};
pub use dialers::TcpDialer;
pub use files::JournalFile;
pub use limits::LinkLimits;
pub use links::TcpLink;
pub use standard::StandardDescriptors;
pub use streams::{Reading, Writing};
pub use words::words_of;
