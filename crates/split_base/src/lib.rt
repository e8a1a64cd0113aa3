//! The outside of the program, as traits and in memory: sources and sinks of bytes, links, a port,
//! a dialer, a disk with what a crash may leave, and a clock, each with a count of its faults; and the
//! gate that is called when workers begin and end tasks.
//!
//! A call fails only if it raises its object's count of faults, by one; a successful call leaves
//! the count unchanged. `read_all` and `write_all` end at the first failed call and try nothing
//! again. For an honest `Disk` the clauses say what reads give and what a crash at any moment of a
//! call may leave. An object in memory fails exactly when it is told to, and no contract says
//! anything about a `Gate`.
#![tactic(auto)]

mod asked;
mod clock;
mod dial;
mod disk;
mod gate;
pub mod limits;
mod link;
mod memory;
mod port;
mod streams;
mod whole;

pub use asked::Asked;
pub use clock::{Clock, ask};
pub use dial::Dial;
pub use disk::{Disk, write_synced};
pub use gate::{Gate, Quiet};
pub use link::{Link, sides_law};
pub use memory::{
    MemClock, MemDial, MemDisk, MemLink, MemPort, MemSink, MemSource, NoMemory, TextSource,
};
pub use port::Port;
pub use streams::{Failed, Sink, Source};
pub use whole::{ReadStop, read_all, write_all};
