//! A journal in one file: a header with a secret, and records that begin at a gate. A crash at any
//! moment leaves the records that were kept so far, with or without the one that is being appended.
//!
//! Every file has one list of bodies or one first fault, whose place is given (`journal_law`). An
//! append is two writes, each with a sync, and no other call that changes a byte. A call refuses only
//! if a call of the disk failed, if the file has a fault, or if memory runs out.
#![tactic(auto)]

mod ahead;
mod create;
mod fault;
mod gate;
mod header;
mod laws;
mod limits;
mod log;

pub use create::create_log;
pub use fault::LogFault;
pub use laws::{beginning_law, journal_law};
pub use limits::{
    BODY_LEAST, BODY_MOST, BODY_ROOM, Body, EMPTY_SIZE, FIRST_GATE, FRONT_SIZE, GATE_SIZE,
    LENGTH_SIZE, LINE_SIZE, SECRET_SIZE, VERSION_GATE,
};
pub use log::Log;
