//! The journal of a host, and a host before a disk that may fail. Each event has one spelling as a body of the journal's records, and an event
//! is kept in the journal before it changes the host. If that fails the host waits until its file is opened again.
//!
//! A host takes all its memory when its file is opened first: after that neither a kept event nor a reopening takes any.
//!
//! On an honest disk a crash at any moment of a call leaves the events kept before it, with or without the call's own.
//!
//! No two events have one spelling (`spelling_law`), and every file has one list of events or one
//! first fault (`events_law`). An opening writes the version gate of a file of version 1 and no
//! other byte. The last record of a journal ends below 40 MB (`file_law`); how much a crash leaves
//! after it is not bounded.
#![tactic(auto)]

mod commits;
mod keeping;
mod laws;
mod opening;
mod reading;
mod reopening;
mod serving;
mod state_laws;
mod writing;

pub use commits::{CommitFault, commit};
pub use keeping::keep;
pub use laws::{
    BID_MOST, CLOSE_SIZE, CREATION_MOST, FARES_MOST, JOURNAL_MOST, WITHDRAWAL_SIZE, events_law,
    file_law, size_law, spelling_law,
};
pub use opening::open_host;
pub use reading::read_event;
pub use reopening::{open, reopen};
pub use serving::Serving;
pub use state_laws::{files_law, passing_law};
pub use writing::{spell_event, write_event};
