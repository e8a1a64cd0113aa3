//! What holds of whole runs of the host, over a link and over a port: how each request is answered and moves the
//! state, what is kept and who sent it, and what stays sealed.
//!
//! These laws hold over any disk, except that what they say about crashes or files holds over an
//! honest one.
#![tactic(auto)]

mod laws;

pub use laws::{
    accepted_law, acknowledged_law, crash_law, ends_law, handled_law, integrity_law, sealed_law,
    sealed_runs_law, writing_law,
};
