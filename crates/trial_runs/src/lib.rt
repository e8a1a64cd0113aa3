//! The trial of a number, once its three cases are drawn: solving them, judging their certificates, and the
//! summary.
//!
//! The verdict on the canonical certificates is proved; no clause requires that they are read back. A trial can
//! fail only for lack of memory.
#![tactic(auto)]

mod checking;
mod laws;
mod summary;

pub use laws::trial_text_law;
pub use summary::trial_text;
