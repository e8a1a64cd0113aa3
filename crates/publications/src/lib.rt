//! What is published of a closed instance: division, certificate, report, audit or winner, or why there is none.
//!
//! For a case that may be solved and reported, at most one thing is published for what is asked
//! (`one_publication_law`), so neither the number of workers nor a kept search changes it. A rent has no audit,
//! whatever its bids. Running out of memory is reported separately from what is published.
#![tactic(auto)]

mod laws;
mod publishing;

pub use laws::{instance_law, one_publication_law, publication_status_law};
pub use publishing::publication;
