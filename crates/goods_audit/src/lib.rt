//! The audit of a division of goods: whether another allocation dominates it, and who envies another past one good. The division is
//! the published one or a proposal.
//!
//! `dominating` gives the least allocation that dominates, as a list of owners in search order, or says that there is none. It
//! refuses exactly when more prefixes leave room than the limit, and takes no memory. About the best division an audit says that
//! nothing dominates it and that no envy goes past one good (`fair_audit_law`).
#![tactic(auto)]

mod better;
mod envies;
mod laws;
mod paths;
mod texts;
mod walk;
mod whole;

pub use better::dominating;
pub use laws::{fair_audit_law, one_goods_audit_law};
pub use nash_search::OverLimit;
pub use texts::{audit_text, division_audit, named_audit};
