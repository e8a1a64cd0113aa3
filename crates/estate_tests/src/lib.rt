//! Tests of the judge of estates, in a crate of its own, because a crate with tests is proved twice.
#![tactic(auto)]

#[cfg(test)]
mod rules;
