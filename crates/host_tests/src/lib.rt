//! Tests of a host at moments that no real clock tells.
#![tactic(auto)]

#[cfg(test)]
mod answers;
#[cfg(test)]
mod creations;
