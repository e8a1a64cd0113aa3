//! Tests of the outside, in memory and the real one, and of `gate_log`. Its limits are held to those of the crates that use it.
#![tactic(auto)]

#[cfg(test)]
mod clocks;
#[cfg(test)]
mod disks;
#[cfg(test)]
mod files;
mod limits;
#[cfg(test)]
mod links;
#[cfg(test)]
mod logs;
#[cfg(test)]
mod memory;
#[cfg(test)]
mod objects;
#[cfg(test)]
mod sockets;
