//! Tests of the program over objects whose calls fail, of its adapters over such a reader and writer, and of the refusals that no request
//! brings about.
#![tactic(auto)]

#[cfg(test)]
mod commands;
#[cfg(test)]
mod hosts;
#[cfg(test)]
mod outside;
#[cfg(test)]
mod refusals;
#[cfg(test)]
mod running;
