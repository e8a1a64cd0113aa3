// The solver: everything that is needed to find the divisions of cases.
use crate::kept::KeptSearches;
use search_workers::{Means, Workers};

/// Everything that is needed to find the divisions of cases: the means of a command, the workers that share a search, and the searches
/// that are kept. Neither the number of workers nor what is kept changes a division.
#[derive(Drop)]
pub struct Solver<'a, R, G> {
    /// Memory, threads and the gate.
    pub means: &'a Means<'a, R, G>,
    /// How many workers share a search.
    pub workers: Workers,
    /// What was searched and written before.
    pub searches: &'a mut KeptSearches,
}
