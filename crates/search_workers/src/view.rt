// What a worker's seat at a desk knows, and the numbers for which a desk is made.
ghost use Rattle.std.specs.Prelude.{ℕ, List};

use std::marker::Model;

/// What a worker's seat knows. It is plain data that only contracts see: the program never makes
/// a value of it.
pub struct DeskView {
    /// The tickets that it drew, the last one last.
    pub ghost tickets: { List ℕ },
    /// How many prefixes it reported.
    pub ghost reported: { ℕ },
    /// How many workers it accounts for.
    pub ghost allot: { ℕ },
    /// How often one of its reports found the node word above what is left.
    pub ghost stops: { ℕ },
    /// The desk's number of prefixes that are left to be counted.
    pub ghost left: { ℕ },
    /// The desk's number of workers.
    pub ghost workers: { ℕ },
}

impl Model for DeskView {
    ghost use Rattle.std.specs.Borrow.{ftrue};

    ghost also_owns = { λ _. ftrue };
}

/// The numbers for which a desk is made.
#[derive(Clone, Copy)]
pub struct DeskSize {
    /// How many prefixes are left to be counted, at most `MOST_STEPS`.
    pub left: u32,
    /// How many workers share the block, from 1 to `MOST_WORKERS`.
    pub workers: u8,
}
