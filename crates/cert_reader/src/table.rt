// The text of a certificate of fares, as it is read: what its `set` lines say, their costs as one table.
ghost use Rattle.std.specs.Prelude.{◌≡◌};

use std::marker::Model;

/// The costs of all `set` lines in order, without the number of the set: for each set, what its route costs from the origin and from the place of each
/// rider who is not in the set.
#[derive(Debug, Drop)]
pub struct Table {
    numbers: Vec<i128>,
}

impl Model for Table {
    ghost use Rattle.std.specs.Prelude.{ℤ, List};

    ghost Value = { List ℤ };

    ghost view = { λ s. s.numbers.items };
}

impl Table {
    // A table of these numbers.
    pub(crate) fn new(numbers: Vec<i128>) -> Self
        ensures { result ≡ numbers.items }
    {
        Table { numbers }
    }

    /// The numbers.
    pub fn numbers(&self) -> &[i128]
        ensures { result.now ≡ self.now }
    {
        &self.numbers
    }
}
