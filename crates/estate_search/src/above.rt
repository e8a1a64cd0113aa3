// The weights and prices that hold below prefixes.
use estate_bounds::{Prices, Weights};

/// The nearest weights and prices on the way to a prefix.
#[derive(Drop)]
pub(crate) struct Above {
    pub(crate) weights: Option<Weights>,
    pub(crate) prices: Option<Prices>,
}
