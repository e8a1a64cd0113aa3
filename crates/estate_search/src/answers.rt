// The best division that the search has found so far.
use crate::players::OwnerList;
use bid_rules::Pair;
use estate_bounds::Units;
use estate_bounds::limits::Shares;

/// A division that others have to beat.
#[derive(Drop)]
pub(crate) struct Answer {
    /// The owners, in search order.
    pub(crate) owners: OwnerList,
    /// The number of players with points, and the product of their points.
    pub(crate) pair: Pair,
    /// The points of the players who have some.
    pub(crate) shares: Shares,
    /// The pair in units.
    pub(crate) units: Units,
}
