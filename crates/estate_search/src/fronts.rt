// Prefixes that the search stands at.
use crate::players::OwnerList;
use nash_bounds::Lanes;

/// Owners of the first few goods, and what the players have and may have under them.
#[derive(Default, Drop)]
pub(crate) struct Front {
    /// The owners, in search order.
    pub(crate) owners: OwnerList,
    /// What the players have and may have.
    pub(crate) lanes: Lanes,
}
