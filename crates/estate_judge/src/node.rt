// The nodes of the tree of an estate.

use arrayvec::ArrayVec;
use bid_rules::limits::{ITEM_ROOM, MEMBER_ROOM};
use estate_bounds::limits::WeightList;

/// A rate and a fee for each player.
#[derive(Drop)]
pub struct PriceList {
    /// What each player pays for a point.
    pub rates: ArrayVec<u32, MEMBER_ROOM>,
    /// What each player pays for a free good.
    pub fees: ArrayVec<u32, MEMBER_ROOM>,
}

/// What a node is.
#[derive(Drop)]
pub enum Kind {
    /// It has a child for each owner of the next good.
    Inner,
    /// A leaf below which no allocation is better than the answer.
    Closed,
    /// The leaf of the answer.
    Answer,
    /// A leaf with a twin: the last owners of the twin.
    Twin(ArrayVec<u8, ITEM_ROOM>),
}

/// A node of the tree.
#[derive(Drop)]
pub struct Node {
    /// The weights that it takes, which hold for it and for all that is below it.
    pub weights: Option<WeightList>,
    /// The prices that it takes, which hold as long.
    pub prices: Option<PriceList>,
    /// What it is.
    pub kind: Kind,
}

impl Default for Node {
    fn default() -> Node {
        Node {
            weights: None,
            prices: None,
            kind: Kind::Inner,
        }
    }
}
