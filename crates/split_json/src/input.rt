// A case as it is read.
use arrayvec::ArrayVec;
use bid_rules::limits::{ITEM_ROOM, MEMBER_ROOM};
use bid_rules::{Bid, Facts};
use body_fields::Name;

/// What a case is about: everything in its body before the bids. The head that a body gives has facts without fault.
#[derive(Drop)]
pub struct Head {
    /// What the case is called.
    pub title: Name,
    /// The names of the members, as many as the facts say.
    pub members: ArrayVec<Name, MEMBER_ROOM>,
    /// The names of what is divided: the rooms of a rent, as many as its members, the goods, or the places of fares.
    pub items: ArrayVec<Name, ITEM_ROOM>,
    /// What is divided, without the names: the kind, the counts, and the rent, the limit of steps, or the flag fall and the legs.
    pub facts: Facts,
}

/// A case as it is read. One that `read_case` gives keeps the rules of its fields.
#[derive(Drop)]
pub struct CaseInput {
    /// What the case is called.
    pub title: Name,
    /// The names of the members, as many as the facts say.
    pub members: ArrayVec<Name, MEMBER_ROOM>,
    /// The names of what is divided: the rooms of a rent, as many as its members, the goods, or the places of fares.
    pub items: ArrayVec<Name, ITEM_ROOM>,
    /// What is divided, without the names: the kind, the counts, and the rent, the limit of steps, or the flag fall and the legs.
    pub facts: Facts,
    /// One entry for each member, in their order: the member's bid, or `None` if the member has not bid.
    pub bids: ArrayVec<Option<Bid>, MEMBER_ROOM>,
}
