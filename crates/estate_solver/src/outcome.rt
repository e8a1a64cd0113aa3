// What a slice of a search comes to.
use estate_search::Owners;

/// How a slice of a search ends.
#[derive(Clone, Copy, Debug, PartialEq, Eq)]
pub enum SliceEnd {
    /// The division is the best one. Its certificate, to which the judge says yes, has so many bytes, which stand at the front of the memory for it.
    Best {
        /// How many bytes the certificate has.
        size: usize,
    },
    /// The search isn't over.
    GoesOn,
    /// There is no certificate within the limit of steps.
    OverLimit,
    /// The certificate has no room in the lent memory, or more bytes than a text may have.
    TooLong,
    /// The judge doesn't say yes to the certificate that the search made.
    NotShown,
}

/// What a slice of a search comes to: how it ends, and a division. If that isn't the best one, it is the best that was found so far.
#[derive(Drop)]
pub struct Outcome {
    /// How the slice ends.
    pub end: SliceEnd,
    /// The owner of each good, by number: a player, counted from 1.
    pub owners: Owners,
}
