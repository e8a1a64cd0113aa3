// How a search ends.
use arrayvec::ArrayVec;
use bid_rules::limits::ITEM_ROOM;

/// The owner of each good, by number: a player, counted from 1.
pub type Owners = ArrayVec<u8, ITEM_ROOM>;

/// A division, and a certificate that shows it to be the best.
#[derive(Drop)]
pub struct Found {
    /// Who owns each good.
    pub owners: Owners,
    /// How many prefixes the certificate opens.
    pub steps: u32,
    /// How many bytes the certificate has. They stand at the front of the memory that was lent for it.
    pub size: usize,
}

/// How a search ends.
#[derive(Drop)]
pub enum Ending {
    /// A division, and a certificate that shows it to be the best, as a judge of the text can find out.
    Best(Found),
    /// No certificate within the limit of steps. These are the owners of the best division found.
    OverLimit(Owners),
    /// The certificate has no room in the lent memory, or more than `MOST_BYTES` bytes. These are the owners of the best division found.
    TooLong(Owners),
}
