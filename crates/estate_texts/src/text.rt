// The text of an estate as it was read.

use arrayvec::ArrayVec;
use bid_rules::limits::MOST_MEMBERS;
use cert_reader::limits::MOST_NUMBERS;

/// The whole numbers of a line.
pub type Row = ArrayVec<i128, MOST_NUMBERS>;
/// The most lines of numbers between the counts and the weights.
pub const BODY_ROOM: usize = MOST_MEMBERS as usize + 5;

/// The text of an estate: what its lines of numbers say, and where its weights and its tree are.
#[derive(Drop)]
pub struct EstateText<'a> {
    /// How many players there are, 1 to 12.
    pub players: u8,
    /// How many goods there are, 1 to 24.
    pub goods: u8,
    /// The numbers of the lines between the counts and the weights: the limit, members, points by player, owners, steps, and `short`.
    pub body: ArrayVec<Row, BODY_ROOM>,
    /// The lines of weights and prices.
    pub given: &'a [u8],
    /// The marks of the tree.
    pub marks: &'a [u8],
}
