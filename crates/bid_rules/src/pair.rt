/// What makes one division of goods better than another: how many players have positive utility, and then the product of their
/// utilities, which is 1 if there are none.
///
/// Pairs are compared by the count, then by the product: the derived order reads the fields in their order.
/// An allocation with the greatest pair has the greatest Nash welfare (Caragiannis, Kurokawa, Moulin, Procaccia, Shah and Wang 2016).
#[derive(Clone, Copy, Debug, PartialEq, Eq, PartialOrd, Ord)]
pub struct Pair {
    /// The number of players with positive utility, at most 12.
    pub count: u8,
    /// The product of the positive utilities in points, at most 1000 for each player.
    pub product: u128,
}
