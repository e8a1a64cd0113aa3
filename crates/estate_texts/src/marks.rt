// What each character of the tree of an estate says. Each node comes before the nodes below it.

/// A node whose children follow.
pub const INNER_NODE: u8 = b'+';
/// A leaf below which nothing is better than the answer.
pub const CLOSED_LEAF: u8 = b'-';
/// The leaf of the answer.
pub const ANSWER_LEAF: u8 = b'=';
/// The node takes the next line of weights or prices.
pub const NEXT_GIVEN: u8 = b'!';
/// A leaf with a twin, whose last owners follow as letters.
pub const TWIN_LEAF: u8 = b'~';
/// The letter of the first player.
pub const FIRST_PLAYER: u8 = b'A';
