// What each character of the tree says in the text of a certificate of goods. Each node comes before the nodes below it.

/// A node whose children follow.
pub const INNER_NODE: u8 = b'+';
/// A node that is left out, with all that lies below it.
pub const LEFT_OUT: u8 = b'-';
/// The leaf of the answer.
pub const ANSWER_LEAF: u8 = b'=';
