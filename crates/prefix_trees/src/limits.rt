// How many rules there may be on the leaves of a tree.

/// The rules on leaves have numbers below this.
pub const RULE_ROOM: usize = 16;
