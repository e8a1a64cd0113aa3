// The limits of the lines that end a command.
use bid_rules::limits::MEMBER_ROOM;

/// Room for a line that ends a command: a word of up to `WORD_ROOM` bytes, for each member a space and three digits, and LF. Neither a
/// 64-bit number nor a field's name takes more room than the members do.
pub const LINE_ROOM: usize = WORD_ROOM + 4 * MEMBER_ROOM + 1;

/// The most bytes that come before the numbers of such a line.
pub const WORD_ROOM: usize = 20;
