// The limits of a tag and of a deadline. The limits of facts, bids and names are in `bid_rules`.
use split_base::limits::LAST_MOMENT;

/// The length of the shortest tag, in bytes.
pub const SHORTEST_TAG: usize = 16;
/// The length of the longest tag, in bytes.
pub const LONGEST_TAG: usize = 64;
/// The greatest deadline, in seconds since 1970: 9999-12-31T23:59:59Z. The texts that are read as times end earlier, at
/// 9999-12-30T22:00:00.999999999Z.
pub const LAST_DEADLINE: u64 = LAST_MOMENT;
