// The limits of bounds, tasks and blocks. Each of these numbers stands only here; the limits of facts and bids are in
// `bid_rules`.
use bid_rules::limits::{MEMBER_ROOM, MOST_GOODS, MOST_MEMBERS, WHOLE_POINTS};

/// The most points that the players have in total.
pub const MOST_SUM: u32 = MOST_MEMBERS as u32 * WHOLE_POINTS;
/// The most that the `top` of a prefix may be: all points of the players, and the greatest points that one can give each good.
pub const MOST_TOP: u32 = MOST_SUM + MOST_GOODS as u32 * WHOLE_POINTS;
/// How many lanes a vector has: one for each player, and some to spare.
pub const LANES: usize = 16;
/// The most that the entries of all lanes may sum to.
pub const MOST_LANES_SUM: u32 = LANES as u32 * WHOLE_POINTS;
/// Half of the room for players: the product of the points of this many players fits in 64 bits.
pub const HALF_ROOM: usize = MEMBER_ROOM / 2;
/// The bits of all lanes.
pub const ALL_LANES: u64 = (1 << LANES) - 1;
/// When products are compared, a goal's product is cut into this many shares.
pub const SHARES: u32 = 1024;
/// The product of a goal has at most this many bits when counted in units.
pub const UNIT_BITS: u32 = 32;
/// The most units in the product of a goal.
pub const MOST_UNITS: u128 = (1 << UNIT_BITS) - 1;

/// Tasks begin with lists of owners. These have the least length for which there are at least this many lists, or an owner for
/// each good.
pub const FEWEST_LISTS: u32 = 64;
/// The most tasks: the lists that are one shorter are fewer than `FEWEST_LISTS`, and each of them goes on with at most as many
/// owners as there are players.
pub const MOST_TASKS: u32 = (FEWEST_LISTS - 1) * MOST_MEMBERS as u32;
/// The most lists of owners that are shorter than those of the tasks.
pub const MOST_SHORTER: u32 = 2 * FEWEST_LISTS - 1;
/// How many tasks make up a block. Which prefixes of a block are counted depends on the best pair of the earlier blocks.
pub const BLOCK_TASKS: u32 = 16;
