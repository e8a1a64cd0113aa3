// The limits of weights, and of the estimates that they are judged by.
use arrayvec::ArrayVec;
use bid_rules::limits::{ITEM_ROOM, MEMBER_ROOM, WHOLE_POINTS};

/// The number that stands for 1 in an estimate of a ratio.
pub const WHOLE_RATIO: u128 = 1 << 50;
/// The greatest estimate. Greater ones are cut to it.
pub const MOST_RATIO: u128 = 1 << 80;
/// The greatest factor by which an estimate is multiplied.
pub const MOST_FACTOR: u64 = 1 << 30;
/// The greatest product of a weight and points.
pub const MOST_TERM: u64 = 1 << 32;
/// Room for one entry for each number of goods that can be free.
pub const FREE_ROOM: usize = ITEM_ROOM + 1;

/// A weight for each player.
pub type WeightList = ArrayVec<u16, MEMBER_ROOM>;
/// Utilities, factors or divisors, one for each of the players who have points.
pub type Shares = ArrayVec<u64, MEMBER_ROOM>;

/// The most that a rate or a fee may be, in parts of which `PRICE_PARTS` make 1.
pub const MOST_PRICE: u32 = (1 << 24) - 1;
/// The greatest price of a good.
pub const MOST_PAYMENT: u64 = 1 << 41;
/// How many parts of a logarithm make one part of a rate or a fee.
pub const PRICE_PARTS: u64 = 1 << 16;
/// The number that stands for 1 in a significand.
pub const ONE: u128 = 1 << 60;
/// The number that stands for 2.
pub const TWO: u128 = 2 * ONE;
/// How many bits the whole part of the logarithm of all points has room for: a number of points is less than 2 to this power.
pub const LOG_BITS: u64 = 10;
/// How often a power is squared for a logarithm, which then has as many bits after the point.
pub const SQUARINGS: u64 = 32;
/// The greatest logarithm of a number of points.
pub const MOST_LOG: u64 = (LOG_BITS + 2) << SQUARINGS;
/// Room for the logarithm of each number of points.
pub const LOG_ROOM: usize = WHOLE_POINTS as usize + 1;
