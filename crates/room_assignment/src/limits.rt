// How far from 0 keys, weights and dual numbers lie. Each of these numbers stands only here.

/// The farthest from 0 that a key lies, 10^20: a value of at most 10^7 cents times 12^12, less a digit in base 12.
pub const MOST_KEY: u128 = 100_000_000_000_000_000_000;
/// The farthest from 0 that the weight of one step may lie, 10^21.
pub const MOST_STEP: u128 = 1_000_000_000_000_000_000_000;
/// Dual numbers and weights of walks are less than this far from 0, 10^25.
pub const DUAL_LIMIT: u128 = 10_000_000_000_000_000_000_000_000;
