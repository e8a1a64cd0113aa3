// The ranges of fractions. Each of these numbers stands only here.

/// The greatest numerator that calls take and return, 10^24. The least is just as far
/// below 0.
pub const MOST_NUMERATOR: u128 = 1_000_000_000_000_000_000_000_000;
/// The greatest denominator that calls take and return.
pub const MOST_DENOMINATOR: u64 = 4_000_000;
