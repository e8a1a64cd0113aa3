// The places of lines in a text, counted from 0. Lines whose place the counts move are counted from the first line of their part: in a rent and in
// goods the part after the values, in fares the part after the legs and the part after the sets.

/// The line that says the kind of a certificate.
pub const KIND_LINE: usize = 1;
/// How many lines say the kind. Readers gather the lines after these.
pub const KIND_LINES: usize = 2;

/// The line `members` of a rent.
pub const RENT_MEMBERS: usize = 2;
/// The line `rent` of a rent.
pub const RENT_AMOUNT: usize = 3;
/// The first line of values of a rent.
pub const RENT_VALUES: usize = 4;
/// The line `rooms`, after the values.
pub const RENT_ROOMS: usize = 0;
/// The line `left`, after the values.
pub const RENT_LEFT: usize = 1;
/// The line `right`, after the values.
pub const RENT_RIGHT: usize = 2;
/// The line `walks`, after the values.
pub const RENT_WALKS: usize = 3;
/// The line `ranks`, after the values.
pub const RENT_RANKS: usize = 4;
/// The line `prices`, after the values.
pub const RENT_PRICES: usize = 5;
/// The line `end`, after the values.
pub const RENT_END: usize = 6;

/// The line `players` of goods.
pub const GOODS_PLAYERS: usize = 2;
/// The line `goods` of goods.
pub const GOODS_COUNT: usize = 3;
/// The line `limit` of goods.
pub const GOODS_LIMIT: usize = 4;
/// The line `who` of goods.
pub const GOODS_WHO: usize = 5;
/// The first line of values of goods.
pub const GOODS_VALUES: usize = 6;
/// The line `owners`, after the values.
pub const GOODS_OWNERS: usize = 0;
/// The line `steps`, after the values.
pub const GOODS_STEPS: usize = 1;
/// The line `tree`, after the values.
pub const GOODS_TREE: usize = 2;
/// The line `end`, after the values.
pub const GOODS_END: usize = 3;

/// The line `riders` of fares.
pub const FARES_RIDERS: usize = 2;
/// The line `places` of fares.
pub const FARES_PLACES: usize = 3;
/// The line `flag` of fares.
pub const FARES_FLAG: usize = 4;
/// The first line of legs, those from the origin.
pub const FARES_LEGS: usize = 5;
/// The line `who`, after the legs.
pub const FARES_WHO: usize = 0;
/// The line `at`, after the legs.
pub const FARES_AT: usize = 1;
/// The first line of a set, after the legs.
pub const FARES_SETS: usize = 2;
/// The line `route`, after the sets.
pub const FARES_ROUTE: usize = 0;
/// The line `fares`, after the sets.
pub const FARES_FARES: usize = 1;
/// The line `end`, after the sets.
pub const FARES_END: usize = 2;

/// The line `goods` of a pair.
pub const PAIR_GOODS: usize = 1;
/// The line `who` of a pair.
pub const PAIR_WHO: usize = 2;
/// The line of values of player 1.
pub const PAIR_VALUES: usize = 3;
/// The line of values of player 2.
pub const PAIR_OTHER_VALUES: usize = 4;
/// The line `shares` of a pair.
pub const PAIR_SHARES: usize = 5;
/// The line `weights` of a pair.
pub const PAIR_WEIGHTS: usize = 6;
/// The line `total` of a pair.
pub const PAIR_TOTAL: usize = 7;
/// The line `end` of a pair.
pub const PAIR_END: usize = 8;
