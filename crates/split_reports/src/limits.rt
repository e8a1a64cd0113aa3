// What is drawn for the cases of a trial, and how many of each. Each of these numbers stands only here.

/// A draw is below this number, which is a prime.
pub const DRAW_MODULUS: u32 = 2_147_483_647;
/// By what a draw is multiplied to give the next one.
pub const DRAW_FACTOR: u32 = 48_271;
/// How many weights there are: 1 and up.
pub const WEIGHTS: u32 = 1000;
/// The members, and the rooms, of the rent.
pub const RENT_MEMBERS: u8 = 12;
/// The rent, in cents.
pub const TRIAL_RENT: u32 = 1_200_000;
/// How many draws the rent takes: a weight for each member and room.
pub const RENT_DRAWS: u32 = 144;
/// The members who bid on the goods.
pub const GOODS_MEMBERS: u8 = 4;
/// The goods.
pub const TRIAL_GOODS: u8 = 8;
/// How many draws the goods take: a weight for each member and good.
pub const GOODS_DRAWS: u32 = 32;
/// The members who share the fare.
pub const FARE_MEMBERS: u8 = 4;
/// The places at which they may get off.
pub const TRIAL_PLACES: u8 = 10;
/// The least flag fall, in cents, and how many there are from it on.
pub const LEAST_FLAG: u32 = 300;
/// How many flag falls there are.
pub const FLAGS: u32 = 700;
/// The least leg between two places, in cents.
pub const LEAST_LEG: u32 = 100;
/// How many lengths of legs there are.
pub const LEG_COUNT: u32 = 900;
