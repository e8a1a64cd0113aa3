// The limits of facts, bids and names, and the types of the tables that they size. Each of these numbers
// stands only here.
use arrayvec::ArrayVec;

/// The fewest members who can share something.
pub const FEWEST_MEMBERS: u8 = 2;
/// The most members who can share a rent or goods.
pub const MOST_MEMBERS: u8 = 12;
/// The most members who can share a fare, and so the most riders.
pub const MOST_RIDERS: u8 = 10;
/// The most places at which riders get off.
pub const MOST_PLACES: u8 = 12;
/// The most goods that a case can have.
pub const MOST_GOODS: u8 = 24;
/// How many players share goods by adjusted winner.
pub const PAIR: u8 = 2;
/// The greatest rent, in cents.
pub const MOST_RENT: u32 = 10_000_000;
/// The farthest from 0 that any exact amount in cents lies, whether it is a price, a fare or a utility.
pub const MOST_AMOUNT: u64 = 1_000_000_000_000;
/// The greatest flag fall and the greatest leg, in cents.
pub const MOST_FARE_CENTS: u32 = 1_000_000;
/// How many points each player spreads over the goods.
pub const WHOLE_POINTS: u32 = 1000;
/// The most steps that a search for the best allocation of goods may be allowed.
pub const MOST_STEPS: u32 = 200_000;
/// The number of steps that a search is allowed if the case names no limit.
pub const USUAL_STEPS: u32 = 100_000;
/// The length of the longest name or title, in bytes.
pub const LONGEST_NAME: usize = 40;

/// Room for one entry for each member or player.
pub const MEMBER_ROOM: usize = MOST_MEMBERS as usize;
/// Room for one entry for each of a pair of players.
pub const PAIR_ROOM: usize = PAIR as usize;
/// Room for one entry for each rider.
pub const RIDER_ROOM: usize = MOST_RIDERS as usize;
/// Room for one entry for each place.
pub const PLACE_ROOM: usize = MOST_PLACES as usize;
/// Room for a row of legs from the origin and from each place.
pub const LEG_ROW_ROOM: usize = PLACE_ROOM + 1;
/// Room for one entry for each item: a room or a good.
pub const ITEM_ROOM: usize = MOST_GOODS as usize;

/// What each item, a room or a good, is worth to a member, in cents or points.
pub type Values = ArrayVec<u32, ITEM_ROOM>;
/// The values of each member or player.
pub type ValueTable = ArrayVec<Values, MEMBER_ROOM>;
/// Numbers of members.
pub type MemberList = ArrayVec<u8, MEMBER_ROOM>;
/// Numbers by rider, or of riders.
pub type RiderList = ArrayVec<u8, RIDER_ROOM>;
/// The leg to each place, in cents.
pub type LegRow = ArrayVec<u32, PLACE_ROOM>;
/// The legs from the origin and from each place.
pub type Legs = ArrayVec<LegRow, LEG_ROW_ROOM>;
