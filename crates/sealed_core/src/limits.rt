// The limits of what a host keeps. Those of facts, bids and names are in `bid_rules`, those of tags and deadlines in `body_fields`.
use bid_rules::limits::MEMBER_ROOM;

/// The most turns of a member in an instance, bids and withdrawals together.
pub const MOST_TURNS: u8 = 20;
/// The most instances of a host.
pub const MOST_INSTANCES: usize = 1000;
/// Room for the keys of an instance: the organiser's and each member's.
pub const KEY_ROOM: usize = MEMBER_ROOM + 1;
