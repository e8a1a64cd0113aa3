// The limits of what the text of an estate may say.

/// The greatest weight of a player.
pub const MOST_WEIGHT: u16 = 65535;
