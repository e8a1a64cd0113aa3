// The last moment that a clock of the outside may tell, a limit that several crates share.

/// The last second, counted from 1970, that a date can express: 9999-12-31T23:59:59Z, the end of
/// the year 9999.
pub const LAST_MOMENT: u64 = 253_402_300_799;
