// The limits of what the words of a command say.

/// The greatest number of a port.
pub const MOST_PORT: u64 = 65_535;

/// The most connections that a host serves.
pub const MOST_COUNT: u64 = 1_000_000;

/// The greatest number of an instance.
pub const MOST_ID: u64 = 4_294_967_295;

/// The greatest number of a trial.
pub const MOST_NUMBER: u64 = 18_446_744_073_709_551_615;

/// How many digits a key has.
pub const KEY_DIGITS: usize = 64;
