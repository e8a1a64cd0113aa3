//! How much is kept of what was solved.

/// The most searches of goods that are kept, and the most certificates.
pub const MOST_KEPT_SEARCHES: usize = 16;

/// The most bytes of certificates that are kept.
pub const MOST_KEPT_BYTES: usize = 8_000_000;
