// Limits of the adapters over the real outside.
use std::time::Duration;

/// The most bytes that a file may have, and so the greatest place after its last byte.
pub const MOST_FILE_BYTES: u64 = 1 << 63;

/// The most bytes in one piece that is kept until the next successful sync. No write of a journal is longer.
pub const LONGEST_PIECE: usize = 4_101;

/// The most pieces that are kept until the next successful sync. A journal writes one or two between two syncs.
pub const MOST_PIECES: usize = 2;

/// The mode of a journal that is created: only its owner may read and write it, since it holds the secret of the host.
pub const JOURNAL_MODE: u32 = 0o600;

/// How long one read or write of a link may wait, in seconds.
pub const CALL_SECONDS: u64 = 60;

/// How long a link may last in all, in seconds.
pub const LINK_SECONDS: u64 = 600;

/// How long the client has to close its end once a link is closed, in seconds.
pub const CLOSING_SECONDS: u64 = 1;

/// The time limits of a link.
#[derive(Clone, Copy, Debug)]
pub struct LinkLimits {
    /// How long one read or write may wait.
    pub call: Duration,
    /// How long the link may last in all.
    pub link: Duration,
    /// How long a link that is given back waits for its client to close.
    pub closing: Duration,
}

impl LinkLimits {
    /// The limits of the program's links.
    pub fn usual() -> LinkLimits {
        LinkLimits {
            call: Duration::from_secs(CALL_SECONDS),
            link: Duration::from_secs(LINK_SECONDS),
            closing: Duration::from_secs(CLOSING_SECONDS),
        }
    }
}
