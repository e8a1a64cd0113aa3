// The limits of a port with many clients.
use adapters::limits::CLOSING_SECONDS;
use std::time::Duration;

/// The most clients of a port at once.
pub const MOST_CLIENTS: usize = 1_000;

/// How long a client may go without a whole request, or without taking what is kept for it, in seconds.
pub const IDLE_SECONDS: u64 = 600;

/// For how long a client without a whole request is safe from being dropped for another, in milliseconds. The request of one that has just come
/// may be on its way.
pub const GRACE_MILLIS: u64 = 10;

/// The pause after a first failed call of `accept`, in milliseconds. It doubles with each further failure in a row.
pub const LEAST_PAUSE_MILLIS: u64 = 1;

/// The longest such pause, in milliseconds.
pub const MOST_PAUSE_MILLIS: u64 = 100;

/// After how many seconds of such pauses without a single success the port gives up.
pub const GIVING_UP_SECONDS: u64 = 10;

/// The most bytes that are kept to be sent to one client. No reply is longer.
pub const MOST_KEPT_OF_ONE: usize = 4_194_304;

/// The most bytes that are kept to be sent to all clients.
pub const MOST_KEPT_OF_ALL: usize = 16_000_000;

/// The limits of a port.
#[derive(Clone, Copy, Debug)]
pub struct PortLimits {
    /// The most clients at once. If one more comes, the one that has been longest without a whole request is dropped.
    pub clients: usize,
    /// How long a client without a whole request is safe from being dropped for another.
    pub grace: Duration,
    /// How long a client may go without a whole request.
    pub idle: Duration,
    /// How long a closed client has to close its own end.
    pub closing: Duration,
    /// The most bytes that are kept to be sent to one client. If a reply has more, its connection fails.
    pub kept_of_one: usize,
    /// The most bytes that are kept to be sent to all clients. Beyond that, the client for which some have been kept longest is dropped.
    pub kept_of_all: usize,
}

impl PortLimits {
    /// The limits of the program's port.
    pub fn usual() -> PortLimits {
        PortLimits {
            clients: MOST_CLIENTS,
            grace: Duration::from_millis(GRACE_MILLIS),
            idle: Duration::from_secs(IDLE_SECONDS),
            closing: Duration::from_secs(CLOSING_SECONDS),
            kept_of_one: MOST_KEPT_OF_ONE,
            kept_of_all: MOST_KEPT_OF_ALL,
        }
    }
}
