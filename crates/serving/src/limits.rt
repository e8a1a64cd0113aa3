// How many requests of one link the host serves before it closes the link.

/// The greatest number of requests that a link may make.
pub const MAX_REQUESTS: u8 = 100;
