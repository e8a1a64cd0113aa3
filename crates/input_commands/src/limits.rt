// The limit of what a command reads.

/// The most bytes that a case may have as JSON. What a certificate may have is `MOST_BYTES` of `cert_reader`.
pub const LONGEST_INPUT: usize = 65_536;
