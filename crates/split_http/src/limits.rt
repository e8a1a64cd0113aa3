// Limits of bodies, and the numbers of the refusals of a head.

/// The most bytes of a body.
pub const MAX_BODY: u32 = 65_536;

/// A head of HTTP/1.1 without exactly one Host, or of HTTP/1.0 with two or more.
pub const BAD_HOST: u8 = 3;

/// A head with a Transfer-Encoding, which the host does not take.
pub const FRAMING: u8 = 4;

/// A head with two Content-Length fields or more, or whose value is not one or more digits.
pub const BAD_LENGTH: u8 = 5;

/// A POST without Content-Length.
pub const LENGTH_MISSING: u8 = 6;

/// A body of more than `MAX_BODY` bytes.
pub const BODY_TOO_LARGE: u8 = 7;
