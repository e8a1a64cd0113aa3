// Limits and other numbers for fetching a certificate from a host.
use cert_reader::limits::MOST_BYTES;

/// The most digits of a Content-Length.
pub const MAX_LENGTH_DIGITS: usize = 10;

/// The status of a reply that has what was asked for: OK (RFC 9110, section 15.3.1).
pub const OK_STATUS: u16 = 200;

// How many bytes are given to the judge after a body that ends early: one more than a certificate has.
pub(crate) const FILLER: usize = MOST_BYTES + 1;
