// Limits of heads.

/// The most bytes that a head can have, including the empty lines before it and the one that ends
/// it.
pub const MAX_HEAD: usize = 8192;

/// The most fields that a head can have.
pub const MAX_FIELDS: usize = 64;

/// The fields for which the parser has room. Up to this number, a head with too many fields can
/// be told apart from bytes that never will be a head.
pub const ROOM: usize = 256;
