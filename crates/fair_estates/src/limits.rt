// The limits and the statuses of the functions of estates.

/// The status of a slice after which the search isn't over.
pub(crate) const GOES_ON: u8 = 10;
