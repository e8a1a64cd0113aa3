// The limit of what the text of an estate may say about its search.

/// The most steps that the search for an estate's division may be allowed.
pub const MOST_ESTATE_STEPS: u32 = 1_000_000;
