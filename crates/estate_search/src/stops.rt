// Why a search ends before its tree is whole.

/// Why a search ends before its tree is whole.
#[derive(Clone, Copy, Debug, PartialEq, Eq)]
pub(crate) enum Stop {
    /// The tree has more steps than allowed.
    Steps,
    /// The tree, or the text, has no room in the lent memory.
    TooLong,
}
