// How the serving of a link ends.

/// How the serving of a link ended.
#[derive(Clone, Copy, Debug, PartialEq, Eq)]
pub enum LinkEnd {
    /// No byte was left where a head would begin, or the last reply was written, closed the connection
    /// and wasn't a memory reply.
    Ended,
    /// A body was cut off. Nothing was replied to its head.
    Cut,
    /// A call of the link failed.
    LinkFault,
    /// A memory reply was the last, and was written.
    Memory,
}
