// Why a fetched certificate has no verdict.

/// Why a fetch has no verdict.
#[derive(Clone, Copy, Debug, PartialEq, Eq)]
pub enum FetchEnd {
    /// What came isn't a reply of a host: no first part of its first `MAX_HEAD` bytes is the head of a response with at most `MAX_FIELDS` fields, or the head doesn't
    /// tell the length of a body, or the input ends within the body.
    Reply,
    /// The reply's status isn't 200.
    Status {
        /// The status.
        code: u16,
    },
    /// The body isn't certificate text.
    NotText {
        /// Its first broken line, counted from 1.
        line: u32,
    },
    /// The body is told to have more than `MOST_BYTES` bytes.
    TooLong,
    /// A read or a write of the link failed. It wasn't tried again.
    LinkFault,
}
