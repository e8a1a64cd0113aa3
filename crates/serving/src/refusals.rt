// Why the host at a link refuses a head, instead of answering its request.

/// Why a head is refused before its request is answered. After each of these the connection is closed.
#[derive(Clone, Copy, Debug, PartialEq, Eq)]
pub enum HeadRefusal {
    /// The bytes begin with no head.
    BadHead,
    /// The clock failed at this head.
    ClockFault,
    /// What the head says is refused.
    Stated {
        /// The number of its refusal, as in the head.
        row: u8,
    },
    /// There was no memory for the head or its body.
    Memory,
}
