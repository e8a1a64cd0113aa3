// The fields of the body of a bid or of a withdrawal, as they were read.
use bid_rules::limits::Values;

/// The body of a bid or of a withdrawal. A field is `None` if it is absent or of another form.
#[derive(Debug, Drop, PartialEq, Eq)]
pub struct BidBody {
    /// Which of the member's turns this is, from 1.
    pub turn: Option<u32>,
    /// By room in cents, or by good in points; a withdrawal does not look at it.
    pub values: Option<Values>,
    /// The place, from 1; a withdrawal does not look at it.
    pub place: Option<u8>,
}
