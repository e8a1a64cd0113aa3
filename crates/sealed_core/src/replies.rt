// What the host replies, and why it refuses.
use crate::{Event, What};
use body_fields::FieldName;

/// Why a command is refused. If there are several causes, the first is given, in the order `NoInstance` to `TurnsUsed`, `NoBid`,
/// `NotAll`, `NotClosed`.
#[derive(Clone, Copy, Debug, PartialEq, Eq)]
pub enum Refusal {
    /// No instance has the id.
    NoInstance,
    /// No key is shown.
    NoKey,
    /// The key belongs to nobody in this instance.
    WrongKey,
    /// The organiser bids, withdraws or asks for their own bid, or a member tries to close.
    Role,
    /// The body of a creation, bid or withdrawal isn't JSON.
    BadJson,
    /// The first field of the body that breaks its rule.
    BadField { name: FieldName },
    /// Another creation has the tag.
    TagTaken,
    /// The creation is new and the host holds as many instances as it may.
    HostFull,
    /// A bid, a withdrawal or a close on a closed instance.
    Closed,
    /// The turn of a bid is neither the next one nor the kept one of an equal kept bid, or the turn of a withdrawal is neither the next
    /// one nor the kept one, above 0, of a member who has withdrawn and not bid since. It comes with the member's kept turn.
    Turn { kept: u8 },
    /// The turn is the next one, and the member has used all turns.
    TurnsUsed,
    /// A close before the deadline while a member has no bid.
    NotAll,
    /// A publication of an instance that isn't closed: its division, certificate, report, audit or winner.
    NotClosed,
    /// The withdrawal, with the next turn, of a member without a bid.
    NoBid,
}

/// The reply to a command.
#[derive(Clone, Copy, Debug, PartialEq, Eq)]
pub enum Reply {
    /// The instance of the creation: a new one, or that of an equal earlier creation.
    Created { id: u32 },
    /// The public facts of the instance, and who asks: a member from 1, or 0 for the organiser.
    Status { id: u32, you: u8 },
    /// The member's kept turn after a bid or a withdrawal.
    Kept { turn: u8 },
    /// This member's own bid and kept turn.
    Own { id: u32, member: u8 },
    /// The instance is closed.
    Closed,
    /// What the closed instance came to.
    Publish { id: u32, what: What },
    /// The command is refused.
    Refused(Refusal),
}

/// What a host answers: the reply, and the event that is to be applied before it is sent, if there is one.
#[derive(Debug, Drop, PartialEq, Eq)]
pub struct Answered {
    pub event: Option<Event>,
    pub reply: Reply,
}
