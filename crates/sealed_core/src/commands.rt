// What can be asked of a host, and by whom.
use crate::Key;
use body_fields::{BidBody, BodyFault, Creation};

/// What is published once an instance is closed.
#[derive(Clone, Copy, Debug, PartialEq, Eq)]
pub enum What {
    /// Who gets what, and who pays what.
    Division,
    /// The text from which anyone can check that the division is the best.
    Certificate,
    /// The text that explains the division.
    Report,
    /// The text that audits the division: for goods, who envies whom, and that no other division dominates it.
    Audit,
    /// The division of goods between two by adjusted winner (Brams and Taylor 1996), besides the one that is best by the rule for
    /// goods.
    Winner,
}

/// What a caller asks of a host. The key is the one that they show, or `None` if they show none.
#[derive(Debug, Drop, PartialEq, Eq)]
pub enum Command {
    /// A new instance.
    Create {
        body: Result<Creation, BodyFault>,
    },
    /// The public facts of an instance.
    Status {
        id: u32,
        key: Option<Key>,
    },
    /// A member's bid.
    Bid {
        id: u32,
        key: Option<Key>,
        body: Result<BidBody, BodyFault>,
    },
    /// The member's own bid.
    Own {
        id: u32,
        key: Option<Key>,
    },
    /// The organiser's close.
    Close {
        id: u32,
        key: Option<Key>,
    },
    /// What a closed instance came to.
    Publish {
        id: u32,
        key: Option<Key>,
        what: What,
    },
    /// The withdrawal of a member's bid.
    Withdraw {
        id: u32,
        key: Option<Key>,
        body: Result<BidBody, BodyFault>,
    },
}

/// What is asked of an instance: a command without the id and the key.
#[derive(Debug, Drop, PartialEq, Eq)]
pub enum Ask {
    /// The public facts.
    Status,
    /// Asks to keep a member's bid.
    Bid(Result<BidBody, BodyFault>),
    /// The member's own bid.
    Own,
    /// The close.
    Close,
    /// What the closed instance came to.
    Publish(What),
    /// Asks to withdraw a member's bid.
    Withdraw(Result<BidBody, BodyFault>),
}
