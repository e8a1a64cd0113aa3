// The reasons why a command ends without its text, with their statuses and lines.
ghost use Rattle.std.specs.Prelude.{◌≡◌, Err};
ghost use Rattle.command_results.specs.Endings.{fault_line, owed};

use crate::line::{Line, append, line_of, number_line, void_line};
use bid_rules::Missing;
use body_fields::BodyFault;
use split_base::NoMemory;

/// Why a command ends without its text, except for a failure to write.
#[derive(Debug, Drop, PartialEq, Eq)]
pub enum Stop {
    /// The case lacks the bids of these members.
    Void { missing: Missing },
    /// The case, which is of goods, takes more steps than this limit of the case; or this many prefixes are open in its
    /// audit.
    OverLimit { limit: u32 },
    /// The case doesn't have two players, as adjusted winner needs.
    NotTwo,
    /// The certificate, or the text of adjusted winner, breaks this rule, counted from 1, and keeps those before it.
    BrokenRule { rule: u8 },
    /// The words match no row of the command table.
    BadWords,
    /// The input, or the certificate in a host's reply, has more bytes than allowed.
    TooLong,
    /// The input isn't a case.
    BadCase { fault: BodyFault },
    /// The text doesn't follow its grammar, and this line, counted from 1, is the first broken one.
    BrokenLine { line: u32 },
    /// The host's reply doesn't hold a certificate.
    BadReply,
    /// A host replied with this status.
    BadStatus { code: u16 },
    /// The file isn't a journal, or isn't empty when one is to be made: its first fault is at this place.
    BadJournal { place: u64 },
    /// A read of the input failed.
    ReadFault,
    /// A call of the disk failed.
    StoreFault,
    /// A call of the port or the dialer failed, or of the link that was dialled.
    PortFault,
    /// Memory ran out.
    NoMemory,
}

impl From<NoMemory> for Stop {
    ghost use Rattle.std.specs.Prelude.{◌≡◌};
    ghost use Rattle.command_results.specs.declared.stop.Stop.TheVariants.{NoMemory};

    ghost from_gives = { λ _ stop. stop ≡ NoMemory };

    fn from(_: NoMemory) -> Self {
        Stop::NoMemory
    }
}

/// What an ending without a text owes to its caller.
#[derive(Drop)]
pub struct Owed {
    /// The status with which the program ends.
    pub status: u8,
    /// The line that the program writes.
    pub line: Line,
}

impl Stop {
    /// The status, and the line that the program writes. No memory is taken.
    pub fn owed(&self) -> Owed
        ensures status { result.status ≡ (owed (Err self.now)).status }
        ensures line { result.line.items ≡ (owed (Err self.now)).text }
    {
        match self {
            Stop::Void { missing } => Owed::new(1, void_line(&missing.members)),
            Stop::OverLimit { limit } => {
                Owed::new(1, number_line(b"step limit", u64::from(*limit)))
            }
            Stop::NotTwo => Owed::new(1, line_of(b"not two\n")),
            Stop::BrokenRule { rule } => Owed::new(1, number_line(b"no", u64::from(*rule))),
            Stop::BadWords => Owed::new(2, line_of(b"refused: words\n")),
            Stop::TooLong => Owed::new(3, line_of(b"refused: too long\n")),
            Stop::BadCase { fault } => Owed::new(3, fault_line(*fault)),
            Stop::BrokenLine { line } => {
                Owed::new(3, number_line(b"refused: line", u64::from(*line)))
            }
            Stop::BadReply => Owed::new(3, line_of(b"refused: reply\n")),
            Stop::BadStatus { code } => {
                Owed::new(3, number_line(b"refused: status", u64::from(*code)))
            }
            Stop::BadJournal { place } => {
                Owed::new(4, number_line(b"refused: journal at", *place))
            }
            Stop::ReadFault => Owed::new(5, line_of(b"read fault\n")),
            Stop::StoreFault => Owed::new(7, line_of(b"store fault\n")),
            Stop::PortFault => Owed::new(8, line_of(b"port fault\n")),
            Stop::NoMemory => Owed::new(9, line_of(b"no memory\n")),
        }
    }
}

impl Owed {
    // What a command that stops still owes its caller.
    fn new(status: u8, line: Line) -> Self
        ensures { result ≡ record { status = status; line = line } }
    {
        Owed { status, line }
    }
}

// The line that refuses a body.
#[tactic(auto, unfolding(split_frac::specs::Texts::line))]
fn fault_line(fault: BodyFault) -> Line
    ensures { result.items ≡ fault_line fault }
{
    match fault {
        BodyFault::Json => line_of(b"refused: json\n"),
        BodyFault::Field { name } => {
            let mut line = line_of(b"refused: field ");
            append(&mut line, name.name().as_bytes());
            append(&mut line, b"\n");
            line
        }
    }
}
