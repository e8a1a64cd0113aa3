// The command that a request is.
ghost use Rattle.std.specs.Prelude.{◌≡◌, IfOk, OnErr, true};
ghost use Rattle.sealed_core.specs.Step.{IsCheckedCommand, command_view};
ghost use Rattle.requests.specs.Commands.{command_of, reads_body};

use sealed_core::{Command, Key, What};
use split_base::NoMemory;
use split_http::{Place, Route};
use split_json::{read_bid, read_creation};
use std::alloc::Global;

/// The command of a request that leads there, with this key and body. `NoMemory` is returned only when memory runs out, and only where the
/// body is read: of a creation, a bid and a withdrawal.
pub fn command_of(
    alloc: Global,
    route: Route,
    key: Option<Key>,
    body: &[u8],
) -> Result<Command, NoMemory>
    ensures command { IfOk result (λ c.
        command_view c ≡ command_of route.place route.id key body.now) }
    ensures memory { OnErr result (reads_body route.place ≡ true) }
    ensures checked { IfOk result (λ c. IsCheckedCommand (command_view c)) }
{
    let id = route.id;
    match route.place {
        Place::Instances => {
            let body = read_creation(alloc, body)?;
            Ok(Command::Create { body })
        }
        Place::Instance => Ok(Command::Status { id, key }),
        Place::Bids => {
            let body = read_bid(alloc, body)?;
            Ok(Command::Bid { id, key, body })
        }
        Place::Bid => Ok(Command::Own { id, key }),
        Place::Withdraw => {
            let body = read_bid(alloc, body)?;
            Ok(Command::Withdraw { id, key, body })
        }
        Place::Close => Ok(Command::Close { id, key }),
        Place::Division => Ok(published(id, key, What::Division)),
        Place::Certificate => Ok(published(id, key, What::Certificate)),
        Place::Report => Ok(published(id, key, What::Report)),
        Place::Audit => Ok(published(id, key, What::Audit)),
        Place::Winner => Ok(published(id, key, What::Winner)),
    }
}

// The command that asks for what is published of an instance.
fn published(id: u32, key: Option<Key>, what: What) -> Command
    ensures { result ≡ Command.Publish id key what }
{
    Command::Publish { id, key, what }
}
