// Writes the host's reply to a head of a link, and tells how the link ends after it, or that it goes on.
ghost use Rattle.std.specs.Prelude.{◌≡◌, ◌≤◌, IfSome, IsSome};
ghost use Rattle.http.specs.StatusCode.{reason_phrase};
ghost use Rattle.split_base.specs.declared.limits.TheConstants.{LAST_MOMENT};
ghost use Rattle.serving.specs.Dues.{DueView, SaysDue, closes};
ghost use Rattle.serving.specs.Served.{EndsBehind, FinishSays, link_view, tells_of};

use crate::LinkEnd;
use split_base::{Failed, Link, sides_law};
use split_http::{HttpReply, write_reply};

/// Writes a reply, and answers the end of the link after it, or none where the link goes on. `memory` tells that the reply says that memory
/// ran out.
///
/// - `LinkFault` comes only where the link's count of failed writes has risen, by one. A first part of the reply was written then.
/// - `Memory` is returned exactly when a memory reply was written, and `Ended` exactly when another that closes the connection was.
///
/// No write is empty.
pub fn finish<L: Link>(link: &mut L, reply: &HttpReply<'_>, memory: bool) -> Option<LinkEnd>
    requires status { IsSome (reason_phrase reply.now.status) }
    requires moment { IfSome reply.now.moment (λ t. t ≤ LAST_MOMENT) }
    ensures says { (due : DueView) → SaysDue due reply.now → due.said.memory ≡ memory
        → FinishSays (link_view (tells_of L.Source L.Sink) link.old)
        (link_view (tells_of L.Source L.Sink) link.new) due result }
    ensures left { L.Source.left link.new ≡ L.Source.left link.old }
    ensures reads { L.Source.faults link.new ≡ L.Source.faults link.old }
    ensures writes { L.Sink.faults link.old ≤ L.Sink.faults link.new }
    ensures empty { L.Sink.empty_writes link.new ≡ L.Sink.empty_writes link.old }
{
    sides_law::<L>();
    match write_reply(link, reply) {
        Err(Failed) => Some(LinkEnd::LinkFault),
        Ok(()) => end_behind(reply.close, memory),
    }
}

// The end of a link after a reply, or none where the link goes on.
fn end_behind(close: bool, memory: bool) -> Option<LinkEnd>
    ensures { (due : DueView) → closes due ≡ close → due.said.memory ≡ memory
        → EndsBehind due result }
{
    if memory {
        Some(LinkEnd::Memory)
    } else if close {
        Some(LinkEnd::Ended)
    } else {
        None
    }
}
