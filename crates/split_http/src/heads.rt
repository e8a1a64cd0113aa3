// The next head of a link.
ghost use Rattle.std.specs.Prelude.{◌≡◌, ◌≤◌, ◌++◌, ℕ, List, length};
ghost use Rattle.std.specs.Io.KnownBytes.{prepend_known};
ghost use Rattle.split_base.specs.Faults.{HasRisen};
ghost use Rattle.split_http.specs.Heads.{IsFoundAt};
ghost use Rattle.split_http.specs.Turns.{HeadSays, CarrySays, IsTaken, faults_of};

use crate::head::{Head, Verb, head_at, read_verb};
use crate::request_heads::RequestHeads;
use http_heads::{Ahead, Carry, ROOM, look_ahead};
use httparse::spans::{EMPTY_HEADER_SPAN, HeaderSpan, RequestSpans};
use split_base::{NoMemory, Source};
use std::alloc::Global;

/// What comes where a head would begin.
#[derive(Debug, Drop)]
pub enum HeadTurn {
    /// A head.
    Head(Head),
    /// Bytes that begin with no head.
    BadHead,
    /// Nothing is left.
    End,
    /// A read failed.
    LinkFault,
    /// There was no memory for the path of the head at the front.
    NoMemory {
        /// The method of that head. A reply to HEAD has no body.
        verb: Verb,
    },
}

/// Reads the next head of a link, and takes it off its bytes. These are the carry's and then those
/// that the link has left; what is answered and what is left depends only on them, and not on the
/// pieces in which they come.
///
/// - `BadHead` is returned exactly when bytes are left, and no first part of them is the head of a
///   request as `httparse` reads it (RFC 9112), of at most `MAX_HEAD` bytes and with at most `MAX_FIELDS` fields.
/// - `End` is returned exactly when nothing is left.
/// - `LinkFault` comes for one failed read, which the link's count of faults tells. Each other answer
///   leaves that count as it is. A read is made only while the parser asks for more of what the carry
///   holds, or has no room for all its fields: nothing is read while a whole head waits there, and
///   if the parser tells that no head can come, `BadHead` is answered at once. That a head has more
///   fields, but at most `ROOM`, is told at its end; of more fields it tells nothing.
/// - `NoMemory` is returned only if memory ran out and a head is at the front. That head stays there.
///   Its method is told, so that a reply to HEAD can leave its body out (`HttpReply::bodiless`).
///
/// But for a head that was taken off, the carry holds what it held and then what was read. After
/// anything but a head the connection takes no further request.
pub fn next_head<S: Source>(alloc: Global, link: &mut S, carry: &mut Carry) -> HeadTurn
    ensures says { HeadSays (prepend_known carry.old (S.left link.old))
        (prepend_known carry.new (S.left link.new)) result }
    ensures carry { (read : List ℕ) × CarrySays (carry.old ++ read) carry.new result }
    ensures reads { S.faults link.old ≤ S.faults link.new }
    ensures cause { result ≡ HeadTurn.LinkFault → HasRisen (S.faults link.old) (S.faults link.new) }
    ensures count { S.faults link.new ≡ faults_of (S.faults link.old) result }
    ensures beside { S.beside link.new ≡ S.beside link.old }
{
    let mut fields = [EMPTY_HEADER_SPAN; ROOM];
    match look_ahead::<RequestHeads, S>(link, carry, &mut fields) {
        Ahead::Found(spans) => take_head(alloc, carry, &fields, &spans),
        Ahead::Bad => HeadTurn::BadHead,
        Ahead::End => HeadTurn::End,
        Ahead::Fault => HeadTurn::LinkFault,
    }
}

// Takes the head that was found off the carry.
fn take_head(
    alloc: Global,
    carry: &mut Carry,
    fields: &[HeaderSpan; ROOM],
    spans: &RequestSpans,
) -> HeadTurn
    requires { IsFoundAt carry.old fields.now spans.now }
    ensures { IsTaken carry.old carry.new result }
{
    let fields = &fields[..spans.headers];
    match head_at(alloc, carry.as_slice(), fields, spans) {
        Ok(head) => {
            carry.take_front(spans.len);
            HeadTurn::Head(head)
        }
        Err(NoMemory) => {
            let verb = read_verb(spans.method.of(carry.as_slice()));
            HeadTurn::NoMemory { verb }
        }
    }
}
