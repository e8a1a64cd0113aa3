// The next request of a link.
ghost use Rattle.std.specs.Prelude.{◌≡◌, ◌≤◌};
ghost use Rattle.std.specs.Io.KnownBytes.{prepend_known};
ghost use Rattle.split_base.specs.Clocks.{ClockRun};
ghost use Rattle.split_http.specs.Turns.{HeadSays, MayBecomeHead, faults_of};
ghost use Rattle.serving.specs.Dues.{is_head};
ghost use Rattle.serving.specs.Served.{with_carry, link_view, tells_of};
ghost use Rattle.serving.specs.Hears.{HearSays, IsTimed};

use crate::{HeadRefusal, LinkEnd};
use split_base::{Clock, Link, ask, sides_law};
use split_http::{BodyTurn, Carry, Head, HeadTurn, Verb, next_body, next_head};
use std::alloc::Global;

/// What came of the next head of a link.
#[derive(Debug, Drop)]
pub enum Heard {
    /// The link has ended, and nothing is replied.
    Quiet(LinkEnd),
    /// The head is refused, and the connection is closed after the reply.
    Refused {
        /// Why.
        refusal: HeadRefusal,
        /// The moment, in seconds since 1970; none where the clock failed.
        answer: Option<u64>,
        /// Whether the reply has no body, as one to HEAD.
        bodiless: bool,
    },
    /// A request that was read whole.
    Request {
        /// Its head.
        head: Head,
        /// Its body.
        body: Vec<u8>,
        /// The moment at which it came, in seconds since 1970.
        moment: u64,
    },
}

// Whether the method is HEAD, so that the reply has no body.
pub(crate) fn is_head(verb: Verb) -> bool
    ensures { result ≡ is_head verb }
{
    match verb {
        Verb::Head => true,
        Verb::Get | Verb::Post | Verb::Other => false,
    }
}

/// Reads the next head of a link and its body. The clock is asked once for each head, also where the bytes begin with none or memory lacks,
/// and not where nothing is left or a read failed. Before the body the interim line is written where the head asks for it.
///
/// - `Quiet` with `Ended` is returned exactly when nothing is left, with `Cut` exactly when the input ends within the body of a head that isn't
///   refused, and with `LinkFault` for one failed call, which one of the link's two counts of faults shows. A read is made only while the parser
///   asks for more of the bytes that have come, or has no room for all their fields, or less than the body has come: where the parser tells that no
///   head can come, it is refused at once.
/// - `Refused` is returned exactly when the bytes begin with no head, the clock failed or the head is refused, in this order, or where memory ran
///   out. Nothing is written then.
///
/// Any other answer than `LinkFault` leaves both counts as they are. No write is empty.
pub fn hear<L: Link, C: Clock>(
    alloc: Global,
    link: &mut L,
    clock: &mut C,
    carry: &mut Carry,
) -> Heard
    ensures says { HearSays (with_carry carry.old (link_view (tells_of L.Source L.Sink) link.old))
        carry.new (link_view (tells_of L.Source L.Sink) link.new)
        (ClockRun C.gives C.faults clock.old clock.new) result }
    ensures timed { IsTimed result }
    ensures reads { L.Source.faults link.old ≤ L.Source.faults link.new }
    ensures writes { L.Sink.faults link.old ≤ L.Sink.faults link.new }
    ensures empty { L.Sink.empty_writes link.new ≡ L.Sink.empty_writes link.old }
    ensures clock { C.faults clock.old ≤ C.faults clock.new }
{
    match turn(alloc, link, carry) {
        HeadTurn::End => Heard::Quiet(LinkEnd::Ended),
        HeadTurn::LinkFault => Heard::Quiet(LinkEnd::LinkFault),
        HeadTurn::BadHead => refused(HeadRefusal::BadHead, ask(clock), false),
        HeadTurn::NoMemory { verb } => refused(HeadRefusal::Memory, ask(clock), is_head(verb)),
        HeadTurn::Head(head) => match ask(clock) {
            None => refused(HeadRefusal::ClockFault, None, is_head(head.verb)),
            Some(moment) => match next_body(alloc, link, carry, &head) {
                BodyTurn::Refused { row } => {
                    let why = HeadRefusal::Stated { row };
                    refused(why, Some(moment), is_head(head.verb))
                }
                BodyTurn::NoMemory => {
                    refused(HeadRefusal::Memory, Some(moment), is_head(head.verb))
                }
                BodyTurn::Cut => Heard::Quiet(LinkEnd::Cut),
                BodyTurn::LinkFault => Heard::Quiet(LinkEnd::LinkFault),
                BodyTurn::Body(body) => Heard::Request { head, body, moment },
            },
        },
    }
}

// A head that is refused, with the moment that the clock told.
fn refused(refusal: HeadRefusal, answer: Option<u64>, bodiless: bool) -> Heard
    ensures { result ≡ Heard.Refused refusal answer bodiless }
{
    Heard::Refused {
        refusal,
        answer,
        bodiless,
    }
}

// The next head of a link, which leaves what was written as it is.
fn turn<L: Link>(alloc: Global, link: &mut L, carry: &mut Carry) -> HeadTurn
    ensures says { HeadSays (prepend_known carry.old (L.Source.left link.old))
        (prepend_known carry.new (L.Source.left link.new)) result }
    ensures held { result ≡ HeadTurn.LinkFault → MayBecomeHead carry.new }
    ensures written { L.Sink.written link.new ≡ L.Sink.written link.old }
    ensures writes { L.Sink.faults link.new ≡ L.Sink.faults link.old }
    ensures empty { L.Sink.empty_writes link.new ≡ L.Sink.empty_writes link.old }
    ensures reads { L.Source.faults link.old ≤ L.Source.faults link.new }
    ensures count { L.Source.faults link.new ≡ faults_of (L.Source.faults link.old) result }
{
    sides_law::<L>();
    next_head(alloc, link, carry)
}
