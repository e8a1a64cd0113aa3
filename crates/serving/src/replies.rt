// The one reply that the host gives to each head of a link: the answer to its request, or why the head is refused.
ghost use Rattle.std.specs.Prelude.{◌≡◌, ◌≤◌, IfSome, IsSome, true};
ghost use Rattle.http.specs.StatusCode.{reason_phrase};
ghost use Rattle.split_base.specs.declared.limits.TheConstants.{LAST_MOMENT};
ghost use Rattle.serving.specs.Dues.{Manner, SaysDue};
ghost use Rattle.serving.specs.Served.{FinishSays, link_view, tells_of};
ghost use Rattle.reply_texts.specs.Contents.{content_view};
ghost use Rattle.serving.specs.Serving.{due_of, refusal_said as said_of, stated_refusal as stated_by};

use crate::{HeadRefusal, LinkEnd, finish};
use reply_texts::{ReplyContent, ServiceRefusal};
use split_base::Link;
use split_http::{BAD_HOST, BAD_LENGTH, FRAMING, HttpReply, LENGTH_MISSING, phrase_law};

// What is said to a head that is refused. It takes no memory.
pub(crate) fn refusal_said(refusal: HeadRefusal) -> ReplyContent<'static>
    ensures { content_view result ≡ said_of refusal }
{
    match refusal {
        HeadRefusal::BadHead => ReplyContent::refused(&ServiceRefusal::BadHead),
        HeadRefusal::ClockFault => ReplyContent::refused(&ServiceRefusal::ClockFault),
        HeadRefusal::Stated { row } => stated_said(row),
        HeadRefusal::Memory => ReplyContent::out_of_memory(),
    }
}

// What is said to a head whose refusal has this number.
fn stated_said(row: u8) -> ReplyContent<'static>
    ensures { content_view result ≡ said_of (HeadRefusal.Stated row) }
{
    if row == BAD_HOST {
        ReplyContent::refused(&ServiceRefusal::BadHost)
    } else if row == FRAMING {
        ReplyContent::refused(&ServiceRefusal::Framing)
    } else if row == BAD_LENGTH {
        ReplyContent::refused(&ServiceRefusal::BadLength)
    } else if row == LENGTH_MISSING {
        ReplyContent::refused(&ServiceRefusal::LengthMissing)
    } else {
        ReplyContent::refused(&ServiceRefusal::BodyTooLarge)
    }
}

// Writes what is said, and answers the end of the link after it, or none where the link goes on.
pub(crate) fn write_said<L: Link>(
    link: &mut L,
    said: &ReplyContent<'_>,
    moment: Option<u64>,
    bodiless: bool,
    closes: bool,
) -> Option<LinkEnd>
    requires { IfSome moment (λ t. t ≤ LAST_MOMENT) }
    ensures says { FinishSays (link_view (tells_of L.Source L.Sink) link.old)
        (link_view (tells_of L.Source L.Sink) link.new) (due_of said.now moment bodiless closes)
        result }
    ensures closed { closes ≡ true → IsSome result }
    ensures left { L.Source.left link.new ≡ L.Source.left link.old }
    ensures reads { L.Source.faults link.new ≡ L.Source.faults link.old }
    ensures writes { L.Sink.faults link.old ≤ L.Sink.faults link.new }
{
    phrase_law();
    let reply = reply_of(said, moment, bodiless, closes);
    finish(link, &reply, said.memory)
}

// The reply as it is written.
fn reply_of<'a>(
    said: &'a ReplyContent<'_>,
    moment: Option<u64>,
    bodiless: bool,
    closes: bool,
) -> HttpReply<'a>
    ensures tells { SaysDue (due_of said.now moment bodiless closes) result }
{
    HttpReply {
        status: said.status,
        text: said.text.bytes(),
        plain: said.content_type.is_plain(),
        moment,
        allow: said.allow,
        bodiless,
        close: said.memory || closes,
    }
}
