// The texts of what a host answers.
ghost use Rattle.std.specs.Prelude.{◌≡◌, ◌≤◌, ◌||◌, length, option_map, IfOk, IsSome, IsSomeAnd, Some, false};
ghost use Rattle.std.specs.List.{range_with_len};
ghost use Rattle.bid_rules.specs.declared.limits.TheConstants.{MEMBER_ROOM};
ghost use Rattle.sealed_core.specs.Host.{IsCheckedInstance, event_view, instance_at, instance_view, kept_bid, kept_turn};
ghost use Rattle.sealed_core.specs.Keys.{key_text};
ghost use Rattle.sealed_core.specs.Sealed.{with_event};
ghost use Rattle.sealed_core.specs.Step.{answer_view};
ghost use Rattle.reply_texts.specs.Objects.{of_keys};
ghost use Rattle.reply_texts.specs.Pages.{PutsFound, PutsValue};
ghost use Rattle.reply_texts.specs.Replies.{of_closed, of_created, of_own, of_place, of_reply, of_turn, of_values, status_of, text_of};
ghost use Rattle.reply_texts.specs.Sealing.{IsSealedText};
ghost use Rattle.reply_texts.specs.Telling.{IsAnswered, IsCloseOf, IsCreationOf, Tells, is_close, is_publication};
ghost use Rattle.reply_texts.specs.Values.{list_by, of_text};

use crate::laws::text_sealing_law;
use crate::objects::{Field, Part, put_fields};
use crate::page::{Page, wipe};
use crate::refusals::{put_refusal, refusal_status};
use crate::sizes::reply_size_law;
use crate::statuses::put_status;
use arrayvec::ArrayVec;
use bid_rules::Bid;
use bid_rules::limits::MEMBER_ROOM;
use sealed_core::{
    Answered, Event, Host, Instance, Key, Reply, bid_of, instance_at, key_of, turn_of,
};
use split_base::NoMemory;
use std::alloc::Global;

/// The HTTP status of a reply.
pub fn reply_status(reply: &Reply) -> u16
    ensures { result ≡ status_of reply.now }
{
    match reply {
        Reply::Created { .. } => 201,
        Reply::Refused(refusal) => refusal_status(*refusal),
        _ => 200,
    }
}

// The turn that was kept, which a client needs for its next bid.
#[tactic(auto, unfolding(crate::specs::Replies::of_turn))]
fn put_turn(page: &mut Page, turn: u8)
    ensures { PutsValue page.old page.new (of_turn turn) }
{
    put_fields(
        page,
        &[Field {
            name: "turn",
            part: Part::Number(u64::from(turn)),
        }],
    )
}

// A member's own bid of values, and its turn.
#[tactic(auto, unfolding(crate::specs::Replies::of_values))]
fn put_values(page: &mut Page, turn: u8, values: &[u32])
    ensures { PutsValue page.old page.new (of_values turn values.now) }
{
    put_fields(
        page,
        &[
            Field {
                name: "turn",
                part: Part::Number(u64::from(turn)),
            },
            Field {
                name: "values",
                part: Part::Numbers(values),
            },
        ],
    )
}

// A member's own bid of a place, and its turn.
#[tactic(auto, unfolding(crate::specs::Replies::of_place))]
fn put_place(page: &mut Page, turn: u8, place: u8)
    ensures { PutsValue page.old page.new (of_place turn place) }
{
    put_fields(
        page,
        &[
            Field {
                name: "place",
                part: Part::Number(u64::from(place)),
            },
            Field {
                name: "turn",
                part: Part::Number(u64::from(turn)),
            },
        ],
    )
}

// The member's own kept turn and bid.
fn put_own(page: &mut Page, instance: &Instance, member: u8)
    requires least { 1 ≤ member }
    requires most { member ≤ length instance.now.creation.members.items }
    requires sound { IsCheckedInstance (instance_view instance.now) }
    ensures { PutsValue page.old page.new
        (of_own (kept_turn (instance_view instance.now) member)
        (kept_bid (instance_view instance.now) member)) }
{
    let turn = turn_of(instance, member);
    match bid_of(instance, member) {
        Some(Bid::Values(values)) => put_values(page, turn, values.as_slice()),
        Some(Bid::Place(place)) => put_place(page, turn, *place),
        None => put_turn(page, turn),
    }
}

// A close has nothing else to say.
#[tactic(auto, unfolding(crate::specs::Replies::of_closed))]
fn put_closed(page: &mut Page)
    ensures { PutsValue page.old page.new of_closed }
{
    put_fields(
        page,
        &[Field {
            name: "closed",
            part: Part::Flag(true),
        }],
    )
}

// The keys of the members, in their order.
fn member_keys(secret: &[u8; 32], id: u32, members: u8) -> ArrayVec<Key, MEMBER_ROOM>
    requires { members ≤ MEMBER_ROOM }
    ensures { list_by of_text result.items
        ≡ list_by (λ m. of_text (key_text secret.now id m)) (range_with_len 1 members) }
{
    let mut keys = ArrayVec::new();
    for place in 0..members {
        keys.push(key_of(secret, id, place + 1));
    }
    keys
}

// The id and the keys of a new instance.
fn put_new_keys<'a>(page: &mut Page, id: u32, keys: &'a [Key], organiser: &'a Key)
    ensures { PutsValue page.old page.new (of_keys id keys.now organiser.now) }
{
    put_fields(
        page,
        &[
            Field {
                name: "id",
                part: Part::Number(u64::from(id)),
            },
            Field {
                name: "keys",
                part: Part::Keys(keys),
            },
            Field {
                name: "organiser",
                part: Part::Text(organiser),
            },
        ],
    )
}

// The only reply that has keys: the organiser hands them out.
fn put_created(page: &mut Page, secret: &[u8; 32], id: u32, members: u8)
    requires { members ≤ MEMBER_ROOM }
    ensures { PutsValue page.old page.new (of_created secret.now id members) }
{
    let keys = member_keys(secret, id, members);
    let organiser = key_of(secret, id, 0);
    put_new_keys(page, id, keys.as_slice(), &organiser)
}

// How many members the instance has that a reply names as created.
fn members_after(host: &Host, event: &Option<Event>, id: u32) -> u8
    requires { Tells host.now.content (option_map event_view event.now) (Reply.Created id) }
    ensures few { result ≤ MEMBER_ROOM }
    ensures members { option_map (λ i. length i.creation.members)
        (instance_at (with_event host.now.content (option_map event_view event.now)) id)
        ≡ Some result }
{
    if let Some(Event::Create { creation, .. }) = event {
        return creation.members.len() as u8;
    }
    let Some(instance) = instance_at(host, id) else {
        unreachable!();
    };
    instance.creation.members.len() as u8
}

// The event is not applied yet when the text is made, so the members are counted with it.
fn put_created_after(page: &mut Page, host: &Host, event: &Option<Event>, id: u32)
    requires { Tells host.now.content (option_map event_view event.now) (Reply.Created id) }
    ensures { PutsFound page.old page.new
        (of_reply (with_event host.now.content (option_map event_view event.now))
        (Reply.Created id)) }
{
    let members = members_after(host, event, id);
    put_created(page, host.secret(), id, members)
}

// A status must already say that the instance is closed by its own event.
fn is_close(event: &Option<Event>) -> bool
    ensures { result ≡ is_close (option_map event_view event.now) }
{
    match event {
        Some(Event::Close { .. }) => true,
        _ => false,
    }
}

// Whether the instance is closed after the event.
fn is_closed_after(instance: &Instance, event: &Option<Event>) -> bool
    ensures { result
        ≡ ((instance_view instance.now).closed || is_close (option_map event_view event.now)) }
{
    instance.closed || is_close(event)
}

// The text is made before the event is applied, so that a reply is there whole before anything is kept.
fn put_status_after(page: &mut Page, host: &Host, event: &Option<Event>, id: u32, you: u8)
    requires { Tells host.now.content (option_map event_view event.now) (Reply.Status id you) }
    ensures { PutsFound page.old page.new
        (of_reply (with_event host.now.content (option_map event_view event.now))
        (Reply.Status id you)) }
{
    let Some(instance) = instance_at(host, id) else {
        unreachable!();
    };
    let closed = is_closed_after(instance, event);
    put_status(page, id, you, instance, closed)
}

// A member's own bid is as it was before the event, since only a close can come with it.
fn put_own_after(page: &mut Page, host: &Host, event: &Option<Event>, id: u32, member: u8)
    requires { Tells host.now.content (option_map event_view event.now) (Reply.Own id member) }
    ensures { PutsFound page.old page.new
        (of_reply (with_event host.now.content (option_map event_view event.now))
        (Reply.Own id member)) }
{
    let Some(instance) = instance_at(host, id) else {
        unreachable!();
    };
    put_own(page, instance, member)
}

// Puts the text of a reply over the host after the event.
fn put_after(page: &mut Page, host: &Host, event: &Option<Event>, reply: Reply)
    requires tells { Tells host.now.content (option_map event_view event.now) reply }
    requires reply { is_publication reply ≡ false }
    ensures { PutsFound page.old page.new
        (of_reply (with_event host.now.content (option_map event_view event.now)) reply) }
{
    match reply {
        Reply::Created { id } => put_created_after(page, host, event, id),
        Reply::Status { id, you } => put_status_after(page, host, event, id, you),
        Reply::Kept { turn } => put_turn(page, turn),
        Reply::Own { id, member } => put_own_after(page, host, event, id, member),
        Reply::Closed => put_closed(page),
        Reply::Publish { .. } => unreachable!(),
        Reply::Refused(refusal) => put_refusal(page, refusal),
    }
}

/// Puts on the page the text of what a host answered to a command, unless the answer is a publication: over the host after the event, which is
/// not applied. Nothing else is left on the page. It takes no memory.
///
/// The host is the one before the event. If the instance that was asked is not closed after the event, the status and the text are those
/// of the sealed reply, written from what the caller may know of it.
pub fn put_reply(page: &mut Page, host: &Host, answered: &Answered)
    requires answered { IsAnswered host.now.content (answer_view answered.now) }
    requires reply { is_publication answered.now.reply ≡ false }
    ensures text { text_of (with_event host.now.content (answer_view answered.now).event)
        answered.now.reply ≡ Some page.new.bytes.items }
    ensures sealed { IsSealedText host.now.content (answer_view answered.now) page.new.bytes.items }
{
    text_sealing_law();
    reply_size_law();
    let _instances = host.instances();
    wipe(page);
    put_after(page, host, &answered.event, answered.reply);
    if page.full {
        unreachable!();
    }
}

/// The same text in memory.
pub fn reply_text(alloc: Global, host: &Host, answered: &Answered) -> Result<Vec<u8>, NoMemory>
    requires answered { IsAnswered host.now.content (answer_view answered.now) }
    requires reply { is_publication answered.now.reply ≡ false }
    ensures text { IfOk result (λ text.
        text_of (with_event host.now.content (answer_view answered.now).event) answered.now.reply
        ≡ Some text.items) }
    ensures sealed { IfOk result (λ text.
        IsSealedText host.now.content (answer_view answered.now) text.items) }
{
    let mut page = Page::blank();
    put_reply(&mut page, host, answered);
    match Vec::from_slice(alloc, page.bytes.as_slice()) {
        Ok(text) => Ok(text),
        Err(_) => Err(NoMemory),
    }
}
