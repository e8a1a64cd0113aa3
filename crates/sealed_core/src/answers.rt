// Decides what the host answers to a command, and which event goes with it.
ghost use Rattle.std.specs.Prelude.{◌≡◌, ◌≤◌, ◌↔◌, map, length, true, false, None, Some, IfSome};
ghost use Rattle.bid_rules.specs.Facts.{IsCheckedFacts};
ghost use Rattle.sealed_core.specs.Causes.{Cause};
ghost use Rattle.sealed_core.specs.declared.limits.TheConstants.{MOST_INSTANCES};
ghost use Rattle.sealed_core.specs.Host.{AreCheckedInstances, CanApply, IsCheckedInstance, event_view, instance_view};
ghost use Rattle.sealed_core.specs.Sealed.{IsQuiet, IsSealed};
ghost use Rattle.sealed_core.specs.Step.{IsCheckedCommand, answer_view, answer_to, answer_bid, bid_turn, answer_to_fault, caller_of, bid_by_rule, answer_close, command_view, answer_creation, creation_seen, form_field, form_of, may_ask, refused, answer_ask, answer_caller, says, standing_of, step, answer_withdrawal, withdrawal_turn};

use crate::commands::Ask;
use crate::equals::{is_kept, same_creation};
use crate::limits::{MOST_INSTANCES, MOST_TURNS};
use crate::lookups::{all_bid, bid_of, caller, is_over, tagged, turn_of};
use crate::{Answered, Command, Event, Host, Instance, Key, Refusal, Reply};
use bid_rules::{Bid, Facts};
use body_fields::{BidBody, BodyFault, Creation, FieldName, allowed_bid};

// Most replies change nothing, so no event goes with them.
fn says(reply: Reply) -> Answered
    ensures { answer_view result ≡ says reply }
{
    Answered { event: None, reply }
}

// A refusal changes nothing.
fn refused(refusal: Refusal) -> Answered
    ensures { answer_view result ≡ refused refusal }
{
    says(Reply::Refused(refusal))
}

// Says what is wrong with a body: it isn't JSON, or a field is missing or breaks its rule.
fn broken(fault: BodyFault) -> Answered
    ensures { answer_view result ≡ answer_to_fault fault }
{
    match fault {
        BodyFault::Json => refused(Refusal::BadJson),
        BodyFault::Field { name } => refused(Refusal::BadField { name }),
    }
}

// Answers a creation. One that is equal to the creation kept under its tag gets the same answer as that one did.
fn answer_creation(now: u64, instances: &[Instance], body: Result<Creation, BodyFault>) -> Answered
    requires { length instances.now ≤ MOST_INSTANCES }
    ensures { answer_view result
        ≡ answer_creation now (map instance_view instances.now) (creation_seen body) }
{
    let creation = match body {
        Ok(creation) => creation,
        Err(fault) => return broken(fault),
    };
    if let Some((id, found)) = tagged(instances, &creation.tag) {
        if same_creation(found, &creation) {
            return says(Reply::Created { id });
        }
        return refused(Refusal::TagTaken);
    }
    if instances.len() >= MOST_INSTANCES {
        return refused(Refusal::HostFull);
    }
    Answered {
        event: Some(Event::Create {
            moment: now,
            creation,
        }),
        reply: Reply::Created {
            id: instances.len() as u32 + 1,
        },
    }
}

// Whether the organiser, or a member, may ask this.
fn may_ask(member: u8, ask: &Ask) -> bool
    ensures { result ≡ may_ask member ask.now }
{
    match ask {
        Ask::Status | Ask::Publish(_) => true,
        Ask::Bid(_) | Ask::Own | Ask::Withdraw(_) => member != 0,
        Ask::Close => member == 0,
    }
}

// The bid of a body, of the kind that the facts ask for, if it is checked.
fn checked_bid(facts: &Facts, body: BidBody) -> Option<Bid>
    requires { IsCheckedFacts facts.now }
    ensures { result ≡ bid_by_rule facts.now (form_of facts.now body) }
{
    let bid = match facts {
        Facts::Rent(_) | Facts::Goods(_) => Bid::Values(body.values?),
        Facts::Fares(_) => Bid::Place(body.place?),
    };
    allowed_bid(facts, bid)
}

// The field that a bid of this kind has to hold, which is named when it is missing.
fn form_field(facts: &Facts) -> FieldName
    ensures { result ≡ form_field facts.now }
{
    match facts {
        Facts::Rent(_) | Facts::Goods(_) => FieldName::Values,
        Facts::Fares(_) => FieldName::Place,
    }
}

// Answers a bid whose body is right.
fn bid_turn(
    now: u64,
    id: u32,
    member: u8,
    instance: &Instance,
    closed: bool,
    turn: u32,
    bid: Bid,
) -> Answered
    requires least { 1 ≤ member }
    requires most { member ≤ length instance.now.creation.members.items }
    requires sound { IsCheckedInstance (instance_view instance.now) }
    ensures { answer_view result
        ≡ bid_turn now id member (standing_of (instance_view instance.now) member closed) turn bid }
{
    let kept = turn_of(instance, member);
    if closed {
        return refused(Refusal::Closed);
    }
    if turn == u32::from(kept) && is_kept(bid_of(instance, member), &bid) {
        return says(Reply::Kept { turn: kept });
    }
    if turn != u32::from(kept) + 1 {
        return refused(Refusal::Turn { kept });
    }
    if kept == MOST_TURNS {
        return refused(Refusal::TurnsUsed);
    }
    Answered {
        event: Some(Event::Bid {
            moment: now,
            id,
            member,
            turn: kept + 1,
            bid,
        }),
        reply: Reply::Kept { turn: kept + 1 },
    }
}

// A body that breaks a rule is refused as such, even if the instance is closed.
fn answer_bid(
    now: u64,
    id: u32,
    member: u8,
    instance: &Instance,
    closed: bool,
    body: Result<BidBody, BodyFault>,
) -> Answered
    requires least { 1 ≤ member }
    requires most { member ≤ length instance.now.creation.members.items }
    requires sound { IsCheckedInstance (instance_view instance.now) }
    ensures { answer_view result
        ≡ answer_bid now id member (standing_of (instance_view instance.now) member closed) body }
{
    let body = match body {
        Ok(body) => body,
        Err(fault) => return broken(fault),
    };
    let Some(turn) = body.turn else {
        return refused(Refusal::BadField {
            name: FieldName::Turn,
        });
    };
    let Some(bid) = checked_bid(&instance.creation.facts, body) else {
        return refused(Refusal::BadField {
            name: form_field(&instance.creation.facts),
        });
    };
    bid_turn(now, id, member, instance, closed, turn, bid)
}

// Answers a withdrawal whose body is right.
fn withdrawal_turn(
    now: u64,
    id: u32,
    member: u8,
    instance: &Instance,
    closed: bool,
    turn: u32,
) -> Answered
    requires least { 1 ≤ member }
    requires most { member ≤ length instance.now.creation.members.items }
    requires sound { IsCheckedInstance (instance_view instance.now) }
    ensures { answer_view result
        ≡ withdrawal_turn now id member (standing_of (instance_view instance.now) member closed)
        turn }
{
    let kept = turn_of(instance, member);
    let has_none = bid_of(instance, member).is_none();
    if closed {
        return refused(Refusal::Closed);
    }
    if turn == u32::from(kept) && kept >= 1 && has_none {
        return says(Reply::Kept { turn: kept });
    }
    if turn != u32::from(kept) + 1 {
        return refused(Refusal::Turn { kept });
    }
    if kept == MOST_TURNS {
        return refused(Refusal::TurnsUsed);
    }
    if has_none {
        return refused(Refusal::NoBid);
    }
    Answered {
        event: Some(Event::Withdraw {
            moment: now,
            id,
            member,
            turn: kept + 1,
        }),
        reply: Reply::Kept { turn: kept + 1 },
    }
}

// As with a bid, the body is tested before the state of the instance.
fn answer_withdrawal(
    now: u64,
    id: u32,
    member: u8,
    instance: &Instance,
    closed: bool,
    body: Result<BidBody, BodyFault>,
) -> Answered
    requires least { 1 ≤ member }
    requires most { member ≤ length instance.now.creation.members.items }
    requires sound { IsCheckedInstance (instance_view instance.now) }
    ensures { answer_view result
        ≡ answer_withdrawal now id member (standing_of (instance_view instance.now) member closed)
        body }
{
    let body = match body {
        Ok(body) => body,
        Err(fault) => return broken(fault),
    };
    let Some(turn) = body.turn else {
        return refused(Refusal::BadField {
            name: FieldName::Turn,
        });
    };
    withdrawal_turn(now, id, member, instance, closed, turn)
}

// Answers a close that the organiser asks for.
fn answer_close(now: u64, id: u32, member: u8, instance: &Instance, closed: bool) -> Answered
    ensures { answer_view result
        ≡ answer_close now id (standing_of (instance_view instance.now) member closed) }
{
    if closed {
        return refused(Refusal::Closed);
    }
    if !all_bid(instance) {
        return refused(Refusal::NotAll);
    }
    Answered {
        event: Some(Event::Close { moment: now, id }),
        reply: Reply::Closed,
    }
}

// The answer to a caller who may ask this, whether the instance is closed or not.
fn answer_ask(
    now: u64,
    id: u32,
    member: u8,
    instance: &Instance,
    closed: bool,
    ask: Ask,
) -> Answered
    requires may { may_ask member ask ≡ true }
    requires most { member ≤ length instance.now.creation.members.items }
    requires sound { IsCheckedInstance (instance_view instance.now) }
    ensures { answer_view result
        ≡ answer_ask now id member (standing_of (instance_view instance.now) member closed) ask }
{
    match ask {
        Ask::Status => says(Reply::Status { id, you: member }),
        Ask::Bid(body) => answer_bid(now, id, member, instance, closed, body),
        Ask::Own => says(Reply::Own { id, member }),
        Ask::Close => answer_close(now, id, member, instance, closed),
        Ask::Publish(what) if closed => says(Reply::Publish { id, what }),
        Ask::Publish(_) => refused(Refusal::NotClosed),
        Ask::Withdraw(body) => answer_withdrawal(now, id, member, instance, closed, body),
    }
}

// The answer to a caller. If the deadline has passed, the event is the instance's Close, and the answer is that of the closed
// instance.
fn answer_caller(now: u64, id: u32, ask: Ask, instance: &Instance, member: u8) -> Answered
    requires most { member ≤ length instance.now.creation.members.items }
    requires sound { IsCheckedInstance (instance_view instance.now) }
    ensures { answer_view result ≡ answer_caller now id ask (instance_view instance.now) member }
{
    if !may_ask(member, &ask) {
        return refused(Refusal::Role);
    }
    if is_over(now, instance) {
        return Answered {
            event: Some(Event::Close { moment: now, id }),
            reply: answer_ask(now, id, member, instance, true, ask).reply,
        };
    }
    answer_ask(now, id, member, instance, instance.closed, ask)
}

// Who is asking is settled before what they ask, so a wrong key learns nothing about the instance.
fn answer_to(host: &Host, now: u64, id: u32, key: Option<Key>, ask: Ask) -> Answered
    ensures { answer_view result ≡ answer_to now id ask (caller_of host.now.content id key) }
{
    match caller(host, id, key) {
        Ok((instance, member)) => answer_caller(now, id, ask, instance, member),
        Err(refusal) => refused(refusal),
    }
}

// The same answer, with a contract that says only that it is the step's.
fn step(host: &Host, moment: u64, command: Command) -> Answered
    ensures step { answer_view result ≡ step host.now.content moment (command_view command) }
    ensures sound { AreCheckedInstances host.now.content.instances }
{
    let now = moment.max(host.moment());
    let instances = host.instances();
    match command {
        Command::Create { body } => answer_creation(now, instances, body),
        Command::Status { id, key } => answer_to(host, now, id, key, Ask::Status),
        Command::Bid { id, key, body } => answer_to(host, now, id, key, Ask::Bid(body)),
        Command::Own { id, key } => answer_to(host, now, id, key, Ask::Own),
        Command::Close { id, key } => answer_to(host, now, id, key, Ask::Close),
        Command::Publish { id, key, what } => answer_to(host, now, id, key, Ask::Publish(what)),
        Command::Withdraw { id, key, body } => answer_to(host, now, id, key, Ask::Withdraw(body)),
    }
}

/// What a host answers to a command at a moment, in seconds since 1970: at most one event, which may be applied, and one reply.
///
/// If the moment is below the greatest one of a kept event, that one counts instead. A new creation, bid or withdrawal and the
/// organiser's close have their event. When a caller asks something they may ask, of an instance that is at or past its deadline and
/// isn't closed, the close is the event, and the answer is that of the closed instance. A creation equal to the one that is kept under
/// its tag has no event and that one's reply; a bid equal to the kept one with the kept turn has no event either, nor has a withdrawal
/// with the turn of the last withdrawal if the member hasn't bid since: these get the kept turn.
///
/// A creation in the command must keep the rules that `Creation::is_checked` tests; every other command may come as it is.
///
/// Each refusal is given exactly when it has its cause. Its only possible event is the close, at the moment, of the instance that is
/// asked about, if that is open past its deadline. If the instance that is asked about isn't closed after the step, the reply follows
/// from what the caller may know of it.
pub fn answer(host: &Host, moment: u64, command: Command) -> Answered
    requires { IsCheckedCommand (command_view command) }
    ensures step { answer_view result ≡ step host.now.content moment (command_view command) }
    ensures applicable { IfSome result.event (λ e. CanApply host.now.content (event_view e)) }
    ensures refused { (r : Refusal) → (result.reply ≡ Reply.Refused r)
        ↔ Cause host.now.content moment (command_view command) r }
    ensures quiet { IsQuiet host.now.content moment (command_view command) (answer_view result) }
    ensures sealed { IsSealed host.now.content moment (command_view command) (answer_view result) }
{
    step(host, moment, command)
}
