// Events, which change a host, and when they may be applied.
ghost use Rattle.std.specs.Prelude.{◌≡◌, ◌≢◌, ◌≤◌, ◌↔◌, ◌⊎◌, map, All, IsTrue, IsSome, false};
ghost use Rattle.bid_rules.specs.Facts.{IsCheckedBid};
ghost use Rattle.sealed_core.specs.Host.{CanApply, IsNextTurn, IsCheckedInstance, event_view, instance_view, kept_bid, text};

use crate::limits::{MOST_INSTANCES, MOST_TURNS};
use crate::lookups::{bid_of, instance_at, turn_of};
use crate::{Host, Instance};
use bid_rules::{Bid, check_bid};
use body_fields::{Creation, Tag};

/// What changes a host. Moments are seconds since 1970; members count from 1.
#[derive(Debug, Drop, PartialEq, Eq)]
pub enum Event {
    /// An instance is created.
    Create {
        moment: u64,
        creation: Creation,
    },
    /// A member's bid is kept.
    Bid {
        moment: u64,
        id: u32,
        member: u8,
        turn: u8,
        bid: Bid,
    },
    /// An instance is closed.
    Close {
        moment: u64,
        id: u32,
    },
    /// A member's bid is withdrawn.
    Withdraw {
        moment: u64,
        id: u32,
        member: u8,
        turn: u8,
    },
}

// A tag belongs to one instance.
fn differs(instance: &Instance, tag: &Tag) -> bool
    ensures { IsTrue result ↔ ((instance_view instance.now).creation.tag ≢ text tag.now) }
{
    instance.creation.tag.as_str() != tag.as_str()
}

// A new instance needs a tag that no other has.
fn all_differ(instances: &[Instance], tag: &Tag) -> bool
    ensures { IsTrue result
        ↔ All (λ i. (instance_view i).creation.tag ≢ text tag.now) instances.now }
{
    instances.iter().all(|instance| differs(instance, tag))
}

// Whether no instance has the tag.
fn is_free(instances: &[Instance], tag: &Tag) -> bool
    ensures { IsTrue result
        ↔ All (λ i. i.creation.tag ≢ text tag.now) (map instance_view instances.now) }
{
    all_differ(instances, tag)
}

// Whether the instance is open, before its deadline, and this is the member's next turn.
fn is_next_turn(now: u64, instance: &Instance, member: u8, turn: u8) -> bool
    requires { IsCheckedInstance (instance_view instance.now) }
    ensures { IsTrue result ↔ IsNextTurn now (instance_view instance.now) member turn }
{
    if instance.closed || now >= instance.creation.deadline || turn > MOST_TURNS {
        return false;
    }
    if member < 1 || usize::from(member) > instance.creation.members.len() {
        return false;
    }
    turn == turn_of(instance, member) + 1
}

// An event from a journal is tested just as one that a request makes.
fn can_bid(now: u64, instance: &Instance, member: u8, turn: u8, bid: &Bid) -> bool
    requires { IsCheckedInstance (instance_view instance.now) }
    ensures { IsTrue result
        ↔ IsNextTurn now (instance_view instance.now) member turn
        × IsCheckedBid (instance_view instance.now).creation.facts bid.now }
{
    is_next_turn(now, instance, member, turn) && check_bid(&instance.creation.facts, bid).is_ok()
}

// Only a bid that exists can be withdrawn.
fn can_withdraw(now: u64, instance: &Instance, member: u8, turn: u8) -> bool
    requires { IsCheckedInstance (instance_view instance.now) }
    ensures { IsTrue result
        ↔ IsNextTurn now (instance_view instance.now) member turn
        × IsSome (kept_bid (instance_view instance.now) member) }
{
    is_next_turn(now, instance, member, turn) && bid_of(instance, member).is_some()
}

// An instance is closed by its deadline, or by its organiser once every bid is there.
fn can_close(now: u64, instance: &Instance) -> bool
    ensures { IsTrue result
        ↔ ((instance_view instance.now).closed ≡ false)
        × (((instance_view instance.now).creation.deadline ≤ now)
        ⊎ All (λ bid. IsSome bid) (instance_view instance.now).bids) }
{
    if instance.closed {
        return false;
    }
    now >= instance.creation.deadline || instance.bids.iter().all(|bid| bid.is_some())
}

/// Whether an event may be applied. Its moment must not be below the greatest kept one, and
///
/// - a creation is checked, there are fewer than `MOST_INSTANCES` instances and none of them has its tag;
/// - a bid is checked and is the next turn, of at most `MOST_TURNS`, of a member of an instance that is there, open and before its deadline;
/// - a close is that of an instance that is there and open, at or after the deadline or with a bid of every member;
/// - a withdrawal is such a turn of a member who has a bid.
pub fn can_apply(host: &Host, event: &Event) -> bool
    ensures { IsTrue result ↔ CanApply host.now.content (event_view event.now) }
{
    match event {
        Event::Create { moment, creation } => {
            let instances = host.instances();
            *moment >= host.moment()
                && instances.len() < MOST_INSTANCES
                && creation.is_checked()
                && is_free(instances, &creation.tag)
        }
        Event::Bid {
            moment,
            id,
            member,
            turn,
            bid,
        } => match instance_at(host, *id) {
            Some(instance) => {
                *moment >= host.moment() && can_bid(*moment, instance, *member, *turn, bid)
            }
            None => false,
        },
        Event::Close { moment, id } => match instance_at(host, *id) {
            Some(instance) => *moment >= host.moment() && can_close(*moment, instance),
            None => false,
        },
        Event::Withdraw {
            moment,
            id,
            member,
            turn,
        } => match instance_at(host, *id) {
            Some(instance) => {
                *moment >= host.moment() && can_withdraw(*moment, instance, *member, *turn)
            }
            None => false,
        },
    }
}
