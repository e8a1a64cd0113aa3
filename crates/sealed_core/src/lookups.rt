// Looks up what a host knows about an instance, by its id, its tag or the key that is shown.
ghost use Rattle.std.specs.Prelude.{◌≡◌, ◌≤◌, ◌+◌, length, map, is_none, is_some, MatchOption, MatchResult, IfOk, IfSome, Some, None, Ok, Err};
ghost use Rattle.std.specs.List.{list_all};
ghost use Rattle.sealed_core.specs.declared.limits.TheConstants.{MOST_INSTANCES, MOST_TURNS};
ghost use Rattle.sealed_core.specs.Keyed.{IsKeyed};
ghost use Rattle.sealed_core.specs.Host.{IsCheckedInstance, creation_view, instance_at, instance_view, kept_bid, kept_turn, text};
ghost use Rattle.sealed_core.specs.Step.{caller_of, is_over, tagged_from};

use crate::keys::holder_of;
use crate::{Host, Instance, Key, Refusal};
use bid_rules::Bid;
use body_fields::{Creation, Tag};

/// The instance with this id, from 1, in the order of creation.
pub fn instance_at<'a>(host: &'a Host, id: u32) -> Option<&'a Instance>
    ensures found { MatchOption result (instance_at host.now.content id ≡ None)
        (λ i. instance_at host.now.content id ≡ Some (instance_view i.now)) }
    ensures sound { IfSome result (λ i. IsCheckedInstance (instance_view i.now)) }
{
    keyed_instance_at(host, id)
}

// The same, with its keys.
fn keyed_instance_at<'a>(host: &'a Host, id: u32) -> Option<&'a Instance>
    ensures found { MatchOption result (instance_at host.now.content id ≡ None)
        (λ i. instance_at host.now.content id ≡ Some (instance_view i.now)) }
    ensures sound { IfSome result (λ i. IsCheckedInstance (instance_view i.now)) }
    ensures keyed { IfSome result (λ i. IsKeyed host.now.content.secret id i.now) }
{
    if id == 0 {
        return None;
    }
    let instance = host.keyed_instances().get(id as usize - 1)?;
    Some(instance)
}

// The instance that is asked about, and the caller's number in it: 0 for the organiser, otherwise a
// member.
pub(crate) fn caller<'a>(
    host: &'a Host,
    id: u32,
    key: Option<Key>,
) -> Result<(&'a Instance, u8), Refusal>
    ensures found { MatchResult result
        (λ p. caller_of host.now.content id key ≡ Ok (instance_view p.0.now, p.1))
        (λ r. caller_of host.now.content id key ≡ Err r) }
    ensures sound { IfOk result (λ p. IsCheckedInstance (instance_view p.0.now)) }
    ensures member { IfOk result (λ p. p.1 ≤ length p.0.now.creation.members.items) }
{
    let Some(instance) = keyed_instance_at(host, id) else {
        return Err(Refusal::NoInstance);
    };
    let Some(key) = key else {
        return Err(Refusal::NoKey);
    };
    match holder_of(instance.keys.as_slice(), &key) {
        Some(member) => Ok((instance, member)),
        None => Err(Refusal::WrongKey),
    }
}

// Whether the deadline has passed and the instance isn't closed.
pub(crate) fn is_over(now: u64, instance: &Instance) -> bool
    ensures { result ≡ is_over now (instance_view instance.now) }
{
    !instance.closed && instance.creation.deadline <= now
}

// Whether every bid is there, so that the instance can be closed before its deadline.
fn has_all(bids: &[Option<Bid>]) -> bool
    ensures { result ≡ list_all is_some bids.now }
{
    bids.iter().all(|bid| bid.is_some())
}

// Whether every member has a bid.
pub(crate) fn all_bid(instance: &Instance) -> bool
    ensures { result ≡ list_all (λ has. has) (map is_some (instance_view instance.now).bids) }
{
    has_all(instance.bids.as_slice())
}

/// The kept turn of a member.
pub fn turn_of(instance: &Instance, member: u8) -> u8
    requires least { 1 ≤ member }
    requires most { member ≤ length instance.now.creation.members.items }
    requires sound { IsCheckedInstance (instance_view instance.now) }
    ensures value { result ≡ kept_turn (instance_view instance.now) member }
    ensures used { result ≤ MOST_TURNS }
{
    instance.turns[usize::from(member) - 1]
}

/// The kept bid of a member.
pub fn bid_of(instance: &Instance, member: u8) -> &Option<Bid>
    requires least { 1 ≤ member }
    requires most { member ≤ length instance.now.creation.members.items }
    requires sound { IsCheckedInstance (instance_view instance.now) }
    ensures { result.now ≡ kept_bid (instance_view instance.now) member }
{
    &instance.bids[usize::from(member) - 1]
}

// The first instance with this tag, and its id.
pub(crate) fn tagged<'a>(instances: &'a [Instance], tag: &Tag) -> Option<(u32, &'a Creation)>
    requires { length instances.now ≤ MOST_INSTANCES }
    ensures { MatchOption result
        (tagged_from 1 (map instance_view instances.now) (text tag.now) ≡ None)
        (λ p.
        tagged_from 1 (map instance_view instances.now) (text tag.now)
        ≡ Some (p.0, creation_view p.1.now)) }
{
    for place in 0..instances.len() {
        let instance = &instances[place];
        if instance.creation.tag.as_str() == tag.as_str() {
            return Some((place as u32 + 1, &instance.creation));
        }
    }
    None
}
