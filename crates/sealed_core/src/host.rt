// The host as its kept events have made it: its instances, and how an event changes it.
ghost use Rattle.std.specs.Prelude.{◌≡◌, ◌≤◌, [], length, map, OnErr, OnOk, All};
ghost use Rattle.std.specs.Prelude.{◌+◌, ◌-◌, IfSome, IsSome, IsSomeAnd, replicate, false, ◌<◌, ◌⊎◌};
ghost use Rattle.bid_rules.specs.Facts.{IsCheckedBid};
ghost use Rattle.sealed_core.specs.declared.limits.TheConstants.{MOST_INSTANCES};
ghost use Rattle.bid_rules.specs.declared.limits.TheConstants.{MEMBER_ROOM};
ghost use Rattle.sealed_core.specs.Host.{CanApply, Created, HasRoom, IsCheckedCreation, IsNextTurn, IsCheckedInstance, apply, as_closed, change, creation_view, event_view, new_instance, instance_at, instance_view, with_turn};
ghost use Rattle.sealed_core.specs.Keyed.{AreKeyed, IsKeyed};

use crate::keys::keys_of;
use crate::limits::{KEY_ROOM, MOST_INSTANCES};
use crate::{Event, Key};
use arrayvec::ArrayVec;
use bid_rules::Bid;
use bid_rules::limits::MEMBER_ROOM;
use body_fields::Creation;
use split_base::NoMemory;
use std::alloc::Global;
use std::marker::Model;

/// An instance: what was created, the keys of those who take part, what the members have bid, and whether bidding is over.
///
/// It has no `Debug`, so that keys and sealed bids are never printed by mistake.
#[derive(Drop)]
pub struct Instance {
    pub creation: Creation,
    // The organiser's key, and then each member's, which the secret gives. They are kept so that the key of a request is only compared.
    pub(crate) keys: ArrayVec<Key, KEY_ROOM>,
    /// The kept turn of each member, 0 before the first.
    pub turns: ArrayVec<u8, MEMBER_ROOM>,
    /// The kept bid of each member, or none.
    pub bids: ArrayVec<Option<Bid>, MEMBER_ROOM>,
    pub closed: bool,
}

/// The instances that the kept events have made.
#[derive(Drop)]
pub struct Host {
    secret: [u8; 32],
    moment: u64,
    instances: Vec<Instance>,
}

impl Model for Host {
    ghost use Rattle.std.specs.Prelude.{◌≤◌, ◌-◌, map, length, All, vec_capacity, vec_len};
    ghost use Rattle.sealed_core.specs.Host.{HostView, Holding, AreCheckedInstances, instance_view, IsCheckedInstance};
    ghost use Rattle.sealed_core.specs.Keyed.{AreKeyed};

    ghost Value = { Holding };

    ghost view = { λ h. record {
      content = record { secret = h.secret; moment = h.moment; instances = map instance_view h.instances.items };
      spare = vec_capacity h.instances - vec_len h.instances;
    } };

    ghost invariant = { λ h. AreCheckedInstances (map instance_view h.instances.items)
        × AreKeyed h.secret 1 h.instances.items };
}

impl Host {
    /// The empty host with this secret.
    pub fn new(alloc: Global, secret: [u8; 32]) -> Host
        ensures { result.content ≡ record { secret = secret; moment = 0; instances = [] } }
    {
        Host {
            secret,
            moment: 0,
            instances: Vec::new(alloc),
        }
    }

    /// The secret that the keys are made from.
    pub fn secret(&self) -> &[u8; 32]
        ensures { result.now ≡ self.now.content.secret }
    {
        &self.secret
    }

    /// The greatest moment of a kept event, 0 before the first.
    pub fn moment(&self) -> u64
        ensures { result ≡ self.now.content.moment }
    {
        self.moment
    }

    /// The instances in order of id.
    pub fn instances(&self) -> &[Instance]
        ensures views { map instance_view result.now ≡ self.now.content.instances }
        ensures each { All (λ i. IsCheckedInstance (instance_view i)) result.now }
        ensures sound { All IsCheckedInstance self.now.content.instances }
        ensures few { length self.now.content.instances ≤ MOST_INSTANCES }
    {
        self.keyed_instances()
    }

    // The instances in order of id, each with its keys.
    pub(crate) fn keyed_instances(&self) -> &[Instance]
        ensures views { map instance_view result.now ≡ self.now.content.instances }
        ensures each { All (λ i. IsCheckedInstance (instance_view i)) result.now }
        ensures sound { All IsCheckedInstance self.now.content.instances }
        ensures few { length self.now.content.instances ≤ MOST_INSTANCES }
        ensures keyed { AreKeyed self.now.content.secret 1 result.now }
    {
        &self.instances
    }

    /// Turns it into the empty host with this secret, in the memory that it already has.
    pub fn clear(&mut self, secret: [u8; 32])
        ensures content { self.new.content
            ≡ record { secret = secret; moment = 0; instances = [] } }
        ensures spare { self.new.spare ≡ self.old.spare + length self.old.content.instances }
        ensures room { HasRoom self.old → HasRoom self.new }
    {
        self.secret = secret;
        self.moment = 0;
        self.instances.clear();
    }

    // A host that has room for every instance from the start never lacks memory when it keeps an event.
    fn reserve_all(&mut self) -> Result<(), NoMemory>
        ensures content { self.new.content ≡ self.old.content }
        ensures room { OnOk result (HasRoom self.new) }
    {
        match self.instances.reserve(MOST_INSTANCES + 1) {
            Ok(()) => Ok(()),
            Err(_) => Err(NoMemory),
        }
    }

    // A host without room for all instances asks for the room of the next one before it answers.
    fn reserve_one(&mut self) -> Result<(), NoMemory>
        ensures content { self.new.content ≡ self.old.content }
        ensures room { OnOk result (1 ≤ self.new.spare) }
        ensures kept { self.old.spare ≤ self.new.spare }
        ensures full { OnErr result (self.old.spare ≡ 0) }
    {
        match self.instances.reserve(1) {
            Ok(()) => Ok(()),
            Err(_) => Err(NoMemory),
        }
    }

    // Adds an instance in which nobody has bid.
    fn create(&mut self, moment: u64, creation: Creation)
        requires few { length self.old.content.instances < MOST_INSTANCES }
        requires creation { IsCheckedCreation (creation_view creation) }
        requires room { 1 ≤ self.old.spare }
        ensures content { self.new.content
            ≡ apply self.old.content (Created moment (creation_view creation)) }
        ensures spare { self.new.spare + 1 ≡ self.old.spare }
    {
        self.moment = moment;
        let id = self.instances.len() as u32 + 1;
        self.instances
            .push_reserved(fresh(&self.secret, id, creation));
    }

    // Keeps a member's turn, and the bid that they now have, if any.
    fn keep_turn(&mut self, moment: u64, id: u32, member: u8, turn: u8, bid: Option<Bid>)
        requires { IsSomeAnd (instance_at self.old.content id) (λ i.
            IsNextTurn moment i member turn × IfSome bid (IsCheckedBid i.creation.facts)) }
        ensures content { self.new.content
            ≡ record {
              secret = self.old.content.secret;
              moment = moment;
              instances = change
                  (with_turn member turn bid) self.old.content.instances id;
            } }
        ensures spare { self.new.spare ≡ self.old.spare }
    {
        self.moment = moment;
        let instance = &mut self.instances[id as usize - 1];
        set_turn(instance, member, turn, bid);
    }

    // Closes an instance.
    fn close(&mut self, moment: u64, id: u32)
        requires { IsSome (instance_at self.old.content id) }
        ensures content { self.new.content
            ≡ record {
              secret = self.old.content.secret;
              moment = moment;
              instances = change
                  as_closed self.old.content.instances id;
            } }
        ensures spare { self.new.spare ≡ self.old.spare }
    {
        self.moment = moment;
        self.instances[id as usize - 1].closed = true;
    }
}

// Nobody has bid yet, so the next turn of each member is the first.
fn no_turns(members: usize) -> ArrayVec<u8, MEMBER_ROOM>
    requires { members ≤ MEMBER_ROOM }
    ensures { result.items ≡ replicate members 0 }
{
    let mut turns = ArrayVec::new();
    for _member in 0..members {
        turns.push(0);
    }
    turns
}

// An instance begins without bids.
fn no_bids(members: usize) -> ArrayVec<Option<Bid>, MEMBER_ROOM>
    requires { members ≤ MEMBER_ROOM }
    ensures { result.items ≡ replicate members None }
{
    let mut bids = ArrayVec::new();
    for _member in 0..members {
        bids.push(None);
    }
    bids
}

// An instance in which nobody has bid.
fn fresh(secret: &[u8; 32], id: u32, creation: Creation) -> Instance
    ensures view { instance_view result ≡ new_instance (creation_view creation) }
    ensures keyed { IsKeyed secret.now id result }
{
    let keys = keys_of(secret, id, creation.members.len() as u8);
    let turns = no_turns(creation.members.len());
    let bids = no_bids(creation.members.len());
    Instance {
        creation,
        keys,
        turns,
        bids,
        closed: false,
    }
}

// Sets a member's turn and bid.
fn set_turn(instance: &mut Instance, member: u8, turn: u8, bid: Option<Bid>)
    requires least { 1 ≤ member }
    requires turns { member ≤ length instance.old.turns.items }
    requires bids { member ≤ length instance.old.bids.items }
    ensures view { instance_view instance.new
        ≡ with_turn member turn bid (instance_view instance.old) }
    ensures creation { instance.new.creation ≡ instance.old.creation }
    ensures keys { instance.new.keys.items ≡ instance.old.keys.items }
{
    let place = usize::from(member) - 1;
    instance.turns[place] = turn;
    instance.bids[place] = bid;
}

/// Makes one spare place, so that `apply` can take it.
pub fn reserve(host: &mut Host) -> Result<(), NoMemory>
    ensures content { host.new.content ≡ host.old.content }
    ensures room { OnOk result (1 ≤ host.new.spare) }
    ensures kept { host.old.spare ≤ host.new.spare }
    ensures all { HasRoom host.old → HasRoom host.new }
    ensures full { OnErr result (host.old.spare ≡ 0) }
{
    host.reserve_one()
}

/// Makes spare places for all the instances that a host may have, and one more, so that `apply` never lacks one.
pub fn reserve_all(host: &mut Host) -> Result<(), NoMemory>
    ensures content { host.new.content ≡ host.old.content }
    ensures room { OnOk result (HasRoom host.new) }
{
    host.reserve_all()
}

/// Applies an event that may be applied, in memory that `reserve` took. It takes no more memory.
pub fn apply(host: &mut Host, event: Event)
    requires can { CanApply host.old.content (event_view event) }
    requires room { 1 ≤ host.old.spare }
    ensures content { host.new.content ≡ apply host.old.content (event_view event) }
    ensures spare { host.new.spare + length host.new.content.instances
        ≡ host.old.spare + length host.old.content.instances }
    ensures room { HasRoom host.old → HasRoom host.new }
{
    match event {
        Event::Create { moment, creation } => host.create(moment, creation),
        Event::Bid {
            moment,
            id,
            member,
            turn,
            bid,
        } => host.keep_turn(moment, id, member, turn, Some(bid)),
        Event::Close { moment, id } => host.close(moment, id),
        Event::Withdraw {
            moment,
            id,
            member,
            turn,
        } => host.keep_turn(moment, id, member, turn, None),
    }
}
