// Laws about the host of sealed bids as a machine that takes commands one by one: what stays sealed, where its events come from, what it publishes, whose a key is, and what counts as the same.
// Each is the contract of a function that does nothing.
ghost use Rattle.std.specs.Prelude.{◌≡◌, ◌↔◌, ◌+◌, ℕ, List, [], ◌∷◌, ◌++◌, Option, None, Some, IfSome, IsSome, Ok, true, max, All, length, replicate, false};
ghost use Rattle.bid_rules.specs.Facts.{IsCheckedBid};
ghost use Rattle.bid_rules.specs.declared.bids.Bid.{Bid};
ghost use Rattle.bid_rules.specs.declared.bids.Facts.{Facts};
ghost use Rattle.sealed_core.specs.Keys.{IsKeyDigit, first_holder, key_text};
ghost use Rattle.sealed_core.specs.Step.{CommandView, To, form_of, holder, is_over, may_ask, step};
ghost use Rattle.sealed_core.specs.declared.commands.Ask.{Ask};
ghost use Rattle.sealed_core.specs.declared.commands.Ask.TheVariants as asks;
ghost use Rattle.body_fields.specs.declared.bodies.BidBody.{BidBody};
ghost use Rattle.sealed_core.specs.declared.commands.What.{What};
ghost use Rattle.sealed_core.specs.declared.replies.Reply.TheVariants as replies;
ghost use Rattle.sealed_core.specs.Sameness.{same_bid, same_creation};
ghost use Rattle.body_fields.specs.Rules.{allowed_bid};
ghost use Rattle.sealed_core.specs.Host.{BidKept, CanApply, CreationView, EventView, HostView, apply, as_closed, Closed, InstanceView, instance_at, moment_of};
ghost use Rattle.sealed_core.specs.Origins.{ComesOf};
ghost use Rattle.sealed_core.specs.Runs.{AreChecked, CanApplyAll, HoldsLeast, host_of, kept, last};
ghost use Rattle.sealed_core.specs.Sealed.{Asked, Caller, IsLateClose, RunAlike, caller_number, empty, heard, host_after, is_closed, sealed_reply, view, views};
ghost use Rattle.sealed_core.specs.Veil.{LookAlike};

/// Bids are sealed until their instance is closed. Take two hosts that differ only in what people other than the caller have bid on the instance, and what
/// anyone has bid on other instances. Take a run from each, with steps that are equal pair by pair, except that a pair may be two such bids, by the same
/// member on the same instance at the same moment, both of which are kept. Then the caller hears the same of the instance in both, and their view of it is
/// the same, up to the step at which it is closed. The reply to a command is written from the caller's view, the command and the moment if the instance
/// isn't closed after the step. So at any two hosts, one command from two callers with equal views gets one reply if the instance isn't closed after the
/// step; and it is closed after the step at both or at neither.
pub fn sealing_law()
    ensures from_view { (h : HostView) (t id : ℕ) (key : Option (List ℕ)) (ask : Ask)
        → is_closed (host_after h t (To id key ask)) id ≡ false
        → (step h t (To id key ask)).reply
        ≡ sealed_reply (view h id (caller_number h id key)) t id key ask }
    ensures one_step { (g h : HostView) (t id : ℕ) (key : Option (List ℕ)) (ask : Ask)
        → view g id (caller_number g id key) ≡ view h id (caller_number h id key)
        → is_closed (host_after g t (To id key ask)) id ≡ false
        → (step g t (To id key ask)).reply ≡ (step h t (To id key ask)).reply }
    ensures closed_alike { (g h : HostView) (t id : ℕ) (key : Option (List ℕ)) (ask : Ask)
        → view g id (caller_number g id key) ≡ view h id (caller_number h id key)
        → is_closed (host_after g t (To id key ask)) id
        ≡ is_closed (host_after h t (To id key ask)) id }
    ensures heard { (g h : HostView) (id : ℕ) (caller : Caller) (run others : List Asked)
        → LookAlike id caller g h → RunAlike g h id caller run others
        → heard g id caller run ≡ heard h id caller others }
    ensures views { (g h : HostView) (id : ℕ) (caller : Caller) (run others : List Asked)
        → LookAlike id caller g h → RunAlike g h id caller run others
        → views g id caller run ≡ views h id caller others }
{}

/// A run from the empty host keeps events each of which may be applied in its turn, and its host is the one that they make. The host of a list of events
/// and one more is the host of the list after that event. The event of a step has the step's moment and comes from its command: a creation is the one that
/// was sent; a bid or a withdrawal is that of the member whose key was shown, with the turn and the bid that was sent; a close was asked for by the
/// organiser, or a caller asked something past the deadline. What a caller asks past the deadline has the Close as its event, and is answered as it would
/// be on the host after that event. A bid that may be applied is kept. The instance after its Close is the same one, closed; and a closed instance stays
/// closed.
pub fn machine_law()
    ensures accepted { (secret : List ℕ) (run : List Asked) → AreChecked run
        → CanApplyAll (empty secret) (kept (empty secret) run) }
    ensures host { (secret : List ℕ) (run : List Asked)
        → last (empty secret) run ≡ host_of secret (kept (empty secret) run) }
    ensures one_more { (secret : List ℕ) (events : List EventView) (e : EventView)
        → host_of secret (events ++ e ∷ []) ≡ apply (host_of secret events) e }
    ensures origin { (h : HostView) (t : ℕ) (command : CommandView)
        → IfSome (step h t command).event (λ e.
        (moment_of e ≡ max t h.moment) × ComesOf h command e) }
    ensures late { (h : HostView) (t id m : ℕ) (i : InstanceView) (key : List ℕ) (ask : Ask)
        → instance_at h id ≡ Some i → holder h.secret id i key ≡ Some m → may_ask m ask ≡ true
        → is_over (max t h.moment) i ≡ true
        → step h t (To id (Some key) ask)
        ≡ record {
          event = Some (Closed (max t h.moment) id);
          reply =
              (step (apply h (Closed (max t h.moment) id)) t (To id (Some key) ask)).reply;
        } }
    ensures kept { (h : HostView) (t id m turn : ℕ) (i : InstanceView) (key : List ℕ)
        (body : BidBody) (given : Bid) → instance_at h id ≡ Some i
        → holder h.secret id i key ≡ Some m → body.turn ≡ Some turn
        → form_of i.creation.facts body ≡ Some given
        → CanApply h (BidKept (max t h.moment) id m turn given)
        → step h t (To id (Some key) (asks.Bid (Ok body)))
        ≡ record
        { event = Some (BidKept (max t h.moment) id m turn given); reply = replies.Kept turn } }
    ensures closing { (h : HostView) (now id : ℕ) (i : InstanceView) → instance_at h id ≡ Some i
        → instance_at (apply h (Closed now id)) id ≡ Some (as_closed i) }
    ensures closed { (h : HostView) (id : ℕ) (e : EventView) → is_closed h id ≡ true
        → is_closed (apply h e) id ≡ true }
{}

/// What is published is what was asked for under a key, of an instance that is there. With it comes no event, or the Close, at that moment, of that
/// instance, which is open past its deadline; so the instance is closed after the step.
pub fn publication_law()
    ensures asked { (h : HostView) (t id : ℕ) (command : CommandView) (what : What)
        → (step h t command).reply ≡ replies.Publish id what
        → (key : List ℕ) × (command ≡ To id (Some key) (asks.Publish what)) }
    ensures stands { (h : HostView) (t id : ℕ) (command : CommandView) (what : What)
        → (step h t command).reply ≡ replies.Publish id what → IsSome (instance_at h id) }
    ensures event { (h : HostView) (t id : ℕ) (command : CommandView) (what : What)
        → (step h t command).reply ≡ replies.Publish id what
        → IsLateClose h t command (step h t command).event }
    ensures closed { (h : HostView) (t id : ℕ) (command : CommandView) (what : What)
        → (step h t command).reply ≡ replies.Publish id what
        → is_closed (host_after h t command) id ≡ true }
{}

/// A key has 64 lower-case hexadecimal digits. So 64 zero bytes are nobody's key in any instance.
pub fn key_law()
    ensures digits { (secret : List ℕ) (id member : ℕ)
        → All IsKeyDigit (key_text secret id member) }
    ensures length { (secret : List ℕ) (id member : ℕ) → length (key_text secret id member) ≡ 64 }
    ensures zeros { (secret : List ℕ) (id : ℕ) (i : InstanceView)
        → holder secret id i (replicate 64 0) ≡ None }
{}

/// What the tests of a step mean. The holder of a key is the least number, from 0 to the number of members, whose key it is; two creations, or two bids,
/// pass for equal exactly when they are; a bid is allowed exactly when it is checked.
pub fn sameness_law()
    ensures holder { (secret : List ℕ) (id count : ℕ) (key : List ℕ) (m : ℕ)
        → (first_holder secret id key (count + 1) 0 ≡ Some m) ↔ HoldsLeast secret id count key m }
    ensures creations { (a b : CreationView) → (same_creation a b ≡ true) ↔ (a ≡ b) }
    ensures bids { (a b : Bid) → (same_bid a b ≡ true) ↔ (a ≡ b) }
    ensures allowed { (facts : Facts) (bid : Bid) → (allowed_bid facts bid ≡ Some bid)
        ↔ IsCheckedBid facts bid }
{}
