// Laws that hold for all replies. Each is the contract of a function that does nothing.
ghost use Rattle.std.specs.Prelude.{◌≡◌, ℕ, List, Option, IsSome, IsTrue, false};
ghost use Rattle.bid_rules.specs.Facts.{IsValidCase};
ghost use Rattle.bid_rules.specs.declared.cases.Case.{Case};
ghost use Rattle.certificates.specs.Division.{IsDivisionOf};
ghost use Rattle.certificates.specs.declared.division.Division.{Division};
ghost use Rattle.sealed_core.specs.declared.commands.Ask.{Ask};
ghost use Rattle.sealed_core.specs.declared.replies.Refusal.{Refusal};
ghost use Rattle.sealed_core.specs.declared.replies.Reply.{Reply};
ghost use Rattle.sealed_core.specs.Host.{HostView};
ghost use Rattle.sealed_core.specs.Sealed.{Asked, Caller, RunAlike, caller_number, host_after, is_closed, view};
ghost use Rattle.sealed_core.specs.Veil.{LookAlike};
ghost use Rattle.sealed_core.specs.Step.{CommandView, To, step};
ghost use Rattle.reply_texts.specs.Divisions.{IsDivisionText};
ghost use Rattle.reply_texts.specs.Refusals.{is_refusal_status, refusal_row, service_row};
ghost use Rattle.reply_texts.specs.Replies.{text_of};
ghost use Rattle.reply_texts.specs.Sealing.{ShowSame, sealed_told, told, told_all};
ghost use Rattle.reply_texts.specs.Telling.{Tells, is_publication};
ghost use Rattle.reply_texts.specs.declared.refusals.ServiceRefusal.{ServiceRefusal};

use certificates::division_law;
use sealed_core::{publication_law, sealing_law};

/// Bids are sealed in what is sent, too: if an instance is not closed after a command on it, the HTTP status and the text of the reply are
/// written from what the caller may know of it, the command and the moment. So at two hosts one command from callers with equal views gets
/// one status and one text; and in two runs alike (`sealing_law` of `sealed_core`) a caller is told the same, up to the step at which the
/// instance is closed.
pub fn text_sealing_law()
    ensures from_view { (h : HostView) (t id : ℕ) (key : Option (List ℕ)) (ask : Ask)
        → is_closed (host_after h t (To id key ask)) id ≡ false
        → told h t (To id key ask) ≡ sealed_told (view h id (caller_number h id key)) t id key ask }
    ensures one_step { (g h : HostView) (t id : ℕ) (key : Option (List ℕ)) (ask : Ask)
        → view g id (caller_number g id key) ≡ view h id (caller_number h id key)
        → is_closed (host_after g t (To id key ask)) id ≡ false
        → told g t (To id key ask) ≡ told h t (To id key ask) }
    ensures runs { (g h : HostView) (id : ℕ) (caller : Caller) (run others : List Asked)
        → LookAlike id caller g h → RunAlike g h id caller run others
        → told_all g id caller run ≡ told_all h id caller others }
{
    sealing_law();
}

/// The text of a reply is written from the reply, and from no more of the host than it names. A status shows the public facts. So it is
/// the same whatever turns and bids members have kept, where the same members have a bid. An own bid shows that member's turn and bid
/// alone. A creation shows the keys that the secret gives. No other text shows anything of the host, so only that of a creation shows a
/// key, and none shows a tag.
pub fn shown_law()
    ensures { (g h : HostView) (r : Reply) → ShowSame g h r → text_of g r ≡ text_of h r }
{}

/// What the reply of a step names is there before the event, except for a new instance. So each reply has a text over the host after
/// the event, except for a publication, whose text is made of a division.
pub fn telling_law()
    ensures tells { (h : HostView) (t : ℕ) (command : CommandView)
        → Tells h (step h t command).event (step h t command).reply }
    ensures text { (h : HostView) (t : ℕ) (command : CommandView)
        → is_publication (step h t command).reply ≡ false
        → IsSome (text_of (host_after h t command) (step h t command).reply) }
{
    publication_law();
}

/// Each refusal has one of the ten statuses of refusals, none of which is that of a reply that grants what was asked.
pub fn refusal_status_law()
    ensures refusal { (refusal : Refusal) → IsTrue (is_refusal_status (refusal_row refusal).0) }
    ensures service { (refusal : ServiceRefusal)
        → IsTrue (is_refusal_status (service_row refusal).status) }
{}

/// A case has one text of its division.
pub fn division_text_law()
    ensures { (case : Case) (division other : Division) (text others : List ℕ) → IsValidCase case
        → IsDivisionOf case division → IsDivisionOf case other → IsDivisionText case division text
        → IsDivisionText case other others → text ≡ others }
{
    division_law();
}
