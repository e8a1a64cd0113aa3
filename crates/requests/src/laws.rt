// Laws that hold for the reply to a request, whatever its command. Each is the contract of a function that does nothing.
ghost use Rattle.std.specs.Prelude.{◌≡◌, ℕ, List, Option, false};
ghost use Rattle.reply_texts.specs.Contents.{ContentView, told_as};
ghost use Rattle.reply_texts.specs.Sealing.{sealed_told};
ghost use Rattle.requests.specs.Replies.{Replies};
ghost use Rattle.requests.specs.Sent.{status_and_text};
ghost use Rattle.sealed_core.specs.Host.{HostView};
ghost use Rattle.sealed_core.specs.Sealed.{caller_number, host_after, is_closed, view};
ghost use Rattle.sealed_core.specs.Step.{CommandView, To};
ghost use Rattle.sealed_core.specs.declared.commands.Ask.{Ask};

use publications::publication_status_law;
use reply_texts::text_sealing_law;
use sealed_core::{publication_law, sealing_law};

/// Bids are sealed in what is sent: where an instance isn't closed after a command on it, the status and the text of the reply are written
/// from what the caller may know of it, the command and the moment. So if callers at two hosts have equal views, the same command gets the
/// same status and the same text.
pub fn sent_sealing_law()
    ensures from_view { (h : HostView) (t id : ℕ) (key : Option (List ℕ)) (ask : Ask)
        (told : ContentView) → is_closed (host_after h t (To id key ask)) id ≡ false
        → Replies h t (To id key ask) told
        → status_and_text told ≡ sealed_told (view h id (caller_number h id key)) t id key ask }
    ensures one_step { (g h : HostView) (t id : ℕ) (key : Option (List ℕ)) (ask : Ask)
        (told other : ContentView)
        → view g id (caller_number g id key) ≡ view h id (caller_number h id key)
        → is_closed (host_after g t (To id key ask)) id ≡ false → Replies g t (To id key ask) told
        → Replies h t (To id key ask) other → status_and_text told ≡ status_and_text other }
{
    publication_law();
    sealing_law();
    text_sealing_law();
}

/// What is told in reply to a step is a text with its status, and nothing besides: no methods, and not that memory ran out.
pub fn step_reply_law()
    ensures { (h : HostView) (t : ℕ) (command : CommandView) (told : ContentView)
        → Replies h t command told → told ≡ told_as told.status told.content_type told.text }
{
    publication_status_law();
}
