// The greatest length of a reply's text, and the law that no reply is longer.
ghost use Rattle.std.specs.Prelude.{◌≡◌, ℕ, ◌≤◌, List, length, Some};
ghost use Rattle.sealed_core.specs.Host.{AreCheckedInstances, HostView};
ghost use Rattle.sealed_core.specs.Sealed.{with_event};
ghost use Rattle.sealed_core.specs.Step.{Answer};
ghost use Rattle.reply_texts.specs.Replies.{text_of};
ghost use Rattle.reply_texts.specs.Telling.{IsAnswered};
ghost use Rattle.reply_texts.specs.declared.sizes.TheConstants.{REPLY_MOST};

use sealed_core::{key_law, machine_law};

/// The most bytes of the text of a reply that isn't a publication.
pub const REPLY_MOST: usize = 4_096;

/// No host answers a reply with a longer text. A publication has none here: its text is made of a division.
pub fn reply_size_law()
    ensures { (h : HostView) (a : Answer) (text : List ℕ) → AreCheckedInstances h.instances
        → IsAnswered h a → text_of (with_event h a.event) a.reply ≡ Some text
        → length text ≤ REPLY_MOST }
{
    key_law();
    machine_law();
}
