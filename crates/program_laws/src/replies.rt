// The bytes that a host writes are a reply that a fetch takes.
ghost use Rattle.std.specs.Prelude.{ℕ, ◌≤◌, List, ◌++◌, length};
ghost use Rattle.bid_rules.specs.declared.cases.Case.{Case};
ghost use Rattle.bid_rules.specs.Facts.{IsValidCase};
ghost use Rattle.cert_reader.specs.declared.limits.TheConstants.{MOST_BYTES};
ghost use Rattle.certificates.specs.Canonical.{IsCanonical};
ghost use Rattle.serving.specs.Dues.{AreBytes, DueView};
ghost use Rattle.remote_check.specs.Fetched.{IsReplyOf};
ghost use Rattle.split_http.specs.declared.replies.HttpReply.{HttpReply};
ghost use Rattle.split_http.specs.Replies.{IsReply};
ghost use Rattle.program_laws.specs.Brought.{Brings, IsToBring};
ghost use Rattle.program_laws.specs.Certificates.{IsYes, IsYesOnly};

use certificates::certificate_law;
use remote_check::fetched_law;

/// The bytes that a host writes for a reply of status 200 with a body of at most `MOST_BYTES` bytes and no `Allow` are a head that a fetch takes, and then that
/// body, whatever its type and date are, whether the connection is closed, and whatever follows. If the body is the canonical certificate of a valid
/// case, the answer of a fetch is yes, unless a call on its link failed.
pub fn host_reply_law()
    ensures reply { (reply : HttpReply) (bytes rest text : List ℕ) → Brings reply text
        → IsReply reply bytes → length text ≤ MOST_BYTES → IsReplyOf (bytes ++ rest) text }
    ensures due { (due : DueView) (bytes rest text : List ℕ) → IsToBring due text
        → AreBytes due bytes → length text ≤ MOST_BYTES → IsReplyOf (bytes ++ rest) text }
    ensures yes { (case : Case) (due : DueView) (bytes rest text : List ℕ) → IsValidCase case
        → IsCanonical case text → IsToBring due text → AreBytes due bytes → IsYes (bytes ++ rest) }
    ensures only { (case : Case) (due : DueView) (bytes rest text : List ℕ) → IsValidCase case
        → IsCanonical case text → IsToBring due text → AreBytes due bytes
        → IsYesOnly (bytes ++ rest) }
{
    certificate_law();
    fetched_law();
}
