// Laws about how messages are cut, about heads and about replies, which callers may rely on.
ghost use Rattle.std.specs.Prelude.{◌≡◌, ◌≤◌, ◌++◌, ℕ, List, Some, Option, IsSome, IsTrue};
ghost use Rattle.http.specs.StatusCode.{reason_phrase};
ghost use Rattle.httparse.specs.Grammar.{RequestHead, print_request};
ghost use Rattle.split_http.specs.declared.bodies.BodyTurn.{BodyTurn};
ghost use Rattle.split_http.specs.declared.head.Head.{Head};
ghost use Rattle.split_http.specs.declared.heads.HeadTurn.{HeadTurn};
ghost use Rattle.split_http.specs.declared.replies.HttpReply.{HttpReply};
ghost use Rattle.split_http.specs.declared.limits.TheConstants.{BAD_HOST, BODY_TOO_LARGE};
ghost use Rattle.split_http.specs.Heads.{IsHead, IsHeadOf, HeadText};
ghost use Rattle.split_http.specs.Replies.{IsReply, is_host_status};
ghost use Rattle.split_http.specs.Turns.{HeadSays, BodySays, IsHeadDone, IsBodyDone, IsSameBody};

/// Heads are unique: if the same bytes begin with two heads, the heads are equal, and the same
/// bytes follow.
pub fn head_law()
    ensures one { (a b : RequestHead) (r q : List ℕ) → IsHead a → IsHead b
        → print_request a ++ r ≡ print_request b ++ q → (a ≡ b) × (r ≡ q) }
{}

/// What `next_head` and `next_body` answer and leave depends only on the bytes: over the same
/// bytes two answers are equal if no call failed and memory sufficed, and so is what is left.
pub fn cut_law()
    ensures head { (all rest other : List ℕ) (t u : HeadTurn) → HeadSays (Some all) (Some rest) t
        → HeadSays (Some all) (Some other) u → IsHeadDone t → IsHeadDone u
        → (t ≡ u) × (rest ≡ other) }
    ensures body { (all rest other : List ℕ) (before now then : Option (List ℕ)) (head : Head)
        (t u : BodyTurn) → BodySays (Some all) (Some rest) before now head t
        → BodySays (Some all) (Some other) before then head u → IsBodyDone t → IsBodyDone u
        → IsSameBody t u × (rest ≡ other) }
{}

/// The number of a head's refusal is one of the five, from `BAD_HOST` to `BODY_TOO_LARGE`.
pub fn refusal_law()
    ensures range { (text : HeadText) (head : Head) (row : ℕ) → IsHeadOf text head
        → head.refused ≡ Some row → (BAD_HOST ≤ row) × (row ≤ BODY_TOO_LARGE) }
{}

/// Each status with which a host replies has a phrase, as `write_reply` asks.
pub fn phrase_law()
    ensures some { (status : ℕ) → IsTrue (is_host_status status) → IsSome (reason_phrase status) }
{}

/// A reply has one text.
pub fn reply_law()
    ensures one { (reply : HttpReply) (a b : List ℕ) → IsReply reply a → IsReply reply b → a ≡ b }
{}
