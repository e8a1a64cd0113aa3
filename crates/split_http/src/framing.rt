// HTTP/1.1 without a link: where a request, with its head and its body, ends at the front of some bytes.
ghost use Rattle.std.specs.Prelude.{◌≡◌, ◌≤◌, ◌+◌, ℕ, Bool, List, Some, length, All};
ghost use Rattle.httparse.specs.Spans.{IsHeaderWithin, IsWithin, span_bytes};
ghost use Rattle.http_heads.specs.Fields.{fields_at};
ghost use Rattle.split_http.specs.declared.head.Head.{Head};
ghost use Rattle.split_http.specs.declared.heads.HeadTurn.{HeadTurn};
ghost use Rattle.split_http.specs.Heads.{IsFoundAt, length_of};
ghost use Rattle.split_http.specs.Framings.{IsRequest, FramingSays};
ghost use Rattle.split_http.specs.Turns.{HeadSays};

use crate::fields::stated_length;
use crate::head::{body_length, expects, read_verb, refusal};
use crate::request_heads::RequestHeads;
use http_heads::{Look, MAX_HEAD, ROOM, find_head};
use httparse::spans::{EMPTY_HEADER_SPAN, HeaderSpan, RequestSpans};

/// What is at the front of the bytes of a client.
#[derive(Clone, Copy, Debug, PartialEq, Eq)]
pub enum Framing {
    /// No head, and the parser asks for more bytes.
    Open,
    /// No head, and none will come there, whatever follows.
    NoHead,
    /// A head, with the body that it tells or some of it.
    Request {
        /// How many bytes head and body have together. A head that is refused has no body.
        bytes: usize,
        /// Whether an interim reply is due before the body.
        expects: bool,
    },
}

/// Where the request at the front of these bytes ends, by the rule by which `next_head` and `next_body` read it. So a caller that has the
/// bytes of a client can tell when its request is whole, before a link reads any of them. Nothing is kept, and no memory is taken.
///
/// - `Request` is returned exactly when a head is at the front, as `next_head` finds it.
/// - `NoHead` comes only if none is there, whatever follows; so as soon as `MAX_HEAD` bytes hold none.
/// - `Open` comes only for fewer bytes than these, and only while the parser asks for more of them.
pub fn framing_of(bytes: &[u8]) -> Framing
    ensures { FramingSays bytes.now result }
{
    let front = &bytes[..bytes.len().min(MAX_HEAD)];
    let mut fields = [EMPTY_HEADER_SPAN; ROOM];
    match find_head::<RequestHeads>(front, &mut fields) {
        Look::Found(spans) => request_at(front, &fields, &spans),
        Look::Never => Framing::NoHead,
        Look::NotYet => {
            if bytes.len() < MAX_HEAD {
                Framing::Open
            } else {
                Framing::NoHead
            }
        }
    }
}

/// One rule: where bytes begin with a request, `next_head` takes its head. What the head says of the body's length and of the interim reply is
/// what `framing_of` says.
pub fn framing_law()
    ensures { (bytes rest : List ℕ) (bound : ℕ) (expects : Bool) (head : Head)
        → FramingSays bytes (Framing.Request bound expects)
        → HeadSays (Some bytes) (Some rest) (HeadTurn.Head head)
        → (bound + length rest ≡ length bytes + head.length) × (head.expects ≡ expects) }
{}

// The request whose head was found.
fn request_at(bytes: &[u8], fields: &[HeaderSpan; ROOM], spans: &RequestSpans) -> Framing
    requires found { IsFoundAt bytes.now fields.now spans.now }
    requires short { length bytes.now ≤ MAX_HEAD }
    ensures { IsRequest bytes.now result }
{
    let fields = &fields[..spans.headers];
    let length = due_length(bytes, fields, spans);
    Framing::Request {
        bytes: spans.len + length as usize,
        expects: expects(bytes, fields, spans.version, length),
    }
}

// The length of the body after the head at these spans.
fn due_length(bytes: &[u8], fields: &[HeaderSpan], spans: &RequestSpans) -> u32
    requires fields { All (IsHeaderWithin (length bytes.now)) fields.now }
    requires method { IsWithin (length bytes.now) spans.now.method }
    ensures { result ≡ length_of record {
      method = span_bytes bytes.now spans.now.method;
      target = span_bytes bytes.now spans.now.path;
      minor = spans.now.version;
      fields = fields_at bytes.now fields.now;
    } }
{
    let verb = read_verb(spans.method.of(bytes));
    let refused = refusal(bytes, fields, verb, spans.version);
    body_length(refused, stated_length(bytes, fields))
}
