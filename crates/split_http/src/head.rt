// What the head of a request says.
ghost use Rattle.std.specs.Prelude.{◌≡◌, All, length, IfOk};
ghost use Rattle.httparse.specs.Spans.{IsHeaderWithin, IsWithin, span_bytes};
ghost use Rattle.http_heads.specs.Fields.{fields_at};
ghost use Rattle.split_http.specs.Heads.{IsHeadOf, verb_of, key_from, key_of, has_bad_host, stated_by, first_refusal, length_by, expects_by, closes_by};

use crate::PathText;
use crate::fields::{Stated, any_closes, any_named, stated_length};
use crate::limits::{BAD_HOST, BAD_LENGTH, BODY_TOO_LARGE, FRAMING, LENGTH_MISSING, MAX_BODY};
use crate::paths::target_path;
use http_heads::{count_named, named_value};
use httparse::spans::{HeaderSpan, RequestSpans};
use split_base::NoMemory;
use std::alloc::Global;

/// The method of a request.
#[derive(Clone, Copy, Debug, PartialEq, Eq)]
pub enum Verb {
    /// GET.
    Get,
    /// HEAD.
    Head,
    /// POST.
    Post,
    /// Any other.
    Other,
}

/// What the head of a request says.
#[derive(Debug, Drop)]
pub struct Head {
    /// The method.
    pub verb: Verb,
    /// The path of the target; `None` exactly when `http` refuses the target or it has no path.
    pub path: Option<PathText>,
    /// The value of the first field `x-key`; 64 zero bytes, which are nobody's key, if it has another
    /// length. `None` exactly when there is no such field.
    pub key: Option<[u8; 64]>,
    /// The first of the five refusals of a head, in the order of their numbers: `BAD_HOST`,
    /// `FRAMING`, `BAD_LENGTH`, `LENGTH_MISSING`, `BODY_TOO_LARGE`.
    pub refused: Option<u8>,
    /// The body's length; 0 if there is no body or the head is refused.
    pub length: u32,
    /// Whether an interim reply is due before the body.
    pub expects: bool,
    /// Whether the connection is to be closed after the reply: HTTP/1.0, or `close` in
    /// Connection.
    pub closes: bool,
}

// A method that no route has is still a good request: it's answered by 405, so it isn't refused here.
pub(crate) fn read_verb(method: &[u8]) -> Verb
    ensures { result ≡ verb_of method.now }
{
    if method == b"GET".as_slice() {
        return Verb::Get;
    }
    if method == b"HEAD".as_slice() {
        return Verb::Head;
    }
    if method == b"POST".as_slice() {
        return Verb::Post;
    }
    Verb::Other
}

// HTTP/1.1 asks for just one `Host`, and HTTP/1.0 allows none (RFC 9112, section 3.2).
fn bad_host(minor: u8, hosts: usize) -> bool
    ensures { result ≡ has_bad_host minor hosts }
{
    if minor == 1 { hosts != 1 } else { hosts > 1 }
}

// The refusal that the length in the head calls for, if any.
fn length_refusal(verb: Verb, stated: Stated) -> Option<u8>
    ensures { result ≡ stated_by verb stated }
{
    match stated {
        Stated::Bad => Some(BAD_LENGTH),
        Stated::Absent => {
            if verb == Verb::Post {
                Some(LENGTH_MISSING)
            } else {
                None
            }
        }
        Stated::Bytes(count) => {
            if count > MAX_BODY {
                Some(BODY_TOO_LARGE)
            } else {
                None
            }
        }
    }
}

// The first refusal of a head.
pub(crate) fn refusal(bytes: &[u8], fields: &[HeaderSpan], verb: Verb, minor: u8) -> Option<u8>
    requires { All (IsHeaderWithin (length bytes.now)) fields.now }
    ensures { result ≡ first_refusal verb minor (fields_at bytes.now fields.now) }
{
    if bad_host(minor, count_named(bytes, fields, b"host")) {
        return Some(BAD_HOST);
    }
    if count_named(bytes, fields, b"transfer-encoding") > 0 {
        return Some(FRAMING);
    }
    length_refusal(verb, stated_length(bytes, fields))
}

// The length of the body of a head with that refusal.
pub(crate) fn body_length(refused: Option<u8>, stated: Stated) -> u32
    ensures { result ≡ length_by refused stated }
{
    match (refused, stated) {
        (None, Stated::Bytes(count)) => count,
        _ => 0,
    }
}

// A value of any other length becomes a key that belongs to nobody.
fn key_bytes(value: &[u8]) -> [u8; 64]
    ensures { result ≡ key_from value.now }
{
    let mut key = [0; 64];
    if value.len() == 64 {
        key.copy_from_slice(value);
    }
    key
}

// The key that the first x-key gives.
fn key(bytes: &[u8], fields: &[HeaderSpan]) -> Option<[u8; 64]>
    requires { All (IsHeaderWithin (length bytes.now)) fields.now }
    ensures { result ≡ key_of (fields_at bytes.now fields.now) }
{
    match named_value(bytes, fields, b"x-key") {
        Some(value) => Some(key_bytes(value)),
        None => None,
    }
}

// Whether an interim reply is due before a body of that length.
#[tactic(auto, using(crate::proofs::FieldLemmas::any_of_mapped))]
pub(crate) fn expects(bytes: &[u8], fields: &[HeaderSpan], minor: u8, count: u32) -> bool
    requires { All (IsHeaderWithin (length bytes.now)) fields.now }
    ensures { result ≡ expects_by count minor (fields_at bytes.now fields.now) }
{
    count > 0 && minor == 1 && any_named(bytes, fields, b"expect", b"100-continue")
}

// Whether the connection is to be closed.
#[tactic(auto, using(crate::proofs::FieldLemmas::any_of_mapped))]
fn closes(bytes: &[u8], fields: &[HeaderSpan], minor: u8) -> bool
    requires { All (IsHeaderWithin (length bytes.now)) fields.now }
    ensures { result ≡ closes_by minor (fields_at bytes.now fields.now) }
{
    minor == 0 || any_closes(bytes, fields, b"connection")
}

// What the head at the front of the bytes says, whose parts are at these spans. `NoMemory` is
// returned only if there was no memory for the path.
pub(crate) fn head_at(
    alloc: Global,
    bytes: &[u8],
    fields: &[HeaderSpan],
    spans: &RequestSpans,
) -> Result<Head, NoMemory>
    requires fields { All (IsHeaderWithin (length bytes.now)) fields.now }
    requires method { IsWithin (length bytes.now) spans.now.method }
    requires target { IsWithin (length bytes.now) spans.now.path }
    ensures { IfOk result (IsHeadOf record {
      method = span_bytes bytes.now spans.now.method;
      target = span_bytes bytes.now spans.now.path;
      minor = spans.now.version;
      fields = fields_at bytes.now fields.now;
    }) }
{
    let path = target_path(alloc, spans.path.of(bytes))?;
    let verb = read_verb(spans.method.of(bytes));
    let refused = refusal(bytes, fields, verb, spans.version);
    let length = body_length(refused, stated_length(bytes, fields));
    let expects = expects(bytes, fields, spans.version, length);
    let closes = closes(bytes, fields, spans.version);
    Ok(Head {
        verb,
        path,
        key: key(bytes, fields),
        refused,
        length,
        expects,
        closes,
    })
}
