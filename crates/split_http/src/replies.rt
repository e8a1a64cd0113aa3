// HTTP/1.1 replies as bytes: the status line, the fields and the body.
ghost use Rattle.std.specs.Prelude.{◌≡◌, ◌≤◌, ◌++◌, ℕ, List, [], OnOk, OnErr, IsSome, IfSome, Some, unwrap_or, codes};
ghost use Rattle.std.specs.Io.KnownBytes.{Appends};
ghost use Rattle.http.specs.StatusCode.{code_digits, reason_phrase};
ghost use Rattle.httpdate.specs.Date.{date_text};
ghost use Rattle.split_base.specs.Faults.{HasCause, IsCounted};
ghost use Rattle.split_http.specs.Pieces.{AppendsProperPart};
ghost use Rattle.split_http.specs.Replies.{IsReply, IsDateLine, allow_line, kind_line, close_line, body_of, reply_of_parts};
ghost use Rattle.split_base.specs.declared.limits.TheConstants.{LAST_MOMENT};

use crate::pieces::write_pieces;
use http::StatusCode;
use httpdate::HttpDate;
use itoa::Buffer;
use split_base::{Failed, Sink};

/// The methods that a route has.
#[derive(Clone, Copy, Debug, PartialEq, Eq)]
pub enum Allow {
    /// GET and HEAD.
    GetHead,
    /// POST.
    Post,
}

/// A reply to a request.
#[derive(Clone, Copy, Debug)]
pub struct HttpReply<'a> {
    /// The status, one for which `http` has a phrase.
    pub status: u16,
    /// The whole body.
    pub text: &'a [u8],
    /// Whether the body is plain text; otherwise it is JSON.
    pub plain: bool,
    /// The date, in seconds since 1970; `None` if the clock failed.
    pub moment: Option<u64>,
    /// What the line `Allow` lists; `None` for no such line.
    pub allow: Option<Allow>,
    /// Whether the body is left out, as in the reply to HEAD. Its length is told all the same.
    pub bodiless: bool,
    /// Whether the connection is closed after this reply.
    pub close: bool,
}

// Each status of a reply is a known one, so it has digits and a phrase.
fn phrase(status: u16) -> (&'static str, &'static str)
    requires { IsSome (reason_phrase status) }
    ensures digits { result.0.now ≡ code_digits status }
    ensures text { reason_phrase status ≡ Some result.1.now }
{
    match StatusCode::from_u16(status) {
        Ok(code) => match code.canonical_reason() {
            Some(text) => (code.as_str(), text),
            None => unreachable!(),
        },
        Err(_) => unreachable!(),
    }
}

// The date always has the same length, so the line is filled in place.
fn date_line(date: HttpDate) -> [u8; 37]
    ensures { result ≡ codes "Date: " ++ date_text date ++ codes "\r\n" }
{
    let text = date.to_bytes();
    let mut line = *b"Date: .............................\r\n";
    line[6..35].copy_from_slice(&text);
    line
}

// Without an answer of the clock there is no date, which a reply may leave out.
fn date_bytes(moment: Option<u64>) -> Option<[u8; 37]>
    requires { IfSome moment (λ t. t ≤ LAST_MOMENT) }
    ensures { IsDateLine moment (unwrap_or result []) }
{
    match moment {
        Some(moment) => match HttpDate::from_unix_secs(moment) {
            Ok(date) => Some(date_line(date)),
            Err(_) => unreachable!(),
        },
        None => None,
    }
}

// The line, or nothing if the clock has failed.
fn date_or_nothing(date: &Option<[u8; 37]>) -> &[u8]
    ensures { result.now ≡ unwrap_or date.now [] }
{
    match date {
        Some(bytes) => bytes,
        None => b"",
    }
}

// Certificates and reports are plain text, and every other reply is JSON.
fn kind_text(plain: bool) -> &'static [u8]
    ensures { result.now ≡ kind_line plain }
{
    if plain {
        b"Content-Type: text/plain; charset=utf-8\r\n"
    } else {
        b"Content-Type: application/json\r\n"
    }
}

// A reply that refuses a method says which ones the route has (RFC 9110, section 15.5.6).
fn allow_text(allow: Option<Allow>) -> &'static [u8]
    ensures { result.now ≡ allow_line allow }
{
    match allow {
        None => b"",
        Some(Allow::GetHead) => b"Allow: GET, HEAD\r\n",
        Some(Allow::Post) => b"Allow: POST\r\n",
    }
}

// A client is told when no further request is read on this connection.
fn close_text(close: bool) -> &'static [u8]
    ensures { result.now ≡ close_line close }
{
    if close { b"Connection: close\r\n" } else { b"" }
}

// A reply to HEAD has all the fields but no body.
fn body<'a>(reply: &HttpReply<'a>) -> &'a [u8]
    ensures { result.now ≡ body_of reply.now }
{
    if reply.bodiless { b"" } else { reply.text }
}

// Writes a reply from its parts. All of them have one lifetime, since they are in one array.
#[allow(clippy::too_many_arguments)]
fn write_parts<'a, S: Sink>(
    sink: &mut S,
    digits: &'a [u8],
    phrase: &'a [u8],
    date: &'a [u8],
    kind: &'a [u8],
    size: &'a [u8],
    allow: &'a [u8],
    close: &'a [u8],
    body: &'a [u8],
) -> Result<(), Failed>
    ensures whole { OnOk result
        (Appends (S.written sink.old) (S.written sink.new) (reply_of_parts digits.now phrase.now
        date.now kind.now size.now allow.now close.now body.now)) }
    ensures part { OnErr result
        (AppendsProperPart (S.written sink.old) (S.written sink.new) (reply_of_parts digits.now
        phrase.now date.now kind.now size.now allow.now close.now body.now)) }
    ensures cause { HasCause (S.faults sink.old) (S.faults sink.new) result }
    ensures count { IsCounted (S.faults sink.old) (S.faults sink.new) result }
    ensures empty { S.empty_writes sink.new ≡ S.empty_writes sink.old }
    ensures beside { S.beside sink.new ≡ S.beside sink.old }
{
    let pieces: [&'a [u8]; 14] = [
        b"HTTP/1.1 ",
        digits,
        b" ",
        phrase,
        b"\r\n",
        date,
        kind,
        b"Content-Length: ",
        size,
        b"\r\n",
        allow,
        close,
        b"\r\n",
        body,
    ];
    write_pieces(sink, &pieces)
}

/// Writes the reply: its status with the phrase of `http`, the date as RFC 9110 has it, the
/// type and length of its body, `Allow` and `Connection: close` if they are due, an empty
/// line, and the body. It takes no memory, and makes no empty write.
///
/// `Failed` is returned only if the sink's count of faults has risen. A first part of the reply was
/// written then, and at least one byte of it is missing.
pub fn write_reply<S: Sink>(sink: &mut S, reply: &HttpReply<'_>) -> Result<(), Failed>
    requires status { IsSome (reason_phrase reply.now.status) }
    requires moment { IfSome reply.now.moment (λ t. t ≤ LAST_MOMENT) }
    ensures whole { OnOk result ((bytes : List ℕ) × IsReply reply.now bytes
        × Appends (S.written sink.old) (S.written sink.new) bytes) }
    ensures part { OnErr result ((bytes : List ℕ) × IsReply reply.now bytes
        × AppendsProperPart (S.written sink.old) (S.written sink.new) bytes) }
    ensures cause { HasCause (S.faults sink.old) (S.faults sink.new) result }
    ensures count { IsCounted (S.faults sink.old) (S.faults sink.new) result }
    ensures empty { S.empty_writes sink.new ≡ S.empty_writes sink.old }
    ensures beside { S.beside sink.new ≡ S.beside sink.old }
{
    let (digits, phrase) = phrase(reply.status);
    let mut numbers = Buffer::new();
    let size = numbers.format(reply.text.len());
    let date = date_bytes(reply.moment);
    write_parts(
        sink,
        digits.as_bytes(),
        phrase.as_bytes(),
        date_or_nothing(&date),
        kind_text(reply.plain),
        size.as_bytes(),
        allow_text(reply.allow),
        close_text(reply.close),
        body(reply),
    )
}
