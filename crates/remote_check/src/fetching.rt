// A certificate fetched over a link.
ghost use Rattle.std.specs.Prelude.{◌≡◌, ◌≤◌, ◌<◌, ◌+◌, ◌-◌, ◌^◌, ℕ, List, length, take, IfOk, IfSome, OnErr, IsErrOf, Ok};
ghost use Rattle.std.specs.Io.KnownBytes.{Appends, prepend_known};
ghost use Rattle.split_base.specs.Faults.{HasCause, HasRisen, IsCounted};
ghost use Rattle.cert_checker.specs.Judged.{PrintsBest};
ghost use Rattle.http_heads.specs.declared.limits.TheConstants.{MAX_HEAD};
ghost use Rattle.remote_check.specs.Fetched.{FetchSays, IsReplyOf};
ghost use Rattle.remote_check.specs.Requests.{AsksOnce, MeetsEndOnce, faults_of, request_of};
ghost use Rattle.remote_check.specs.Heads.{IsFoundAt};
ghost use Rattle.remote_check.specs.Taken.{IsInBody, IsUnsettled};

use crate::ends::FetchEnd;
use crate::head::length_of;
use crate::judged::judge_body;
use crate::laws::fetched_law;
use crate::request::{Words, request_text};
use crate::response_heads::ResponseHeads;
use http_heads::{Ahead, Carry, ROOM, look_ahead};
use httparse::spans::{EMPTY_HEADER_SPAN, HeaderSpan, ResponseSpans};
use rule_verdicts::Verdict;
use split_base::{Failed, Link, Source, sides_law, write_all};

/// Asks a host for the certificate of an instance, and judges it as it comes, in one pass and in fixed memory. One request is written, and nothing else, and
/// no write is empty.
///
/// What is answered depends only on the bytes of the reply, and not on the pieces in which they come. In this order:
///
/// 1. `Reply`, if no first part of the first `MAX_HEAD` bytes is the head of a response as `httparse` reads it (RFC 9112), with at most `MAX_FIELDS` fields.
/// 2. `Status`, if its status is not 200.
/// 3. `Reply`, if it has a Transfer-Encoding, or not exactly one Content-Length of one to ten digits.
/// 4. `TooLong`, if that length is above `MOST_BYTES`.
/// 5. `Reply`, if the input ends within the body of this length.
/// 6. The judge's verdict on the body, or `NotText`, if it is no certificate text, with its first broken line. What follows the body is not read as part
///    of it.
///
/// `LinkFault` comes for one failed call. If it was a write, the count of failed writes goes up by one, and a first part of the request was written, but not
/// all of it. If it was a read, that of failed reads does, the whole request was written, and what came settles no answer: no head came, and the parser asks
/// for more; or a body is to be judged, and some of it is still to come. That some is, is said of a body that comes whole, while the count is below 2^64 - 1.
/// Any other answer leaves both counts as they are, after the whole request.
///
/// Once a read has met the end of the input, no other read follows it.
pub fn fetch<L: Link>(link: &mut L, words: &Words) -> Result<Verdict, FetchEnd>
    ensures says { FetchSays (L.Source.left link.old) result }
    ensures best { result ≡ Ok Verdict.Yes
        → IfSome (L.Source.left link.old) (λ bytes.
        (body : List ℕ) × IsReplyOf bytes body × PrintsBest body) }
    ensures asked { AsksOnce (L.Source.left link.old) (L.Source.left link.new)
        (L.Sink.written link.old) (L.Sink.written link.new) (L.Source.faults link.old)
        (L.Source.faults link.new) (L.Sink.faults link.old) (L.Sink.faults link.new)
        (request_of words.now) result }
    ensures empty { L.Sink.empty_writes link.new ≡ L.Sink.empty_writes link.old }
    ensures over { MeetsEndOnce (L.Source.empty_reads link.old) (L.Source.empty_reads link.new)
        (L.Source.faults link.new) result }
    ensures reads { L.Source.faults link.old ≤ L.Source.faults link.new }
    ensures writes { L.Sink.faults link.old ≤ L.Sink.faults link.new }
{
    fetched_law();
    match ask(link, words) {
        Err(Failed) => Err(FetchEnd::LinkFault),
        Ok(()) => hear(link),
    }
}

// Writes the request, which leaves what is to come as it is.
fn ask<L: Link>(link: &mut L, words: &Words) -> Result<(), Failed>
    ensures whole { IfOk result (λ _.
        Appends (L.Sink.written link.old) (L.Sink.written link.new) (request_of words.now)) }
    ensures prefix { OnErr result ((n : ℕ) × (n < length (request_of words.now))
        × Appends (L.Sink.written link.old) (L.Sink.written link.new)
        (take n (request_of words.now))) }
    ensures cause { HasCause (L.Sink.faults link.old) (L.Sink.faults link.new) result }
    ensures count { IsCounted (L.Sink.faults link.old) (L.Sink.faults link.new) result }
    ensures empty { L.Sink.empty_writes link.new ≡ L.Sink.empty_writes link.old }
    ensures left { L.Source.left link.new ≡ L.Source.left link.old }
    ensures over { L.Source.empty_reads link.new ≡ L.Source.empty_reads link.old }
    ensures reads { L.Source.faults link.new ≡ L.Source.faults link.old }
{
    sides_law::<L>();
    write_all(link, request_text(words).as_slice())
}

// Reads the reply, which leaves what was written as it is.
fn hear<L: Link>(link: &mut L) -> Result<Verdict, FetchEnd>
    ensures says { FetchSays (L.Source.left link.old) result }
    ensures faults { L.Source.faults link.new ≡ faults_of (L.Source.faults link.old) result }
    ensures fault { IsErrOf result FetchEnd.LinkFault
        → HasRisen (L.Source.faults link.old) (L.Source.faults link.new) }
    ensures unsettled { IsErrOf result FetchEnd.LinkFault
        → IsUnsettled (L.Source.left link.old) (L.Source.left link.new) (L.Source.faults link.new) }
    ensures once { L.Source.empty_reads link.new ≤ L.Source.empty_reads link.old + 1 }
    ensures before_end { IsErrOf result FetchEnd.LinkFault → L.Source.faults link.new < 2 ^ 64 - 1
        → L.Source.empty_reads link.new ≤ L.Source.empty_reads link.old }
    ensures count { L.Source.faults link.old ≤ L.Source.faults link.new }
    ensures written { L.Sink.written link.new ≡ L.Sink.written link.old }
    ensures writes { L.Sink.faults link.new ≡ L.Sink.faults link.old }
    ensures empty { L.Sink.empty_writes link.new ≡ L.Sink.empty_writes link.old }
{
    sides_law::<L>();
    read_reply(link)
}

// Reads the reply.
fn read_reply<S: Source>(source: &mut S) -> Result<Verdict, FetchEnd>
    ensures says { FetchSays (S.left source.old) result }
    ensures faults { S.faults source.new ≡ faults_of (S.faults source.old) result }
    ensures fault { IsErrOf result FetchEnd.LinkFault
        → HasRisen (S.faults source.old) (S.faults source.new) }
    ensures unsettled { IsErrOf result FetchEnd.LinkFault
        → IsUnsettled (S.left source.old) (S.left source.new) (S.faults source.new) }
    ensures once { S.empty_reads source.new ≤ S.empty_reads source.old + 1 }
    ensures before_end { IsErrOf result FetchEnd.LinkFault → S.faults source.new < 2 ^ 64 - 1
        → S.empty_reads source.new ≤ S.empty_reads source.old }
    ensures count { S.faults source.old ≤ S.faults source.new }
    ensures beside { S.beside source.new ≡ S.beside source.old }
{
    let mut held = Carry::new();
    let mut fields = [EMPTY_HEADER_SPAN; ROOM];
    match look_ahead::<ResponseHeads, S>(source, &mut held, &mut fields) {
        Ahead::Fault => Err(FetchEnd::LinkFault),
        Ahead::Bad => Err(FetchEnd::Reply),
        Ahead::End => Err(FetchEnd::Reply),
        Ahead::Found(spans) => read_body(source, held.as_slice(), &fields, &spans),
    }
}

// Reads the body after a head, which is at the front of what was read.
fn read_body<S: Source>(
    source: &mut S,
    held: &[u8],
    fields: &[HeaderSpan; ROOM],
    spans: &ResponseSpans,
) -> Result<Verdict, FetchEnd>
    requires found { IsFoundAt held.now fields.now spans.now }
    requires most { length held.now ≤ MAX_HEAD }
    ensures says { FetchSays (prepend_known held.now (S.left source.old)) result }
    ensures faults { S.faults source.new ≡ faults_of (S.faults source.old) result }
    ensures fault { IsErrOf result FetchEnd.LinkFault
        → HasRisen (S.faults source.old) (S.faults source.new) }
    ensures unsettled { IsErrOf result FetchEnd.LinkFault
        → IfSome (prepend_known held.now (S.left source.old)) (λ bytes.
        IsInBody bytes (S.left source.new) (S.faults source.new)) }
    ensures once { S.empty_reads source.new ≤ S.empty_reads source.old + 1 }
    ensures before_end { IsErrOf result FetchEnd.LinkFault → S.faults source.new < 2 ^ 64 - 1
        → S.empty_reads source.new ≤ S.empty_reads source.old }
    ensures count { S.faults source.old ≤ S.faults source.new }
    ensures beside { S.beside source.new ≡ S.beside source.old }
{
    let length = length_of(held, fields, spans)?;
    judge_body(source, &held[spans.len..], length)
}
