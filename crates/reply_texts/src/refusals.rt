// What refusals say: those of the host, and those of the service around it.
ghost use Rattle.std.specs.Prelude.{◌≡◌, ◌↔◌, codes, IfOk, IfSome, IsSome, true};
ghost use Rattle.serde_json.specs.Data.{object, member, no_members};
ghost use Rattle.serde_json.specs.View.{view};
ghost use Rattle.reply_texts.specs.Pages.{PutsValue};
ghost use Rattle.reply_texts.specs.Refusals.{is_code_alone, of_refusal, of_service_refusal, refusal_row, service_row, service_text};
ghost use Rattle.reply_texts.specs.Values.{list_by, of_number, of_text};

use crate::objects::{Field, Part, put_fields};
use crate::page::Page;
use crate::values::{numbers, written};
use bid_rules::Missing;
use sealed_core::Refusal;
use serde_json::{Value, json};
use split_base::NoMemory;
use std::alloc::{AllocError, Global};

/// Why the service around a host refuses a request that the host itself does not. The first of several causes is told, in this order; what
/// the host refuses is tested between `StoreDamaged` and `NoAudit`. `StoreFault` comes when the store is opened, which is its place here, and last
/// of all when an event is kept. `Memory` may come at any point.
#[derive(Debug, Drop, PartialEq, Eq)]
pub enum ServiceRefusal {
    /// The bytes are not the head of a request.
    BadHead,
    /// The clock failed at this request.
    ClockFault,
    /// HTTP/1.1 without exactly one Host, or HTTP/1.0 with two or more.
    BadHost,
    /// The request has a Transfer-Encoding.
    Framing,
    /// The request has two or more Content-Length fields, or the value is not a number.
    BadLength,
    /// A POST without Content-Length.
    LengthMissing,
    /// The body is longer than a body may be.
    BodyTooLarge,
    /// No route matches the path.
    NoRoute,
    /// The route has not the method.
    Method,
    /// The disk failed in this request.
    StoreFault,
    /// The file is not a journal at this place, in bytes from 0.
    StoreDamaged { place: u64 },
    /// The audit of an instance of a kind that has none.
    NoAudit,
    /// Bids are missing: there is nothing to divide. With the members who lack one.
    Void { missing: Missing },
    /// The search would take more steps than the case allows. With its limit.
    StepLimit { limit: u32 },
    /// The winner of an instance that is not one of goods with two players.
    NotTwo,
    /// Memory ran out.
    Memory,
}

impl ServiceRefusal {
    /// The HTTP status of the reply.
    pub fn status(&self) -> u16
        ensures { result ≡ (service_row self.now).status }
    {
        match self {
            ServiceRefusal::BadHead => 400,
            ServiceRefusal::ClockFault => 503,
            ServiceRefusal::BadHost => 400,
            ServiceRefusal::Framing => 501,
            ServiceRefusal::BadLength => 400,
            ServiceRefusal::LengthMissing => 411,
            ServiceRefusal::BodyTooLarge => 413,
            ServiceRefusal::NoRoute => 404,
            ServiceRefusal::Method => 405,
            ServiceRefusal::StoreFault => 503,
            ServiceRefusal::StoreDamaged { .. } => 503,
            ServiceRefusal::NoAudit => 409,
            ServiceRefusal::Void { .. } => 409,
            ServiceRefusal::StepLimit { .. } => 422,
            ServiceRefusal::NotTwo => 409,
            ServiceRefusal::Memory => 503,
        }
    }

    /// The code that the reply names.
    pub fn code(&self) -> &'static str
        ensures { result.now ≡ (service_row self.now).code }
    {
        match self {
            ServiceRefusal::BadHead => "bad_head",
            ServiceRefusal::ClockFault => "clock_fault",
            ServiceRefusal::BadHost => "bad_host",
            ServiceRefusal::Framing => "framing",
            ServiceRefusal::BadLength => "bad_length",
            ServiceRefusal::LengthMissing => "length_missing",
            ServiceRefusal::BodyTooLarge => "body_too_large",
            ServiceRefusal::NoRoute => "no_route",
            ServiceRefusal::Method => "method",
            ServiceRefusal::StoreFault => "store_fault",
            ServiceRefusal::StoreDamaged { .. } => "store_damaged",
            ServiceRefusal::NoAudit => "no_audit",
            ServiceRefusal::Void { .. } => "void",
            ServiceRefusal::StepLimit { .. } => "step_limit",
            ServiceRefusal::NotTwo => "not_two",
            ServiceRefusal::Memory => "memory",
        }
    }
}

// The HTTP status of a refusal of the host.
pub(crate) fn refusal_status(refusal: Refusal) -> u16
    ensures { result ≡ (refusal_row refusal).0 }
{
    match refusal {
        Refusal::NoInstance => 404,
        Refusal::NoKey => 403,
        Refusal::WrongKey => 403,
        Refusal::Role => 403,
        Refusal::BadJson => 400,
        Refusal::BadField { .. } => 422,
        Refusal::TagTaken => 409,
        Refusal::HostFull => 409,
        Refusal::Closed => 409,
        Refusal::Turn { .. } => 409,
        Refusal::TurnsUsed => 409,
        Refusal::NotAll => 409,
        Refusal::NotClosed => 409,
        Refusal::NoBid => 409,
    }
}

// Clients match these words, so they never change.
fn refusal_code(refusal: Refusal) -> &'static str
    ensures { result.now ≡ (refusal_row refusal).1 }
{
    match refusal {
        Refusal::NoInstance => "no_instance",
        Refusal::NoKey => "no_key",
        Refusal::WrongKey => "wrong_key",
        Refusal::Role => "role",
        Refusal::BadJson => "bad_json",
        Refusal::BadField { .. } => "bad_field",
        Refusal::TagTaken => "tag_taken",
        Refusal::HostFull => "host_full",
        Refusal::Closed => "closed",
        Refusal::Turn { .. } => "turn",
        Refusal::TurnsUsed => "turns_used",
        Refusal::NotAll => "not_all",
        Refusal::NotClosed => "open",
        Refusal::NoBid => "no_bid",
    }
}

// Only a code.
fn coded(alloc: Global, code: &str) -> Result<Value, AllocError>
    ensures { IfOk result (λ v.
        view v ≡ object (member (codes "code") (of_text code.now) no_members)) }
{
    json!(in alloc; {"code": code})
}

// A client is told the limit that was passed.
fn with_limit(alloc: Global, code: &str, limit: u32) -> Result<Value, AllocError>
    ensures { IfOk result (λ v.
        view v
        ≡ object (member (codes "code") (of_text code.now)
        (member (codes "limit") (of_number limit) no_members))) }
{
    json!(in alloc; {"code": code, "limit": limit})
}

// A client is told whose bids are missing.
fn with_missing(alloc: Global, code: &str, missing: &Missing) -> Result<Value, AllocError>
    ensures { IfOk result (λ v.
        view v
        ≡ object (member (codes "code") (of_text code.now)
        (member (codes "missing") (list_by of_number missing.now.members.items) no_members))) }
{
    json!(in alloc; {"code": code, "missing": numbers(alloc, missing.members.as_slice())?})
}

// An operator is told where the journal is damaged.
fn with_place(alloc: Global, code: &str, place: u64) -> Result<Value, AllocError>
    ensures { IfOk result (λ v.
        view v
        ≡ object (member (codes "code") (of_text code.now)
        (member (codes "place") (of_number place) no_members))) }
{
    json!(in alloc; {"code": code, "place": place})
}

// Only a code, without memory.
fn put_code(page: &mut Page, code: &str)
    ensures { PutsValue page.old page.new
        (object (member (codes "code") (of_text code.now) no_members)) }
{
    put_fields(
        page,
        &[Field {
            name: "code",
            part: Part::Text(code.as_bytes()),
        }],
    )
}

// A client is told which field to mend.
fn put_code_with_field<'a>(page: &mut Page, code: &'a str, field: &'a str)
    ensures { PutsValue page.old page.new
        (object (member (codes "code") (of_text code.now)
        (member (codes "field") (of_text field.now) no_members))) }
{
    put_fields(
        page,
        &[
            Field {
                name: "code",
                part: Part::Text(code.as_bytes()),
            },
            Field {
                name: "field",
                part: Part::Text(field.as_bytes()),
            },
        ],
    )
}

// A client is told the turn that the host has kept, so that it can go on from there.
fn put_code_with_kept(page: &mut Page, code: &str, kept: u8)
    ensures { PutsValue page.old page.new
        (object (member (codes "code") (of_text code.now)
        (member (codes "kept") (of_number kept) no_members))) }
{
    put_fields(
        page,
        &[
            Field {
                name: "code",
                part: Part::Text(code.as_bytes()),
            },
            Field {
                name: "kept",
                part: Part::Number(u64::from(kept)),
            },
        ],
    )
}

// What the host refuses, without memory.
#[tactic(auto, unfolding(crate::specs::Refusals::of_refusal))]
pub(crate) fn put_refusal(page: &mut Page, refusal: Refusal)
    ensures { PutsValue page.old page.new (of_refusal refusal) }
{
    let code = refusal_code(refusal);
    match refusal {
        Refusal::BadField { name } => put_code_with_field(page, code, name.name()),
        Refusal::Turn { kept } => put_code_with_kept(page, code, kept),
        _ => put_code(page, code),
    }
}

// Only three of these refusals have more to say than their code.
#[tactic(auto, unfolding(crate::specs::Refusals::of_service_refusal))]
fn service_refusal_value(alloc: Global, refusal: &ServiceRefusal) -> Result<Value, AllocError>
    ensures { IfOk result (λ v. view v ≡ of_service_refusal refusal.now) }
{
    let code = refusal.code();
    match refusal {
        ServiceRefusal::StoreDamaged { place } => with_place(alloc, code, *place),
        ServiceRefusal::Void { missing } => with_missing(alloc, code, missing),
        ServiceRefusal::StepLimit { limit } => with_limit(alloc, code, *limit),
        _ => coded(alloc, code),
    }
}

// The refusal as bytes, in memory.
fn written_refusal(alloc: Global, refusal: &ServiceRefusal) -> Result<Vec<u8>, AllocError>
    ensures { IfOk result (λ text. text.items ≡ service_text refusal.now) }
{
    let value = service_refusal_value(alloc, refusal)?;
    written(alloc, &value)
}

/// The text of a refusal of the service.
pub fn service_refusal_text(alloc: Global, refusal: &ServiceRefusal) -> Result<Vec<u8>, NoMemory>
    ensures { IfOk result (λ text. text.items ≡ service_text refusal.now) }
{
    match written_refusal(alloc, refusal) {
        Ok(text) => Ok(text),
        Err(_) => Err(NoMemory),
    }
}

/// The text of a refusal that names nothing beside its code, or `None` for one that does. It takes no memory, so that such a refusal can be
/// told if there is none.
pub fn constant_text(refusal: &ServiceRefusal) -> Option<&'static [u8]>
    ensures there { IsSome result ↔ (is_code_alone (service_row refusal.now).detail ≡ true) }
    ensures text { IfSome result (λ text. text.now ≡ service_text refusal.now) }
{
    let text: &'static [u8] = match refusal {
        ServiceRefusal::BadHead => b"{\"code\":\"bad_head\"}",
        ServiceRefusal::ClockFault => b"{\"code\":\"clock_fault\"}",
        ServiceRefusal::BadHost => b"{\"code\":\"bad_host\"}",
        ServiceRefusal::Framing => b"{\"code\":\"framing\"}",
        ServiceRefusal::BadLength => b"{\"code\":\"bad_length\"}",
        ServiceRefusal::LengthMissing => b"{\"code\":\"length_missing\"}",
        ServiceRefusal::BodyTooLarge => b"{\"code\":\"body_too_large\"}",
        ServiceRefusal::NoRoute => b"{\"code\":\"no_route\"}",
        ServiceRefusal::Method => b"{\"code\":\"method\"}",
        ServiceRefusal::StoreFault => b"{\"code\":\"store_fault\"}",
        ServiceRefusal::NoAudit => b"{\"code\":\"no_audit\"}",
        ServiceRefusal::NotTwo => b"{\"code\":\"not_two\"}",
        ServiceRefusal::Memory => b"{\"code\":\"memory\"}",
        ServiceRefusal::StoreDamaged { .. }
        | ServiceRefusal::Void { .. }
        | ServiceRefusal::StepLimit { .. } => return None,
    };
    Some(text)
}

/// The text of the reply if memory ran out. It takes no memory.
pub fn memory_text() -> &'static [u8]
    ensures { result.now ≡ service_text ServiceRefusal.Memory }
{
    b"{\"code\":\"memory\"}"
}
