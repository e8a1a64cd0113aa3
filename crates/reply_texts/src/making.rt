// Makes the content of a host's reply, an HTTP status with a text, from the text or from a refusal.
ghost use Rattle.std.specs.Prelude.{◌≡◌, IfOk, IsTrue, true};
ghost use Rattle.reply_texts.specs.Contents.{bytes_of, content_view, is_plain, memory_told, method_told, refusal_told, told_as};
ghost use Rattle.reply_texts.specs.Refusals.{is_code_alone, service_row};
ghost use Rattle.reply_texts.specs.declared.refusals.ServiceRefusal.TheVariants.{StoreDamaged};
ghost use Rattle.split_http.specs.Replies.{is_host_status};

use crate::contents::{ContentType, ReplyContent, ReplyText};
use crate::damage::damage_text;
use crate::refusals::{ServiceRefusal, constant_text, memory_text, service_refusal_text};
use split_base::NoMemory;
use split_http::Allow;
use std::alloc::Global;

impl ContentType {
    /// Whether it is that of plain text.
    pub fn is_plain(self) -> bool
        ensures { result ≡ is_plain self }
    {
        match self {
            ContentType::Json => false,
            ContentType::Plain => true,
        }
    }
}

impl ReplyText<'_> {
    /// Its bytes.
    pub fn bytes(&self) -> &[u8]
        ensures { result.now ≡ bytes_of self.now }
    {
        match self {
            ReplyText::Written(bytes) => bytes.as_slice(),
            ReplyText::Lent(bytes) => bytes,
            ReplyText::Short(bytes) => bytes.as_slice(),
        }
    }
}

impl<'p> ReplyContent<'p> {
    /// A success with a text of JSON.
    pub fn json(text: Vec<u8>) -> ReplyContent<'p>
        ensures { content_view result ≡ told_as 200 ContentType.Json text.items }
    {
        ReplyContent {
            status: 200,
            content_type: ContentType::Json,
            text: ReplyText::Written(text),
            allow: None,
            memory: false,
        }
    }

    /// A success with a plain text.
    pub fn plain(text: Vec<u8>) -> ReplyContent<'p>
        ensures { content_view result ≡ told_as 200 ContentType.Plain text.items }
    {
        ReplyContent {
            status: 200,
            content_type: ContentType::Plain,
            text: ReplyText::Written(text),
            allow: None,
            memory: false,
        }
    }

    /// A reply that isn't a publication, with a text that is lent. It takes no memory.
    pub fn own(status: u16, text: &'p [u8]) -> ReplyContent<'p>
        requires { IsTrue (is_host_status status) }
        ensures { content_view result ≡ told_as status ContentType.Json text.now }
    {
        ReplyContent {
            status,
            content_type: ContentType::Json,
            text: ReplyText::Lent(text),
            allow: None,
            memory: false,
        }
    }

    /// A refusal that names nothing beside its code. It takes no memory.
    pub fn refused(refusal: &ServiceRefusal) -> ReplyContent<'p>
        requires { is_code_alone (service_row refusal.now).detail ≡ true }
        ensures { content_view result ≡ refusal_told refusal.now }
    {
        let Some(text) = constant_text(refusal) else {
            unreachable!();
        };
        ReplyContent {
            status: refusal.status(),
            content_type: ContentType::Json,
            text: ReplyText::Lent(text),
            allow: None,
            memory: false,
        }
    }

    /// The refusal of a method, with those that the route has. It takes no memory.
    pub fn refused_method(allow: Allow) -> ReplyContent<'p>
        ensures { content_view result ≡ method_told allow }
    {
        let refused = ReplyContent::refused(&ServiceRefusal::Method);
        ReplyContent {
            status: refused.status,
            content_type: refused.content_type,
            text: refused.text,
            allow: Some(allow),
            memory: false,
        }
    }

    /// That the file is no journal at this place. It takes no memory.
    pub fn damaged(place: u64) -> ReplyContent<'p>
        ensures { content_view result ≡ refusal_told (StoreDamaged place) }
    {
        ReplyContent {
            status: 503,
            content_type: ContentType::Json,
            text: ReplyText::Short(damage_text(place)),
            allow: None,
            memory: false,
        }
    }

    /// That memory ran out. It takes none.
    pub fn out_of_memory() -> ReplyContent<'p>
        ensures { content_view result ≡ memory_told }
    {
        ReplyContent {
            status: 503,
            content_type: ContentType::Json,
            text: ReplyText::Lent(memory_text()),
            allow: None,
            memory: true,
        }
    }
}

/// What the reply tells by which the service refuses a request: the status of the refusal, and its text as JSON. `NoMemory` comes only
/// where memory runs out.
pub fn refusal_content<'p>(
    alloc: Global,
    refusal: &ServiceRefusal,
) -> Result<ReplyContent<'p>, NoMemory>
    ensures { IfOk result (λ told. content_view told ≡ refusal_told refusal.now) }
{
    let text = service_refusal_text(alloc, refusal)?;
    Ok(ReplyContent {
        status: refusal.status(),
        content_type: ContentType::Json,
        text: ReplyText::Written(text),
        allow: None,
        memory: false,
    })
}
