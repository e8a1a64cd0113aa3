// What a reply tells, until it is written to a link.
ghost use Rattle.std.specs.Prelude.{IsTrue};
ghost use Rattle.split_http.specs.Replies.{is_host_status};

use crate::damage::DamageText;
use split_http::Allow;

/// The type of the text of a reply.
#[derive(Clone, Copy, Debug, PartialEq, Eq)]
pub enum ContentType {
    /// `application/json` (RFC 8259).
    Json,
    /// `text/plain; charset=utf-8` (RFC 2046, section 4.1).
    Plain,
}

/// The text of a reply.
#[derive(Debug, Drop)]
pub enum ReplyText<'p> {
    /// It was written for this reply.
    Written(Vec<u8>),
    /// It takes no memory: it is a constant, or is on a page that was lent for the reply.
    Lent(&'p [u8]),
    /// It was written for this reply, and takes no memory: of a damaged file.
    Short(DamageText),
}

/// What a reply tells: all of it but when and how it is written. It is handed on by value, so
/// it is kept small: a text of up to `REPLY_MOST` bytes is on a page, and only lent.
#[derive(Debug, Drop)]
pub struct ReplyContent<'p> {
    /// The HTTP status, one with which a host replies.
    pub status: u16,
    /// The type of the text.
    pub content_type: ContentType,
    /// The whole text.
    pub text: ReplyText<'p>,
    /// The methods of the route, if the reply lists them.
    pub allow: Option<Allow>,
    /// Whether it says that memory ran out: in that case the connection is closed
    /// after it.
    pub memory: bool,
    ghost known: { IsTrue (is_host_status status) },
}
