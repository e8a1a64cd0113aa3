//! The replies of a host as texts: how each is spelled as JSON, byte for byte, and its HTTP status.
//!
//! The text of a reply on an instance that is not closed follows from what the caller may know of it.
//!
//! What a reply tells is a `ReplyContent`, until it is written as HTTP: one type for what the host answers, publishes and refuses. It
//! tells its type by `ContentType`.
//!
//! A reply is made before its event is kept, over the host as it will be after it. It takes no
//! memory: none has more than `REPLY_MOST` bytes (`reply_size_law`). Callers with equal views are
//! told the same (`text_sealing_law`). No reply shows a tag, and only that to a creation shows keys
//! (`shown_law`).
#![tactic(auto)]

mod contents;
mod damage;
mod division_texts;
mod laws;
mod making;
mod objects;
mod page;
mod refusals;
mod replies;
mod sizes;
mod statuses;
mod values;

pub use contents::{ContentType, ReplyContent, ReplyText};
pub use damage::{DAMAGE_ROOM, DamageText, damage_text};
pub use division_texts::division_text;
pub use laws::{division_text_law, refusal_status_law, shown_law, telling_law, text_sealing_law};
pub use making::refusal_content;
pub use page::Page;
pub use refusals::{ServiceRefusal, constant_text, memory_text, service_refusal_text};
pub use replies::{put_reply, reply_status, reply_text};
pub use sizes::{REPLY_MOST, reply_size_law};
