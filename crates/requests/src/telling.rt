// The reply to a request when the journal has failed.
ghost use Rattle.reply_texts.specs.Contents.{content_view};
ghost use Rattle.requests.specs.Keeping.{FaultSays};

use gate_log::LogFault;
use reply_texts::{ReplyContent, ServiceRefusal};

// What is said where the journal has failed. It takes no memory.
pub(crate) fn failure<'p>(fault: LogFault) -> ReplyContent<'p>
    ensures { FaultSays fault (content_view result) }
{
    match fault {
        LogFault::Disk => ReplyContent::refused(&ServiceRefusal::StoreFault),
        LogFault::NotALog { place } => ReplyContent::damaged(place),
        LogFault::NoMemory => ReplyContent::out_of_memory(),
    }
}
