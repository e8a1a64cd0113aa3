// Makes the reply to a request from what the host answers to its command.
ghost use Rattle.std.specs.Prelude.{◌≡◌, ℕ, IfOk, OnErr, false};
ghost use Rattle.reply_texts.specs.Telling.{IsAnswered, is_publication};
ghost use Rattle.sealed_core.specs.declared.commands.What.{What};
ghost use Rattle.sealed_core.specs.Sealed.{with_event};
ghost use Rattle.sealed_core.specs.Step.{answer_view};
ghost use Rattle.requests.specs.Replies.{Shows};
ghost use Rattle.reply_texts.specs.Contents.{content_view};

use publications::publication;
use reply_texts::{Page, ReplyContent, put_reply, refusal_status_law, reply_status};
use sealed_core::{Answered, Host, Reply, instance_at, machine_law, publication_law};
use split_base::{Gate, NoMemory};
use split_solve::Solver;
use std::thread::Threads;

// What is said of the host's answer, with all of its text, over the host after the event, which isn't applied. Unless it is a publication, the
// text is put on the page. `NoMemory` is returned only where memory runs out, and only of a publication.
pub(crate) fn content<'p, R: Threads + Sync, G: Gate + Sync>(
    solver: &mut Solver<'_, R, G>,
    host: &Host,
    answered: &Answered,
    page: &'p mut Page,
) -> Result<ReplyContent<'p>, NoMemory>
    requires answered { IsAnswered host.now.content (answer_view answered.now) }
    ensures shown { IfOk result (λ said.
        Shows (with_event host.now.content (answer_view answered.now).event) answered.now.reply
        (content_view said)) }
    ensures memory { OnErr result
        ((id : ℕ) × (asked : What) × (answered.now.reply ≡ Reply.Publish id asked)) }
{
    machine_law();
    publication_law();
    match answered.reply {
        Reply::Publish { id, what } => {
            let Some(instance) = instance_at(host, id) else {
                unreachable!();
            };
            publication(solver, instance, what)
        }
        _ => Ok(own_content(host, answered, page)),
    }
}

// What is said in a reply that isn't a publication, with its text on the page. It takes no memory.
fn own_content<'p>(host: &Host, answered: &Answered, page: &'p mut Page) -> ReplyContent<'p>
    requires answered { IsAnswered host.now.content (answer_view answered.now) }
    requires reply { is_publication answered.now.reply ≡ false }
    ensures { Shows (with_event host.now.content (answer_view answered.now).event)
        answered.now.reply (content_view result) }
{
    refusal_status_law();
    let status = reply_status(&answered.reply);
    put_reply(page, host, answered);
    ReplyContent::own(status, page.bytes.as_slice())
}
