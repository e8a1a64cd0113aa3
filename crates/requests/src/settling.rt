// A host that waits opens its file again.
ghost use Rattle.std.specs.Prelude.{◌≡◌, ◌≤◌, ◌↔◌, None, IsSome, option_map};
ghost use Rattle.host_journal.specs.Calls.{ReachesState};
ghost use Rattle.host_journal.specs.States.{HasState, State};
ghost use Rattle.requests.specs.Cases.{Settles};
ghost use Rattle.reply_texts.specs.Contents.{content_view};

use crate::telling::failure;
use host_journal::{Serving, passing_law, reopen};
use reply_texts::ReplyContent;
use split_base::Disk;

// Opens the file again if the host waits, in memory that was taken at the start. If it returns `None`, the host is ready and the request goes on.
pub(crate) fn settle<D: Disk>(serving: &mut Serving, disk: &mut D) -> Option<ReplyContent<'static>>
    ensures settled { (s : State) → HasState D.Disk serving.old disk.old s
        → ReachesState D.Disk serving.new disk.old disk.new s (λ new.
        Settles D.Disk disk.old disk.new s new (option_map content_view result)) }
    ensures ready { result ≡ None → serving.new.waiting ≡ None }
    ensures count { D.faults disk.old ≤ D.faults disk.new }
    ensures honest { D.is_honest disk.old ↔ D.is_honest disk.new }
{
    passing_law::<D>();
    match serving.waiting {
        None => None,
        Some(_) => open_again(serving, disk),
    }
}

// Opens the file of a host that waits.
fn open_again<D: Disk>(serving: &mut Serving, disk: &mut D) -> Option<ReplyContent<'static>>
    requires { IsSome serving.old.waiting }
    ensures settled { (s : State) → HasState D.Disk serving.old disk.old s
        → ReachesState D.Disk serving.new disk.old disk.new s (λ new.
        Settles D.Disk disk.old disk.new s new (option_map content_view result)) }
    ensures ready { result ≡ None → serving.new.waiting ≡ None }
    ensures count { D.faults disk.old ≤ D.faults disk.new }
    ensures honest { D.is_honest disk.old ↔ D.is_honest disk.new }
{
    match reopen(serving, disk) {
        Ok(()) => None,
        Err(fault) => Some(failure(fault)),
    }
}
