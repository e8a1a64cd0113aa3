// One step on a host that is ready: its reply is made, and then its event is kept.
ghost use Rattle.std.specs.Prelude.{◌≡◌, ◌≤◌, ◌↔◌, None};
ghost use Rattle.host_journal.specs.Calls.{ReachesState};
ghost use Rattle.host_journal.specs.States.{HasState, State};
ghost use Rattle.sealed_core.specs.Host.{CanApply, event_view};
ghost use Rattle.sealed_core.specs.Step.{IsCheckedCommand, command_view};
ghost use Rattle.requests.specs.Cases.{Steps};
ghost use Rattle.requests.specs.Keeping.{KeepsSaid};
ghost use Rattle.reply_texts.specs.Contents.{content_view};

use crate::replies::content;
use crate::telling::failure;
use host_journal::{Serving, keep, passing_law};
use reply_texts::{Page, ReplyContent};
use sealed_core::{Command, Event, answer};
use split_base::{Disk, Gate, NoMemory};
use split_solve::Solver;
use std::thread::Threads;

// What is said to a command at a moment: the reply, made whole before its event is kept, or that the disk failed. Only a publication takes
// memory.
pub(crate) fn step<'p, D: Disk, R: Threads + Sync, G: Gate + Sync>(
    solver: &mut Solver<'_, R, G>,
    serving: &mut Serving,
    disk: &mut D,
    moment: u64,
    command: Command,
    page: &'p mut Page,
) -> ReplyContent<'p>
    requires ready { serving.old.waiting ≡ None }
    requires command { IsCheckedCommand (command_view command) }
    ensures stepped { (s : State) → HasState D.Disk serving.old disk.old s
        → ReachesState D.Disk serving.new disk.old disk.new s (λ new.
        Steps D.Disk disk.old disk.new moment (command_view command) s new (content_view result)) }
    ensures count { D.faults disk.old ≤ D.faults disk.new }
    ensures honest { D.is_honest disk.old ↔ D.is_honest disk.new }
{
    passing_law::<D>();
    let answered = answer(&serving.host, moment, command);
    let Ok(said) = content(solver, &serving.host, &answered, page) else {
        return ReplyContent::out_of_memory();
    };
    let event = answered.event;
    let Some(event) = event else {
        return said;
    };
    keep_first(serving, disk, event, said)
}

// Keeps an event, and says this then. It takes no memory.
fn keep_first<'p, D: Disk>(
    serving: &mut Serving,
    disk: &mut D,
    event: Event,
    due: ReplyContent<'p>,
) -> ReplyContent<'p>
    requires ready { serving.old.waiting ≡ None }
    requires can { CanApply serving.old.host.content (event_view event) }
    ensures kept { (s : State) → HasState D.Disk serving.old disk.old s
        → ReachesState D.Disk serving.new disk.old disk.new s (λ new.
        KeepsSaid D.Disk disk.old disk.new (event_view event) (content_view due.entry) s new
        (content_view result)) }
    ensures count { D.faults disk.old ≤ D.faults disk.new }
    ensures honest { D.is_honest disk.old ↔ D.is_honest disk.new }
{
    if let Err(fault) = keep(serving, disk, event) {
        return failure(fault);
    }
    due
}
