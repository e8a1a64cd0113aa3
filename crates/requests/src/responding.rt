// Responds to a request that was read whole.
ghost use Rattle.std.specs.Prelude.{◌≡◌, ◌≤◌, ◌↔◌};
ghost use Rattle.host_journal.specs.Calls.{ReachesState};
ghost use Rattle.host_journal.specs.States.{HasState, State};
ghost use Rattle.requests.specs.Cases.{Responds};
ghost use Rattle.sealed_core.specs.Step.{IsCheckedCommand, command_view};
ghost use Rattle.split_http.specs.Places.{IsRouted};
ghost use Rattle.requests.specs.Keeping.{Performs, unrouted_said};
ghost use Rattle.reply_texts.specs.Contents.{content_view};

use crate::commands::command_of;
use crate::settling::settle;
use crate::stepping::step;
use crate::tools::Tools;
use host_journal::{Serving, passing_law};
use reply_texts::{Page, ReplyContent, ServiceRefusal};
use sealed_core::Command;
use split_base::{Disk, Gate, NoMemory};
use split_http::{Head, Route, RouteFault, Routes};
use split_solve::Solver;
use std::thread::Threads;

/// What is said to a request that was read whole, at a moment.
///
/// - A path that no route has and a method that the route does not have are refused, and nothing changes.
/// - Then its body is read. For a creation, a bid or a withdrawal the reply may be that memory ran out, before the host is looked at.
/// - Then a host that waits opens its file again. If that fails, the request ends with it, and the host waits on.
/// - Then the command is answered: its reply is made, with all of its text; its event is kept; and then the reply is said. Only a publication
///   takes memory. The text of any other answer of the host is put on the page.
///
/// A store fault is said only where a call of the disk failed in this request, which is counted once and not tried again. That the file is not
/// a journal is said with the place of its first fault, wherever the disk reveals its bytes, and never on an honest disk. That memory ran out
/// is said with no event of the request. On an honest disk a crash at any moment leaves the events kept before, with or without the one of the
/// request. Neither the workers nor the kept searches change what is said.
pub fn respond<'p, D: Disk, R: Threads + Sync, G: Gate + Sync>(
    tools: &mut Tools<'_, R, G>,
    serving: &mut Serving,
    disk: &mut D,
    head: &Head,
    body: &[u8],
    moment: u64,
    page: &'p mut Page,
) -> ReplyContent<'p>
    ensures responds { (s : State) → HasState D.Disk serving.old disk.old s
        → ReachesState D.Disk serving.new disk.old disk.new s (λ new.
        Responds D.Disk disk.old disk.new head.now body.now moment s new (content_view result)) }

    // These hold whatever state the serving is in.
    ensures count { D.faults disk.old ≤ D.faults disk.new }
    ensures honest { D.is_honest disk.old ↔ D.is_honest disk.new }
{
    passing_law::<D>();
    let route = match route_of(tools.routes, head) {
        Ok(route) => route,
        Err(fault) => return unrouted(fault),
    };
    let Ok(command) = command_of(tools.solver.means.alloc, route, head.key, body) else {
        return ReplyContent::out_of_memory();
    };
    perform(&mut tools.solver, serving, disk, moment, command, page)
}

// Where a request leads.
fn route_of(routes: &Routes, head: &Head) -> Result<Route, RouteFault>
    ensures { IsRouted head.now.verb head.now.path result }
{
    routes.find(head.verb, head.path.as_ref())
}

// What is said if a request leads nowhere.
fn unrouted<'p>(fault: RouteFault) -> ReplyContent<'p>
    ensures { content_view result ≡ unrouted_said fault }
{
    match fault {
        RouteFault::NoRoute => ReplyContent::refused(&ServiceRefusal::NoRoute),
        RouteFault::Method { allow } => ReplyContent::refused_method(allow),
    }
}

// What is said to a command: if the host waits, its file is opened first.
fn perform<'p, D: Disk, R: Threads + Sync, G: Gate + Sync>(
    solver: &mut Solver<'_, R, G>,
    serving: &mut Serving,
    disk: &mut D,
    moment: u64,
    command: Command,
    page: &'p mut Page,
) -> ReplyContent<'p>
    requires command { IsCheckedCommand (command_view command) }
    ensures performed { (s : State) → HasState D.Disk serving.old disk.old s
        → ReachesState D.Disk serving.new disk.old disk.new s (λ new.
        Performs D.Disk disk.old disk.new moment (command_view command) s new
        (content_view result)) }
    ensures count { D.faults disk.old ≤ D.faults disk.new }
    ensures honest { D.is_honest disk.old ↔ D.is_honest disk.new }
{
    passing_law::<D>();
    if let Some(said) = settle(serving, disk) {
        return said;
    }
    step(solver, serving, disk, moment, command, page)
}
