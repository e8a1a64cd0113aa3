// Serves the links of a port from the file of a host.
ghost use Rattle.std.specs.Prelude.{◌≡◌, ◌≤◌, ◌↔◌};
ghost use Rattle.command_results.specs.Endings.{ending_of};
ghost use Rattle.host_journal.specs.States.{State};
ghost use Rattle.serving.specs.Served.{tells_of};
ghost use Rattle.split_base.specs.Asked.{asked_again};
ghost use Rattle.serving.specs.Serving.{StandsAt};
ghost use Rattle.host_commands.specs.Serves.{Serves, ServesOpened};

use crate::opening::{open_file, stop_of};
use command_results::{Stop, Text};
use host_journal::Serving;
use requests::Tools;
use search_workers::{Means, Workers};
use serving::serve;
use split_base::{Clock, Disk, Failed, Gate, Port};
use split_http::Routes;
use split_solve::{KeptSearches, Solver};
use std::thread::Threads;

/// Opens the file of a host, listens at the port with this number, and serves `count` links, or fewer only if no more links come. The text says how many were
/// served. Each link is given back, whatever its end, before the port is asked for the next one, and the port is not asked again once it has answered that no
/// more come. So it must have no link out at the start, and it has none at the end.
///
/// - `BadJournal` is returned exactly when the file is not a journal, with the place of its first fault.
/// - `StoreFault` is returned only if the disk's count of faults has risen, by one, in the opening. A fault of the disk within a request is reported in that
///   request's reply and doesn't stop the command.
/// - `PortFault` is returned only if the port's count of faults has risen, by one: it failed to listen, or to hand out one more link.
/// - `NoMemory` is returned only where memory runs out, and only before the port listens.
///
/// There are no other stops. Before the file is opened neither the port nor the clock is called. Goods are searched by the workers, and the last searches are
/// kept, so that a closed round is not searched for each request. Neither changes what is written.
pub fn serve_port<D: Disk, P: Port, C: Clock, R: Threads + Sync, G: Gate + Sync>(
    means: &Means<'_, R, G>,
    workers: Workers,
    disk: &mut D,
    port: &mut P,
    clock: &mut C,
    number: u16,
    count: u64,
) -> Result<Text, Stop>
    requires { P.out port.old ≡ 0 }
    ensures serves { Serves D.Disk P.Port (tells_of P.Link.Source P.Link.Sink) C.Clock disk.old
        disk.new port.old port.new clock.old clock.new number count (ending_of result) }
    ensures disk { D.faults disk.old ≤ D.faults disk.new }
    ensures honest { D.is_honest disk.old ↔ D.is_honest disk.new }
    ensures out { P.out port.new ≡ 0 }
    ensures port { P.faults port.old ≤ P.faults port.new }
    ensures clock { C.faults clock.old ≤ C.faults clock.new }
{
    let routes = Routes::new(means.alloc)?;
    match open_file(means.alloc, disk) {
        Err(fault) => Err(stop_of(fault)),
        Ok(serving) => {
            let mut searches = KeptSearches::new(means.alloc);
            let solver = Solver {
                means,
                workers,
                searches: &mut searches,
            };
            let mut tools = Tools {
                solver,
                routes: &routes,
            };
            serve_opened(&mut tools, serving, disk, port, clock, number, count)
        }
    }
}

// Listens, and serves the links of the port by a host whose file was opened.
fn serve_opened<D: Disk, P: Port, C: Clock, R: Threads + Sync, G: Gate + Sync>(
    tools: &mut Tools<'_, R, G>,
    mut serving: Serving,
    disk: &mut D,
    port: &mut P,
    clock: &mut C,
    number: u16,
    count: u64,
) -> Result<Text, Stop>
    requires { P.out port.old ≡ 0 }
    ensures serves { (w : D × State) → StandsAt D.Disk serving disk.old w
        → ServesOpened D.Disk P.Port (tells_of P.Link.Source P.Link.Sink) C.Clock w disk.new
        port.old port.new clock.old clock.new number count (ending_of result) }
    ensures asked { P.asked port.new ≡ asked_again number (P.asked port.old) }
    ensures disk { D.faults disk.old ≤ D.faults disk.new }
    ensures honest { D.is_honest disk.old ↔ D.is_honest disk.new }
    ensures out { P.out port.new ≡ 0 }
    ensures port { P.faults port.old ≤ P.faults port.new }
    ensures clock { C.faults clock.old ≤ C.faults clock.new }
{
    match port.listen(number) {
        Err(Failed) => Err(Stop::PortFault),
        Ok(()) => match serve(tools, &mut serving, disk, port, clock, count) {
            Err(Failed) => Err(Stop::PortFault),
            Ok(served) => Ok(Text::served(served)),
        },
    }
}
