// The links of a port in order.
ghost use Rattle.std.specs.Prelude.{◌≡◌, ◌<◌, ◌≤◌, ◌-◌, ◌⊎◌, ◌↔◌, ℕ, IfOk, IsErr, Ok};
ghost use Rattle.host_journal.specs.States.{State};
ghost use Rattle.split_base.specs.Clocks.{ClockRun};
ghost use Rattle.split_base.specs.Faults.{HasCause, IsCounted};
ghost use Rattle.serving.specs.Ports.{LinkGone, PortServed};
ghost use Rattle.serving.specs.Served.{tells_of};
ghost use Rattle.serving.specs.Serving.{StandsAt, host_service};

use crate::serve_one;
use host_journal::Serving;
use requests::Tools;
use split_base::{Clock, Disk, Failed, Gate, Port};
use std::thread::Threads;

// Serves a link and gives it back, whatever its end.
fn serve_link<D: Disk, P: Port, C: Clock, R: Threads + Sync, G: Gate + Sync>(
    tools: &mut Tools<'_, R, G>,
    serving: &mut Serving,
    disk: &mut D,
    port: &mut P,
    clock: &mut C,
    mut link: P::Link,
)
    ensures served { (w : D × State) → StandsAt D.Disk serving.old disk.old w
        → LinkGone (host_service D.Disk) (tells_of P.Link.Source P.Link.Sink) link
        (P.given_back port.old) (P.given_back port.new) (P.places port.old)
        (ClockRun C.gives C.faults clock.old clock.new) (StandsAt D.Disk serving.new disk.new) w }
    ensures come { P.to_come port.new ≡ P.to_come port.old }
    ensures out { P.out port.new ≡ P.out port.old - 1 }
    ensures stays { P.has_ended port.old ↔ P.has_ended port.new }
    ensures over { P.is_over port.old ↔ P.is_over port.new }
    ensures places { P.places port.new ≡ P.places port.old - 1 }
    ensures asked { P.asked port.new ≡ P.asked port.old }
    ensures faults { P.faults port.new ≡ P.faults port.old }
    ensures clock { C.faults clock.old ≤ C.faults clock.new }
    ensures disk { D.faults disk.old ≤ D.faults disk.new }
    ensures honest { D.is_honest disk.old ↔ D.is_honest disk.new }
{
    let means = tools.solver.means;
    let workers = tools.solver.workers.count();
    let _end = serve_one(
        means.alloc,
        means.rt,
        serving,
        disk,
        &mut link,
        clock,
        tools.routes,
        tools.solver.searches,
        workers,
        means.gate,
    );
    port.done(link);
}

/// Serves `count` links, or fewer only where the port has ended or a call of it failed. It answers their number. Each link is given back,
/// whatever its end, before the port is asked for the next one, and the port is not asked again once it has answered that none comes. It takes no memory but
/// what a request may be refused for.
///
/// `Failed` is returned only where the port's count of faults has risen, by one, and before `count` links were served; no link is asked for again then. `Ok`
/// leaves the count as it is.
pub fn serve<D: Disk, P: Port, C: Clock, R: Threads + Sync, G: Gate + Sync>(
    tools: &mut Tools<'_, R, G>,
    serving: &mut Serving,
    disk: &mut D,
    port: &mut P,
    clock: &mut C,
    count: u64,
) -> Result<u64, Failed>
    requires none_out { P.out port.old ≡ 0 }
    requires goes_on { P.is_over port.old → ⊥ }
    ensures run { (w : D × State) → StandsAt D.Disk serving.old disk.old w
        → (number : ℕ) × (number ≤ count) × (result ≡ Ok number ⊎ (IsErr result × (number < count)))
        × PortServed (host_service D.Disk) (tells_of P.Link.Source P.Link.Sink) (P.to_come port.old)
        (P.to_come port.new) (P.given_back port.old) (P.given_back port.new) (P.places port.old)
        (ClockRun C.gives C.faults clock.old clock.new) (StandsAt D.Disk serving.new disk.new) w
        number }
    ensures few { IfOk result (λ number. number < count → P.has_ended port.new) }
    ensures most { IfOk result (λ number. number ≤ count) }
    ensures out { P.out port.new ≡ 0 }
    ensures asked { P.asked port.new ≡ P.asked port.old }
    ensures cause { HasCause (P.faults port.old) (P.faults port.new) result }
    ensures counted { IsCounted (P.faults port.old) (P.faults port.new) result }

    // Whatever state the serving has.
    ensures clock { C.faults clock.old ≤ C.faults clock.new }
    ensures disk { D.faults disk.old ≤ D.faults disk.new }
    ensures honest { D.is_honest disk.old ↔ D.is_honest disk.new }
{
    for served in 0..count {
        match port.accept() {
            Err(Failed) => return Err(Failed),
            Ok(None) => return Ok(served),
            Ok(Some(link)) => serve_link(tools, serving, disk, port, clock, link),
        }
    }
    Ok(count)
}
