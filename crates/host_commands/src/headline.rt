// States the main theorem, the law over a whole run of `serve`, as the contract of a function that does nothing.
ghost use Rattle.std.specs.Prelude.{◌≡◌, ◌⊎◌, ℕ, List, Ok, Result};
ghost use Rattle.command_results.specs.declared.stop.Stop.{Stop};
ghost use Rattle.serving.specs.Served.{tells_of};
ghost use Rattle.host_commands.specs.Headline.{HasHeadline, HasNoRun};
ghost use Rattle.host_commands.specs.Serves.{IsOpened, IsUnopened, Serves, served_line};

use bid_rules::case_law;
use cert_checker::certificate_verdict_law;
use certificates::certificate_law;
use host_journal::{events_law, files_law};
use publications::{instance_law, one_publication_law};
use reply_texts::refusal_status_law;
use sealed_core::{machine_law, publication_law};
use serving::link_law;
use serving_laws::{
    accepted_law, acknowledged_law, crash_law, ends_law, handled_law, integrity_law,
};
use split_base::{Clock, Disk, Port};

/// The headline: for every list of connections, bytes and clock moments, the host writes the bytes of one machine of accepted commands: each
/// published division is best for its rule among all divisions of the bids kept, least among equals and the same for every number of workers, its
/// printed certificate passes the checker, and a crash at any moment leaves a prefix of the commands holding each acknowledged one.
///
/// It holds of any run of `serve_port` over a file, a port and a clock, once the file has been opened. If the text says how many links were served,
/// it holds of these, and no call of the port failed; otherwise it holds of those that were served until the port failed, of which there are none if
/// it failed to listen. If the file was not opened, neither the port nor the clock was called.
pub fn headline_law<D: Disk, P: Port, C: Clock>()
    ensures told { (disk after : D) (port port_after : P) (clock clock_after : C)
        (port_number count : ℕ) (text : List ℕ)
        → Serves D.Disk P.Port (tells_of P.Link.Source P.Link.Sink) C.Clock disk after port
        port_after clock clock_after port_number count (Ok text)
        → (number : ℕ) × (text ≡ served_line number)
        × IsOpened P.Port port_number port port_after count number (Ok text)
        × HasHeadline D.Disk P.Port (tells_of P.Link.Source P.Link.Sink) C.Clock disk after port
        port_after clock clock_after number }
    ensures any { (disk after : D) (port port_after : P) (clock clock_after : C)
        (port_number count : ℕ) (ending : Result (List ℕ) Stop)
        → Serves D.Disk P.Port (tells_of P.Link.Source P.Link.Sink) C.Clock disk after port
        port_after clock clock_after port_number count ending
        → (IsUnopened ending × HasNoRun port port_after clock clock_after)
        ⊎ ((number : ℕ) × IsOpened P.Port port_number port port_after count number ending
        × HasHeadline D.Disk P.Port (tells_of P.Link.Source P.Link.Sink) C.Clock disk after port
        port_after clock clock_after number) }
{
    accepted_law::<D>();
    acknowledged_law::<D>();
    case_law();
    certificate_law();
    certificate_verdict_law();
    crash_law::<D>();
    ends_law::<D>();
    events_law();
    files_law::<D>();
    handled_law::<D>();
    instance_law();
    integrity_law::<D>();
    link_law::<D>();
    machine_law();
    one_publication_law();
    publication_law();
    refusal_status_law();
}
