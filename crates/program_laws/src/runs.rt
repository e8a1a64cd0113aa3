// A law over the whole: what a fetch says of each certificate that a run of the host sends.
ghost use Rattle.std.specs.Prelude.{ℕ};
ghost use Rattle.host_commands.specs.Headline.{Headline};
ghost use Rattle.host_commands.specs.Links.{Every};
ghost use Rattle.host_journal.specs.States.{State};
ghost use Rattle.serving.specs.Served.{tells_of};
ghost use Rattle.program_laws.specs.Certificates.{IsOfCertificates, IsYes, IsYesOnly};

use crate::replies::host_reply_law;
use split_base::{Clock, Disk, Port};

/// In every run of a host, whatever its disk, its connections, their bytes and the moments of the clock were: each certificate that is sent in reply to a GET
/// is one to which a fetch says yes, and nothing else, unless a call on its link failed.
pub fn host_certificates_law<D: Disk, P: Port, C: Clock>()
    ensures yes { (disk after : D) (begun : D × State) (port port_after : P) (clock clock_after : C)
        (number : ℕ)
        → (host : Headline D.Disk P.Port (tells_of P.Link.Source P.Link.Sink) C.Clock disk begun
        after port port_after clock clock_after number) → Every (IsOfCertificates IsYes) host.run }
    ensures only { (disk after : D) (begun : D × State) (port port_after : P)
        (clock clock_after : C) (number : ℕ)
        → (host : Headline D.Disk P.Port (tells_of P.Link.Source P.Link.Sink) C.Clock disk begun
        after port port_after clock clock_after number)
        → Every (IsOfCertificates IsYesOnly) host.run }
{
    host_reply_law();
}
