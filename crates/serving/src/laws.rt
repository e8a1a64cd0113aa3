// Laws about how the host serves a link, and a port link by link: as one list of requests in order, each with its one reply.
// Each is the contract of a function that does nothing.
ghost use Rattle.std.specs.Prelude.{◌++◌, ℕ, List, Option};
ghost use Rattle.host_journal.specs.States.{State};
ghost use Rattle.serving.specs.Ends.{Ending};
ghost use Rattle.serving.specs.Exchanges.{Answered, Exchange, LinkExchanges};
ghost use Rattle.serving.specs.Ports.{PortRun};
ghost use Rattle.serving.specs.Runs.{LinkRun};
ghost use Rattle.serving.specs.Served.{tells_of};
ghost use Rattle.serving.specs.Serving.{host_service};

use split_base::{Disk, Port};

/// The run of a link is a list of requests, each one step of the machine: with its moment, its command, its reply, the state and the disk
/// before and after it, and the bytes that the link got of it. After them the link ends, by a last reply or none. Requests that were answered
/// after others are one list with them.
pub fn link_law<D: Disk>()
    ensures exchanges { (n : ℕ) (all : List ℕ) (answers : List (Option ℕ)) (w : D × State)
        (out : List ℕ) (new : D × State) (end : Ending)
        → LinkRun (host_service D.Disk) n all answers w out new end
        → LinkExchanges (host_service D.Disk) all answers w out new end }
    ensures joined { (w : D × State) (first : List (Exchange (D × State))) (between : D × State)
        (second : List (Exchange (D × State))) (new : D × State)
        → Answered (host_service D.Disk) w first between
        → Answered (host_service D.Disk) between second new
        → Answered (host_service D.Disk) w (first ++ second) new }
{}

/// The run of a port is such a list over all of its links, in order, each request at the state and the disk that the one before it left.
pub fn port_law<D: Disk, P: Port>()
    ensures { (links : List (P.Link × P.Link)) (answers : List (Option ℕ)) (w new : D × State)
        → PortRun (host_service D.Disk) (tells_of P.Link.Source P.Link.Sink) links answers w new
        → (run : List (Exchange (D × State))) × Answered (host_service D.Disk) w run new }
{}
