// States when two runs of `serve` write the same to their links, as the contract of a function that does nothing.
ghost use Rattle.std.specs.Prelude.{◌≡◌, ◌++◌, ℕ, List, Option, Result};
ghost use Rattle.command_results.specs.declared.stop.Stop.{Stop};
ghost use Rattle.host_commands.specs.Headline.{Headline};
ghost use Rattle.host_commands.specs.SameRuns.{AllGotAlike, AllStartAlike, HasServed, IsUndisturbed};
ghost use Rattle.host_commands.specs.Serves.{Serves};
ghost use Rattle.host_journal.specs.States.{State};
ghost use Rattle.serving.specs.Served.{tells_of};

use host_journal::events_law;
use publications::{instance_law, one_publication_law};
use sealed_core::machine_law;
use serving::link_law;
use serving_laws::{ends_law, writing_law};
use split_base::{Clock, Disk, Port};

/// Two runs of a host write the same bytes to each link, where their files had the same bytes, their links, pair by pair, bring the same bytes, and the
/// answers of their clocks are the same as far as both take some; where no call of a disk or of a link failed, and memory sufficed. They come to one
/// state, and take as many answers of the clock. Nothing else changes what is written: not the number of workers, nor the pieces in which bytes
/// come, nor how long a search takes.
///
/// So it is of any two calls of `serve_port`, with whatever workers, by its clause `serves`, where no call of the port failed either: each link gets the
/// same bytes, and both come to one text.
///
/// A clock may fail in both, at the same of its answers.
pub fn one_run_law<D: Disk, P: Port, C: Clock>()
    ensures runs { (disk other : D) (begun start : D × State) (after last : D)
        (port port_after twin twin_after : P) (clock clock_after watch watch_after : C)
        (number count : ℕ) (more besides : List (Option ℕ))
        → (one : Headline D.Disk P.Port (tells_of P.Link.Source P.Link.Sink) C.Clock disk begun
        after port port_after clock clock_after number)
        → (two : Headline D.Disk P.Port (tells_of P.Link.Source P.Link.Sink) C.Clock other start
        last twin twin_after watch watch_after count) → D.is_honest disk → D.is_honest other
        → D.seen disk ≡ D.seen other
        → AllStartAlike (tells_of P.Link.Source P.Link.Sink) one.links two.links
        → one.answers ++ more ≡ two.answers ++ besides
        → IsUndisturbed D.Disk (tells_of P.Link.Source P.Link.Sink) one.links one.answers begun
        one.run one.ended one.written
        → IsUndisturbed D.Disk (tells_of P.Link.Source P.Link.Sink) two.links two.answers start
        two.run two.ended two.written
        → AllGotAlike (tells_of P.Link.Source P.Link.Sink) one.links two.links
        × (one.ended.1 ≡ two.ended.1) × (one.answers ≡ two.answers) }
    ensures calls { (disk other after last : D) (port port_after twin twin_after : P)
        (clock clock_after watch watch_after : C) (port_number twin_number count most : ℕ)
        (ending another : Result (List ℕ) Stop)
        → (one : Serves D.Disk P.Port (tells_of P.Link.Source P.Link.Sink) C.Clock disk after port
        port_after clock clock_after port_number count ending)
        → (two : Serves D.Disk P.Port (tells_of P.Link.Source P.Link.Sink) C.Clock other last twin
        twin_after watch watch_after twin_number most another) → D.is_honest disk
        → D.is_honest other → D.seen disk ≡ D.seen other
        → (links others : List (P.Link × P.Link)) (answers turns more besides : List (Option ℕ))
        → HasServed one links answers → HasServed two others turns
        → AllStartAlike (tells_of P.Link.Source P.Link.Sink) links others
        → answers ++ more ≡ turns ++ besides
        → AllGotAlike (tells_of P.Link.Source P.Link.Sink) links others × (ending ≡ another) }
{
    ends_law::<D>();
    events_law();
    instance_law();
    link_law::<D>();
    machine_law();
    one_publication_law();
    writing_law::<D>();
}
