// The heads of a link in order.
ghost use Rattle.std.specs.Prelude.{◌≡◌, ◌≤◌, ◌↔◌, ◌||◌, ℕ, Option, IsSome, Some, true};
ghost use Rattle.host_journal.specs.States.{State};
ghost use Rattle.search_workers.specs.declared.limits.TheConstants.{MOST_WORKERS};
ghost use Rattle.split_base.specs.Clocks.{ClockRun};
ghost use Rattle.serving.specs.declared.limits.TheConstants.{MAX_REQUESTS};
ghost use Rattle.serving.specs.Runs.{LinkRun};
ghost use Rattle.serving.specs.Served.{CountsServed, HeadServed, RanTo, with_carry, link_view, tells_of};
ghost use Rattle.serving.specs.Serving.{StandsAt, host_service};

use crate::replies::{refusal_said, write_said};
use crate::turns::is_head;
use crate::{Heard, LinkEnd, MAX_REQUESTS, hear};
use host_journal::Serving;
use reply_texts::Page;
use requests::{Tools, respond};
use search_workers::{Means, Workers};
use split_base::{Clock, Disk, Gate, Link};
use split_http::{Carry, Head, Routes};
use split_solve::{KeptSearches, Solver};
use std::alloc::Global;
use std::thread::Threads;

// Serves the next head. None where the link goes on, which it does not after the last one.
fn serve_head<D: Disk, L: Link, C: Clock, R: Threads + Sync, G: Gate + Sync>(
    tools: &mut Tools<'_, R, G>,
    serving: &mut Serving,
    disk: &mut D,
    link: &mut L,
    clock: &mut C,
    carry: &mut Carry,
    page: &mut Page,
    last: bool,
) -> Option<LinkEnd>
    ensures says { (w : D × State) → StandsAt D.Disk serving.old disk.old w
        → HeadServed (host_service D.Disk)
        (with_carry carry.old (link_view (tells_of L.Source L.Sink) link.old)) carry.new
        (link_view (tells_of L.Source L.Sink) link.new)
        (ClockRun C.gives C.faults clock.old clock.new) (StandsAt D.Disk serving.new disk.new) last
        w result }
    ensures ends { last ≡ true → IsSome result }
    ensures counts { CountsServed (link_view (tells_of L.Source L.Sink) link.old)
        (link_view (tells_of L.Source L.Sink) link.new) result }
    ensures reads { L.Source.faults link.old ≤ L.Source.faults link.new }
    ensures writes { L.Sink.faults link.old ≤ L.Sink.faults link.new }
    ensures clock { C.faults clock.old ≤ C.faults clock.new }
    ensures disk { D.faults disk.old ≤ D.faults disk.new }
    ensures honest { D.is_honest disk.old ↔ D.is_honest disk.new }
{
    match hear(tools.solver.means.alloc, link, clock, carry) {
        Heard::Quiet(end) => Some(end),
        Heard::Refused {
            refusal,
            answer,
            bodiless,
        } => write_said(link, &refusal_said(refusal), answer, bodiless, true),
        Heard::Request { head, body, moment } => {
            let said = respond(tools, serving, disk, &head, &body, moment, page);
            let bodiless = is_head(head.verb);
            write_said(link, &said, Some(moment), bodiless, closes(&head, last))
        }
    }
}

// Whether the connection is closed after the reply to this head.
fn closes(head: &Head, last: bool) -> bool
    ensures { result ≡ (head.now.closes || last) }
{
    head.closes || last
}

/// Serves one connection: its heads in order, at most `MAX_REQUESTS` of them, each at one answer of the clock and with one reply. It takes no
/// memory but what a head or a request may be refused for. No write is empty.
///
/// - `Ended`: no byte was left where a head would begin, or the last reply was written, closed the connection and was not a memory reply.
/// - `Cut`: the input ended within a body. Nothing is replied to its head.
/// - `LinkFault` comes only where one of the link's two counts of faults has risen, by one. The link got a first part of the bytes due. A read
///   is made only while the bytes that came since the last request may still become a head, as the parser reads them, or hold less than the
///   body of one: all others are answered first.
/// - `Memory`: a memory reply was the last, and was written.
///
/// Goods are searched by 1 to `MOST_WORKERS` workers, unless a kept search is of the same case. Neither they nor the kept searches change
/// what is written.
#[allow(clippy::too_many_arguments)]
pub fn serve_one<'a, D: Disk, L: Link, C: Clock, R: Threads + Sync, G: Gate + Sync>(
    alloc: Global,
    rt: &'a R,
    serving: &mut Serving,
    disk: &mut D,
    link: &mut L,
    clock: &mut C,
    routes: &'a Routes,
    searches: &'a mut KeptSearches,
    workers: u8,
    gate: &'a G,
) -> LinkEnd
    requires { (1 ≤ workers) × (workers ≤ MOST_WORKERS) }
    ensures run { (w : D × State) → StandsAt D.Disk serving.old disk.old w
        → RanTo (LinkRun (host_service D.Disk) MAX_REQUESTS)
        (link_view (tells_of L.Source L.Sink) link.old)
        (link_view (tells_of L.Source L.Sink) link.new)
        (ClockRun C.gives C.faults clock.old clock.new) (StandsAt D.Disk serving.new disk.new) w
        result }

    // Whatever state the serving has.
    ensures counts { CountsServed (link_view (tells_of L.Source L.Sink) link.old)
        (link_view (tells_of L.Source L.Sink) link.new) (Some result) }
    ensures reads { L.Source.faults link.old ≤ L.Source.faults link.new }
    ensures writes { L.Sink.faults link.old ≤ L.Sink.faults link.new }
    ensures empty { L.Sink.empty_writes link.new ≡ L.Sink.empty_writes link.old }
    ensures clock { C.faults clock.old ≤ C.faults clock.new }
    ensures disk { D.faults disk.old ≤ D.faults disk.new }
    ensures honest { D.is_honest disk.old ↔ D.is_honest disk.new }
{
    let means = Means { alloc, rt, gate };
    let solver = Solver {
        means: &means,
        workers: Workers::new(workers),
        searches,
    };
    let mut tools = Tools { solver, routes };
    let mut carry = Carry::new();
    let mut page = Page::blank();
    let mut left = MAX_REQUESTS;
    loop {
        left -= 1;
        let last = left == 0;
        match serve_head(
            &mut tools, serving, disk, link, clock, &mut carry, &mut page, last,
        ) {
            Some(end) => return end,
            None => {}
        }
    }
}
