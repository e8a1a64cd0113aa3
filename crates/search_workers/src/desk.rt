// The desk at which workers draw whole tasks and report what they counted, by single steps of an atomic table.
ghost use Rattle.std.specs.Prelude.{◌≡◌, ℕ, ◌+◌, ◌-◌, ◌<◌, ◌≤◌, ◌*◌, length, All, [], IfOk, false, nat_lt};
ghost use Rattle.search_workers.specs.Desks.{IsAt};
ghost use Rattle.search_workers.specs.Plays.{HasAll, IsReported};
ghost use Rattle.search_workers.specs.Views.{with_ticket, fewer, idle_worker, sum_of_views, whole};

use crate::limits::{LONGEST_PIECE, MOST_TICKETS, MOST_WORKERS};
use crate::plays::{Both, Cut, DeskRule, Draw, Learn, Tell};
use crate::view::{DeskSize, DeskView};
use atomic_table::{Seat, Table};
use bid_rules::limits::MOST_STEPS;
use std::alloc::{AllocError, Global};

/// The desk at which the workers of a block draw tickets and report what they counted: a ticket word and a node word.
pub type Desk = Table<(), DeskView, DeskSize, DeskRule, Global>;

/// A worker's seat at a desk.
pub type DeskSeat = Seat<(), DeskView>;

// The place of the ticket word.
const TICKETS: usize = 0;

// The place of the node word.
const NODES: usize = 1;

/// A desk with both words 0, and a seat that accounts for all workers.
pub fn open_desk(alloc: Global, size: &DeskSize) -> Result<(Desk, DeskSeat), AllocError>
    requires left { size.now.left ≤ MOST_STEPS }
    requires workers { (1 ≤ size.now.workers) × (size.now.workers ≤ MOST_WORKERS) }
    ensures of { IfOk result (λ opened. IsAt opened.1.table_id opened.0.shared.table_id) }
    ensures view { IfOk result (λ opened.
        opened.1.me ≡ (whole size.now.left size.now.workers, [])) }
    ensures key { IfOk result (λ opened. opened.0.shared.key ≡ size.now) }
{
    Desk::of_words(alloc, &[0, 0], size)
}

/// Draws the next ticket, which is above every ticket that the seat had before.
pub fn draw(desk: &Desk, seat: &mut DeskSeat) -> u64
    requires of { IsAt seat.old.table_id desk.now.shared.table_id }
    requires room { length seat.old.me.0.tickets < MOST_TICKETS * seat.old.me.0.allot }
    ensures seat { (seat.new.table_id ≡ seat.old.table_id) × (seat.new.id ≡ seat.old.id) }
    ensures view { seat.new.me ≡ (with_ticket seat.old.me.0 result, seat.old.me.1) }
    ensures above { All (λ ticket. ticket < result) seat.old.me.0.tickets }
{
    desk.shared.fetch_add::<Draw>(seat, TICKETS, 1)
}

/// Reports counted prefixes, and says whether the node word is now above what is left.
///
/// `left` is the seat's number. If the answer is true, it is kept as a stop in the seat's view.
pub fn report(desk: &Desk, seat: &mut DeskSeat, count: u16, left: u32) -> bool
    requires of { IsAt seat.old.table_id desk.now.shared.table_id }
    requires count { (1 ≤ count) × (count ≤ LONGEST_PIECE) }
    requires room { seat.old.me.0.stops < seat.old.me.0.allot }
    requires left { left ≡ seat.old.me.0.left }
    ensures seat { (seat.new.table_id ≡ seat.old.table_id) × (seat.new.id ≡ seat.old.id)
        × (seat.new.me.1 ≡ seat.old.me.1) }
    ensures view { (found : ℕ) × IsReported seat.old.me.0 count found seat.new.me.0
        × (result ≡ nat_lt left (found + count)) }
    ensures within { result ≡ false → seat.new.me.0.reported ≤ left }
    ensures most { seat.new.me.0.reported ≤ left + LONGEST_PIECE * seat.new.me.0.workers }
{
    let count = u64::from(count);
    let found = desk.shared.fetch_add::<Tell>(seat, NODES, count);
    found + count > u64::from(left)
}

/// A seat for one worker, whom the first seat then no longer accounts for.
pub fn split_desk(desk: &Desk, seat: &mut DeskSeat) -> DeskSeat
    requires of { IsAt seat.old.table_id desk.now.shared.table_id }
    requires allot { 2 ≤ seat.old.me.0.allot }
    requires tickets { length seat.old.me.0.tickets ≤ MOST_TICKETS * (seat.old.me.0.allot - 1) }
    requires stops { seat.old.me.0.stops ≤ seat.old.me.0.allot - 1 }
    ensures seat { (seat.new.table_id ≡ seat.old.table_id) × (seat.new.id ≡ seat.old.id)
        × (seat.new.me ≡ (fewer seat.old.me.0, seat.old.me.1)) }
    ensures new { (result.table_id ≡ seat.old.table_id)
        × (result.me ≡ (idle_worker seat.old.me.0, [])) }
{
    desk.shared.split_seat::<Cut>(seat)
}

/// Puts the second seat's view into the first.
pub fn join_desk(desk: &Desk, seat: &mut DeskSeat, other: DeskSeat)
    requires of { IsAt seat.old.table_id desk.now.shared.table_id }
    requires other { (other.table_id ≡ desk.now.shared.table_id) × (other.me.1 ≡ []) }
    requires stands { 1 ≤ seat.old.me.0.allot }
    ensures seat { (seat.new.table_id ≡ seat.old.table_id) × (seat.new.id ≡ seat.old.id) }
    ensures view { seat.new.me ≡ (sum_of_views seat.old.me.0 other.me.0, seat.old.me.1) }
{
    desk.shared.join_seat::<Both>(seat, other);
}

/// The ticket word, as seen by the seat that accounts for all workers: that seat has all tickets and reports.
pub fn learn(desk: &Desk, seat: &mut DeskSeat) -> u64
    requires of { IsAt seat.old.table_id desk.now.shared.table_id }
    requires all { (1 ≤ seat.old.me.0.allot) × (seat.old.me.0.allot ≡ seat.old.me.0.workers) }
    ensures seat { (seat.new.table_id ≡ seat.old.table_id) × (seat.new.id ≡ seat.old.id)
        × (seat.new.me ≡ seat.old.me) }
    ensures all { HasAll seat.old.me.0 result }
{
    desk.shared.load::<Learn>(seat, TICKETS)
}
