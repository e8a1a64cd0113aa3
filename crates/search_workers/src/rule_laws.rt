// Laws that follow from the rule of any desk. Each is the contract of a function that does nothing.
ghost use Rattle.std.specs.Prelude.{◌≡◌, ◌≢◌, ℕ, ◌+◌, ◌*◌, ◌<◌, ◌≤◌, ◌↔◌, AllPairs, Contains, Option};
ghost use mathlib.Core.Option.{some};
ghost use lib.ListN.{get_elem?};
ghost use Rattle.bid_rules.specs.declared.goods.GoodsCase.{GoodsCase};
ghost use Rattle.bid_rules.specs.declared.limits.TheConstants.{MOST_STEPS};
ghost use Rattle.bid_rules.specs.declared.pair.Pair.{Pair};
ghost use Rattle.nash_bounds.specs.Blocks.{count_block, counted_of_block, tasks_in};
ghost use Rattle.nash_search.specs.Best.{IsFoundBest};
ghost use Rattle.nash_search.specs.declared.found.Found.{Found};
ghost use Rattle.search_workers.specs.declared.limits.TheConstants.{LONGEST_PIECE, MOST_DRAWN, MOST_REPORTED, MOST_TICKETS, MOST_WORKERS};
ghost use Rattle.search_workers.specs.declared.view.DeskView.{DeskView};
ghost use Rattle.search_workers.specs.BlockEnds.{AreWalkedWhole};
ghost use Rattle.search_workers.specs.Desks.{DeskState, IsDesk, all_stops, node_word, ticket_word};
ghost use Rattle.search_workers.specs.Plays.{HasAll};
ghost use Rattle.search_workers.specs.Steps.{begun_desk};
ghost use Rattle.search_workers.specs.Views.{no_worker};
ghost use Rattle.search_workers.specs.Works.{HasWhole, count_of_tickets};

use nash_bounds::tasks_in_row_law;

/// A desk begins within the rule: with both words 0, and one view that accounts for all workers and has done nothing.
pub fn begun_desk_law()
    ensures { (left workers : ℕ) → left ≤ MOST_STEPS → 1 ≤ workers → workers ≤ MOST_WORKERS
        → IsDesk left workers (begun_desk left workers) }
{}

/// Each number below the ticket word is a ticket of exactly one view, which has it once.
pub fn drawn_tickets_law()
    ensures drawn { (left workers ticket : ℕ) (state : DeskState) → IsDesk left workers state
        → ticket < ticket_word state
        → (place : ℕ) × (view : DeskView) × (get_elem? state.views place ≡ some view)
        × Contains view.tickets ticket }
    ensures once { (left workers place : ℕ) (state : DeskState) (view : DeskView)
        → IsDesk left workers state → get_elem? state.views place ≡ some view
        → AllPairs ◌≢◌ view.tickets }
    ensures apart { (left workers place other ticket : ℕ) (state : DeskState) (view seen : DeskView)
        → IsDesk left workers state → get_elem? state.views place ≡ some view
        → get_elem? state.views other ≡ some seen → Contains view.tickets ticket
        → Contains seen.tickets ticket → place ≡ other }
{}

/// Both words stay below bounds that depend on the number of workers, and so stay far below the greatest value of a word. The node word is
/// above what is left exactly when a view has a stop.
pub fn word_limits_law()
    ensures tickets { (left workers : ℕ) (state : DeskState) → IsDesk left workers state
        → ticket_word state ≤ MOST_TICKETS * workers }
    ensures stops { (left workers : ℕ) (state : DeskState) → IsDesk left workers state
        → all_stops state.views ≤ workers }
    ensures nodes { (left workers : ℕ) (state : DeskState) → IsDesk left workers state
        → node_word state ≤ left + LONGEST_PIECE * workers }
    ensures over { (left workers : ℕ) (state : DeskState) → IsDesk left workers state
        → (left < node_word state ↔ 1 ≤ all_stops state.views) }
    ensures most_tickets { (left workers : ℕ) (state : DeskState) → IsDesk left workers state
        → ticket_word state ≤ MOST_DRAWN }
    ensures most_nodes { (left workers : ℕ) (state : DeskState) → IsDesk left workers state
        → node_word state ≤ MOST_REPORTED }
{}

/// If one view accounts for all workers, all others are spent, and it has all tickets, reports and stops.
pub fn whole_view_law()
    ensures others { (left workers place other : ℕ) (state : DeskState) (view seen : DeskView)
        → IsDesk left workers state → get_elem? state.views place ≡ some view → view.allot ≡ workers
        → other ≢ place → get_elem? state.views other ≡ some seen → seen ≡ no_worker }
    ensures tickets { (left workers place : ℕ) (state : DeskState) (view : DeskView)
        → IsDesk left workers state → get_elem? state.views place ≡ some view → view.allot ≡ workers
        → HasAll view (ticket_word state) }
    ensures reports { (left workers place : ℕ) (state : DeskState) (view : DeskView)
        → IsDesk left workers state → get_elem? state.views place ≡ some view → view.allot ≡ workers
        → view.reported ≡ node_word state }
    ensures stops { (left workers place : ℕ) (state : DeskState) (view : DeskView)
        → IsDesk left workers state → get_elem? state.views place ≡ some view → view.allot ≡ workers
        → view.stops ≡ all_stops state.views }
{}

/// If each worker's view has walked the tasks of its tickets whole and has a ticket past the last task, each task of the block has been
/// walked whole, exactly once: only one view has its ticket, and the node word is what the block's tasks count. If the views reported no
/// more than what their tickets' tasks count, the node word is no more than what the block's tasks count.
pub fn walked_block_law()
    ensures drawn { (case : GoodsCase) (floor : Pair) (above : Option Pair) (block left workers : ℕ)
        (state : DeskState) → IsDesk left workers state
        → AreWalkedWhole case floor above block state.views
        → tasks_in case block < ticket_word state }
    ensures each { (case : GoodsCase) (floor : Pair) (above : Option Pair)
        (block left workers ticket : ℕ) (state : DeskState) → IsDesk left workers state
        → AreWalkedWhole case floor above block state.views → ticket < tasks_in case block
        → (place : ℕ) × (view : DeskView) × (get_elem? state.views place ≡ some view)
        × Contains view.tickets ticket
        × ((other : ℕ) (seen : DeskView) → get_elem? state.views other ≡ some seen
        → Contains seen.tickets ticket → other ≡ place) }
    ensures whole { (case : GoodsCase) (floor : Pair) (above : Option Pair) (block left workers : ℕ)
        (state : DeskState) → IsDesk left workers state
        → AreWalkedWhole case floor above block state.views
        → node_word state ≡ count_block case floor above block }
    ensures part { (case : GoodsCase) (floor : Pair) (above : Option Pair) (block left workers : ℕ)
        (state : DeskState) → IsDesk left workers state
        → ((place : ℕ) (view : DeskView) → get_elem? state.views place ≡ some view
        → view.reported ≤ count_of_tickets case floor above block view.tickets)
        → node_word state ≤ count_block case floor above block }
    ensures best { (case : GoodsCase) (floor : Pair) (above : Option Pair)
        (block left workers place : ℕ) (state : DeskState) (view : DeskView) (best : Option Found)
        → IsDesk left workers state → get_elem? state.views place ≡ some view → view.allot ≡ workers
        → HasWhole case floor above block view.tickets view.reported best
        → IsFoundBest case (counted_of_block case floor above block) best }
{
    tasks_in_row_law();
}
