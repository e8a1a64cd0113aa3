// Laws about what the four kinds of step do to any desk. Each is the contract of a function that does nothing.
ghost use Rattle.std.specs.Prelude.{◌≡◌, ◌≢◌, ℕ, ◌+◌, ◌-◌, ◌*◌, ◌<◌, ◌≤◌, All, length, slice_set};
ghost use mathlib.Core.Option.{some};
ghost use lib.ListN.{get_elem?};
ghost use Rattle.search_workers.specs.declared.view.DeskView.{DeskView};
ghost use Rattle.search_workers.specs.Desks.{DeskState, IsDesk, all_allots, all_reported, all_stops, all_tickets, node_word, ticket_word};
ghost use Rattle.search_workers.specs.Steps.{after_draw, after_join, after_report, after_split};
ghost use Rattle.search_workers.specs.Views.{sum_of_views, stop_of};
ghost use Rattle.search_workers.specs.declared.limits.TheConstants.{LONGEST_PIECE, MOST_TICKETS};

/// A draw, by a view with room for a ticket, keeps the rule. It adds the ticket word, which is above all of the view's tickets, to the
/// tickets, and no other total changes.
pub fn draw_law()
    ensures keeps { (left workers place : ℕ) (state : DeskState) (view : DeskView)
        → IsDesk left workers state → get_elem? state.views place ≡ some view
        → length view.tickets < MOST_TICKETS * view.allot
        → IsDesk left workers (after_draw state place view) }
    ensures above { (left workers place : ℕ) (state : DeskState) (view : DeskView)
        → IsDesk left workers state → get_elem? state.views place ≡ some view
        → All (λ ticket. ticket < ticket_word state) view.tickets }
    ensures tickets { (place : ℕ) (state : DeskState) (view : DeskView) (weight : ℕ → ℕ)
        → get_elem? state.views place ≡ some view
        → all_tickets weight (after_draw state place view).views
        ≡ all_tickets weight state.views + weight (ticket_word state) }
    ensures others { (place : ℕ) (state : DeskState) (view : DeskView)
        → get_elem? state.views place ≡ some view
        → (all_reported (after_draw state place view).views ≡ all_reported state.views)
        × (all_stops (after_draw state place view).views ≡ all_stops state.views)
        × (all_allots (after_draw state place view).views ≡ all_allots state.views) }
{}

/// A report of a piece, by a view with fewer stops than workers, keeps the rule. It adds the piece to what is reported, and a stop if the
/// node word is then above what is left.
pub fn report_law()
    ensures keeps { (left workers place count : ℕ) (state : DeskState) (view : DeskView)
        → IsDesk left workers state → get_elem? state.views place ≡ some view → 1 ≤ count
        → count ≤ LONGEST_PIECE → view.stops < view.allot
        → IsDesk left workers (after_report state place view count) }
    ensures reported { (place count : ℕ) (state : DeskState) (view : DeskView)
        → get_elem? state.views place ≡ some view
        → all_reported (after_report state place view count).views
        ≡ all_reported state.views + count }
    ensures stops { (place count : ℕ) (state : DeskState) (view : DeskView)
        → get_elem? state.views place ≡ some view
        → all_stops (after_report state place view count).views
        ≡ all_stops state.views + stop_of view.left (node_word state + count) }
    ensures others { (place count : ℕ) (state : DeskState) (view : DeskView) (weight : ℕ → ℕ)
        → get_elem? state.views place ≡ some view
        → (all_tickets weight (after_report state place view count).views
        ≡ all_tickets weight state.views)
        × (all_allots (after_report state place view count).views ≡ all_allots state.views) }
{}

/// Splitting a view that accounts for two workers or more and leaves room for what it has keeps the rule. No total changes.
pub fn split_law()
    ensures keeps { (left workers place : ℕ) (state : DeskState) (view : DeskView)
        → IsDesk left workers state → get_elem? state.views place ≡ some view → 2 ≤ view.allot
        → length view.tickets ≤ MOST_TICKETS * (view.allot - 1) → view.stops ≤ view.allot - 1
        → IsDesk left workers (after_split state place view) }
    ensures same { (place : ℕ) (state : DeskState) (view : DeskView) (weight : ℕ → ℕ)
        → get_elem? state.views place ≡ some view → 1 ≤ view.allot
        → (all_tickets weight (after_split state place view).views ≡ all_tickets weight state.views)
        × (all_reported (after_split state place view).views ≡ all_reported state.views)
        × (all_stops (after_split state place view).views ≡ all_stops state.views)
        × (all_allots (after_split state place view).views ≡ all_allots state.views) }
{}

/// Joining a view that is not spent with another keeps the rule. No total changes.
pub fn join_law()
    ensures keeps { (left workers place from : ℕ) (state : DeskState) (view other : DeskView)
        → IsDesk left workers state → get_elem? state.views place ≡ some view → from ≢ place
        → get_elem? (slice_set state.views place (sum_of_views view other)) from ≡ some other
        → 1 ≤ view.allot → IsDesk left workers (after_join state place view from other) }
    ensures same { (place from : ℕ) (state : DeskState) (view other : DeskView) (weight : ℕ → ℕ)
        → get_elem? state.views place ≡ some view
        → get_elem? (slice_set state.views place (sum_of_views view other)) from ≡ some other
        → (all_tickets weight (after_join state place view from other).views
        ≡ all_tickets weight state.views)
        × (all_reported (after_join state place view from other).views ≡ all_reported state.views)
        × (all_stops (after_join state place view from other).views ≡ all_stops state.views)
        × (all_allots (after_join state place view from other).views ≡ all_allots state.views) }
{}
