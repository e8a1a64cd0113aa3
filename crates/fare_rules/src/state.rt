// The judge of a certificate of fares, which takes the lines of sets one at a time, in room that the caller lends.
ghost use Rattle.std.specs.Prelude.{◌≡◌, ℕ, ℤ, ◌+◌, ◌^◌, ◌<◌, ◌≤◌, List, [], ◌∷◌, ◌++◌, length, map, IsTrue, ◌↔◌};
ghost use Rattle.bid_rules.specs.declared.cases.FareCase.{FareCase};
ghost use Rattle.cert_reader.specs.Numbers.{AreShort};
ghost use Rattle.cert_reader.specs.Layout.{FaresView};
ghost use Rattle.fare_rules.specs.Head.{AreCostLines, HasHead, cost_line, head_of};
ghost use Rattle.fare_rules.specs.Entries.{HasLines};
ghost use Rattle.fare_rules.specs.Rules.{HasCase, rules_of_fares};
ghost use Rattle.fare_rules.specs.State.{IsState, StandsFor, costs_of};
ghost use Rattle.fare_rules.specs.Printed.{printed_case};
ghost use Rattle.set_costs.specs.Table.{HoldsCosts, ListsCosts};
ghost use Rattle.split_frac.specs.Frac.{fraction_of};
ghost use Rattle.rule_verdicts.specs.Verdicts.{IsVerdictOf};

use crate::case::{PrintedRow, case_of};
use crate::ending::verdict_of;
use crate::lines::is_line;
use arrayvec::ArrayVec;
use best_laws::{coalition_law, route_set_law, without_rider_law};
use bid_rules::FareCase;
use bid_rules::limits::{LEG_ROW_ROOM, RIDER_ROOM};
use rule_verdicts::Verdict;
use set_costs::{Row, SET_ROOM, next_row, rows_law};
use split_frac::Frac;

/// Room for what the routes of all sets of riders cost, row by row. It is large, so the caller keeps it in one place.
pub type Rows = ArrayVec<Row, SET_ROOM>;

/// How far the judge of a certificate of fares has come, after the head and some lines of sets.
#[derive(Drop)]
pub enum FaresState {
    /// A rule is broken: the first, because the head prints no valid case, or the second, because some line so far is not as it
    /// must be.
    Broken {
        /// The rule, from 1.
        rule: u8,
    },
    /// Neither of these rules is broken so far. The rows hold what the routes of the empty set and of the sets so far cost.
    Filling {
        /// The printed case.
        case: FareCase,
    },
}

/// Begins with the head of a certificate: the number of places, the flag fall, the legs from the origin and from each place, and
/// for each rider the member and the place. What the rows held before doesn't matter.
pub fn start_fares(
    rows: &mut Rows,
    places: u8,
    flag: i128,
    legs: &[PrintedRow],
    who: &[i128],
    at: &[i128],
) -> FaresState
    requires legs { length legs.now ≤ LEG_ROW_ROOM }
    requires who { length who.now ≤ RIDER_ROOM }
    requires at { length at.now ≤ RIDER_ROOM }
    ensures state { IsState result (costs_of rows.new.items) }
    ensures stands { StandsFor
        (head_of places flag (map (λ row. row.items) legs.now) who.now at.now) [] result
        (costs_of rows.new.items) }
{
    rows_law();
    coalition_law();
    let Some(case) = case_of(places, flag, legs, who, at) else {
        return FaresState::Broken { rule: 1 };
    };
    rows.clear();
    rows.push(next_row(&case, &[]));
    FaresState::Filling { case }
}

// Adds the row of the next set, and says whether the line is as it must be.
fn push_row(case: &FareCase, rows: &mut Rows, line: &[i128]) -> bool
    requires lists { ListsCosts case.now (map (λ row. row.items) rows.old.items) }
    requires more { length rows.old.items < 2 ^ length case.now.at.items }
    ensures line { IsTrue result
        ↔ line.now ≡ cost_line case.now (length case.now.at.items) (length rows.old.items) }
    ensures lists { ListsCosts case.now (map (λ row. row.items) rows.new.items) }
    ensures count { length rows.new.items ≡ length rows.old.items + 1 }
{
    rows_law();
    coalition_law();
    let row = next_row(case, rows.as_slice());
    let is_kept = is_line(row.as_slice(), case.at.len() as u8, rows.len() as u16, line);
    rows.push(row);
    is_kept
}

// Takes the line of the next set, and says whether it is as it must be. If all sets have had their lines, it does nothing.
fn fill(case: &FareCase, rows: &mut Rows, line: &[i128]) -> bool
    requires { ListsCosts case.now (map (λ row. row.items) rows.old.items) }
    ensures lists { ListsCosts case.now (map (λ row. row.items) rows.new.items) }
    ensures line { length rows.old.items < 2 ^ length case.now.at.items → IsTrue result
        ↔ line.now ≡ cost_line case.now (length case.now.at.items) (length rows.old.items) }
    ensures count { length rows.old.items < 2 ^ length case.now.at.items
        → length rows.new.items ≡ length rows.old.items + 1 }
{
    rows_law();
    coalition_law();
    if rows.len() >= 1 << case.at.len() {
        return true;
    }
    push_row(case, rows, line)
}

/// Takes the line of the next set, without the number of the set.
pub fn take_set(state: &mut FaresState, rows: &mut Rows, line: &[i128])
    requires { IsState state.old (costs_of rows.old.items) }
    ensures state { IsState state.new (costs_of rows.new.items) }
    ensures stands { (view : FaresView) (taken : List (List ℤ))
        → StandsFor view taken state.old (costs_of rows.old.items)
        → length taken + 1 < 2 ^ length view.at
        → StandsFor view (taken ++ line.now ∷ []) state.new (costs_of rows.new.items) }
{
    let is_kept = match state {
        FaresState::Filling { case } => fill(case, rows, line),
        FaresState::Broken { .. } => true,
    };
    if !is_kept {
        *state = FaresState::Broken { rule: 2 };
    }
}

/// The verdict, once all sets have had their lines: by the printed route, riders from 1 in the order in which they get off, and the
/// printed fares, by rider in cents.
pub fn end_fares(state: &FaresState, rows: &Rows, route: &[i128], fares: &[Frac]) -> Verdict
    requires state { IsState state.now (costs_of rows.now.items) }
    requires short { AreShort fares.now }
    ensures { (view : FaresView)
        → StandsFor view view.sets state.now (costs_of rows.now.items)
        → length view.sets + 1 ≡ 2 ^ length view.at → view.route ≡ route.now
        → view.fares ≡ map fraction_of fares.now → length view.route ≡ length view.at
        → length view.fares ≡ length view.at → IsVerdictOf (rules_of_fares view) result }
{
    without_rider_law();
    coalition_law();
    route_set_law();
    match state {
        FaresState::Broken { rule } => Verdict::No { rule: *rule },
        FaresState::Filling { case } => end_filling(case, rows.as_slice(), route, fares),
    }
}

// The verdict, if no line is broken. Lists of other lengths than the text's do not come from a text.
fn end_filling(case: &FareCase, rows: &[Row], route: &[i128], fares: &[Frac]) -> Verdict
    requires rows { ListsCosts case.now (map (λ row. row.items) rows.now) }
    requires short { AreShort fares.now }
    ensures { length rows.now ≡ 2 ^ length case.now.at.items
        → length route.now ≡ length case.now.at.items → length fares.now ≡ length case.now.at.items
        → (view : FaresView) → HasCase view → case.now ≡ printed_case view
        → HasLines (printed_case view) (length view.at) view.sets → view.route ≡ route.now
        → view.fares ≡ map fraction_of fares.now → IsVerdictOf (rules_of_fares view) result }
{
    coalition_law();
    let count = case.at.len();
    if rows.len() != 1 << count || route.len() != count || fares.len() != count {
        return Verdict::No { rule: 2 };
    }
    verdict_of(case, rows, route, fares)
}
