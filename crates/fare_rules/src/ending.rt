// The rules of the route and of the fares, tested once the lines of all sets are right.
ghost use Rattle.std.specs.Prelude.{◌≡◌, ◌≤◌, ◌↔◌, length, map, IsTrue};
ghost use Rattle.cert_reader.specs.Numbers.{AreShort};
ghost use Rattle.cert_reader.specs.Layout.{FaresView};
ghost use Rattle.fare_rules.specs.Entries.{HasLines};
ghost use Rattle.fare_rules.specs.Printed.{printed_case};
ghost use Rattle.fare_rules.specs.Rules.{HasCase, rules_of_fares};
ghost use Rattle.set_costs.specs.Table.{HoldsCosts};
ghost use Rattle.split_frac.specs.Frac.{fraction_of};
ghost use Rattle.rule_verdicts.specs.Verdicts.{IsVerdictOf};

use crate::fares::are_means;
use crate::route::order_of;
use best_laws::{coalition_law, lowest_route_law, route_set_law, without_rider_law};
use bid_rules::FareCase;
use rule_verdicts::Verdict;
use set_costs::{Row, SetCosts, rows_law};
use split_frac::Frac;

// Whether two lists of riders are the same.
fn are_same(riders: &[u8], others: &[u8]) -> bool
    ensures { IsTrue result ↔ riders.now ≡ others.now }
{
    riders == others
}

// The verdict, from the third rule on.
pub(crate) fn verdict_of(case: &FareCase, rows: &[Row], route: &[i128], fares: &[Frac]) -> Verdict
    requires rows { HoldsCosts case.now (map (λ row. row.items) rows.now) }
    requires route { length route.now ≡ length case.now.at.items }
    requires fares { length fares.now ≡ length case.now.at.items }
    requires short { AreShort fares.now }
    ensures { (view : FaresView) → HasCase view → case.now ≡ printed_case view
        → HasLines (printed_case view) (length view.at) view.sets → view.route ≡ route.now
        → view.fares ≡ map fraction_of fares.now → IsVerdictOf (rules_of_fares view) result }
{
    rows_law();
    coalition_law();
    without_rider_law();
    route_set_law();
    lowest_route_law();
    let costs = SetCosts::new(case, rows);
    let count = case.at.len() as u8;
    let Some(order) = order_of(route, count) else {
        return Verdict::No { rule: 3 };
    };
    let least = costs.route();
    if !are_same(order.as_slice(), least.as_slice()) {
        return Verdict::No { rule: 4 };
    }
    if !are_means(&costs, count, fares) {
        return Verdict::No { rule: 5 };
    }
    Verdict::Yes
}
