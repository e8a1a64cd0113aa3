// Laws about the lines of canonical certificates of fares, which hold for all cases. Each is the contract of a function that does
// nothing.
ghost use Rattle.std.specs.Prelude.{◌≡◌};
ghost use Rattle.bid_rules.specs.declared.cases.FareCase.{FareCase};
ghost use Rattle.bid_rules.specs.declared.limits.TheConstants.{MOST_RIDERS};
ghost use Rattle.bid_rules.specs.Facts.{IsValidFareCase};
ghost use Rattle.certificates.specs.FareLines.{canonical_fares};
ghost use Rattle.fare_rules.specs.Rules.{rules_of_fares};
ghost use Rattle.fare_rules.specs.Printed.{printed_case};
ghost use Rattle.shapley_core.specs.Division.{IsFareDivision};
ghost use Rattle.shapley_core.specs.Members.{with_members};
ghost use Rattle.shapley_core.specs.declared.division.FareDivision.{FareDivision};
ghost use Rattle.rule_verdicts.specs.declared.verdict.Verdict.TheVariants.{Yes};
ghost use Rattle.rule_verdicts.specs.Verdicts.{IsVerdictOf};

use best_laws::{coalition_law, lowest_route_law, orders_law, route_set_law, without_rider_law};
use fare_rules::starts_law;
use shapley_core::members_law;

/// The lines for the solver's division print the case, with the greatest possible number of members, and keep all rules.
pub fn fare_lines_law()
    ensures case { (case : FareCase) (division : FareDivision)
        → printed_case (canonical_fares case division) ≡ with_members case MOST_RIDERS }
    ensures passes { (case : FareCase) (division : FareDivision) → IsValidFareCase case
        → IsFareDivision case division
        → IsVerdictOf (rules_of_fares (canonical_fares case division)) Yes }
{
    coalition_law();
    lowest_route_law();
    members_law();
    orders_law();
    route_set_law();
    starts_law();
    without_rider_law();
}
