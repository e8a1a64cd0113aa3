// Laws about what the rules of fares show. Each is the contract of a function that only calls other laws.
ghost use Rattle.std.specs.Prelude.{◌≡◌, ℕ, ◌≤◌, All, Contains};
ghost use Rattle.bid_rules.specs.Coalitions.{riders_in};
ghost use Rattle.bid_rules.specs.Facts.{IsValidFareCase};
ghost use Rattle.bid_rules.specs.Fares.{FareBest};
ghost use Rattle.cert_reader.specs.Sets.{starts};
ghost use Rattle.cert_reader.specs.Layout.{FaresView};
ghost use Rattle.best_laws.specs.Entries.{IsDeparture};
ghost use Rattle.fare_rules.specs.Printed.{printed_case, printed_route};
ghost use Rattle.fare_rules.specs.Rules.{rules_of_fares};
ghost use Rattle.rule_verdicts.specs.declared.verdict.Verdict.{Verdict};
ghost use Rattle.rule_verdicts.specs.declared.verdict.Verdict.TheVariants.{Yes};
ghost use Rattle.rule_verdicts.specs.Verdicts.{IsVerdictOf};

use best_laws::{coalition_law, lowest_route_law, route_set_law, without_rider_law};

/// If all rules hold, the printed case is valid, and the printed fares and route are best for it (Shapley 1953). A text has one verdict.
pub fn fares_certificate_law()
    ensures valid { (view : FaresView) → IsVerdictOf (rules_of_fares view) Yes
        → IsValidFareCase (printed_case view) }
    ensures best { (view : FaresView) → IsVerdictOf (rules_of_fares view) Yes
        → FareBest (printed_case view) view.fares (printed_route view) }
    ensures one { (view : FaresView) (verdict other : Verdict)
        → IsVerdictOf (rules_of_fares view) verdict → IsVerdictOf (rules_of_fares view) other
        → verdict ≡ other }
{
    coalition_law();
    without_rider_law();
    route_set_law();
    lowest_route_law();
}

/// The starts of a set of riders among 1 to n: each place of departure is one, each is the origin or one of the n, and none is a rider of the set.
pub fn starts_law()
    ensures listed { (n at set : ℕ) → IsDeparture n at set → Contains (starts n set) at }
    ensures within { (n set : ℕ) → All (λ at. at ≤ n) (starts n set) }
    ensures apart { (n set : ℕ) → All (λ at. Contains (riders_in set) at → ⊥) (starts n set) }
{
    coalition_law();
}
