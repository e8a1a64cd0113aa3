// Laws about fares by the Shapley value as exact fractions: a case has at most one answer, the number of members never changes it, and the fractions stay within their limits.
// Each is the contract of a function that does nothing.
ghost use Rattle.std.specs.Prelude.{◌≡◌, ◌≤◌, ◌+◌, ◌*◌, ◌↔◌, ℕ, List, map};
ghost use Rattle.bid_rules.specs.declared.cases.FareCase.{FareCase};
ghost use Rattle.bid_rules.specs.FareLimits.{most_orders, most_sum};
ghost use Rattle.bid_rules.specs.Fares.{FareBest, IsLeastRoute, coalition_cost, route_cost, sum_of_marginal_costs};
ghost use Rattle.bid_rules.specs.Fractions.{Fraction};
ghost use Rattle.shapley_core.specs.Members.{with_members};
ghost use Rattle.split_frac.specs.Frac.{fraction_of};
ghost use Rattle.split_frac.specs.declared.frac.Frac.{Frac};

use best_laws::best_fares_law;
use bid_rules::limits::MOST_RIDERS;
use split_frac::limits::{MOST_DENOMINATOR, MOST_NUMERATOR};
use split_frac::value_law;

/// A case has at most one best division: two of them have the same fares, as fractions in lowest terms, and the same route.
pub fn division_law()
    ensures fares { (case : FareCase) (fares others : List Frac) (route other : List ℕ)
        → FareBest case (map fraction_of fares) route → FareBest case (map fraction_of others) other
        → fares ≡ others }
    ensures route { (case : FareCase) (fares others : List Frac) (route other : List ℕ)
        → FareBest case (map fraction_of fares) route → FareBest case (map fraction_of others) other
        → route ≡ other }
{
    best_fares_law();
    value_law();
}

/// The number of members never changes what routes and coalitions cost or a rider's marginal costs, and so it never changes the best fares and
/// the route.
pub fn members_law()
    ensures routes { (case : FareCase) (members from : ℕ) (riders : List ℕ)
        → route_cost (with_members case members) from riders ≡ route_cost case from riders }
    ensures costs { (case : FareCase) (members : ℕ) (riders : List ℕ)
        → coalition_cost (with_members case members) riders ≡ coalition_cost case riders }
    ensures sums { (case : FareCase) (members rider : ℕ)
        → sum_of_marginal_costs (with_members case members) rider
        ≡ sum_of_marginal_costs case rider }
    ensures least_route { (case : FareCase) (members : ℕ) (route : List ℕ)
        → IsLeastRoute (with_members case members) route ↔ IsLeastRoute case route }
    ensures best { (case : FareCase) (members : ℕ) (fares : List Fraction) (route : List ℕ)
        → FareBest (with_members case members) fares route ↔ FareBest case fares route }
{}

/// Fares and excesses stay within the limits of fractions: the denominator is at most the number of orders, and the numerator at most what all
/// riders pay over all of them, less a cost.
pub fn fraction_limits_law()
    ensures denominators { most_orders ≤ MOST_DENOMINATOR }
    ensures numerators { most_sum * (MOST_RIDERS + 1) ≤ MOST_NUMERATOR }
{}
