// What holds of all cases, of each kind: each law is the contract of a function that does nothing.
ghost use Rattle.std.specs.Prelude.{List, ℕ, ◌≤◌};
ghost use Rattle.bid_rules.specs.declared.cases.Case.TheVariants as case;
ghost use Rattle.bid_rules.specs.declared.cases.FareCase.{FareCase};
ghost use Rattle.bid_rules.specs.declared.goods.GoodsCase.{GoodsCase};
ghost use Rattle.bid_rules.specs.declared.rents.RentCase.{RentCase};
ghost use Rattle.bid_rules.specs.Facts.{IsValidFareCase};
ghost use Rattle.bid_rules.specs.Goods.{GoodsBest, IsValidGoodsCase};
ghost use Rattle.bid_rules.specs.Rent.{IsValidRentCase};
ghost use Rattle.certificates.specs.Division.{IsDivisionOf};
ghost use Rattle.certificates.specs.declared.division.Division.{Division};
ghost use Rattle.nash_search.specs.Division.{HasSteps};

use best_laws::{
    assignment_law, best_fares_law, best_rent_law, coalition_law, key_law, marginal_set_law,
    price_range_law, route_cost_law, shown_rent_law, walk_law,
};
use bid_rules::rent_value_law;
use nash_bounds::{owners_by_good_law, serving_law};
use split_frac::{quotient_law, value_law};

/// Each valid case of a rent or of fares has a division, and each valid case of goods a best allocation, by the rule of its kind: a rent has
/// envy-free prices that no others exceed in their least utility (Gal, Mash, Procaccia and Zick 2016), goods an allocation of maximum Nash
/// welfare (Caragiannis and others 2016), fares the mean marginal costs (Shapley 1953), with the tie rule of each. A valid case of goods whose
/// step count is within its limit has a division, too.
///
/// A division has all numbers that its certificate shows, and its amounts are fractions in lowest terms.
pub fn some_best_law()
    ensures rent { (rent : RentCase) → IsValidRentCase rent
        → (division : Division) × IsDivisionOf (case.Rent rent) division }
    ensures goods { (goods : GoodsCase) → IsValidGoodsCase goods
        → (owners : List ℕ) × GoodsBest goods owners }
    ensures within_limit { (goods : GoodsCase) (steps : ℕ) → IsValidGoodsCase goods
        → HasSteps goods steps → steps ≤ goods.facts.limit
        → (division : Division) × IsDivisionOf (case.Goods goods) division }
    ensures fares { (fares : FareCase) → IsValidFareCase fares
        → (division : Division) × IsDivisionOf (case.Fares fares) division }
{
    assignment_law();
    best_fares_law();
    best_rent_law();
    coalition_law();
    key_law();
    marginal_set_law();
    owners_by_good_law();
    price_range_law();
    quotient_law();
    rent_value_law();
    route_cost_law();
    serving_law();
    shown_rent_law();
    value_law();
    walk_law();
}
