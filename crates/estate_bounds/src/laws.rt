// What closes a prefix, and why. These laws hold for all cases; each is the contract of a function that does nothing.
ghost use Rattle.std.specs.Prelude.{true, false, ◌≡◌, ℕ, ◌+◌, ◌*◌, ◌^◌, ◌≤◌, List, ◌++◌, Bool, length, sum, All};
ghost use Rattle.bid_rules.specs.declared.goods.GoodsCase.{GoodsCase};
ghost use Rattle.bid_rules.specs.declared.pair.Pair.{Pair};
ghost use Rattle.bid_rules.specs.Pairs.{IsAtMost, IsLess, positives, product};
ghost use Rattle.bid_rules.specs.Goods.{IsAllocation, IsBehind, IsValidGoodsCase, pair_of, utilities};
ghost use Rattle.estate_bounds.specs.Counts.{IsCountLimit, IsShort};
ghost use Rattle.bid_rules.specs.declared.limits.TheConstants.{WHOLE_POINTS};
ghost use Rattle.estate_bounds.specs.declared.limits.TheConstants.{SQUARINGS};
ghost use Rattle.estate_bounds.specs.Logs.{log_down, log_up};
ghost use Rattle.estate_bounds.specs.Prices.{prices_close};
ghost use Rattle.estate_bounds.specs.Shown.{most_holders, shares_of, weights_close};
ghost use Rattle.estate_bounds.specs.Units.{IsUnit, unit_bound, unit_pair, units_close};
ghost use Rattle.estate_bounds.specs.Weighted.{AreWeights, OneEachCloses, PairStaysBelow, WeightedBoundCloses, weighted_sum, weighted_top};
ghost use Rattle.nash_bounds.specs.LeftOut.{is_after};

use nash_bounds::{bound_law, longer_prefix_law, search_order_law};

/// The geometric mean of positive numbers is at most their arithmetic mean.
pub fn mean_law()
    ensures positive { (numbers : List ℕ)
        → positives numbers ^ positives numbers * product numbers
        ≤ sum numbers ^ positives numbers }
    ensures all { (numbers : List ℕ) → All (λ number. 1 ≤ number) numbers
        → length numbers ^ length numbers * product numbers ≤ sum numbers ^ length numbers }
{}

/// If several players want too few goods, no allocation gives points to more players than that leaves (Hall 1935).
pub fn count_law()
    ensures { (case : GoodsCase) (players : List ℕ) (count : ℕ) → IsShort case players count
        → IsCountLimit case count }
{}

/// The weighted sum of an allocation is at most the weighted top of the owners that it begins with.
pub fn weighted_sum_law()
    ensures { (case : GoodsCase) (weights owners rest : List ℕ)
        → IsAllocation case (owners ++ rest)
        → weighted_sum case weights (owners ++ rest) ≤ weighted_top case weights owners }
{}

/// If the weights close the owners, each allocation that begins with these has a smaller pair than the goal, or one no
/// greater where equality is enough; if only no allocation gives points to more players than the goal.
pub fn weighted_bound_law()
    ensures { (case : GoodsCase) (owners weights rest : List ℕ) (equal : Bool) (goal : Pair)
        → AreWeights case weights → IsCountLimit case goal.count
        → WeightedBoundCloses case owners weights equal goal
        → IsAllocation case (owners ++ rest)
        → PairStaysBelow equal (pair_of case (owners ++ rest)) goal }
{}

/// The same where as many players as at the goal can only have points if each free good goes to another one of those who
/// have nothing.
pub fn one_each_law()
    ensures { (case : GoodsCase) (owners weights rest : List ℕ) (equal : Bool) (goal : Pair)
        → AreWeights case weights → most_holders case owners ≡ goal.count
        → OneEachCloses case owners weights equal goal
        → IsAllocation case (owners ++ rest)
        → PairStaysBelow equal (pair_of case (owners ++ rest)) goal }
{}

/// If the weights close the owners for the positive utilities of an answer, no allocation that begins with the owners is
/// better, and each has less welfare unless equality was enough. Equality is enough for owners that come after the answer's.
pub fn weights_law()
    ensures below { (case : GoodsCase) (answer owners weights : List ℕ) → AreWeights case weights
        → IsCountLimit case (positives (utilities case answer))
        → weights_close case owners weights (shares_of (utilities case answer)) false ≡ true
        → (rest : List ℕ) → IsAllocation case (owners ++ rest)
        → IsLess (pair_of case (owners ++ rest)) (pair_of case answer) }
    ensures behind { (case : GoodsCase) (answer owners weights : List ℕ) → AreWeights case weights
        → IsCountLimit case (positives (utilities case answer))
        → weights_close case owners weights (shares_of (utilities case answer))
        (is_after answer owners)
        ≡ true
        → (rest : List ℕ) → IsAllocation case (owners ++ rest)
        → IsBehind case (owners ++ rest) answer }
{}

/// All utilities are whole numbers of units, so no allocation that begins with the owners has a greater pair than their
/// bound in units. If this bound closes the owners, no such allocation is better than the answer.
pub fn units_law()
    ensures bound { (case : GoodsCase) (unit : ℕ) (owners rest : List ℕ) → IsValidGoodsCase case
        → IsUnit case unit → IsAllocation case (owners ++ rest)
        → IsAtMost (unit_pair case unit (owners ++ rest)) (unit_bound case unit owners) }
    ensures behind { (case : GoodsCase) (unit : ℕ) (answer owners : List ℕ)
        → IsValidGoodsCase case → IsUnit case unit
        → units_close case unit answer owners ≡ true
        → (rest : List ℕ) → IsAllocation case (owners ++ rest)
        → IsBehind case (owners ++ rest) answer }
{
    bound_law();
    longer_prefix_law();
    search_order_law();
}

/// The logarithms of a number are rounded down and up.
pub fn log_law()
    ensures down { (number : ℕ) → 1 ≤ number
        → 2 ^ log_down number ≤ number ^ (2 ^ SQUARINGS) }
    ensures up { (number : ℕ) → number ≤ WHOLE_POINTS
        → number ^ (2 ^ SQUARINGS) ≤ 2 ^ log_up number }
{}

/// If the prices close the owners for the positive utilities of an answer, each allocation that begins with the owners has
/// less welfare.
pub fn prices_law()
    ensures { (case : GoodsCase) (answer owners rates fees : List ℕ) → IsValidGoodsCase case
        → prices_close case owners rates fees (shares_of (utilities case answer)) ≡ true
        → (rest : List ℕ) → IsAllocation case (owners ++ rest)
        → IsLess (pair_of case (owners ++ rest)) (pair_of case answer) }
{
    search_order_law();
}
