// Checks whether printed fares are the means of marginal costs over all orders (Shapley 1953).
ghost use Rattle.std.specs.Prelude.{◌≡◌, pos, ◌*ℤ◌, ◌*◌, ◌+◌, ◌^◌, ◌<◌, ◌≤◌, ◌↔◌, length, map, All, IsTrue, unsigned_abs};
ghost use Rattle.std.specs.List.{AllZip};
ghost use Rattle.bid_rules.specs.Fares.{riders_of, sum_of_marginal_costs};
ghost use Rattle.bid_rules.specs.Fractions.{IsQuotient};
ghost use Rattle.bid_rules.specs.Orders.{factorial as orders_of};
ghost use Rattle.cert_reader.specs.Numbers.{AreShort, IsSmall};
ghost use Rattle.cert_reader.specs.declared.limits.TheConstants.{MOST_PRINTED_DENOMINATOR};
ghost use Rattle.split_frac.specs.Frac.{fraction_of};

use bid_rules::limits::{MOST_FARE_CENTS, MOST_RIDERS};
use set_costs::{SetCosts, factorial};
use split_frac::Frac;

// A number of up to 25 digits, times another.
fn times(number: i128, many: u64) -> i128
    requires number { IsSmall number }
    requires many { many ≤ MOST_PRINTED_DENOMINATOR }
    ensures { result ≡ number *ℤ pos many }
{
    number * i128::from(many)
}

// Whether a fare is the mean over all orders of this many riders, given the sum over them.
fn is_mean(fare: &Frac, sum: i128, count: u8) -> bool
    requires count { count ≤ MOST_RIDERS }
    requires numerator { IsSmall fare.now.num }
    requires denominator { fare.now.den ≤ MOST_PRINTED_DENOMINATOR }
    requires sum { unsigned_abs sum ≤ MOST_FARE_CENTS * (MOST_RIDERS + 1) * orders_of MOST_RIDERS }
    ensures { IsTrue result ↔ IsQuotient (fraction_of fare.now) sum (orders_of count) }
{
    times(fare.num, factorial(count)) == times(sum, fare.den)
}

// Whether each rider's fare is the mean of the rider's marginal costs over all orders of the riders.
pub(crate) fn are_means(costs: &SetCosts<'_>, count: u8, fares: &[Frac]) -> bool
    requires few { count ≤ MOST_RIDERS }
    requires count { count ≡ length costs.now.at.items }
    requires fares { length fares.now ≡ count }
    requires short { AreShort fares.now }
    ensures { IsTrue result
        ↔ AllZip
        (λ rider fare. IsQuotient fare (sum_of_marginal_costs costs.now rider) (orders_of count))
        (riders_of costs.now) (map fraction_of fares.now) }
{
    for k in 0..count {
        let sum = costs.sum_over_orders(k + 1);
        if !is_mean(&fares[usize::from(k)], sum, count) {
            return false;
        }
    }
    true
}
