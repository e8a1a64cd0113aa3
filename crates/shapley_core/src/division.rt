// Computes fares as the means of marginal costs over all orders of the riders (Shapley 1953).
ghost use Rattle.std.specs.Prelude.{◌≡◌, ◌*◌, ◌+◌, ◌≤◌, length, map, All, IfOk, unsigned_abs};
ghost use Rattle.std.specs.List.{AllZip};
ghost use Rattle.bid_rules.specs.Facts.{IsValidFareCase};
ghost use Rattle.bid_rules.specs.Fares.{riders_of, sum_of_marginal_costs};
ghost use Rattle.bid_rules.specs.Fractions.{IsQuotient};
ghost use Rattle.bid_rules.specs.Orders.{factorial as orders_of};
ghost use Rattle.split_frac.specs.Frac.{HasValue, fraction_of};
ghost use Rattle.shapley_core.specs.Division.{IsFareDivision, IsFareInRange};

use arrayvec::ArrayVec;
use best_laws::{best_fares_law, coalition_law};
use bid_rules::FareCase;
use bid_rules::limits::{MOST_FARE_CENTS, MOST_RIDERS, RIDER_ROOM, RiderList};
use fare_routes::{Costs, costs};
use set_costs::{SetCosts, all_riders, factorial, riders_of_set};
use split_base::NoMemory;
use split_frac::{Frac, make, value_law};
use std::alloc::Global;

/// Fares in cents, by rider.
pub type FareList = ArrayVec<Frac, RIDER_ROOM>;

/// The division of a shared fare: what each rider pays, what all of them cost, and the route that they take.
#[derive(Drop)]
pub struct FareDivision {
    /// The fares in cents, by rider.
    pub fares: FareList,
    /// The cost of all riders in cents.
    pub total: u32,
    /// The riders, numbered from 1, in the order in which they get off.
    pub route: RiderList,
    /// What each coalition of the riders costs.
    pub costs: Costs,
}

// The mean over all orders of this many riders of what has this sum.
fn mean(sum: i128, count: u8) -> Frac
    requires count { count ≤ MOST_RIDERS }
    requires small { unsigned_abs sum ≤ MOST_FARE_CENTS * (MOST_RIDERS + 1) * orders_of count }
    requires fits { unsigned_abs sum ≤ MOST_FARE_CENTS * (MOST_RIDERS + 1) * orders_of MOST_RIDERS }
    ensures value { IsQuotient (fraction_of result) sum (orders_of count) }
    ensures range { IsFareInRange count result }
{
    value_law();
    make(sum, factorial(count))
}

/// The fares of all riders, in turn: each is the mean of the rider's marginal costs over all orders.
///
/// It takes no memory, so it works wherever in memory the rows of the costs lie.
pub fn fares_of(costs: &SetCosts<'_>, count: u8) -> FareList
    requires valid { IsValidFareCase costs.now }
    requires count { count ≡ length costs.now.at.items }
    ensures means { AllZip
        (λ rider fare. IsQuotient fare (sum_of_marginal_costs costs.now rider) (orders_of count))
        (riders_of costs.now) (map fraction_of result.items) }
    ensures ranges { All (IsFareInRange count) result.items }
{
    coalition_law();
    let mut fares = FareList::new();
    let riders = riders_of_set(count, all_riders(count));
    for rider in riders.as_slice() {
        fares.push(mean(costs.sum_over_orders(*rider), count));
    }
    fares
}

/// The best division of a shared fare: each rider pays the mean of their marginal costs over all orders of
/// the riders (Shapley 1953), and the route is the least of the cheapest ones.
///
/// It takes about `n^2 * 2^n` steps for n riders, and takes memory just once, for the table of costs.
pub fn solve_fares(alloc: Global, case: &FareCase) -> Result<FareDivision, NoMemory>
    requires { IsValidFareCase case.now }
    ensures { IfOk result (λ division. IsFareDivision case.now division) }
{
    best_fares_law();
    coalition_law();
    let count = case.at.len() as u8;
    let costs = costs(alloc, case)?;
    Ok(FareDivision {
        fares: fares_of(&costs.borrowed(), count),
        total: costs.cost_of(all_riders(count)),
        route: costs.route(),
        costs,
    })
}
