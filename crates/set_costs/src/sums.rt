// The sums of a rider's marginal costs over all orders, by who comes last.
ghost use Rattle.std.specs.Prelude.{◌≡◌, ◌≢◌, pos, ◌-◌, ◌*◌, ◌+◌, ◌<◌, ◌≤◌, ◌^◌, ◌-ℤ◌, ◌*ℤ◌, length, Contains, unsigned_abs};
ghost use Rattle.bid_rules.specs.Coalitions.{riders_in};
ghost use Rattle.bid_rules.specs.Facts.{IsValidFareCase};
ghost use Rattle.bid_rules.specs.Fares.{coalition_cost, sum_of_marginal_costs};
ghost use Rattle.bid_rules.specs.Orders.{factorial as orders_of};
ghost use Rattle.best_laws.specs.Entries.{without as set_without};
ghost use Rattle.best_laws.specs.MarginalSums.{marginal_sum};
ghost use Rattle.set_costs.specs.Sums.{ListsSums};

use crate::costs::SetCosts;
use crate::riders::{lowest, without};
use arrayvec::ArrayVec;
use best_laws::{coalition_law, marginal_set_law, without_rider_law};
use bid_rules::limits::{MOST_FARE_CENTS, MOST_RIDERS, RIDER_ROOM};

/// Room for an entry for each set of riders, including the empty one.
pub const SET_ROOM: usize = 1 << RIDER_ROOM;

/// A rider's sum in cents for each set of riders, in the order of the sets' numbers. It is kept on the stack, for one
/// rider at a time.
type SetSums = ArrayVec<i64, SET_ROOM>;

/// n!, the number of orders of this many riders.
pub fn factorial(count: u8) -> u64
    requires { count ≤ MOST_RIDERS }
    ensures value { result ≡ orders_of count }
    ensures small { result ≤ orders_of MOST_RIDERS }
{
    let mut orders = 1;
    for k in 0..count {
        orders *= u64::from(k) + 1;
    }
    orders
}

/// The set of all riders of a case that has this many.
pub fn all_riders(count: u8) -> u16
    requires { count ≤ MOST_RIDERS }
    ensures { result ≡ 2 ^ count - 1 }
{
    (1 << count) - 1
}

// What a rider who comes last adds to the cost of the others of a set, once for each of their orders.
fn added_last(costs: &SetCosts, set: u16, rider: u8, orders: u64) -> i64
    requires valid { IsValidFareCase costs.now }
    requires set { set < 2 ^ length costs.now.at.items }
    requires rider { Contains (riders_in set) rider }
    requires few { orders ≤ orders_of (MOST_RIDERS - 1) }
    ensures value { result
        ≡ (pos (coalition_cost costs.now (riders_in set))
        -ℤ pos (coalition_cost costs.now (riders_in (set_without set rider)))) *ℤ pos orders }
    ensures small { unsigned_abs result
        ≤ MOST_FARE_CENTS * (MOST_RIDERS + 1) * orders_of (MOST_RIDERS - 1) }
{
    coalition_law();
    let added = i64::from(costs.cost_of(set)) - i64::from(costs.cost_of(without(set, rider)));
    added * orders as i64
}

// The sum of a rider's marginal costs over all orders of a set, given the sums of the sets below it.
fn sum_of_set(costs: &SetCosts, sums: &[i64], rider: u8, set: u16) -> i64
    requires valid { IsValidFareCase costs.now }
    requires set { set < 2 ^ length costs.now.at.items }
    requires below { set ≤ length sums.now }
    requires sums { ListsSums costs.now rider sums.now }
    requires rider { Contains (riders_in set) rider }
    ensures value { result ≡ marginal_sum costs.now rider (riders_in set) }
    ensures small { unsigned_abs result
        ≤ MOST_FARE_CENTS * (MOST_RIDERS + 1) * orders_of (length (riders_in set)) }
{
    coalition_law();
    without_rider_law();
    marginal_set_law();
    let mut left = without(set, rider);
    let mut others = 0;
    let mut orders = 1;
    let mut sum = 0;
    while left != 0 {
        let last = lowest(left);
        sum += sums[usize::from(without(set, last))];
        others += 1;
        orders *= others;
        left = without(left, last);
    }
    sum + added_last(costs, set, rider, orders)
}

// The sum for the next set, which is 0 if the rider is not in it.
fn next_sum(costs: &SetCosts, sums: &[i64], rider: u8, count: u8) -> i64
    requires valid { IsValidFareCase costs.now }
    requires count { count ≡ length costs.now.at.items }
    requires more { length sums.now < 2 ^ count }
    requires sums { ListsSums costs.now rider sums.now }
    requires low { 1 ≤ rider }
    requires high { rider ≤ count }
    ensures { Contains (riders_in (length sums.now)) rider
        → result ≡ marginal_sum costs.now rider (riders_in (length sums.now)) }
{
    coalition_law();
    let set = sums.len() as u16;
    if (set >> (rider - 1)) % 2 == 1 {
        sum_of_set(costs, sums, rider, set)
    } else {
        0
    }
}

// The sum of a rider's marginal costs over all orders of all riders.
pub(crate) fn sum_over_orders(costs: &SetCosts, rider: u8, count: u8) -> i64
    requires valid { IsValidFareCase costs.now }
    requires count { count ≡ length costs.now.at.items }
    requires low { 1 ≤ rider }
    requires high { rider ≤ count }
    ensures value { result ≡ sum_of_marginal_costs costs.now rider }
    ensures small { unsigned_abs result ≤ MOST_FARE_CENTS * (MOST_RIDERS + 1) * orders_of count }
{
    coalition_law();
    marginal_set_law();
    let mut sums = SetSums::new();
    let all = all_riders(count);
    for _ in 0..all {
        let sum = next_sum(costs, sums.as_slice(), rider, count);
        sums.push(sum);
    }
    sum_of_set(costs, sums.as_slice(), rider, all)
}
