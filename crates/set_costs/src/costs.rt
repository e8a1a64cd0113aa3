// What is read from the finished rows of the recursion: the cost of each set of riders, the first of the cheapest routes, and sums of marginal costs.
ghost use Rattle.std.specs.Prelude.{◌≡◌, ◌+◌, ◌*◌, ◌<◌, ◌≤◌, ◌^◌, length, map, Contains, unsigned_abs};
ghost use Rattle.bid_rules.specs.Coalitions.{riders_in, start_of};
ghost use Rattle.bid_rules.specs.Fares.{IsLeastRoute, coalition_cost, route_cost, sum_of_marginal_costs};
ghost use Rattle.bid_rules.specs.Orders.{factorial};
ghost use Rattle.set_costs.specs.Table.{HoldsCosts};

use crate::recurrence::{entry_in, first_rider, start};
use crate::riders::without;
use crate::rows::Row;
use crate::sums::sum_over_orders;
use best_laws::{
    coalition_law, lowest_route_law, route_cost_law, route_set_law, without_rider_law,
};
use bid_rules::FareCase;
use bid_rules::limits::{MOST_FARE_CENTS, MOST_RIDERS, RiderList};
use std::marker::Model;

/// The rows of all sets of the riders of a case. Contracts see them as the case whose costs they are.
///
/// A set of riders is a number, the sum of 2^(i-1) over its riders i.
#[derive(Drop)]
pub struct SetCosts<'a> {
    case: &'a FareCase,
    rows: &'a [Row],
}

impl<'a> Model for SetCosts<'a> {
    ghost use Rattle.std.specs.Prelude.{map};
    ghost use Rattle.bid_rules.specs.declared.cases.FareCase.{FareCase};
    ghost use Rattle.set_costs.specs.Table.{HoldsCosts};

    ghost Value = { FareCase };

    ghost view = { λ c. c.case.now };

    ghost invariant = { λ c. HoldsCosts c.case.now (map (λ row. row.items) c.rows.now) };
}

impl<'a> SetCosts<'a> {
    /// The costs that the rows of all sets hold.
    pub fn new(case: &'a FareCase, rows: &'a [Row]) -> Self
        requires { HoldsCosts case.now (map (λ row. row.items) rows.now) }
        ensures { result ≡ case.now }
    {
        SetCosts { case, rows }
    }
}

impl SetCosts<'_> {
    /// The least sum of legs in cents that starts at the origin, for `at` 0, or at the place of rider `at`, and brings every
    /// rider of the set to their place, in some order. The rider `at` is not in the set.
    pub fn entry(&self, at: u8, set: u16) -> u32
        requires at { at ≤ length self.now.at.items }
        requires set { set < 2 ^ length self.now.at.items }
        requires apart { ¬ Contains (riders_in set) at }
        ensures value { result ≡ route_cost self.now (start_of self.now at) (riders_in set) }
        ensures small { result ≤ MOST_FARE_CENTS * MOST_RIDERS }
    {
        entry_in(self.case, self.rows, at, set)
    }

    /// The cost of a set in cents: nothing if it is empty, otherwise the flag fall and the cheapest route of its riders.
    pub fn cost_of(&self, set: u16) -> u32
        requires { set < 2 ^ length self.now.at.items }
        ensures value { result ≡ coalition_cost self.now (riders_in set) }
        ensures small { result ≤ MOST_FARE_CENTS * (MOST_RIDERS + 1) }
    {
        coalition_law();
        route_cost_law();
        if set == 0 {
            return 0;
        }
        self.case.facts.flag + self.entry(0, set)
    }

    /// The least, as a list, of the cheapest orders of all riders, in numbers of riders.
    pub fn route(&self) -> RiderList
        ensures { IsLeastRoute self.now result.items }
    {
        coalition_law();
        without_rider_law();
        route_set_law();
        lowest_route_law();
        let mut route = RiderList::new();
        let mut at = 0;
        let mut set = (1 << self.case.at.len()) - 1;
        while set != 0 {
            let rider = first_rider(self.case, self.rows, start(self.case, at), set);
            route.push(rider);
            set = without(set, rider);
            at = rider;
        }
        route
    }

    /// The sum of a rider's marginal costs in cents over all orders of all riders.
    pub fn sum_over_orders(&self, rider: u8) -> i128
        requires low { 1 ≤ rider }
        requires high { rider ≤ length self.now.at.items }
        ensures value { result ≡ sum_of_marginal_costs self.now rider }
        ensures small { unsigned_abs result
            ≤ MOST_FARE_CENTS * (MOST_RIDERS + 1) * factorial (length self.now.at.items) }
        ensures fits { unsigned_abs result
            ≤ MOST_FARE_CENTS * (MOST_RIDERS + 1) * factorial MOST_RIDERS }
    {
        i128::from(sum_over_orders(self, rider, self.case.at.len() as u8))
    }
}
