// The costs of all coalitions of a case, as a table.
ghost use Rattle.std.specs.Prelude.{◌≡◌, ◌+◌, ◌*◌, ◌<◌, ◌≤◌, ◌^◌, length, Contains};
ghost use Rattle.bid_rules.specs.Coalitions.{riders_in, start_of};
ghost use Rattle.bid_rules.specs.Fares.{IsLeastRoute, coalition_cost, route_cost};

use bid_rules::FareCase;
use bid_rules::limits::{MOST_FARE_CENTS, MOST_RIDERS, RiderList};
use set_costs::{Row, SetCosts};
use std::marker::Model;

/// What each coalition of a shared fare costs, and how all riders go. Contracts see it as the case whose costs it holds.
///
/// A set of riders is a number, the sum of 2^(i-1) over its riders i.
#[derive(Drop)]
pub struct Costs {
    pub(crate) case: FareCase,
    pub(crate) rows: Vec<Row>,
}

impl Model for Costs {
    ghost use Rattle.std.specs.Prelude.{map};
    ghost use Rattle.bid_rules.specs.declared.cases.FareCase.{FareCase};
    ghost use Rattle.set_costs.specs.Table.{HoldsCosts};

    ghost Value = { FareCase };

    ghost view = { λ c. c.case };

    ghost invariant = { λ c. HoldsCosts c.case (map (λ row. row.items) c.rows.items) };
}

impl Costs {
    /// The same costs, borrowed.
    pub fn borrowed(&self) -> SetCosts<'_>
        ensures { result ≡ self.now }
    {
        SetCosts::new(&self.case, &self.rows)
    }

    /// The least sum of legs in cents that starts at the origin, for `at` 0, or at the place of rider `at`, and brings every
    /// rider of the set to their place, in some order. The rider `at` is not in the set.
    pub fn entry(&self, at: u8, set: u16) -> u32
        requires at { at ≤ length self.now.at.items }
        requires set { set < 2 ^ length self.now.at.items }
        requires apart { ¬ Contains (riders_in set) at }
        ensures value { result ≡ route_cost self.now (start_of self.now at) (riders_in set) }
        ensures small { result ≤ MOST_FARE_CENTS * MOST_RIDERS }
    {
        self.borrowed().entry(at, set)
    }

    /// The cost of a set in cents: nothing if it is empty, otherwise the flag fall and the cheapest route of its riders.
    pub fn cost_of(&self, set: u16) -> u32
        requires { set < 2 ^ length self.now.at.items }
        ensures value { result ≡ coalition_cost self.now (riders_in set) }
        ensures small { result ≤ MOST_FARE_CENTS * (MOST_RIDERS + 1) }
    {
        self.borrowed().cost_of(set)
    }

    /// The least, as a list of rider numbers, of the cheapest orders of all riders.
    pub fn route(&self) -> RiderList
        ensures { IsLeastRoute self.now result.items }
    {
        self.borrowed().route()
    }
}
