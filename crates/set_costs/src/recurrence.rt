// A step of the recursion over sets of riders: what a set costs from the costs of smaller ones, by who gets off first.
ghost use Rattle.std.specs.Prelude.{◌≡◌, ℕ, ◌*◌, ◌<◌, ◌≤◌, ◌^◌, length, map, All, Contains};
ghost use Rattle.bid_rules.specs.Coalitions.{riders_in, start_of};
ghost use Rattle.bid_rules.specs.Facts.{IsValidFareCase};
ghost use Rattle.bid_rules.specs.Fares.{least, route_cost};
ghost use Rattle.best_laws.specs.Entries.{cost_by as route_cost_by, costs_from};
ghost use Rattle.set_costs.specs.FirstStops.{IsKnownStop, cost_with, stop_of};
ghost use Rattle.set_costs.specs.Table.{ListsCosts};

use crate::riders::{riders_of_set, without};
use crate::rows::Row;
use crate::stops::FirstStop;
use arrayvec::ArrayVec;
use best_laws::{coalition_law, route_cost_law, route_set_law, without_rider_law};
use bid_rules::FareCase;
use bid_rules::limits::{MOST_FARE_CENTS, MOST_RIDERS, RIDER_ROOM};

/// The first stops of the routes of a set, one for each rider who may get off first.
pub(crate) type FirstStops = ArrayVec<FirstStop, RIDER_ROOM>;

// The place of departure: that of a rider, or the origin for 0.
pub(crate) fn start(case: &FareCase, at: u8) -> u8
    requires case { IsValidFareCase case.now }
    requires at { at ≤ length case.now.at.items }
    ensures value { result ≡ start_of case.now at }
    ensures small { result ≤ case.now.facts.places }
{
    if at == 0 {
        0
    } else {
        case.at[usize::from(at) - 1]
    }
}

// What the route of a set costs from a place of departure, according to the rows.
pub(crate) fn entry_in(case: &FareCase, rows: &[Row], at: u8, set: u16) -> u32
    requires rows { ListsCosts case.now (map (λ row. row.items) rows.now) }
    requires at { at ≤ length case.now.at.items }
    requires set { set < length rows.now }
    ensures value { result ≡ costs_from case.now at set }
    ensures small { result ≤ MOST_FARE_CENTS * MOST_RIDERS }
{
    coalition_law();
    route_cost_law();
    rows[usize::from(set)][usize::from(at)]
}

// The first stop of those routes of a set on which the rider gets off first.
fn first_stop(case: &FareCase, rows: &[Row], set: u16, rider: u8) -> FirstStop
    requires rows { ListsCosts case.now (map (λ row. row.items) rows.now) }
    requires set { set ≤ length rows.now }
    requires within { set < 2 ^ length case.now.at.items }
    requires rider { Contains (riders_in set) rider }
    ensures value { result ≡ stop_of case.now set rider }
    ensures known { IsKnownStop case.now result }
{
    coalition_law();
    without_rider_law();
    FirstStop {
        place: case.at[usize::from(rider) - 1],
        rest: entry_in(case, rows, rider, without(set, rider)),
    }
}

// The first stops of the routes of a set, by its riders in rising order.
pub(crate) fn first_stops(case: &FareCase, rows: &[Row], set: u16) -> FirstStops
    requires rows { ListsCosts case.now (map (λ row. row.items) rows.now) }
    requires set { set ≤ length rows.now }
    requires within { set < 2 ^ length case.now.at.items }
    ensures values { result.items ≡ map (stop_of case.now set) (riders_in set) }
    ensures known { All (IsKnownStop case.now) result.items }
{
    coalition_law();
    let riders = riders_of_set(case.at.len() as u8, set);
    let mut stops = FirstStops::new();
    for rider in riders.as_slice() {
        stops.push(first_stop(case, rows, set, *rider));
    }
    stops
}

// What a route with this first stop costs from a place.
fn cost_from(case: &FareCase, from: u8, stop: FirstStop) -> u32
    requires case { IsValidFareCase case.now }
    requires from { from ≤ case.now.facts.places }
    requires stop { IsKnownStop case.now stop }
    ensures { result ≡ cost_with case.now from stop }
{
    case.facts.leg(from, stop.place) + stop.rest
}

// What the route of a set costs from a place where the rider gets off first.
fn cost_by(case: &FareCase, rows: &[Row], from: u8, set: u16, rider: u8) -> u32
    requires rows { ListsCosts case.now (map (λ row. row.items) rows.now) }
    requires from { from ≤ case.now.facts.places }
    requires set { set ≤ length rows.now }
    requires within { set < 2 ^ length case.now.at.items }
    requires rider { Contains (riders_in set) rider }
    ensures value { result ≡ route_cost_by case.now from set rider }
{
    cost_from(case, from, first_stop(case, rows, set, rider))
}

// The lowest of those riders of a set who make the route from a place cheapest by getting off first.
pub(crate) fn first_rider(case: &FareCase, rows: &[Row], from: u8, set: u16) -> u8
    requires rows { ListsCosts case.now (map (λ row. row.items) rows.now) }
    requires from { from ≤ case.now.facts.places }
    requires some { 0 < set }
    requires set { set ≤ length rows.now }
    requires within { set < 2 ^ length case.now.at.items }
    ensures rider { Contains (riders_in set) result }
    ensures cheapest { route_cost case.now from (riders_in set)
        ≡ route_cost_by case.now from set result }
    ensures lowest { (other : ℕ) → Contains (riders_in set) other
        → route_cost_by case.now from set other ≡ route_cost_by case.now from set result
        → result ≤ other }
{
    coalition_law();
    route_set_law();
    let riders = riders_of_set(case.at.len() as u8, set);
    let mut first = 0;
    let mut least = cost_by(case, rows, from, set, riders[0]);
    for (place, rider) in riders.iter().enumerate() {
        let cost = cost_by(case, rows, from, set, *rider);
        if cost < least {
            first = place;
            least = cost;
        }
    }
    riders[first]
}

// What the cheapest of the routes with these first stops costs from a place, or 0 if there are none.
pub(crate) fn cheapest(case: &FareCase, from: u8, stops: &[FirstStop]) -> u32
    requires case { IsValidFareCase case.now }
    requires from { from ≤ case.now.facts.places }
    requires known { All (IsKnownStop case.now) stops.now }
    ensures { result ≡ least (map (cost_with case.now from) stops.now) }
{
    let [first, others @ ..] = stops else {
        return 0;
    };
    let mut cost = cost_from(case, from, *first);
    for stop in others {
        cost = cost.min(cost_from(case, from, *stop));
    }
    cost
}
