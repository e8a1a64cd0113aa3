// Hands out what members and riders pay in whole cents, as numbers.
ghost use Rattle.std.specs.Prelude.{All, map, pos};
ghost use Rattle.bid_rules.specs.Cents.{IsCentPlan};
ghost use Rattle.bid_rules.specs.Facts.{IsValidFareCase};
ghost use Rattle.bid_rules.specs.Fares.{FareBest, coalition_cost, riders_of};
ghost use Rattle.bid_rules.specs.Rent.{IsValidRentCase};
ghost use Rattle.fair_solver.specs.Numbers.{HasSmallNumerator};
ghost use Rattle.fair_solver.specs.Plans.{AreCopied, IsFarePlan, IsRentPlan};
ghost use Rattle.split_frac.specs.Frac.{fraction_of};

use crate::dividing::{Shares, best_shares, rows_of_sets};
use arrayvec::ArrayVec;
use best_laws::{best_fares_law, coalition_law};
use bid_rules::limits::MEMBER_ROOM;
use bid_rules::{FareCase, RentCase};
use certificates::rent_pays;
use envy_check::cent_plan;
use rent_maximin::solve_rent;
use set_costs::{SetCosts, all_riders};

/// Whole cents by member or by rider.
pub(crate) type Cents = ArrayVec<i64, MEMBER_ROOM>;

// What each member pays of the rent.
pub(crate) fn rent_plan(case: &RentCase) -> Cents
    requires { IsValidRentCase case.now }
    ensures { IsRentPlan case.now result.items }
{
    let division = solve_rent(case);
    rent_pays(case, &division)
}

/// The best division of a fare, and what each rider pays of it.
#[derive(Drop)]
pub(crate) struct Planned {
    /// The exact fares and the route.
    pub(crate) shares: Shares,
    /// What each rider pays in whole cents.
    pub(crate) pays: Cents,
}

// The best division of a fare with its cent plan.
pub(crate) fn planned_fare(case: &FareCase) -> Planned
    requires { IsValidFareCase case.now }
    ensures best { FareBest case.now (map fraction_of result.shares.fares.items)
        result.shares.route.items }
    ensures plan { IsCentPlan (map fraction_of result.shares.fares.items)
        (pos (coalition_cost case.now (riders_of case.now))) result.pays.items }
    ensures small { All HasSmallNumerator result.shares.fares.items }
{
    best_fares_law();
    coalition_law();
    let count = case.at.len() as u8;
    let rows = rows_of_sets(case);
    let costs = SetCosts::new(case, rows.as_slice());
    let shares = best_shares(&costs, count);
    let total = costs.cost_of(all_riders(count));
    let pays = cent_plan(shares.fares.as_slice(), i64::from(total));
    Planned { shares, pays }
}

// What each rider pays of the fare.
pub(crate) fn fare_plan(case: &FareCase) -> Cents
    requires { IsValidFareCase case.now }
    ensures { IsFarePlan case.now result.items }
{
    planned_fare(case).pays
}

// Copies amounts to the front of a list if there is room for all of them, and otherwise leaves the list as it is. Returns how many
// amounts there are.
pub(crate) fn copy_amounts(amounts: &[i64], list: &mut [i64]) -> usize
    ensures { AreCopied amounts.now result list.old list.new }
{
    let size = amounts.len();
    if size <= list.len() {
        list[..size].copy_from_slice(amounts);
    }
    size
}
