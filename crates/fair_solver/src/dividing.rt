// Divides a fare in fixed memory.
ghost use Rattle.std.specs.Prelude.{◌≡◌, All, length, map};
ghost use Rattle.bid_rules.specs.declared.cases.Case.TheVariants.{Fares};
ghost use Rattle.bid_rules.specs.Facts.{IsValidFareCase};
ghost use Rattle.bid_rules.specs.Fares.{FareBest};
ghost use Rattle.certificates.specs.Canonical.{canonical_text};
ghost use Rattle.certificates.specs.Puts.{Puts};
ghost use Rattle.certificates.specs.declared.division.Division.TheVariants as division;
ghost use Rattle.set_costs.specs.Table.{HoldsCosts};
ghost use Rattle.shapley_core.specs.declared.division.FareDivision.{FareDivision};
ghost use Rattle.shapley_core.specs.Division.{IsFareDivision, IsFareInRange};
ghost use Rattle.split_frac.specs.Frac.{fraction_of};

use arrayvec::ArrayVec;
use best_laws::{best_fares_law, coalition_law};
use bid_rules::FareCase;
use bid_rules::limits::RiderList;
use certificates::put_fares;
use set_costs::{Row, SET_ROOM, SetCosts, next_row, rows_law};
use shapley_core::{FareList, fares_of};

/// What routes of sets of riders cost, row by row.
type Rows = ArrayVec<Row, SET_ROOM>;

/// What the riders pay, and the route that they take.
#[derive(Drop)]
pub(crate) struct Shares {
    /// The exact fares in cents, by rider.
    pub(crate) fares: FareList,
    /// The riders, numbered from 1, in the order in which they get off.
    pub(crate) route: RiderList,
}

// The rows of all sets of riders, by their numbers.
pub(crate) fn rows_of_sets(case: &FareCase) -> Rows
    requires { IsValidFareCase case.now }
    ensures { HoldsCosts case.now (map (λ row. row.items) result.items) }
{
    coalition_law();
    rows_law();
    let sets: usize = 1 << case.at.len();
    let mut rows = Rows::new();
    for _ in 0..sets {
        let row = next_row(case, rows.as_slice());
        rows.push(row);
    }
    rows
}

// The fares and the route of the best division.
pub(crate) fn best_shares(costs: &SetCosts<'_>, count: u8) -> Shares
    requires valid { IsValidFareCase costs.now }
    requires count { count ≡ length costs.now.at.items }
    ensures best { FareBest costs.now (map fraction_of result.fares.items) result.route.items }
    ensures ranges { All (IsFareInRange count) result.fares.items }
{
    Shares {
        fares: fares_of(costs, count),
        route: costs.route(),
    }
}

// Divides the fare, and puts its canonical certificate at the front of the text.
pub(crate) fn divide_fare(text: &mut [u8], case: &FareCase) -> usize
    requires { IsValidFareCase case.now }
    ensures { (shown : FareDivision) × IsFareDivision case.now shown
        × Puts (canonical_text (Fares case.now) (division.Fares shown)) 0 text.old text.new result }
{
    best_fares_law();
    coalition_law();
    let count = case.at.len() as u8;
    let rows = rows_of_sets(case);
    let costs = SetCosts::new(case, rows.as_slice());
    let shares = best_shares(&costs, count);
    let (fares, route) = (shares.fares.as_slice(), shares.route.as_slice());
    put_fares(text, case, &costs, fares, route)
}
