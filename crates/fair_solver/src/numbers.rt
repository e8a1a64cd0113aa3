// Divides cases in numbers: who gets what, and for money the exact amounts and the whole cents beside them.
ghost use Rattle.std.specs.Prelude.{◌≤◌, All, length, map};
ghost use Rattle.bid_rules.specs.Facts.{IsValidFareCase};
ghost use Rattle.bid_rules.specs.Rent.{IsValidRentCase};
ghost use Rattle.bid_rules.specs.declared.limits.TheConstants.{MEMBER_ROOM};
ghost use Rattle.fair_solver.specs.Numbers.{AreParts, HasSmallNumerator, IsFareInNumbers, IsRentInNumbers};
ghost use Rattle.split_frac.specs.Frac.{fraction_of};

use crate::plans::{Cents, Planned, planned_fare};
use arrayvec::ArrayVec;
use bid_rules::limits::MEMBER_ROOM;
use bid_rules::{FareCase, RentCase};
use certificates::rent_pays;
use number_cases::list_of;
use rent_maximin::{division_range_law, solve_rent};
use split_frac::Frac;

/// Exact amounts of cents, as numerators and denominators.
#[derive(Drop)]
pub(crate) struct Parts {
    pub(crate) numerators: ArrayVec<i64, MEMBER_ROOM>,
    pub(crate) denominators: ArrayVec<u64, MEMBER_ROOM>,
}

/// A division of money in numbers.
#[derive(Drop)]
pub(crate) struct InNumbers {
    /// The rooms by member, or the riders in the order in which they get off.
    pub(crate) own: ArrayVec<u8, MEMBER_ROOM>,
    /// The exact prices by room, or fares by rider.
    pub(crate) exact: Parts,
    /// What each member or rider pays in whole cents.
    pub(crate) pays: Cents,
}

// The numerators and the denominators of fractions.
fn parts_of(fractions: &[Frac]) -> Parts
    requires few { length fractions.now ≤ MEMBER_ROOM }
    requires small { All HasSmallNumerator fractions.now }
    ensures { AreParts (map fraction_of fractions.now) result.numerators.items
        result.denominators.items }
{
    let mut numerators = ArrayVec::new();
    let mut denominators = ArrayVec::new();
    for fraction in fractions {
        numerators.push(fraction.num as i64);
        denominators.push(fraction.den);
    }
    Parts {
        numerators,
        denominators,
    }
}

// The best division of a rent.
pub(crate) fn rent_numbers(case: &RentCase) -> InNumbers
    requires { IsValidRentCase case.now }
    ensures { IsRentInNumbers case.now result.own.items result.exact.numerators.items
        result.exact.denominators.items result.pays.items }
{
    division_range_law();
    let division = solve_rent(case);
    let pays = rent_pays(case, &division);
    let exact = parts_of(division.prices.as_slice());
    InNumbers {
        own: division.best.rooms,
        exact,
        pays,
    }
}

// The best division of a fare.
pub(crate) fn fare_numbers(case: &FareCase) -> InNumbers
    requires { IsValidFareCase case.now }
    ensures { IsFareInNumbers case.now result.own.items result.exact.numerators.items
        result.exact.denominators.items result.pays.items }
{
    let Planned { shares, pays } = planned_fare(case);
    InNumbers {
        own: list_of(shares.route.as_slice()),
        exact: parts_of(shares.fares.as_slice()),
        pays,
    }
}
