// Laws about the solver's divisions, which hold for all cases. Each is the contract of a function that does nothing.
ghost use Rattle.std.specs.Prelude.{◌≡◌, ◌*◌, ◌≤◌, All, unsigned_abs};
ghost use Rattle.bid_rules.specs.declared.limits.TheConstants.{MOST_AMOUNT};
ghost use Rattle.bid_rules.specs.declared.rents.RentCase.{RentCase};
ghost use Rattle.bid_rules.specs.Rent.{IsValidRentCase};
ghost use Rattle.rent_maximin.specs.Division.{IsRentDivision};
ghost use Rattle.rent_maximin.specs.declared.division.RentDivision.{RentDivision};
ghost use Rattle.split_frac.specs.Frac.{IsWithinLimits};

use best_laws::{best_rent_law, key_law, walk_law};
use split_frac::value_law;

/// The prices and the least utility lie in the ranges that calls on fractions ask for, and within `MOST_AMOUNT` cents of 0.
pub fn division_range_law()
    ensures prices { (case : RentCase) (division : RentDivision) → IsValidRentCase case
        → IsRentDivision case division
        → All (λ price. IsWithinLimits price × (unsigned_abs price.num ≤ MOST_AMOUNT * price.den))
        division.prices.items }
    ensures least { (case : RentCase) (division : RentDivision) → IsValidRentCase case
        → IsRentDivision case division
        → IsWithinLimits division.least
        × (unsigned_abs division.least.num ≤ MOST_AMOUNT * division.least.den) }
{}

/// A valid case has only one division: any two are equal in every field.
pub fn one_rent_division_law()
    ensures { (case : RentCase) (division other : RentDivision) → IsValidRentCase case
        → IsRentDivision case division → IsRentDivision case other → division ≡ other }
{
    best_rent_law();
    key_law();
    walk_law();
    value_law();
}
