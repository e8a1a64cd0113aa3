// A law about the division of a case of any kind, which holds for all cases. It is the contract of a function that does nothing.
ghost use Rattle.std.specs.Prelude.{◌≡◌};
ghost use Rattle.bid_rules.specs.declared.cases.Case.{Case};
ghost use Rattle.bid_rules.specs.Facts.{IsValidCase};
ghost use Rattle.certificates.specs.declared.division.Division.{Division};
ghost use Rattle.certificates.specs.Division.{IsDivisionOf};

use nash_search::step_count_law;
use rent_maximin::one_rent_division_law;
use shapley_core::division_law as fare_division_law;

/// A valid case has only one division: any two are equal in everything that contracts see of them. Contracts see the costs
/// of fares as the case that they belong to.
pub fn division_law()
    ensures { (case : Case) (division other : Division) → IsValidCase case
        → IsDivisionOf case division → IsDivisionOf case other → division ≡ other }
{
    fare_division_law();
    one_rent_division_law();
    step_count_law();
}
