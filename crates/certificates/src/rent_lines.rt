// Laws about the lines of canonical certificates of rents, which hold for all cases. Each is the contract of a function that does
// nothing.
ghost use Rattle.std.specs.Prelude.{◌≡◌, ◌<◌, ◌≤◌, ℕ};
ghost use Rattle.bid_rules.specs.declared.rents.RentCase.{RentCase};
ghost use Rattle.bid_rules.specs.Rent.{IsValidRentCase};
ghost use Rattle.certificates.specs.RentLines.{canonical_rent};
ghost use Rattle.rent_maximin.specs.Division.{IsRentDivision};
ghost use Rattle.rent_maximin.specs.declared.division.RentDivision.{RentDivision};
ghost use Rattle.rent_rules.specs.Printed.{printed_case};
ghost use Rattle.rent_rules.specs.Rules.{rules_of_rent};
ghost use Rattle.rule_verdicts.specs.declared.verdict.Verdict.TheVariants.{Yes};
ghost use Rattle.rule_verdicts.specs.Verdicts.{IsVerdictOf};

use best_laws::walk_law;

/// The lines for the solver's division print the case itself, and keep all rules.
pub fn rent_lines_law()
    ensures case { (case : RentCase) (division : RentDivision) → IsRentDivision case division
        → printed_case (canonical_rent case division) ≡ case }
    ensures passes { (case : RentCase) (division : RentDivision) → IsValidRentCase case
        → IsRentDivision case division
        → IsVerdictOf (rules_of_rent (canonical_rent case division)) Yes }
{
    walk_law();
}
