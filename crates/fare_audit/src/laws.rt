// Laws about audits of fares, which hold for all cases. Each is the contract of a function that does
// nothing.
ghost use Rattle.std.specs.Prelude.{◌≡◌, ℕ, pos, List, map, IsTrue};
ghost use Rattle.bid_rules.specs.declared.cases.FareCase.{FareCase};
ghost use Rattle.bid_rules.specs.Fares.{FareBest};
ghost use Rattle.bid_rules.specs.Fractions.{Fraction, IsQuotient};
ghost use Rattle.shapley_core.specs.declared.division.FareDivision.{FareDivision};
ghost use Rattle.shapley_core.specs.Division.{IsFareDivision};
ghost use Rattle.split_frac.specs.Frac.{fraction_of};
ghost use Rattle.split_frac.specs.declared.frac.Frac.{Frac};
ghost use Rattle.fare_audit.specs.declared.audit.FareAudit.{FareAudit};
ghost use Rattle.fare_audit.specs.Excesses.{IsFareAudit, excess_of, group_count, overpays};
ghost use Rattle.fare_audit.specs.Texts.{IsFareAuditText};

use best_laws::{best_fares_law, coalition_law};
use shapley_core::division_law;
use split_frac::value_law;

/// The group of all riders has no excess: best fares sum to the cost of all (Shapley 1953).
pub fn all_riders_law()
    ensures none { (case : FareCase) (fares : List Fraction) (route : List ℕ)
        → FareBest case fares route
        → IsQuotient (excess_of case fares (group_count case)) (pos 0) 1 }
    ensures pays { (case : FareCase) (fares : List Fraction) (route : List ℕ)
        → FareBest case fares route → IsTrue (overpays case fares (group_count case)) → ⊥ }
{
    best_fares_law();
    coalition_law();
}

/// Fares have only one audit, and since the solver gives a case only one division, it has only one text
/// under a given title.
pub fn one_audit_law()
    ensures audit { (case : FareCase) (fares : List Frac) (audit other : FareAudit)
        → IsFareAudit case (map fraction_of fares) audit
        → IsFareAudit case (map fraction_of fares) other → audit ≡ other }
    ensures text { (title : List ℕ) (case : FareCase) (division others : FareDivision)
        (text other : List ℕ) → IsFareDivision case division → IsFareDivision case others
        → IsFareAuditText title case division text → IsFareAuditText title case others other
        → text ≡ other }
{
    division_law();
    value_law();
}
