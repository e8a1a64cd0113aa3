// A law about what the rules of a rent show. It is the contract of a function that only calls other laws.
ghost use Rattle.std.specs.Prelude.{◌≡◌};
ghost use Rattle.bid_rules.specs.Rent.{IsValidRentCase, RentBest};
ghost use Rattle.cert_reader.specs.Layout.{RentView};
ghost use Rattle.rent_rules.specs.Printed.{printed_case, printed_rooms};
ghost use Rattle.rent_rules.specs.Rules.{rules_of_rent};
ghost use Rattle.rule_verdicts.specs.declared.verdict.Verdict.{Verdict};
ghost use Rattle.rule_verdicts.specs.declared.verdict.Verdict.TheVariants.{Yes};
ghost use Rattle.rule_verdicts.specs.Verdicts.{IsVerdictOf};

use best_laws::{key_law, shown_rent_law, walk_law};

/// If all rules hold, the printed case is valid, and the printed rooms and prices are best for it: the dual numbers show this for the
/// rooms, and the walks for the prices (Gal, Mash, Procaccia and Zick 2016). A certificate has one verdict.
pub fn rent_certificate_law()
    ensures valid { (view : RentView) → IsVerdictOf (rules_of_rent view) Yes
        → IsValidRentCase (printed_case view) }
    ensures best { (view : RentView) → IsVerdictOf (rules_of_rent view) Yes
        → RentBest (printed_case view) (printed_rooms view) view.prices }
    ensures one { (view : RentView) (verdict other : Verdict)
        → IsVerdictOf (rules_of_rent view) verdict → IsVerdictOf (rules_of_rent view) other
        → other ≡ verdict }
{
    key_law();
    walk_law();
    shown_rent_law();
}
