// Laws about audits of goods, which hold for all cases. Each is the contract of a function that does nothing.
ghost use Rattle.std.specs.Prelude.{◌≡◌, ℕ, List, Option, None};
ghost use Rattle.std.specs.Option.{option_map};
ghost use Rattle.bid_rules.specs.declared.goods.GoodsCase.{GoodsCase};
ghost use Rattle.bid_rules.specs.Goods.{Dominates, IsAllocation, in_search_order};
ghost use Rattle.envy_check.specs.Fairness.{AreBestOwners};
ghost use Rattle.nash_search.specs.declared.division.GoodsDivision.{GoodsDivision};
ghost use Rattle.nash_search.specs.Division.{IsGoodsDivision};
ghost use Rattle.split_reports.specs.Names.{NamesData};
ghost use Rattle.goods_audit.specs.Domination.{IsBetterDivision, OwnersByGood};
ghost use Rattle.goods_audit.specs.Texts.{IsAuditText, IsDivisionAudit, SaysFair};

use best_laws::best_goods_law;
use envy_check::one_good_law;
use nash_bounds::owners_by_good_law;
use nash_search::step_count_law;

/// About the best division, the audit says that nothing dominates it, which is true, and it says of nobody that their envy goes past one
/// good (Caragiannis and others 2016).
pub fn fair_audit_law()
    ensures fair { (given : NamesData) (case : GoodsCase) (owners text : List ℕ)
        → AreBestOwners case owners → IsAuditText given case owners None text
        → SaysFair given case owners text }
    ensures undominated { (case : GoodsCase) (owners others : List ℕ) → AreBestOwners case owners
        → IsAllocation case others → Dominates case others (in_search_order case owners) → ⊥ }
{
    best_goods_law();
    one_good_law();
    owners_by_good_law();
}

/// Since the solver gives a case only one division, it has only one audit under the names of its members and goods: there is one answer
/// for each two players. The same is true of any owners, if the audit gives the least division that dominates theirs, or says that there
/// is none.
pub fn one_goods_audit_law()
    ensures division { (given : NamesData) (case : GoodsCase) (division others : GoodsDivision)
        (text other : List ℕ) → IsGoodsDivision case division → IsGoodsDivision case others
        → IsDivisionAudit given case division text → IsDivisionAudit given case others other
        → text ≡ other }
    ensures owners { (given : NamesData) (case : GoodsCase) (owners : List ℕ)
        (better another : Option OwnersByGood) (text other : List ℕ)
        → IsBetterDivision case (in_search_order case owners) better
        → IsBetterDivision case (in_search_order case owners) another
        → IsAuditText given case owners (option_map (λ others. others.items) better) text
        → IsAuditText given case owners (option_map (λ others. others.items) another) other
        → text ≡ other }
{
    step_count_law();
}
