// Laws about the lines of canonical certificates of goods, which hold for all cases. Each is the contract of a function that does
// nothing.
ghost use Rattle.std.specs.Prelude.{◌≡◌, ◌≤◌, ◌+◌, ◌*◌, length, All};
ghost use Rattle.bid_rules.specs.declared.goods.GoodsCase.{GoodsCase};
ghost use Rattle.bid_rules.specs.declared.limits.TheConstants.{MOST_MEMBERS, MOST_STEPS};
ghost use Rattle.bid_rules.specs.Goods.{GoodsBest, IsValidGoodsCase, player_count, with_members};
ghost use Rattle.cert_reader.specs.declared.limits.TheConstants.{MOST_BESIDE_MARKS, MOST_BYTES};
ghost use Rattle.cert_reader.specs.Text.{IsMark};
ghost use Rattle.certificates.specs.GoodsLines.{answer_of, canonical_goods, canonical_tree};
ghost use Rattle.goods_rules.specs.Printed.{printed_case};
ghost use Rattle.goods_rules.specs.Rules.{rules_of_goods};
ghost use Rattle.nash_bounds.specs.declared.limits.TheConstants.{MOST_SHORTER};
ghost use Rattle.nash_search.specs.Division.{IsGoodsDivision};
ghost use Rattle.nash_search.specs.declared.division.GoodsDivision.{GoodsDivision};
ghost use Rattle.rule_verdicts.specs.declared.verdict.Verdict.TheVariants.{Yes};
ghost use Rattle.rule_verdicts.specs.Verdicts.{IsVerdictOf};

use best_laws::players_law;
use nash_bounds::{bound_law, open_prefixes_law, owners_by_good_law, whole_list_law};

/// The lines for the solver's division print the case, with the greatest possible number of members, and keep all rules. Their tree is
/// that of the best allocation. It has one mark, and for each player at most as many more as the steps plus `MOST_SHORTER`. So the text
/// of a certificate with it fits in `MOST_BYTES`.
pub fn goods_lines_law()
    ensures case { (case : GoodsCase) (division : GoodsDivision)
        → printed_case (canonical_goods case division) ≡ with_members case MOST_MEMBERS }
    ensures answer { (case : GoodsCase) (division : GoodsDivision) → IsGoodsDivision case division
        → GoodsBest case (answer_of case division) }
    ensures passes { (case : GoodsCase) (division : GoodsDivision) → IsValidGoodsCase case
        → IsGoodsDivision case division
        → IsVerdictOf (rules_of_goods (canonical_goods case division)) Yes }
    ensures marks { (case : GoodsCase) (division : GoodsDivision)
        → (1 ≤ length (canonical_tree case division)) × All IsMark (canonical_tree case division) }
    ensures few { (case : GoodsCase) (division : GoodsDivision) → IsValidGoodsCase case
        → IsGoodsDivision case division
        → length (canonical_tree case division)
        ≤ player_count case * (division.steps + MOST_SHORTER) + 1 }
    ensures short { (case : GoodsCase) (division : GoodsDivision) → IsValidGoodsCase case
        → IsGoodsDivision case division
        → length (canonical_tree case division) ≤ MOST_MEMBERS * (MOST_STEPS + MOST_SHORTER) + 1 }
    ensures fits { MOST_BESIDE_MARKS + MOST_MEMBERS * (MOST_STEPS + MOST_SHORTER) + 1 ≤ MOST_BYTES }
{
    bound_law();
    open_prefixes_law();
    owners_by_good_law();
    players_law();
    whole_list_law();
}
