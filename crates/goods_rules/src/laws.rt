// Laws about what the rules of goods show. Each is the contract of a function that only calls other laws.
ghost use Rattle.std.specs.Prelude.{◌≡◌, ◌↔◌, ℕ, List};
ghost use Rattle.bid_rules.specs.Goods.{GoodsBest, IsAllocation, IsValidGoodsCase, owners_by_good};
ghost use Rattle.cert_reader.specs.declared.marks.TheConstants.{ANSWER_LEAF};
ghost use Rattle.cert_reader.specs.GoodsViews.{GoodsView};
ghost use Rattle.goods_rules.specs.Leaves.{BeginsWithOneLeaf, HasLeaf, IsLeafMark};
ghost use Rattle.goods_rules.specs.Printed.{printed_answer, printed_case, printed_owners};
ghost use Rattle.goods_rules.specs.Rules.{HasTree, goods_rule, leaf_rule, rules_of_goods};
ghost use Rattle.rule_verdicts.specs.declared.verdict.Verdict.{Verdict};
ghost use Rattle.rule_verdicts.specs.declared.verdict.Verdict.TheVariants.{Yes};
ghost use Rattle.rule_verdicts.specs.Verdicts.{IsVerdictOf};

use nash_bounds::{bound_law, open_prefixes_law, owners_by_good_law};

/// If all rules hold, the printed case is valid, and the printed owners are best for it (Caragiannis and others 2016), in the order of the search
/// and in the order of the goods. A text has one verdict.
pub fn goods_certificate_law()
    ensures valid { (view : GoodsView) → IsVerdictOf (rules_of_goods view) Yes
        → IsValidGoodsCase (printed_case view) }
    ensures best { (view : GoodsView) → IsVerdictOf (rules_of_goods view) Yes
        → GoodsBest (printed_case view) (printed_answer view) }
    ensures owners { (view : GoodsView) → IsVerdictOf (rules_of_goods view) Yes
        → owners_by_good (printed_case view) (printed_answer view) ≡ printed_owners view }
    ensures one { (view : GoodsView) (verdict other : Verdict)
        → IsVerdictOf (rules_of_goods view) verdict → IsVerdictOf (rules_of_goods view) other
        → verdict ≡ other }
{
    bound_law();
    open_prefixes_law();
    owners_by_good_law();
}

/// What the leaves of a tree of marks are, and what the rules on the tree ask of them. If the marks are one tree, each allocation begins with exactly one leaf,
/// and each leaf is a `-`, or a `=` where all goods are given. Rules 4, 5 and 6 hold exactly when the marks are one tree and what the rule asks holds of each
/// leaf; rule 6 asks that a `=` is the answer. If all rules hold, the answer has its own leaf, with a `=`, and no other leaf has a `=`.
pub fn goods_tree_law()
    ensures one { (view : GoodsView) (allocation : List ℕ) → goods_rule view 3
        → IsAllocation (printed_case view) allocation
        → BeginsWithOneLeaf (printed_case view) view.marks allocation }
    ensures marks { (view : GoodsView) (owners : List ℕ) (mark : ℕ) → goods_rule view 3
        → HasLeaf (printed_case view) view.marks owners mark
        → IsLeafMark (printed_case view) owners mark }
    ensures rules { (view : GoodsView) (number : ℕ) → HasTree view number
        ↔ goods_rule view 3
        × ((owners : List ℕ) (mark : ℕ) → HasLeaf (printed_case view) view.marks owners mark
        → leaf_rule (printed_case view) (printed_answer view) number owners mark) }
    ensures answer { (view : GoodsView) → goods_rule view 6
        ↔ goods_rule view 3
        × ((owners : List ℕ) → HasLeaf (printed_case view) view.marks owners ANSWER_LEAF
        → owners ≡ printed_answer view) }
    ensures own { (view : GoodsView) → IsVerdictOf (rules_of_goods view) Yes
        → HasLeaf (printed_case view) view.marks (printed_answer view) ANSWER_LEAF }
{
    goods_certificate_law();
    bound_law();
    open_prefixes_law();
}
