// Laws about what the rules of an estate's certificate show. Each is the contract of a function that only calls other laws.
ghost use Rattle.std.specs.Prelude.{◌≡◌, ◌↔◌, ℕ, List};
ghost use Rattle.bid_rules.specs.Goods.{GoodsBest, owners_by_good};
ghost use Rattle.estate_checker.specs.Judged.{AllRulesHold, IsEstateCertificate, IsEstateVerdict, PrintsBestEstate};
ghost use Rattle.estate_checker.specs.Printed.{printed_answer, printed_case, printed_owners};
ghost use Rattle.estate_texts.specs.Texts.{CanSayEstate, EstateView};
ghost use Rattle.rule_verdicts.specs.declared.verdict.Verdict.{Verdict};
ghost use Rattle.rule_verdicts.specs.declared.verdict.Verdict.TheVariants.{Yes};

use estate_bounds::count_law;
use estate_judge::{estate_tree_law, nodes_law};
use estate_texts::estate_text_law;
use nash_bounds::owners_by_good_law;

/// A certificate prints a valid case and its best division. The verdict on bytes is yes exactly if they are a certificate, and bytes have at most one verdict.
/// What a text says is enough: if all nine rules hold of it, the division is the best one.
pub fn estate_certificate_law()
    ensures view { (view : EstateView) → CanSayEstate view → AllRulesHold view
        → GoodsBest (printed_case view) (printed_answer view)
        × (owners_by_good (printed_case view) (printed_answer view) ≡ printed_owners view) }
    ensures best { (bytes : List ℕ) → IsEstateCertificate bytes → PrintsBestEstate bytes }
    ensures yes { (bytes : List ℕ) → IsEstateVerdict bytes Yes ↔ IsEstateCertificate bytes }
    ensures one { (bytes : List ℕ) (verdict other : Verdict) → IsEstateVerdict bytes verdict
        → IsEstateVerdict bytes other → verdict ≡ other }
{
    count_law();
    estate_text_law();
    estate_tree_law();
    nodes_law();
    owners_by_good_law();
}
