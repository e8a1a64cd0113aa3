// Laws about the verdict on a certificate that callers may rely on. Each is the contract of a function that only calls other laws.
ghost use Rattle.std.specs.Prelude.{◌≡◌, ◌↔◌, ℕ, List, length, true};
ghost use Rattle.bid_rules.specs.declared.goods.GoodsCase.{GoodsCase};
ghost use Rattle.bid_rules.specs.Goods.{IsValidGoodsCase, pair_of};
ghost use Rattle.cert_checker.specs.GoodsLeaves.{HasLeaves, IsBeyond, MayStand, StandsAbove, StandsAtLeaf};
ghost use Rattle.cert_checker.specs.Judged.{GivesVerdict, HasNoVerdict, IsCertificate, IsJudged, IsNoText, PrintsBest, SaysView};
ghost use Rattle.cert_reader.specs.declared.certificate.Certificate.{Certificate};
ghost use Rattle.cert_reader.specs.declared.forms.Counts.{Counts};
ghost use Rattle.cert_reader.specs.GoodsViews.{GoodsView};
ghost use Rattle.cert_reader.specs.Text.{IsBrokenText, IsText, Said};
ghost use Rattle.cert_reader.specs.Views.{CertificateView, counts_of, said_of, view_of};
ghost use Rattle.goods_rules.specs.Printed.{printed_case};
ghost use Rattle.goods_rules.specs.Rules.{goods_rule};
ghost use Rattle.nash_bounds.specs.LeftOut.{may_be_left};
ghost use Rattle.rule_verdicts.specs.declared.verdict.Verdict.{Verdict};
ghost use Rattle.rule_verdicts.specs.declared.verdict.Verdict.TheVariants.{Yes};

use cert_reader::text_law;
use fare_rules::fares_certificate_law;
use goods_rules::goods_certificate_law;
use nash_bounds::{bound_law, open_prefixes_law, whole_list_law};
use rent_rules::rent_certificate_law;

/// Bytes have at most one verdict, and none if they have a broken line. Certificate text has a verdict, the yes or no of its rules; bytes without a verdict
/// aren't certificate text. For a certificate that was read, this is what `check` says. Text whose rules all hold is a certificate, and a certificate prints
/// a valid case and its best division: rooms and prices, owners, or fares and a route.
pub fn certificate_verdict_law()
    ensures one { (bytes : List ℕ) (verdict other : Verdict) → IsJudged bytes verdict
        → IsJudged bytes other → other ≡ verdict }
    ensures whole { (bytes : List ℕ) (verdict : Verdict) (line : ℕ) → IsJudged bytes verdict
        → IsBrokenText bytes line → ⊥ }
    ensures said { (bytes : List ℕ) (counts : Counts) (said : List Said) → IsText bytes counts said
        → (view : CertificateView) × SaysView bytes view }
    ensures verdict { (bytes : List ℕ) (view : CertificateView) (verdict : Verdict)
        → SaysView bytes view → IsJudged bytes verdict ↔ GivesVerdict view verdict }
    ensures some { (bytes : List ℕ) → HasNoVerdict bytes → IsNoText bytes }
    ensures checked { (bytes : List ℕ) (certificate : Certificate) (verdict : Verdict)
        → IsText bytes (counts_of (view_of certificate)) (said_of (view_of certificate))
        → IsJudged bytes verdict ↔ GivesVerdict (view_of certificate) verdict }
    ensures best { (bytes : List ℕ) → IsCertificate bytes → PrintsBest bytes }
    ensures kept { (bytes : List ℕ) (view : CertificateView)
        → IsText bytes (counts_of view) (said_of view) → GivesVerdict view Yes
        → IsCertificate bytes }
{
    text_law();
    rent_certificate_law();
    goods_certificate_law();
    fares_certificate_law();
}

/// What the fourth and the fifth rule of goods ask, in terms of the bound's definition. The rules themselves say it by a function: a node may be left out
/// exactly when the greatest pair of any list that the node allows is less than the answer's pair, or is the same and the node's owners come later than the
/// answer's first ones. So the rules hold exactly when the marks are one tree whose `-` are all allowed by that definition, whether goods are still to be
/// given or all are given. If all are given, the greatest pair is that of the allocation itself.
pub fn goods_leaves_law()
    ensures stands { (case : GoodsCase) (answer owners : List ℕ) → IsValidGoodsCase case
        → may_be_left case answer owners ≡ true ↔ MayStand case answer owners }
    ensures above { (view : GoodsView) → IsValidGoodsCase (printed_case view) → goods_rule view 4
        ↔ HasLeaves StandsAbove view }
    ensures leaves { (view : GoodsView) → IsValidGoodsCase (printed_case view) → goods_rule view 5
        ↔ HasLeaves StandsAtLeaf view }
    ensures whole_list { (case : GoodsCase) (answer owners : List ℕ) → IsValidGoodsCase case
        → length owners ≡ case.facts.goods → MayStand case answer owners
        ↔ IsBeyond case answer owners (pair_of case owners) }
{
    bound_law();
    open_prefixes_law();
    whole_list_law();
}
