// Laws about what the rules of adjusted winner show. Each is the contract of a function that only calls other laws.
ghost use Rattle.std.specs.Prelude.{◌≡◌, ℕ, List};
ghost use Rattle.bid_rules.specs.Goods.{IsValidGoodsCase, player_count};
ghost use Rattle.winner_definition.specs.Printed.{AreFairShares};
ghost use Rattle.rule_verdicts.specs.declared.verdict.Verdict.{Verdict};
ghost use Rattle.rule_verdicts.specs.declared.verdict.Verdict.TheVariants.{Yes};
ghost use Rattle.rule_verdicts.specs.Verdicts.{IsVerdictOf};
ghost use Rattle.winner_rules.specs.Judged.{IsPairJudged, IsWinnerCertificate, PrintsFair};
ghost use Rattle.winner_rules.specs.Rules.{printed_case, rules_of_winner};
ghost use Rattle.cert_reader.specs.Forms.{Pairs};
ghost use Rattle.cert_reader.specs.Layout.{PairView};
ghost use Rattle.cert_reader.specs.Pairs.{IsPairText};
ghost use Rattle.cert_reader.specs.Text.{IsBrokenTextOf};
ghost use Rattle.bid_rules.specs.declared.limits.TheConstants.{PAIR};

use cert_reader::pair_law;
use winner_definition::printed_law;

/// If all rules hold, a valid case of two players is printed, and the printed shares are those of a division of its goods that is equitable, envy-free
/// and efficient and splits at most one good, whatever rule made it (Brams and Taylor 1996). A text has one verdict.
pub fn winner_certificate_law()
    ensures valid { (view : PairView) → IsVerdictOf (rules_of_winner view) Yes
        → IsValidGoodsCase (printed_case view) }
    ensures two { (view : PairView) → IsVerdictOf (rules_of_winner view) Yes
        → player_count (printed_case view) ≡ PAIR }
    ensures fair { (view : PairView) → IsVerdictOf (rules_of_winner view) Yes
        → AreFairShares (printed_case view) view.shares }
    ensures one { (view : PairView) (verdict other : Verdict)
        → IsVerdictOf (rules_of_winner view) verdict → IsVerdictOf (rules_of_winner view) other
        → other ≡ verdict }
{
    printed_law();
}

/// Bytes have at most one verdict, and none if they have a broken line. The verdict on a text is that of the rules on what it says. Text whose rules all hold
/// prints a valid case of two players, with shares of a fair division of its goods, whatever rule made it.
pub fn winner_verdict_law()
    ensures one { (bytes : List ℕ) (verdict other : Verdict) → IsPairJudged bytes verdict
        → IsPairJudged bytes other → other ≡ verdict }
    ensures whole { (bytes : List ℕ) (verdict : Verdict) (line : ℕ) → IsPairJudged bytes verdict
        → IsBrokenTextOf Pairs bytes line → ⊥ }
    ensures said { (bytes : List ℕ) (view : PairView) (verdict : Verdict) → IsPairText bytes view
        → IsPairJudged bytes verdict → IsVerdictOf (rules_of_winner view) verdict }
    ensures fair { (bytes : List ℕ) → IsWinnerCertificate bytes → PrintsFair bytes }
{
    pair_law();
    winner_certificate_law();
}
