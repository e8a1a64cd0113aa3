// A law about the answer to a fetched certificate that callers may rely on. It is the contract of a function that only calls other laws.
ghost use Rattle.std.specs.Prelude.{◌≡◌, ℕ, List, Result, Ok};
ghost use Rattle.cert_checker.specs.Judged.{IsCertificate, PrintsBest};
ghost use Rattle.rule_verdicts.specs.declared.verdict.Verdict.{Verdict};
ghost use Rattle.rule_verdicts.specs.declared.verdict.Verdict.TheVariants.{Yes};
ghost use Rattle.remote_check.specs.declared.ends.FetchEnd.{FetchEnd};
ghost use Rattle.remote_check.specs.Fetched.{Fetched, IsReplyOf};

use cert_checker::certificate_verdict_law;
use cert_reader::text_law;

/// The bytes of a reply have one answer at most, so each comes exactly when it is said to come. Only yes shows that the reply's body is a certificate, and
/// that it prints a valid case and its best division. A reply whose body is a certificate has no other answer.
pub fn fetched_law()
    ensures one { (bytes : List ℕ) (result other : Result Verdict FetchEnd) → Fetched bytes result
        → Fetched bytes other → other ≡ result }
    ensures best { (bytes : List ℕ) → Fetched bytes (Ok Yes)
        → (body : List ℕ) × IsReplyOf bytes body × IsCertificate body × PrintsBest body }
    ensures certificate { (bytes body : List ℕ) → IsReplyOf bytes body → IsCertificate body
        → Fetched bytes (Ok Yes) }
{
    certificate_verdict_law();
    text_law();
}
