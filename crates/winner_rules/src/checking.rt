// The judge of the text of adjusted winner, over any source.
ghost use Rattle.std.specs.Prelude.{◌≡◌, ◌≤◌, ℕ, List, IsErrOf, Ok};
ghost use Rattle.std.specs.Io.KnownBytes.{Consumes};
ghost use Rattle.split_base.specs.Faults.{HasRisen};
ghost use Rattle.cert_reader.specs.Ends.{OfAnswer};
ghost use Rattle.cert_reader.specs.Stream.{ends_at, faults_after_reading};
ghost use Rattle.winner_rules.specs.Judged.{IsPairJudgement, PrintsFair};

use crate::laws::winner_verdict_law;
use crate::rules::check_pair;
use cert_reader::{ReadEnd, TextEnd, read_answer, read_pair};
use rule_verdicts::Verdict;
use split_base::Source;

/// Reads the text of adjusted winner, and says whether all its rules hold, or else the first that does not. It takes no memory. Once a read has met the
/// end, it does not read again.
///
/// - `NotText` is returned exactly when the input has at most `MOST_BYTES` bytes and is not the text of a pair, with its first broken line. It was read to
///   its end.
/// - `TooLong` is returned exactly when it has more, whatever its lines. One byte more than `MOST_BYTES` was read.
/// - `ReadFault` is returned only if the source's count of faults has risen, and at once: the failed read is not tried again.
pub fn check_pair_text<S: Source>(source: &mut S) -> Result<Verdict, TextEnd>
    ensures judged { (taken : List ℕ) × Consumes (S.left source.old) (S.left source.new) taken
        × IsPairJudgement (S.left source.new) taken result }
    ensures fair { result ≡ Ok Verdict.Yes
        → (taken : List ℕ) × Consumes (S.left source.old) (S.left source.new) taken
        × PrintsFair taken }
    ensures faults { S.faults source.new ≡ faults_after_reading (S.faults source.old) result }
    ensures empty { S.empty_reads source.new ≤ ends_at (S.empty_reads source.old) result }
    ensures fault { IsErrOf result TextEnd.ReadFault
        → HasRisen (S.faults source.old) (S.faults source.new) }
    ensures count { S.faults source.old ≤ S.faults source.new }
    ensures beside { S.beside source.new ≡ S.beside source.old }
{
    winner_verdict_law();
    let text = read_pair(source)?;
    Ok(check_pair(&text))
}

/// Checks the text of adjusted winner as `check_pair_text` does, and answers with the reasons of a reader who keeps what it reads. `NoMemory` is never
/// returned. The program asks `check_pair_text`; this is for a caller who handles the ends of `read_certificate` and wants the same ones here.
pub fn check_winner<S: Source>(source: &mut S) -> Result<Verdict, ReadEnd>
    ensures judged { (taken : List ℕ) × Consumes (S.left source.old) (S.left source.new) taken
        × OfAnswer (IsPairJudgement (S.left source.new) taken) result }
    ensures fair { result ≡ Ok Verdict.Yes
        → (taken : List ℕ) × Consumes (S.left source.old) (S.left source.new) taken
        × PrintsFair taken }
    ensures memory { IsErrOf result ReadEnd.NoMemory → ⊥ }
    ensures faults { OfAnswer
        (λ answer. S.faults source.new ≡ faults_after_reading (S.faults source.old) answer) result }
    ensures empty { OfAnswer
        (λ answer. S.empty_reads source.new ≤ ends_at (S.empty_reads source.old) answer) result }
    ensures fault { IsErrOf result ReadEnd.ReadFault
        → HasRisen (S.faults source.old) (S.faults source.new) }
    ensures count { S.faults source.old ≤ S.faults source.new }
    ensures beside { S.beside source.new ≡ S.beside source.old }
{
    read_answer(check_pair_text(source))
}
