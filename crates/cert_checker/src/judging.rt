// Reads certificate text from a source, and gives the verdict on it.
ghost use Rattle.std.specs.Prelude.{◌≡◌, ℕ, ◌++◌, List, ◌≤◌, IsErrOf, OnOk, Ok};
ghost use Rattle.std.specs.Io.KnownBytes.{Consumes};
ghost use Rattle.cert_checker.specs.Judged.{IsCertificate, IsJudgement, PrintsBest};
ghost use Rattle.cert_checker.specs.Lines.{IsGoneOn, IsUpTo};
ghost use Rattle.cert_reader.specs.Ends.{OfAnswer};
ghost use Rattle.cert_reader.specs.Stream.{ends_at, ends_before, faults_after_reading};
ghost use Rattle.cert_reader.specs.declared.limits.TheConstants.{MOST_BYTES};
ghost use Rattle.split_base.specs.Faults.{HasRisen};

use crate::laws::certificate_verdict_law;
use crate::lines::{KindLines, Lines};
use cert_reader::{LineNumbers, Part, Pieces, ReadEnd, TextEnd, read_answer, text_law};
use fare_rules::Rows;
use rule_verdicts::Verdict;
use split_base::Source;

/// Reads certificate text to the end of the input, in one pass and in fixed memory, and judges it: whether all rules of its kind hold, or else the
/// first that does not. Once a read has met the end, it does not read again.
///
/// - `NotText` is returned exactly when the input has at most `MOST_BYTES` bytes and is not certificate text, with its first broken line. It was read to
///   its end.
/// - `TooLong` is returned exactly when it has more, whatever its lines. One byte more than `MOST_BYTES` was read.
/// - `ReadFault` is returned only if the source's count of faults has risen, and at once: the failed read is not tried again.
pub fn judge_text<S: Source>(source: &mut S) -> Result<Verdict, TextEnd>
    ensures judged { (taken : List ℕ) × Consumes (S.left source.old) (S.left source.new) taken
        × IsJudgement (S.left source.new) taken result }
    ensures best { result ≡ Ok Verdict.Yes
        → (taken : List ℕ) × Consumes (S.left source.old) (S.left source.new) taken
        × IsCertificate taken × PrintsBest taken }
    ensures faults { S.faults source.new ≡ faults_after_reading (S.faults source.old) result }
    ensures empty { S.empty_reads source.new ≤ ends_at (S.empty_reads source.old) result }
    ensures fault { IsErrOf result TextEnd.ReadFault
        → HasRisen (S.faults source.old) (S.faults source.new) }
    ensures count { S.faults source.old ≤ S.faults source.new }
    ensures beside { S.beside source.new ≡ S.beside source.old }
{
    certificate_verdict_law();
    text_law();
    let mut pieces = Pieces::new();
    let mut numbers = LineNumbers::new();
    let kind = match pieces.next_part(source, &mut numbers)? {
        Part::Kind { kind } => kind,
        Part::Line => unreachable!(),
        Part::Mark { .. } => unreachable!(),
        Part::Done => unreachable!(),
    };
    let mut lines = Lines {
        taken: KindLines::new(kind),
        rows: Rows::new(),
    };
    'lines: loop {
        match pieces.next_part(source, &mut numbers)? {
            Part::Line => lines.take(&numbers),
            Part::Mark { mark } => {
                lines.take_mark(mark);
                take_marks(&mut pieces, source, &mut lines)?;
            }
            Part::Done => return Ok(lines.verdict()),
            Part::Kind { .. } => unreachable!(),
        }
    }
}

/// Judges certificate text as `judge_text` does, and answers with the reasons of a reader that keeps what it reads. `NoMemory` is never returned. The
/// program asks `judge_text`; this is for a caller who handles the ends of `read_certificate` and wants the same ones here.
pub fn judge<S: Source>(source: &mut S) -> Result<Verdict, ReadEnd>
    ensures judged { (taken : List ℕ) × Consumes (S.left source.old) (S.left source.new) taken
        × OfAnswer (IsJudgement (S.left source.new) taken) result }
    ensures best { result ≡ Ok Verdict.Yes
        → (taken : List ℕ) × Consumes (S.left source.old) (S.left source.new) taken
        × IsCertificate taken × PrintsBest taken }
    ensures memory { IsErrOf result ReadEnd.NoMemory → ⊥ }
    ensures faults { OfAnswer
        (λ answer. S.faults source.new ≡ faults_after_reading (S.faults source.old) answer) result }
    ensures empty { OfAnswer
        (λ answer. S.empty_reads source.new ≤ ends_at (S.empty_reads source.old) answer) result }
    ensures fault { IsErrOf result ReadEnd.ReadFault
        → HasRisen (S.faults source.old) (S.faults source.new) }
    ensures count { S.faults source.old ≤ S.faults source.new }
    ensures beside { S.beside source.new ≡ S.beside source.old }
{
    read_answer(judge_text(source))
}

// Takes the remaining marks of a tree that is being read, to the end of its line. Each mark is read by itself, without the room that a line needs.
fn take_marks<S: Source>(
    pieces: &mut Pieces,
    source: &mut S,
    lines: &mut Lines,
) -> Result<(), TextEnd>
    requires known { (taken : List ℕ) × IsUpTo pieces.old lines.old taken }
    requires few { pieces.old.given ≤ MOST_BYTES }
    ensures marks { (more : List ℕ) × Consumes (S.left source.old) (S.left source.new) more
        × ((taken : List ℕ) → IsUpTo pieces.old lines.old taken
        → IsGoneOn pieces.new lines.new (S.left source.new) (taken ++ more) result) }
    ensures later { OnOk result (pieces.old.given ≤ pieces.new.given) }
    ensures few { pieces.new.given ≤ MOST_BYTES }
    ensures faults { S.faults source.new ≡ faults_after_reading (S.faults source.old) result }
    ensures empty { S.empty_reads source.new ≤ ends_before (S.empty_reads source.old) result }
    ensures fault { IsErrOf result TextEnd.ReadFault
        → HasRisen (S.faults source.old) (S.faults source.new) }
    ensures count { S.faults source.old ≤ S.faults source.new }
    ensures beside { S.beside source.new ≡ S.beside source.old }
{
    text_law();
    'marks: while pieces.is_in_tree() {
        if let Some(mark) = pieces.next_in_tree(source)? {
            lines.take_mark(mark);
        }
    }
    Ok(())
}
