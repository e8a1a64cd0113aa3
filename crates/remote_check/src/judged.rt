// The judge's answer on a body.
ghost use Rattle.std.specs.Prelude.{◌≡◌, ◌≢◌, ◌≤◌, ◌<◌, ◌+◌, ◌-◌, ◌^◌, IfSome, IsErrOf, Err};
ghost use Rattle.std.specs.Io.KnownBytes.{prepend_known};
ghost use Rattle.cert_reader.specs.Stream.{faults_after_reading};
ghost use Rattle.cert_reader.specs.declared.limits.TheConstants.{MOST_BYTES};
ghost use Rattle.split_base.specs.Faults.{HasRisen};
ghost use Rattle.remote_check.specs.Bodies.{JudgeSays, given_of};
ghost use Rattle.remote_check.specs.Fetched.{SaysBody};
ghost use Rattle.remote_check.specs.Requests.{faults_of};
ghost use Rattle.remote_check.specs.Taken.{LeavesSome};

use crate::ahead::Ahead;
use crate::body::{Body, Due};
use crate::ends::FetchEnd;
use cert_checker::judge_text;
use cert_reader::TextEnd;
use rule_verdicts::Verdict;
use split_base::Source;

// Judges the body of this length, of which the first bytes, and maybe some after it, were read ahead.
pub(crate) fn judge_body<S: Source>(
    link: &mut S,
    held: &[u8],
    length: usize,
) -> Result<Verdict, FetchEnd>
    requires { length ≤ MOST_BYTES }
    ensures says { IfSome (prepend_known held.now (S.left link.old)) (λ rest.
        result ≢ Err FetchEnd.LinkFault → SaysBody length rest result) }
    ensures faults { S.faults link.new ≡ faults_of (S.faults link.old) result }
    ensures fault { IsErrOf result FetchEnd.LinkFault
        → HasRisen (S.faults link.old) (S.faults link.new) }
    ensures count { S.faults link.old ≤ S.faults link.new }
    ensures once { S.empty_reads link.new ≤ S.empty_reads link.old + 1 }
    ensures before_end { IsErrOf result FetchEnd.LinkFault → S.faults link.new < 2 ^ 64 - 1
        → S.empty_reads link.new ≤ S.empty_reads link.old }
    ensures some { IsErrOf result FetchEnd.LinkFault → S.faults link.new < 2 ^ 64 - 1
        → IfSome (prepend_known held.now (S.left link.old)) (λ rest.
        LeavesSome length rest (S.left link.new)) }
    ensures beside { S.beside link.new ≡ S.beside link.old }
{
    match judge_given(link, held, length) {
        Ok(verdict) => Ok(verdict),
        Err(TextEnd::NotText { line }) => Err(FetchEnd::NotText { line }),
        // It was told to be shorter: so the input ended within it.
        Err(TextEnd::TooLong) => Err(FetchEnd::Reply),
        Err(TextEnd::ReadFault) => Err(FetchEnd::LinkFault),
    }
}

// Judges what is given of the input for a body of this length.
fn judge_given<S: Source>(link: &mut S, held: &[u8], length: usize) -> Result<Verdict, TextEnd>
    ensures says { IfSome (prepend_known held.now (S.left link.old)) (λ rest.
        JudgeSays (given_of length 0 rest) result) }
    ensures faults { S.faults link.new ≡ faults_after_reading (S.faults link.old) result }
    ensures fault { IsErrOf result TextEnd.ReadFault
        → HasRisen (S.faults link.old) (S.faults link.new) }
    ensures count { S.faults link.old ≤ S.faults link.new }
    ensures once { S.empty_reads link.new ≤ S.empty_reads link.old + 1 }
    ensures before_end { IsErrOf result TextEnd.ReadFault → S.faults link.new < 2 ^ 64 - 1
        → S.empty_reads link.new ≤ S.empty_reads link.old }
    ensures some { IsErrOf result TextEnd.ReadFault → S.faults link.new < 2 ^ 64 - 1
        → length ≤ MOST_BYTES
        → IfSome (prepend_known held.now (S.left link.old)) (λ rest.
        LeavesSome length rest (S.left link.new)) }
    ensures beside { S.beside link.new ≡ S.beside link.old }
{
    let front = held.len().min(length);
    let mut reply = Ahead {
        input: Body {
            link,
            due: Due::Awaited(length - front),
        },
        held: &held[..front],
    };
    judge_text(&mut reply)
}
