// Reads a whole certificate from a source.
ghost use Rattle.std.specs.Prelude.{◌≡◌, ◌+◌, ◌≤◌, ℕ, List, length, IsErrOf};
ghost use Rattle.std.specs.Io.KnownBytes.{Consumes};
ghost use Rattle.split_base.specs.Faults.{HasRisen};
ghost use Rattle.cert_reader.specs.Stream.{ends_at, faults_after_reading};
ghost use Rattle.cert_reader.specs.Ends.{OfReading};
ghost use Rattle.cert_reader.specs.Whole.{IsReadWhole};
ghost use Rattle.cert_reader.specs.declared.limits.TheConstants.{MOST_BYTES};

use crate::building::certificate_of;
use crate::certificate::Certificate;
use crate::ends::ReadEnd;
use crate::pieces::{Piece, Pieces};
use split_base::{NoMemory, Source};
use std::alloc::Global;

/// Reads a certificate text, and gives what it says.
///
/// - `NotText` is returned exactly when the input has at most `MOST_BYTES` bytes and is not certificate text, with its first broken line. It was read
///   to its end.
/// - `TooLong` is returned exactly when it has more, whatever its lines. One byte more than `MOST_BYTES` was read.
/// - `ReadFault` is returned only if the source's count of faults has risen, and at once: the failed read is not tried again.
///
/// The program judges line by line and keeps no certificate; this is for a caller who wants to look at what one says.
pub fn read_certificate<S: Source>(alloc: Global, source: &mut S) -> Result<Certificate, ReadEnd>
    ensures read { (taken : List ℕ) × Consumes (S.left source.old) (S.left source.new) taken
        × OfReading (IsReadWhole (S.left source.new) taken) (length taken ≤ MOST_BYTES) result }
    ensures faults { OfReading
        (λ answer. S.faults source.new ≡ faults_after_reading (S.faults source.old) answer)
        (S.faults source.new ≡ S.faults source.old) result }
    ensures empty { OfReading
        (λ answer. S.empty_reads source.new ≤ ends_at (S.empty_reads source.old) answer)
        (S.empty_reads source.new ≤ S.empty_reads source.old + 1) result }
    ensures fault { IsErrOf result ReadEnd.ReadFault
        → HasRisen (S.faults source.old) (S.faults source.new) }
    ensures count { S.faults source.old ≤ S.faults source.new }
    ensures beside { S.beside source.new ≡ S.beside source.old }
{
    let mut pieces = Pieces::new();
    let mut lines = Vec::new(alloc);
    let mut marks = Vec::new(alloc);
    'pieces: loop {
        match pieces.next_piece(source) {
            Err(end) => return Err(ReadEnd::from(end)),
            Ok(Piece::Kind { .. }) => {}
            Ok(Piece::Line { numbers }) => {
                if lines.push(numbers).is_err() {
                    return Err(ReadEnd::NoMemory);
                }
            }
            Ok(Piece::Mark { mark }) => {
                if marks.push(mark).is_err() {
                    return Err(ReadEnd::NoMemory);
                }
            }
            Ok(Piece::Done) => {
                return match certificate_of(alloc, pieces.counts(), &lines, marks) {
                    Ok(certificate) => Ok(certificate),
                    Err(NoMemory) => Err(ReadEnd::NoMemory),
                };
            }
        }
    }
}
