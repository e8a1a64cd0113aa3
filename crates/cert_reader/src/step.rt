// Takes one line of a text from a source, and ends the reading if the bytes stop being text.
ghost use Rattle.std.specs.Prelude.{◌≡◌, ◌+◌, ◌<◌, ◌≤◌, ◌∷◌, ◌++◌, ℕ, List, length, IsErrOf, Err};
ghost use Rattle.split_base.specs.Faults.{HasRisen};
ghost use Rattle.cert_reader.specs.Forms.{AreInRange, Tree, forms_of};
ghost use Rattle.cert_reader.specs.Order.{form_in};
ghost use Rattle.cert_reader.specs.Steps.{IsRefused, IsNextLineOrRefusal, with_buffer};
ghost use Rattle.cert_reader.specs.Stream.{ends_after, ends_before, faults_after_reading, taken_count};
ghost use Rattle.cert_reader.specs.declared.limits.TheConstants.{MOST_BYTES};

use crate::ends::TextEnd;
use crate::forms::Counts;
use crate::line::LineNumbers;
use crate::order::settle;
use crate::stream::{Bytes, Cut};
use split_base::Source;

// Reads on to the end after a broken line.
pub(crate) fn refuse<S: Source>(bytes: &mut Bytes, source: &mut S, line: u32) -> TextEnd
    ensures end { IsRefused bytes.old bytes.new (S.left source.old) (S.left source.new) line
        (λ _. Unit {0}) result }
    ensures few { taken_count bytes.new ≤ MOST_BYTES }
    ensures faults { S.faults source.new
        ≡ faults_after_reading {T = ℕ} (S.faults source.old) (Err result) }
    ensures empty { S.empty_reads source.new ≤ ends_after (S.empty_reads source.old) result }
    ensures fault { result ≡ TextEnd.ReadFault
        → HasRisen (S.faults source.old) (S.faults source.new) }
    ensures count { S.faults source.old ≤ S.faults source.new }
    ensures beside { S.beside source.new ≡ S.beside source.old }
{
    match bytes.drain(source) {
        Ok(()) => TextEnd::NotText { line },
        Err(stop) => stop,
    }
}

// Takes the next line of numbers if it may come at its place. Gives counts under which it may, and leaves its numbers in the buffer. If it may not come
// there, reads on to the end.
pub(crate) fn next_settled<S: Source>(
    bytes: &mut Bytes,
    source: &mut S,
    index: u32,
    known: Counts,
    numbers: &mut LineNumbers,
) -> Result<Counts, TextEnd>
    requires known { AreInRange known }
    requires index { index < length (forms_of known) }
    requires line { form_in known index ≡ Tree → ⊥ }
    ensures line { IsNextLineOrRefusal bytes.old bytes.new (S.left source.old) (S.left source.new)
        index known (with_buffer result numbers.new) }
    ensures few { taken_count bytes.new ≤ MOST_BYTES }
    ensures faults { S.faults source.new ≡ faults_after_reading (S.faults source.old) result }
    ensures empty { S.empty_reads source.new ≤ ends_before (S.empty_reads source.old) result }
    ensures fault { IsErrOf result TextEnd.ReadFault
        → HasRisen (S.faults source.old) (S.faults source.new) }
    ensures count { S.faults source.old ≤ S.faults source.new }
    ensures beside { S.beside source.new ≡ S.beside source.old }
{
    match bytes.next_line(source)? {
        Cut::Line => match settle(bytes.line(), index as usize, known, numbers) {
            Some(counts) => Ok(counts),
            None => Err(refuse(bytes, source, index + 1)),
        },
        Cut::Long => Err(refuse(bytes, source, index + 1)),
        Cut::Unended => Err(TextEnd::NotText { line: index + 1 }),
    }
}
