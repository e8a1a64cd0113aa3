// Reads the lines of numbers of a text, one by one: of a certificate, or of a pair's text.
ghost use Rattle.std.specs.Prelude.{◌≡◌, ◌↔◌, ◌+◌, ◌<◌, ◌≤◌, [], length, IsErrOf, IsTrue, OnOk, false};
ghost use Rattle.split_base.specs.Faults.{HasRisen};
ghost use Rattle.cert_reader.specs.Forms.{AreCountsOf, AreInRange, Series, Tree, forms_of};
ghost use Rattle.cert_reader.specs.Order.{form_in};
ghost use Rattle.cert_reader.specs.Reading.{ReadsOnIn, IsFinished, IsLineRead, IsReadOf, as_reading, left_in};
ghost use Rattle.cert_reader.specs.Stream.{ends_at, ends_before, faults_after_reading, taken_count};
ghost use Rattle.cert_reader.specs.declared.limits.TheConstants.{MOST_BYTES};

use crate::ends::TextEnd;
use crate::forms::Counts;
use crate::line::LineNumbers;
use crate::order::line_count;
use crate::step::{next_settled, refuse};
use crate::stream::Bytes;
use split_base::Source;

/// The lines of a text that is being read, in fixed memory. The counts say which of the two series of texts it belongs to.
#[derive(Debug, Drop)]
pub(crate) struct TextLines {
    /// The bytes that were taken from the source and are not read yet.
    pub(crate) bytes: Bytes,
    /// How many lines have been read.
    pub(crate) lines: u32,
    /// The counts that these lines give. A count that no line has fixed yet is the least.
    pub(crate) counts: Counts,
}

impl TextLines {
    // Nothing has been read yet. The counts are the least of a series.
    pub(crate) fn new(counts: Counts) -> Self
        ensures read { (series : Series) → AreCountsOf series counts
            → IsReadOf series (as_reading result false) [] [] }
        ensures start { result.lines ≡ 0 }
        ensures counts { result.counts ≡ counts }
    {
        TextLines {
            bytes: Bytes::new(),
            lines: 0,
            counts,
        }
    }

    // Whether a line is still to come.
    pub(crate) fn is_open(&self) -> bool
        requires { AreInRange self.now.counts }
        ensures { IsTrue result ↔ self.now.lines < length (forms_of self.now.counts) }
    {
        (self.lines as usize) < line_count(self.counts)
    }

    // Takes the next line of numbers, if a text may go on with one, and leaves the numbers in the buffer.
    pub(crate) fn next_line<S: Source>(
        &mut self,
        source: &mut S,
        numbers: &mut LineNumbers,
    ) -> Result<(), TextEnd>
        requires range { AreInRange self.old.counts }
        requires open { self.old.lines < length (forms_of self.old.counts) }
        requires line { form_in self.old.counts self.old.lines ≡ Tree → ⊥ }
        ensures line { (series : Series) → ReadsOnIn series (as_reading self.old false)
            (S.left source.old) (S.left source.new)
            (λ taken said.
            IsLineRead series (as_reading self.old false) (as_reading self.new false)
            (S.left source.new) taken said (left_in numbers.new result)) }
        ensures series { (series : Series) → AreCountsOf series self.old.counts
            → AreCountsOf series self.new.counts }
        ensures lines { OnOk result (self.new.lines ≡ self.old.lines + 1) }
        ensures within { self.new.lines ≤ length (forms_of self.new.counts) }
        ensures takes { OnOk result (self.old.bytes.given < self.new.bytes.given) }
        ensures few { taken_count self.new.bytes ≤ MOST_BYTES }
        ensures faults { S.faults source.new ≡ faults_after_reading (S.faults source.old) result }
        ensures empty { S.empty_reads source.new ≤ ends_before (S.empty_reads source.old) result }
        ensures fault { IsErrOf result TextEnd.ReadFault
            → HasRisen (S.faults source.old) (S.faults source.new) }
        ensures count { S.faults source.old ≤ S.faults source.new }
        ensures beside { S.beside source.new ≡ S.beside source.old }
    {
        self.counts = next_settled(&mut self.bytes, source, self.lines, self.counts, numbers)?;
        self.lines += 1;
        Ok(())
    }

    // Finds the end of the input after all lines, or reads on to it.
    pub(crate) fn finish<S: Source>(&mut self, source: &mut S) -> Result<(), TextEnd>
        requires range { AreInRange self.old.counts }
        requires all { self.old.lines ≡ length (forms_of self.old.counts) }
        ensures finish { (series : Series) → ReadsOnIn series (as_reading self.old false)
            (S.left source.old) (S.left source.new)
            (λ taken said.
            IsFinished series (as_reading self.new false) (S.left source.new) taken said result) }
        ensures same { (self.new.lines ≡ self.old.lines) × (self.new.counts ≡ self.old.counts) }
        ensures few { taken_count self.new.bytes ≤ MOST_BYTES }
        ensures faults { S.faults source.new ≡ faults_after_reading (S.faults source.old) result }
        ensures empty { S.empty_reads source.new ≤ ends_at (S.empty_reads source.old) result }
        ensures fault { IsErrOf result TextEnd.ReadFault
            → HasRisen (S.faults source.old) (S.faults source.new) }
        ensures count { S.faults source.old ≤ S.faults source.new }
        ensures beside { S.beside source.new ≡ S.beside source.old }
    {
        match self.bytes.next_byte(source)? {
            None => Ok(()),
            Some(_) => Err(refuse(&mut self.bytes, source, self.lines + 1)),
        }
    }
}
