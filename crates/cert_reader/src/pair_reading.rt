// Reads the text of adjusted winner line by line from a source, or finds the first broken line of other bytes.
ghost use Rattle.std.specs.Prelude.{◌≡◌, ◌≤◌, ℕ, List, IsErrOf};
ghost use Rattle.std.specs.Io.KnownBytes.{Consumes};
ghost use Rattle.split_base.specs.Faults.{HasRisen};
ghost use Rattle.cert_reader.specs.declared.forms.Counts.TheVariants as count;
ghost use Rattle.cert_reader.specs.Forms.{AreCountsOf, Pairs};
ghost use Rattle.cert_reader.specs.Pairs.{IsReadPair};
ghost use Rattle.cert_reader.specs.Stream.{ends_at, faults_after_reading};

use crate::ends::TextEnd;
use crate::forms::Counts;
use crate::limits::PAIR_LINE_ROOM;
use crate::line::LineNumbers;
use crate::pair::PairText;
use crate::pair_building::pair_text;
use crate::text_lines::TextLines;
use arrayvec::ArrayVec;
use split_base::Source;

// How many goods the lines of a pair's text have named so far.
fn goods_of(counts: Counts) -> u8
    requires { AreCountsOf Pairs counts }
    ensures { counts ≡ count.Pair result }
{
    match counts {
        Counts::Pair { goods } => goods,
        _ => unreachable!(),
    }
}

/// Reads the text of a pair, and gives what it says. It takes no memory.
///
/// - `NotText` is returned exactly when the input has at most `MOST_BYTES` bytes and is not the text of a pair, with its first broken line. It was read to
///   its end.
/// - `TooLong` is returned exactly when it has more, whatever its lines. One byte more than `MOST_BYTES` was read.
/// - `ReadFault` is returned only if the source's count of faults has risen, and at once: the failed read is not tried again.
pub fn read_pair<S: Source>(source: &mut S) -> Result<PairText, TextEnd>
    ensures read { (taken : List ℕ) × Consumes (S.left source.old) (S.left source.new) taken
        × IsReadPair (S.left source.new) taken result }
    ensures faults { S.faults source.new ≡ faults_after_reading (S.faults source.old) result }
    ensures empty { S.empty_reads source.new ≤ ends_at (S.empty_reads source.old) result }
    ensures fault { IsErrOf result TextEnd.ReadFault
        → HasRisen (S.faults source.old) (S.faults source.new) }
    ensures count { S.faults source.old ≤ S.faults source.new }
    ensures beside { S.beside source.new ≡ S.beside source.old }
{
    let mut text = TextLines::new(Counts::Pair { goods: 1 });
    let mut lines: ArrayVec<LineNumbers, PAIR_LINE_ROOM> = ArrayVec::new();
    'lines: loop {
        let mut numbers = LineNumbers::new();
        text.next_line(source, &mut numbers)?;
        if !text.is_open() {
            text.finish(source)?;
            return Ok(pair_text(goods_of(text.counts), &lines));
        }
        lines.push(numbers);
    }
}
