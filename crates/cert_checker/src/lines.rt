// The lines of a text as they come, kind by kind.
ghost use Rattle.std.specs.Prelude.{◌≡◌, ℕ, ◌++◌, ◌∷◌, [], List, map};
ghost use Rattle.split_frac.specs.Frac.{fraction_of};
ghost use Rattle.cert_reader.specs.Text.{Numbers, Said};
ghost use Rattle.cert_reader.specs.Views.{says};
ghost use Rattle.cert_checker.specs.FaresLines.{front_said};
ghost use Rattle.cert_checker.specs.Lines.{GivesOf, GoesOn, KnowsLines, KnowsTaken, MarkGoesOn, kind_of_lines, kind_of_taken};
ghost use Rattle.cert_reader.specs.Reading.{with_mark};

use crate::fares::FaresLines;
use crate::goods::GoodsLines;
use crate::rent::RentLines;
use cert_reader::{Kind, LineNumbers};
use fare_rules::Rows;
use rule_verdicts::Verdict;

/// What the judge knows about a text after some of its lines.
#[derive(Drop)]
pub(crate) struct Lines {
    /// The lines that it has taken.
    pub(crate) taken: KindLines,
    /// What the sets of riders cost, if the text is one of fares. The table is large, so it is filled here and never moved.
    pub(crate) rows: Rows,
}

/// The lines taken, or what is known by them, by the kind of the text.
#[derive(Drop)]
pub(crate) enum KindLines {
    /// Of kind rent.
    Rent(RentLines),
    /// Of kind goods.
    Goods(GoodsLines),
    /// Of kind fares.
    Fares(FaresLines),
}

impl KindLines {
    // After the two lines that say the kind. The rows don't matter yet.
    pub(crate) fn new(kind: Kind) -> KindLines
        ensures kind { kind_of_taken result ≡ kind }
        ensures knows { (rows : List (List ℕ)) → KnowsTaken (front_said []) rows result }
    {
        match kind {
            Kind::Rent => KindLines::Rent(RentLines::new()),
            Kind::Goods => KindLines::Goods(GoodsLines::new()),
            Kind::Fares => KindLines::Fares(FaresLines::new()),
        }
    }
}

impl Lines {
    // Takes the numbers of the next line, which is not the last.
    pub(crate) fn take(&mut self, numbers: &LineNumbers)
        requires { (said : List Said) × (next : Said) × (rest : List Said)
            × GoesOn self.old said (Numbers (map fraction_of numbers.now.items) ∷ next ∷ rest) }
        ensures kind { kind_of_lines self.new ≡ kind_of_lines self.old }
        ensures knows { (said : List Said) (next : Said) (rest : List Said)
            → GoesOn self.old said (Numbers (map fraction_of numbers.now.items) ∷ next ∷ rest)
            → KnowsLines (said ++ Numbers (map fraction_of numbers.now.items) ∷ []) self.new }
    {
        match &mut self.taken {
            KindLines::Rent(lines) => lines.take(numbers),
            KindLines::Goods(lines) => lines.take(numbers),
            KindLines::Fares(lines) => lines.take(&mut self.rows, numbers),
        }
    }

    // Takes the next mark of a tree.
    pub(crate) fn take_mark(&mut self, mark: u8)
        requires { (said : List Said) × MarkGoesOn self.old said mark }
        ensures kind { kind_of_lines self.new ≡ kind_of_lines self.old }
        ensures knows { (said : List Said) → MarkGoesOn self.old said mark
            → KnowsLines (with_mark said mark) self.new }
    {
        match &mut self.taken {
            KindLines::Goods(lines) => lines.take_mark(mark),
            KindLines::Rent(_) => unreachable!(),
            KindLines::Fares(_) => unreachable!(),
        }
    }

    // The verdict, when only the last line, `end`, is still to come.
    pub(crate) fn verdict(&self) -> Verdict
        requires { (said : List Said) × GoesOn self.now said (says [] ∷ []) }
        ensures { (said : List Said) (goes : GoesOn self.now said (says [] ∷ []))
            → GivesOf goes.counts (said ++ says [] ∷ []) result }
    {
        match &self.taken {
            KindLines::Rent(lines) => lines.verdict(),
            KindLines::Goods(lines) => lines.verdict(),
            KindLines::Fares(lines) => lines.verdict(&self.rows),
        }
    }
}
