// Reads a certificate text from a source, piece by piece.
ghost use Rattle.std.specs.Prelude.{◌≡◌, ◌↔◌, ◌+◌, ◌<◌, ◌≤◌, [], ℕ, List, length, map, IfOk, IsErrOf, IsTrue, OnOk, Ok, None, Some, false, true};
ghost use Rattle.split_base.specs.Faults.{HasRisen};
ghost use Rattle.split_frac.specs.Frac.{fraction_of};
ghost use Rattle.cert_reader.specs.Ends.{OfAnswer};
ghost use Rattle.cert_reader.specs.Forms.{Certificates, Tree, forms_of};
ghost use Rattle.cert_reader.specs.Kinds.{kind_of};
ghost use Rattle.cert_reader.specs.Order.{AgreeUpTo, form_in};
ghost use Rattle.cert_reader.specs.Reading.{ReadsOn, IsAnswer, IsEnd, IsMarkRead, HasLineToCome, IsRead, IsTreeRead, ends_by_piece, with_numbers};
ghost use Rattle.cert_reader.specs.Stream.{IsPlain, ends_at, ends_before, faults_after_reading, taken_count};
ghost use Rattle.cert_reader.specs.Text.{Numbers, Said};
ghost use Rattle.cert_reader.specs.declared.limits.TheConstants.{MOST_BYTES};

use crate::ends::{ReadEnd, TextEnd, read_answer};
use crate::forms::Counts;
use crate::kinds::Kind;
use crate::line::LineNumbers;
use crate::order::is_tree;
use crate::text_lines::TextLines;
use crate::tree_line::{first_mark, next_mark};
use split_base::Source;
use std::marker::Model;

/// A piece of a certificate text.
#[derive(Debug, Drop)]
pub enum Piece {
    /// The kind, which the first two lines say.
    Kind {
        /// 1 for a rent, 2 for goods, 3 for fares.
        kind: u8,
    },
    /// A later line of numbers.
    Line {
        /// Its numbers. The line of a set of riders begins with the number of the set.
        numbers: LineNumbers,
    },
    /// A character of a tree.
    Mark {
        /// `+`, `-` or `=`.
        mark: u8,
    },
    /// The line `end`, and the end of the input.
    Done,
}

/// A piece of a certificate text, where the numbers of a line are in a buffer of the caller's.
#[derive(Clone, Copy, Debug, PartialEq, Eq)]
pub enum Part {
    /// The kind, which the first two lines say.
    Kind {
        /// What the certificate divides.
        kind: Kind,
    },
    /// A later line of numbers, which are in the buffer. The line of a set of riders begins with the number of the set.
    Line,
    /// A character of a tree.
    Mark {
        /// `+`, `-` or `=`.
        mark: u8,
    },
    /// The line `end`, and the end of the input.
    Done,
}

// The answer as a piece that holds its numbers itself, and tells the kind by its number.
fn with_numbers(answer: Result<Part, TextEnd>, numbers: LineNumbers) -> Result<Piece, TextEnd>
    ensures same { result ≡ with_numbers answer numbers }
    ensures fault { IsErrOf result TextEnd.ReadFault → IsErrOf answer TextEnd.ReadFault }
{
    match answer? {
        Part::Kind { kind } => Ok(Piece::Kind {
            kind: kind.number(),
        }),
        Part::Line => Ok(Piece::Line { numbers }),
        Part::Mark { mark } => Ok(Piece::Mark { mark }),
        Part::Done => Ok(Piece::Done),
    }
}

/// A certificate text that is being read, in fixed memory.
#[derive(Debug, Drop)]
pub struct Pieces {
    text: TextLines,
    in_tree: bool,
}

impl Model for Pieces {
    ghost use Rattle.std.specs.Prelude.{◌≡◌, ◌≤◌, length, true};
    ghost use Rattle.cert_reader.specs.Forms.{AreCounts, forms_of};
    ghost use Rattle.cert_reader.specs.Reading.{EndsInTree, Reading, as_reading};

    ghost Value = { Reading };

    ghost view = { λ s. as_reading s.text s.in_tree };

    ghost invariant = { λ s. AreCounts s.text.counts × (s.text.lines ≤ length (forms_of s.text.counts)) × (s.in_tree ≡ true → EndsInTree s.text.lines s.text.counts) };
}

impl Pieces {
    /// Nothing has been read yet.
    pub fn new() -> Self
        ensures read { IsRead result [] [] }
        ensures start { result.lines ≡ 0 }
        ensures open { HasLineToCome result }
    {
        Pieces {
            text: TextLines::new(Counts::Rent { members: 1 }),
            in_tree: false,
        }
    }

    // Whether no line has been read yet.
    fn is_new(&self) -> bool
        ensures { IsTrue result ↔ self.now.lines ≡ 0 }
    {
        self.text.lines == 0
    }

    /// Whether a tree is being read: its line has begun and not ended.
    pub fn is_in_tree(&self) -> bool
        ensures { result ≡ self.now.in_tree }
    {
        self.in_tree
    }

    // Whether the line of a tree comes next.
    fn is_at_tree(&self) -> bool
        requires { HasLineToCome self.now }
        ensures { IsTrue result ↔ form_in self.now.counts self.now.lines ≡ Tree }
    {
        is_tree(self.text.counts, self.text.lines as usize)
    }

    // The kind, if it has been read.
    fn kind(&self) -> Kind
        ensures { kind_of self.now.counts ≡ Some result }
    {
        match self.text.counts {
            Counts::Rent { .. } => Kind::Rent,
            Counts::Goods { .. } => Kind::Goods,
            Counts::Fares { .. } => Kind::Fares,
            Counts::Pair { .. } => unreachable!(),
        }
    }

    // The counts that the lines so far give.
    pub(crate) fn counts(&self) -> Counts
        ensures { result ≡ self.now.counts }
    {
        self.text.counts
    }

    // Takes the first two lines, which say the kind.
    fn next_kind<S: Source>(
        &mut self,
        source: &mut S,
        numbers: &mut LineNumbers,
    ) -> Result<Part, TextEnd>
        requires lines { self.old.lines ≡ 0 }
        requires whole { self.old.in_tree ≡ false }
        ensures piece { ReadsOn self.old (S.left source.old) (S.left source.new)
            (λ taken said.
            IsAnswer self.old self.new (S.left source.new) taken said
            (with_numbers result numbers.new)) }
        ensures takes { OnOk result (self.old.given < self.new.given) }
        ensures more { OnOk result (HasLineToCome self.new) }
        ensures few { self.new.given ≤ MOST_BYTES }
        ensures held { self.new.given + length self.new.ahead ≤ MOST_BYTES }
        ensures faults { S.faults source.new ≡ faults_after_reading (S.faults source.old) result }
        ensures empty { S.empty_reads source.new ≤ ends_before (S.empty_reads source.old) result }
        ensures fault { IsErrOf result TextEnd.ReadFault
            → HasRisen (S.faults source.old) (S.faults source.new) }
        ensures count { S.faults source.old ≤ S.faults source.new }
        ensures beside { S.beside source.new ≡ S.beside source.old }
    {
        self.text.next_line(source, numbers)?;
        self.text.next_line(source, numbers)?;
        Ok(Part::Kind { kind: self.kind() })
    }

    // Takes the first character of a tree, with what comes before it.
    fn begin_tree<S: Source>(&mut self, source: &mut S) -> Result<u8, TextEnd>
        requires open { HasLineToCome self.old }
        requires whole { self.old.in_tree ≡ false }
        requires tree { form_in self.old.counts self.old.lines ≡ Tree }
        ensures mark { ReadsOn self.old (S.left source.old) (S.left source.new)
            (λ taken said. IsMarkRead self.old self.new (S.left source.new) taken said result) }
        ensures open { OnOk result (HasLineToCome self.new) }
        ensures takes { OnOk result (self.old.given < self.new.given) }
        ensures few { self.new.given ≤ MOST_BYTES }
        ensures held { self.new.given + length self.new.ahead ≤ MOST_BYTES }
        ensures faults { S.faults source.new ≡ faults_after_reading (S.faults source.old) result }
        ensures empty { S.empty_reads source.new ≤ ends_before (S.empty_reads source.old) result }
        ensures fault { IsErrOf result TextEnd.ReadFault
            → HasRisen (S.faults source.old) (S.faults source.new) }
        ensures count { S.faults source.old ≤ S.faults source.new }
        ensures beside { S.beside source.new ≡ S.beside source.old }
    {
        let mark = first_mark(&mut self.text.bytes, source, self.text.lines + 1)?;
        self.text.lines += 1;
        self.in_tree = true;
        Ok(mark)
    }

    /// The next character of the tree that is being read, or `None` at the end of its line. It takes no memory.
    ///
    /// A reader of long trees calls this instead of `next`, whose piece has room for a whole line of numbers.
    ///
    /// - `NotText`, `TooLong` and `ReadFault` are returned as by `next`.
    pub fn next_in_tree<S: Source>(&mut self, source: &mut S) -> Result<Option<u8>, TextEnd>
        requires { self.old.in_tree ≡ true }
        ensures mark { ReadsOn self.old (S.left source.old) (S.left source.new)
            (λ taken said. IsTreeRead self.old self.new (S.left source.new) taken said result) }
        ensures same { (self.new.lines ≡ self.old.lines) × (self.new.counts ≡ self.old.counts) }
        ensures some { 0 < self.new.lines }
        ensures whole { result ≡ Ok None → self.new.in_tree ≡ false }
        ensures takes { OnOk result (self.old.given < self.new.given) }
        ensures few { self.new.given ≤ MOST_BYTES }
        ensures held { self.new.given + length self.new.ahead ≤ MOST_BYTES }
        ensures faults { S.faults source.new ≡ faults_after_reading (S.faults source.old) result }
        ensures empty { S.empty_reads source.new ≤ ends_before (S.empty_reads source.old) result }
        ensures fault { IsErrOf result TextEnd.ReadFault
            → HasRisen (S.faults source.old) (S.faults source.new) }
        ensures count { S.faults source.old ≤ S.faults source.new }
        ensures beside { S.beside source.new ≡ S.beside source.old }
    {
        let mark = next_mark(&mut self.text.bytes, source, self.text.lines)?;
        self.in_tree = mark.is_some();
        Ok(mark)
    }

    // The next piece where a line begins, after the first two.
    fn next_at_line<S: Source>(
        &mut self,
        source: &mut S,
        numbers: &mut LineNumbers,
    ) -> Result<Part, TextEnd>
        requires open { HasLineToCome self.old }
        requires some { 0 < self.old.lines }
        requires whole { self.old.in_tree ≡ false }
        ensures piece { ReadsOn self.old (S.left source.old) (S.left source.new)
            (λ taken said.
            IsAnswer self.old self.new (S.left source.new) taken said
            (with_numbers result numbers.new)) }
        ensures more { IfOk result (λ part.
            (part ≡ Part.Done → ⊥) → HasLineToCome self.new × (self.old.given < self.new.given)) }
        ensures few { self.new.given ≤ MOST_BYTES }
        ensures held { self.new.given + length self.new.ahead ≤ MOST_BYTES }
        ensures faults { S.faults source.new ≡ faults_after_reading (S.faults source.old) result }
        ensures empty { S.empty_reads source.new
            ≤ ends_by_piece (S.empty_reads source.old) (with_numbers result numbers.new) }
        ensures fault { IsErrOf result TextEnd.ReadFault
            → HasRisen (S.faults source.old) (S.faults source.new) }
        ensures count { S.faults source.old ≤ S.faults source.new }
        ensures beside { S.beside source.new ≡ S.beside source.old }
    {
        if self.is_at_tree() {
            let mark = self.begin_tree(source)?;
            return Ok(Part::Mark { mark });
        }
        self.text.next_line(source, numbers)?;
        if self.text.is_open() {
            return Ok(Part::Line);
        }
        self.text.finish(source)?;
        Ok(Part::Done)
    }

    /// The next part of the text. This is the next piece, except that the numbers of a line are left in the buffer, whose earlier contents are lost.
    ///
    /// A reader of many lines calls this instead of `next_piece`, whose pieces each have room for a line of numbers.
    ///
    /// - `NotText`, `TooLong` and `ReadFault` are returned as by `next_piece`.
    pub fn next_part<S: Source>(
        &mut self,
        source: &mut S,
        numbers: &mut LineNumbers,
    ) -> Result<Part, TextEnd>
        requires { HasLineToCome self.old }
        ensures piece { ReadsOn self.old (S.left source.old) (S.left source.new)
            (λ taken said.
            IsAnswer self.old self.new (S.left source.new) taken said
            (with_numbers result numbers.new)) }
        ensures more { IfOk result (λ part.
            (part ≡ Part.Done → ⊥) → HasLineToCome self.new × (self.old.given < self.new.given)) }
        ensures few { self.new.given ≤ MOST_BYTES }
        ensures held { self.new.given + length self.new.ahead ≤ MOST_BYTES }
        ensures faults { S.faults source.new ≡ faults_after_reading (S.faults source.old) result }
        ensures empty { S.empty_reads source.new
            ≤ ends_by_piece (S.empty_reads source.old) (with_numbers result numbers.new) }
        ensures fault { IsErrOf result TextEnd.ReadFault
            → HasRisen (S.faults source.old) (S.faults source.new) }
        ensures count { S.faults source.old ≤ S.faults source.new }
        ensures beside { S.beside source.new ≡ S.beside source.old }
    {
        if self.is_in_tree() {
            return match self.next_in_tree(source)? {
                Some(mark) => Ok(Part::Mark { mark }),
                None => self.next_at_line(source, numbers),
            };
        }
        if self.is_new() {
            return self.next_kind(source, numbers);
        }
        self.next_at_line(source, numbers)
    }

    /// The next piece of the text. It takes no memory.
    ///
    /// The kind comes first. Then each line gives one piece, with its numbers. The tree of goods gives one piece for each of its characters. The last line,
    /// `end`, gives none: `Done` is returned once it has been read and the input has ended. After `Done` or a refusal there are no more pieces.
    ///
    /// - `NotText` is returned exactly when the input has at most `MOST_BYTES` bytes and is not certificate text, with its first broken line. It was read to
    ///   its end.
    /// - `TooLong` is returned exactly when it has more, whatever its lines. One byte more than `MOST_BYTES` was read.
    /// - `ReadFault` is returned only if the source's count of faults has risen, and at once: the failed read is not tried again.
    pub fn next_piece<S: Source>(&mut self, source: &mut S) -> Result<Piece, TextEnd>
        requires { HasLineToCome self.old }
        ensures piece { ReadsOn self.old (S.left source.old) (S.left source.new)
            (λ taken said. IsAnswer self.old self.new (S.left source.new) taken said result) }
        ensures more { IfOk result (λ piece.
            (piece ≡ Piece.Done → ⊥) → HasLineToCome self.new × (self.old.given < self.new.given)) }
        ensures few { self.new.given ≤ MOST_BYTES }
        ensures held { self.new.given + length self.new.ahead ≤ MOST_BYTES }
        ensures faults { S.faults source.new ≡ faults_after_reading (S.faults source.old) result }
        ensures empty { S.empty_reads source.new ≤ ends_by_piece (S.empty_reads source.old) result }
        ensures fault { IsErrOf result TextEnd.ReadFault
            → HasRisen (S.faults source.old) (S.faults source.new) }
        ensures count { S.faults source.old ≤ S.faults source.new }
        ensures beside { S.beside source.new ≡ S.beside source.old }
    {
        let mut numbers = LineNumbers::new();
        let answer = self.next_part(source, &mut numbers);
        with_numbers(answer, numbers)
    }

    /// The next piece of the text, as `next_piece` gives it. `NoMemory` is never returned.
    pub fn next<S: Source>(&mut self, source: &mut S) -> Result<Piece, ReadEnd>
        requires { HasLineToCome self.old }
        ensures piece { ReadsOn self.old (S.left source.old) (S.left source.new)
            (λ taken said.
            OfAnswer (IsAnswer self.old self.new (S.left source.new) taken said) result) }
        ensures more { IfOk result (λ piece.
            (piece ≡ Piece.Done → ⊥) → HasLineToCome self.new × (self.old.given < self.new.given)) }
        ensures few { self.new.given ≤ MOST_BYTES }
        ensures held { self.new.given + length self.new.ahead ≤ MOST_BYTES }
        ensures memory { IsErrOf result ReadEnd.NoMemory → ⊥ }
        ensures faults { OfAnswer
            (λ answer. S.faults source.new ≡ faults_after_reading (S.faults source.old) answer)
            result }
        ensures empty { OfAnswer
            (λ answer. S.empty_reads source.new ≤ ends_by_piece (S.empty_reads source.old) answer)
            result }
        ensures fault { IsErrOf result ReadEnd.ReadFault
            → HasRisen (S.faults source.old) (S.faults source.new) }
        ensures count { S.faults source.old ≤ S.faults source.new }
        ensures beside { S.beside source.new ≡ S.beside source.old }
    {
        read_answer(self.next_piece(source))
    }
}
