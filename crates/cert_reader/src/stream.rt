// Gives the bytes of a source one by one, and its lines, in fixed memory.
ghost use Rattle.std.specs.Prelude.{◌≡◌, ℕ, List, ◌+◌, ◌<◌, ◌≤◌, length, IfOk, IfErr, IfNone, OnOk, IsErrOf, MatchOption, [], ◌∷◌, option_to_list, ◌++◌, take, drop};
ghost use Rattle.std.specs.Bool.{MatchBool};
ghost use Rattle.std.specs.Io.KnownBytes.{Consumes, IsAtEnd};
ghost use Rattle.split_base.specs.Faults.{HasRisen};
ghost use Rattle.cert_reader.specs.Stream.{Hands, IsCut, IsFrontKept, IsFrontTaken, IsStopped, ends_at, ends_by_byte, ends_by_cut, ends_by_front, faults_after_reading, taken_count};
ghost use Rattle.cert_reader.specs.declared.limits.TheConstants.{LONGEST_LINE, MOST_BYTES};

use crate::ends::TextEnd;
use crate::limits::{LONGEST_LINE, MOST_BYTES, PIECE_BYTES};
use crate::number::front_len;
use arrayvec::ArrayVec;
use split_base::Source;
use std::marker::Model;

/// What was given out as the next line.
#[derive(Clone, Copy, Debug, PartialEq, Eq)]
pub(crate) enum Cut {
    /// A line, which is kept.
    Line,
    /// A line that is longer than any line of a certificate text.
    Long,
    /// What is at the end without an LF, perhaps nothing.
    Unended,
}

/// How many of some bytes come next in the input.
#[derive(Clone, Copy, Debug, PartialEq, Eq)]
pub(crate) enum Front {
    /// All of them.
    Whole,
    /// Some of them, and then another byte.
    Other,
    /// Some of them, and then the end of the input.
    Ended,
}

/// The line that was read last, without its LF.
type HeldLine = ArrayVec<u8, LONGEST_LINE>;

/// The bytes of a source. At most `MOST_BYTES` are taken.
#[derive(Debug, Drop)]
pub(crate) struct Bytes {
    piece: [u8; PIECE_BYTES],
    from: usize,
    to: usize,
    total: usize,
    line: HeldLine,
}

impl Model for Bytes {
    ghost use Rattle.std.specs.Prelude.{◌-◌, ◌≤◌, take, drop};
    ghost use Rattle.cert_reader.specs.Stream.{Held};
    ghost use Rattle.cert_reader.specs.declared.limits.TheConstants.{MOST_BYTES, PIECE_BYTES};

    ghost Value = { Held };

    ghost view = { λ s. record {
      ahead = take (s.to - s.from) (drop s.from s.piece);
      given = s.total - (s.to - s.from);
      line = s.line.items;
    } };

    ghost invariant = { λ s. (s.from ≤ s.to) × (s.to ≤ PIECE_BYTES) × (s.to - s.from ≤ s.total) × (s.total ≤ MOST_BYTES) };
}

// Adds this many bytes of a piece, from a place on, to a line if there is room.
fn add_part(line: &mut HeldLine, piece: &[u8], from: usize, count: usize) -> bool
    requires { from + count ≤ length piece.now }
    ensures line { MatchBool result
        (line.new.items ≡ line.old.items ++ take count (drop from piece.now))
        ((line.new.items ≡ line.old.items) × (LONGEST_LINE < length line.old.items + count)) }
{
    line.try_extend_from_slice(&piece[from..from + count])
        .is_ok()
}

impl Bytes {
    // Nothing has been taken yet.
    pub(crate) fn new() -> Self
        ensures { result ≡ record { ahead = []; given = 0; line = [] } }
    {
        Bytes {
            piece: [0; PIECE_BYTES],
            from: 0,
            to: 0,
            total: 0,
            line: ArrayVec::new(),
        }
    }

    // Takes the next bytes from the source, if none are held.
    fn refill<S: Source>(&mut self, source: &mut S) -> Result<(), TextEnd>
        requires { self.old.ahead ≡ [] }
        ensures bytes { OnOk result
            (Consumes (S.left source.old) (S.left source.new) self.new.ahead) }
        ensures end { OnOk result (self.new.ahead ≡ [] → IsAtEnd (S.left source.new)) }
        ensures some { OnOk result
            (0 < length self.new.ahead → S.empty_reads source.new ≤ S.empty_reads source.old) }
        ensures given { OnOk result (self.new.given ≡ self.old.given) }
        ensures line { OnOk result (self.new.line ≡ self.old.line) }
        ensures few { taken_count self.new ≤ MOST_BYTES }
        ensures stopped { IfErr result (λ stop.
            IsStopped self.old (S.left source.old) (S.left source.new) stop) }
        ensures faults { S.faults source.new ≡ faults_after_reading (S.faults source.old) result }
        ensures empty { S.empty_reads source.new ≤ ends_at (S.empty_reads source.old) result }
        ensures fault { IsErrOf result TextEnd.ReadFault
            → HasRisen (S.faults source.old) (S.faults source.new) }
        ensures count { S.faults source.old ≤ S.faults source.new }
        ensures beside { S.beside source.new ≡ S.beside source.old }
    {
        let room = self.piece.len().min(MOST_BYTES + 1 - self.total);
        let Ok(count) = source.read(&mut self.piece[..room]) else {
            return Err(TextEnd::ReadFault);
        };
        self.from = 0;
        self.to = 0;
        if self.total + count > MOST_BYTES {
            return Err(TextEnd::TooLong);
        }
        self.to = count;
        self.total += count;
        Ok(())
    }

    // A byte that is held.
    fn take_byte(&mut self) -> Option<u8>
        ensures byte { MatchOption result ((self.old.ahead ≡ []) × (self.new ≡ self.old))
            (λ byte.
            (self.old.ahead ≡ byte ∷ self.new.ahead) × (self.new.given ≡ self.old.given + 1)
            × (self.new.line ≡ self.old.line)) }
        ensures few { taken_count self.new ≤ MOST_BYTES }
    {
        if self.from == self.to {
            return None;
        }
        let byte = self.piece[self.from];
        self.from += 1;
        Some(byte)
    }

    // The next byte, or none at the end.
    pub(crate) fn next_byte<S: Source>(&mut self, source: &mut S) -> Result<Option<u8>, TextEnd>
        ensures byte { IfOk result (λ byte.
            Hands self.old self.new (S.left source.old) (S.left source.new) (option_to_list byte)) }
        ensures end { IfOk result (λ byte.
            IfNone byte ((self.new.ahead ≡ []) × IsAtEnd (S.left source.new))) }
        ensures line { OnOk result (self.new.line ≡ self.old.line) }
        ensures few { taken_count self.new ≤ MOST_BYTES }
        ensures stopped { IfErr result (λ stop.
            IsStopped self.old (S.left source.old) (S.left source.new) stop) }
        ensures faults { S.faults source.new ≡ faults_after_reading (S.faults source.old) result }
        ensures empty { S.empty_reads source.new ≤ ends_by_byte (S.empty_reads source.old) result }
        ensures fault { IsErrOf result TextEnd.ReadFault
            → HasRisen (S.faults source.old) (S.faults source.new) }
        ensures count { S.faults source.old ≤ S.faults source.new }
        ensures beside { S.beside source.new ≡ S.beside source.old }
    {
        if let Some(byte) = self.take_byte() {
            return Ok(Some(byte));
        }
        self.refill(source)?;
        Ok(self.take_byte())
    }

    // Adds a byte to the line if there is room.
    fn keep(&mut self, byte: u8) -> bool
        ensures line { MatchBool result (self.new.line ≡ self.old.line ++ byte ∷ [])
            ((self.new.line ≡ self.old.line) × (LONGEST_LINE ≤ length self.old.line)) }
        ensures ahead { self.new.ahead ≡ self.old.ahead }
        ensures given { self.new.given ≡ self.old.given }
        ensures short { length self.new.line ≤ LONGEST_LINE }
        ensures few { taken_count self.new ≤ MOST_BYTES }
    {
        self.line.try_push(byte).is_ok()
    }

    // Adds what is held up to the next LF, or all of it, to the line if there is room.
    fn keep_front(&mut self) -> bool
        ensures kept { IsFrontKept self.old self.new result }
        ensures few { taken_count self.new ≤ MOST_BYTES }
    {
        let from = self.from;
        let count = front_len(&self.piece[from..self.to], b'\n');
        self.from = from + count;
        add_part(&mut self.line, &self.piece, from, count)
    }

    // Forgets the line that was read last.
    fn clear(&mut self)
        ensures { self.new ≡ record self.old { line = [] } }
    {
        self.line.clear();
    }

    // The bytes of the line that was read last.
    pub(crate) fn line(&self) -> &[u8]
        ensures { result.now ≡ self.now.line }
    {
        &self.line
    }

    // Reads a line, and keeps it without its LF.
    pub(crate) fn next_line<S: Source>(&mut self, source: &mut S) -> Result<Cut, TextEnd>
        ensures cut { IfOk result (λ cut.
            IsCut self.old self.new (S.left source.old) (S.left source.new) cut) }
        ensures few { taken_count self.new ≤ MOST_BYTES }
        ensures stopped { IfErr result (λ stop.
            IsStopped self.old (S.left source.old) (S.left source.new) stop) }
        ensures faults { S.faults source.new ≡ faults_after_reading (S.faults source.old) result }
        ensures empty { S.empty_reads source.new ≤ ends_by_cut (S.empty_reads source.old) result }
        ensures fault { IsErrOf result TextEnd.ReadFault
            → HasRisen (S.faults source.old) (S.faults source.new) }
        ensures count { S.faults source.old ≤ S.faults source.new }
        ensures beside { S.beside source.new ≡ S.beside source.old }
    {
        self.clear();
        let mut long = false;
        'line: loop {
            let kept = self.keep_front();
            long |= !kept;
            let Some(byte) = self.next_byte(source)? else {
                return Ok(Cut::Unended);
            };
            if byte == b'\n' {
                return Ok(if long { Cut::Long } else { Cut::Line });
            }
            if !self.keep(byte) {
                long = true;
            }
        }
    }

    // Takes these bytes one by one, for as long as they come next.
    pub(crate) fn take_front<S: Source>(
        &mut self,
        source: &mut S,
        front: &[u8],
    ) -> Result<Front, TextEnd>
        ensures front { IfOk result (λ taken.
            IsFrontTaken self.old self.new (S.left source.old) (S.left source.new) front.now
            taken) }
        ensures few { 1 ≤ length front.now → taken_count self.new ≤ MOST_BYTES }
        ensures stopped { IfErr result (λ stop.
            IsStopped self.old (S.left source.old) (S.left source.new) stop) }
        ensures faults { S.faults source.new ≡ faults_after_reading (S.faults source.old) result }
        ensures empty { S.empty_reads source.new ≤ ends_by_front (S.empty_reads source.old) result }
        ensures fault { IsErrOf result TextEnd.ReadFault
            → HasRisen (S.faults source.old) (S.faults source.new) }
        ensures count { S.faults source.old ≤ S.faults source.new }
        ensures beside { S.beside source.new ≡ S.beside source.old }
    {
        for expected in front {
            let Some(byte) = self.next_byte(source)? else {
                return Ok(Front::Ended);
            };
            if byte != *expected {
                return Ok(Front::Other);
            }
        }
        Ok(Front::Whole)
    }

    // Reads to the end, and drops what is read.
    pub(crate) fn drain<S: Source>(&mut self, source: &mut S) -> Result<(), TextEnd>
        ensures end { OnOk result
            ((text : List ℕ) × Hands self.old self.new (S.left source.old) (S.left source.new) text
            × (self.new.ahead ≡ []) × IsAtEnd (S.left source.new)) }
        ensures few { taken_count self.new ≤ MOST_BYTES }
        ensures stopped { IfErr result (λ stop.
            IsStopped self.old (S.left source.old) (S.left source.new) stop) }
        ensures faults { S.faults source.new ≡ faults_after_reading (S.faults source.old) result }
        ensures empty { S.empty_reads source.new ≤ ends_at (S.empty_reads source.old) result }
        ensures fault { IsErrOf result TextEnd.ReadFault
            → HasRisen (S.faults source.old) (S.faults source.new) }
        ensures count { S.faults source.old ≤ S.faults source.new }
        ensures beside { S.beside source.new ≡ S.beside source.old }
    {
        'bytes: loop {
            match self.next_byte(source)? {
                None => return Ok(()),
                Some(_) => {}
            }
        }
    }
}
