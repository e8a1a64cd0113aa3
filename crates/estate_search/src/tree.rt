// The tree of a certificate as it grows: its marks, and the lines that they take.
ghost use Rattle.std.specs.Prelude.{◌<◌, IfSome, length};

use crate::players::OwnerList;
use crate::stops::Stop;
use itoa::Buffer;

/// The longest text, in bytes.
pub(crate) const MOST_BYTES: usize = 4_000_000;

/// The marks in the order of the tree, and the lines of weights and prices that the marks `!` take. Both stand in lent memory: the lines from its front on, and the marks
/// from its end back, so that neither needs a room of its own.
#[derive(Drop)]
pub(crate) struct Tree<'a> {
    room: &'a mut [u8],
    reach: Reach,
}

/// How far a tree has come.
#[derive(Clone, Copy, Default)]
pub(crate) struct Reach {
    /// How many bytes of lines there are.
    pub(crate) lines: usize,
    /// How many marks there are.
    pub(crate) marks: usize,
    /// How many marks there are up to the answer's, or 0.
    pub(crate) answer: usize,
}

// The letter of a player.
fn letter(player: u8) -> u8 {
    b'A'.saturating_add(player.saturating_sub(1))
}

impl<'a> Tree<'a> {
    pub(crate) fn new(room: &'a mut [u8], reach: Reach) -> Tree<'a> {
        Tree { room, reach }
    }

    /// How far the tree has come.
    pub(crate) fn reach(&self) -> Reach {
        self.reach
    }

    /// Begins anew.
    pub(crate) fn clear(&mut self) {
        self.reach = Reach::default();
    }

    /// The lines.
    pub(crate) fn lines(&self) -> &[u8] {
        &self.room[..self.reach.lines.min(self.room.len())]
    }

    /// How many marks there are.
    pub(crate) fn marks(&self) -> usize {
        self.reach.marks
    }

    /// The mark at this place, counted from 1.
    pub(crate) fn mark(&self, place: usize) -> u8 {
        match self.at(place) {
            Some(at) => self.room[at],
            None => 0,
        }
    }

    // Where the mark at this place stands.
    fn at(&self, place: usize) -> Option<usize>
        ensures { IfSome result (λ at. at < length self.now.room.now) }
    {
        if place == 0 {
            return None;
        }
        self.room.len().checked_sub(place)
    }

    // How many bytes are free.
    fn free(&self) -> usize {
        let used = self.reach.lines.saturating_add(self.reach.marks);
        self.room.len().saturating_sub(used)
    }

    /// Puts a mark.
    pub(crate) fn put(&mut self, mark: u8) -> Result<(), Stop> {
        if self.free() == 0 {
            return Err(Stop::TooLong);
        }
        self.reach.marks = self.reach.marks.saturating_add(1);
        self.set(self.reach.marks, mark);
        Ok(())
    }

    // Sets the mark at this place.
    fn set(&mut self, place: usize, mark: u8) {
        if let Some(at) = self.at(place) {
            self.room[at] = mark;
        }
    }

    // Puts bytes of a line.
    fn put_bytes(&mut self, bytes: &[u8]) -> Result<(), Stop> {
        if bytes.len() > self.free() {
            return Err(Stop::TooLong);
        }
        let end = self.reach.lines.saturating_add(bytes.len());
        if end <= self.room.len() && self.reach.lines <= end {
            self.room[self.reach.lines..end].copy_from_slice(bytes);
            self.reach.lines = end;
        }
        Ok(())
    }

    // Puts a number of a line, with a space before it.
    fn put_number(&mut self, number: u32) -> Result<(), Stop> {
        let mut buffer = Buffer::new();
        self.put_bytes(b" ")?;
        self.put_bytes(buffer.format(number).as_bytes())
    }

    // Puts numbers of a line.
    fn put_numbers(&mut self, numbers: &[u32]) -> Result<(), Stop> {
        for number in numbers {
            self.put_number(*number)?;
        }
        Ok(())
    }

    /// Puts the mark that takes a line of weights, and the line.
    pub(crate) fn put_weights(&mut self, weights: &[u16]) -> Result<(), Stop> {
        self.put(b'!')?;
        self.put_bytes(b"weights")?;
        for weight in weights {
            self.put_number(u32::from(*weight))?;
        }
        self.put_bytes(b"\n")
    }

    /// Puts the mark that takes a line of prices, and the line: the rates, and then the fees.
    pub(crate) fn put_prices(&mut self, rates: &[u32], fees: &[u32]) -> Result<(), Stop> {
        self.put(b'!')?;
        self.put_bytes(b"prices")?;
        self.put_numbers(rates)?;
        self.put_numbers(fees)?;
        self.put_bytes(b"\n")
    }

    /// Puts the mark of a twin, with the letters of the last owners.
    pub(crate) fn put_twin(&mut self, owners: &OwnerList) -> Result<(), Stop> {
        self.put(b'~')?;
        for owner in owners.iter() {
            self.put(letter(*owner))?;
        }
        Ok(())
    }

    /// Puts the mark of the answer, and takes it back where it stood before.
    pub(crate) fn put_answer(&mut self) -> Result<(), Stop> {
        self.set(self.reach.answer, b'-');
        self.put(b'=')?;
        self.reach.answer = self.reach.marks;
        Ok(())
    }
}
