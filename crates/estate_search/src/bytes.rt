// Bytes that are put one after another into memory that the caller lends.
use crate::stops::Stop;
use itoa::Buffer;

/// Bytes in lent memory, from its front on.
#[derive(Drop)]
pub(crate) struct Bytes<'a> {
    room: &'a mut [u8],
    len: usize,
}

impl<'a> Bytes<'a> {
    /// No bytes yet.
    pub(crate) fn new(room: &'a mut [u8]) -> Bytes<'a> {
        Bytes { room, len: 0 }
    }

    /// How many bytes there are.
    pub(crate) fn len(&self) -> usize {
        self.len
    }

    /// Begins with so many of the bytes that stand in the memory already.
    pub(crate) fn set_len(&mut self, len: usize) {
        self.len = len.min(self.room.len());
    }

    /// Puts the bytes at the end.
    pub(crate) fn put(&mut self, bytes: &[u8]) -> Result<(), Stop> {
        let end = self.len.saturating_add(bytes.len());
        if end > self.room.len() || end < self.len {
            return Err(Stop::TooLong);
        }
        self.room[self.len..end].copy_from_slice(bytes);
        self.len = end;
        Ok(())
    }

    /// Puts a number at the end, with a space before it.
    pub(crate) fn put_number(&mut self, number: u32) -> Result<(), Stop> {
        let mut buffer = Buffer::new();
        self.put(b" ")?;
        self.put(buffer.format(number).as_bytes())
    }

    /// Puts a line at the end: a word and some numbers.
    pub(crate) fn put_line(&mut self, word: &str, numbers: &[u32]) -> Result<(), Stop> {
        self.put(word.as_bytes())?;
        for number in numbers {
            self.put_number(*number)?;
        }
        self.put(b"\n")
    }

    /// Puts a line of small numbers at the end.
    pub(crate) fn put_small(&mut self, word: &str, numbers: &[u8]) -> Result<(), Stop> {
        self.put(word.as_bytes())?;
        for number in numbers {
            self.put_number(u32::from(*number))?;
        }
        self.put(b"\n")
    }
}
