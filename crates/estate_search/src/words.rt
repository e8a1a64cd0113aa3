// Numbers in lent memory, four bytes each: written one after another, and read in the same order.
use crate::bytes::Bytes;
use crate::players::OwnerList;
use crate::stops::Stop;
use bid_rules::limits::ITEM_ROOM;

// How many bytes a number takes.
const WORD: usize = 4;

/// Numbers that are read one after another, and 0 where there are no more.
#[derive(Clone, Copy)]
pub(crate) struct Words<'a> {
    bytes: &'a [u8],
    at: usize,
}

impl<'a> Words<'a> {
    pub(crate) fn new(bytes: &'a [u8]) -> Words<'a> {
        Words { bytes, at: 0 }
    }

    pub(crate) fn next_word(&mut self) -> u32 {
        let at = self.at;
        self.at = at.saturating_add(WORD);
        word_at(self.bytes, at).unwrap_or(0)
    }

    pub(crate) fn next_size(&mut self) -> usize {
        self.next_word() as usize
    }

    /// A number of 64 binary digits.
    pub(crate) fn next_number(&mut self) -> i64 {
        let at = self.at;
        self.at = at.saturating_add(2 * WORD);
        match self.bytes.get(at..self.at) {
            Some(bytes) => number_of(bytes),
            None => 0,
        }
    }

    /// The last eight binary digits of the next number.
    pub(crate) fn next_byte(&mut self) -> u8 {
        (self.next_word() % 256) as u8
    }

    pub(crate) fn next_bool(&mut self) -> bool {
        self.next_word() == 1
    }

    pub(crate) fn next_owners(&mut self) -> OwnerList {
        let mut owners = OwnerList::new();
        let count = self.next_size().min(ITEM_ROOM);
        for _ in 0..count {
            let owner = self.next_byte();
            if !owners.is_full() {
                owners.push(owner);
            }
        }
        owners
    }
}

/// The number at this place, if there is room for one.
pub(crate) fn word_at(bytes: &[u8], at: usize) -> Option<u32> {
    let end = at.checked_add(WORD)?;
    if end > bytes.len() {
        return None;
    }
    let word = [bytes[at], bytes[at + 1], bytes[at + 2], bytes[at + 3]];
    Some(u32::from_le_bytes(word))
}

// The number that eight bytes are.
fn number_of(bytes: &[u8]) -> i64 {
    let mut number = [0; 2 * WORD];
    if bytes.len() == number.len() {
        number.copy_from_slice(bytes);
    }
    i64::from_le_bytes(number)
}

pub(crate) fn put_number(bytes: &mut Bytes<'_>, number: i64) -> Result<(), Stop> {
    bytes.put(&number.to_le_bytes())
}

pub(crate) fn put_word(bytes: &mut Bytes<'_>, word: u32) -> Result<(), Stop> {
    bytes.put(&word.to_le_bytes())
}

pub(crate) fn put_size(bytes: &mut Bytes<'_>, size: usize) -> Result<(), Stop> {
    put_word(bytes, size.min(u32::MAX as usize) as u32)
}

pub(crate) fn put_owners(bytes: &mut Bytes<'_>, owners: &[u8]) -> Result<(), Stop> {
    put_size(bytes, owners.len())?;
    for owner in owners {
        put_word(bytes, u32::from(*owner))?;
    }
    Ok(())
}
