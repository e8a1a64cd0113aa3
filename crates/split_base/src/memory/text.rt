// Text in memory as a source that never fails.
ghost use Rattle.std.specs.Prelude.{◌≡◌, Some};

use super::source::copy_front;
use crate::{Failed, Source};
use std::marker::Model;

/// Text in memory, which is read without faults: its count of faults stays 0.
///
/// Contracts see it as the bytes that are left to read.
#[derive(Drop)]
pub struct TextSource<'a> {
    left: &'a [u8],
}

impl<'a> Model for TextSource<'a> {
    ghost use Rattle.std.specs.Prelude.{ℕ, List};

    ghost Value = { List ℕ };

    ghost view = { λ s. s.left.now };
}

impl<'a> TextSource<'a> {
    /// The text, none of which has been read.
    pub fn new(text: &'a [u8]) -> Self
        ensures { result ≡ text.now }
    {
        TextSource { left: text }
    }
}

impl Source for TextSource<'_> {
    ghost left = { λ source. Some source };

    ghost faults = { λ _. 0 };

    fn read(&mut self, into: &mut [u8]) -> Result<usize, Failed> {
        let count = copy_front(self.left, into, self.left.len());
        self.left = &self.left[count..];
        Ok(count)
    }
}
