// A source with some bytes that were read ahead of it.
ghost use Rattle.std.specs.Io.KnownBytes.{prepend_known};

use split_base::{Failed, Source};

// Gives the bytes that were read ahead, and then those of the source.
#[derive(Drop)]
pub(crate) struct Ahead<'h, S> {
    pub(crate) input: S,
    pub(crate) held: &'h [u8],
}

impl<'h, S: Source> Source for Ahead<'h, S> {
    ghost left = { λ ahead. prepend_known ahead.held.now (S.left ahead.input) };

    ghost faults = { λ ahead. S.faults ahead.input };

    ghost empty_reads = { λ ahead. S.empty_reads ahead.input };

    ghost beside = { λ ahead. S.beside ahead.input };

    fn read(&mut self, into: &mut [u8]) -> Result<usize, Failed> {
        if self.held.is_empty() {
            return self.input.read(into);
        }
        let count = self.held.len().min(into.len());
        into[..count].copy_from_slice(&self.held[..count]);
        self.held = &self.held[count..];
        Ok(count)
    }
}
