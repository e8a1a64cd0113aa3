// Numbers that look drawn and are always the same, so that each search is too.
ghost use Rattle.std.specs.Prelude.{◌<◌};

/// Xorshift (Marsaglia 2003).
#[derive(Drop)]
pub(crate) struct Draws {
    state: u64,
}

impl Draws {
    pub(crate) fn new() -> Draws {
        Draws {
            state: 0x9e37_79b9_7f4a_7c15,
        }
    }

    /// A number below the end.
    pub(crate) fn below(&mut self, end: usize) -> usize
        requires { 0 < end }
        ensures { result < end }
    {
        self.state ^= self.state << 13;
        self.state ^= self.state >> 7;
        self.state ^= self.state << 17;
        (self.state >> 33) as usize % end
    }
}
