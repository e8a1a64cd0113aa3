// What a command writes when it ends with its text.
ghost use Rattle.std.specs.Prelude.{◌≡◌, [], ◌∷◌, codes};
ghost use Rattle.std.specs.Fmt.{decimal};
ghost use Rattle.split_frac.specs.Texts.{word_line};
ghost use Rattle.command_results.specs.Endings.{text_bytes, yes_line};

use crate::line::{Line, line_of, number_line};

/// A command's text.
#[derive(Drop)]
pub enum Text {
    /// One that is kept in memory: a certificate, a report, an audit, a division or a dump.
    Kept(Vec<u8>),
    /// A line, or nothing, which takes no memory.
    Brief(Line),
}

impl Text {
    /// The text that says that all rules hold.
    pub fn yes() -> Self
        ensures { text_bytes result ≡ yes_line }
    {
        Text::Brief(line_of(b"yes\n"))
    }

    /// The text of a command that writes nothing.
    pub fn nothing() -> Self
        ensures { text_bytes result ≡ [] }
    {
        Text::Brief(Line::new())
    }

    /// The text that says how many links were served.
    pub fn served(count: u64) -> Self
        ensures { text_bytes result ≡ word_line (codes "served") (decimal count ∷ []) }
    {
        Text::Brief(number_line(b"served", count))
    }

    /// The bytes that are written.
    pub fn as_bytes(&self) -> &[u8]
        ensures { result.now ≡ text_bytes self.now }
    {
        match self {
            Text::Kept(text) => text.as_slice(),
            Text::Brief(line) => line.as_slice(),
        }
    }
}
