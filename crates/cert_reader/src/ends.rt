// The reasons why the reading of a certificate, or of the text of adjusted winner, ends without one.
ghost use Rattle.std.specs.Prelude.{◌≡◌, IfOk, IsErrOf, Ok};
ghost use Rattle.cert_reader.specs.Ends.{read_answer};

/// Why a reader that keeps nothing found no text. It needs no memory.
#[derive(Clone, Copy, Debug, PartialEq, Eq)]
pub enum TextEnd {
    /// The input has at most `MOST_BYTES` bytes and is no such text. It was read to its end.
    NotText {
        /// The first broken line, counted from 1: the least number of lines from the front with which no such text
        /// begins.
        line: u32,
    },
    /// A read failed. It was not tried again.
    ReadFault,
    /// The input has more than `MOST_BYTES` bytes, of which one more than that was read.
    TooLong,
}

/// Why a reader that keeps what it reads found no text.
#[derive(Clone, Copy, Debug, PartialEq, Eq)]
pub enum ReadEnd {
    /// The input has at most `MOST_BYTES` bytes and is not certificate text. It was read to its end.
    NotText {
        /// The first broken line, counted from 1: the least number of lines from the front with which no certificate
        /// text begins.
        line: u32,
    },
    /// A read failed. It was not tried again.
    ReadFault,
    /// The input has more than `MOST_BYTES` bytes, of which one more than that was read.
    TooLong,
    /// There was no memory for what the input says.
    NoMemory,
}

impl From<TextEnd> for ReadEnd {
    ghost use Rattle.std.specs.Prelude.{◌≡◌};
    ghost use Rattle.cert_reader.specs.Ends.{read_end};

    ghost from_gives = { λ end e. e ≡ read_end end };

    fn from(end: TextEnd) -> Self {
        match end {
            TextEnd::NotText { line } => ReadEnd::NotText { line },
            TextEnd::ReadFault => ReadEnd::ReadFault,
            TextEnd::TooLong => ReadEnd::TooLong,
        }
    }
}

/// The same answer, with its reason among those of a reader that keeps what it reads.
pub fn read_answer<T>(answer: Result<T, TextEnd>) -> Result<T, ReadEnd>
    ensures same { result ≡ read_answer answer }
    ensures value { IfOk result (λ value. answer ≡ Ok value) }
    ensures fault { IsErrOf result ReadEnd.ReadFault → IsErrOf answer TextEnd.ReadFault }
    ensures memory { IsErrOf result ReadEnd.NoMemory → ⊥ }
{
    match answer {
        Ok(value) => Ok(value),
        Err(end) => Err(ReadEnd::from(end)),
    }
}
