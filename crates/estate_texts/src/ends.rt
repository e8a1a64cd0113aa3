/// Why bytes aren't the text of an estate.
#[derive(Clone, Copy, Debug, PartialEq, Eq)]
pub enum EstateEnd {
    /// The first line, counted from 1, with which no text of an estate goes on.
    NotText {
        /// The line.
        line: u32,
    },
    /// There are more bytes than a text may have.
    TooLong,
}
