// Appends lines to a text.
ghost use Rattle.std.specs.Prelude.{◌≡◌, ◌++◌, map, IfSome, OnOk, string_bytes};
ghost use Rattle.split_frac.specs.Texts.{line, word_line};

use crate::numbers::{Number, Numbers};
use split_base::NoMemory;
use std::fmt;

/// Appends a line: the content as `Display` writes it, and then a line feed. For a line of several parts,
/// the content is `format_args!("..")`.
///
/// `NoMemory`: the text could not grow.
#[tactic(auto, unfolding(crate::specs::Texts::line))]
pub fn push_line<D: fmt::Display + Drop>(text: &mut String, content: D) -> Result<(), NoMemory>
    ensures { OnOk result (IfSome (D.output content) (λ bytes.
        string_bytes text.new ≡ string_bytes text.old ++ line bytes)) }
{
    match writeln!(text, "{content}") {
        Ok(()) => Ok(()),
        Err(_) => Err(NoMemory),
    }
}

/// Appends a line of a word and numbers, such as `rooms 1 3 2` or `prices 2101/3 100 100`.
///
/// `NoMemory`: the text could not grow.
pub fn push_numbers<T: Number>(text: &mut String, word: &str, numbers: &[T]) -> Result<(), NoMemory>
    ensures { OnOk result (string_bytes text.new
        ≡ string_bytes text.old ++ word_line word.now (map T.text numbers.now)) }
{
    let numbers = Numbers(numbers);
    push_line(text, format_args!("{word}{numbers}"))
}
