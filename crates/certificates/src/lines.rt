// Puts the lines of a certificate into a buffer.
ghost use Rattle.std.specs.Prelude.{◌≡◌, ◌++◌, ◌∷◌, flat_map, map, pos};
ghost use Rattle.std.specs.Fmt.{decimal, signed_decimal};
ghost use Rattle.cert_reader.specs.Text.{wholes};
ghost use Rattle.certificates.specs.Lines.{number_line};
ghost use Rattle.certificates.specs.Puts.{Puts};
ghost use Rattle.split_frac.specs.Frac.{frac_text, fraction_of};
ghost use Rattle.split_frac.specs.Texts.{line, with_spaces};

use crate::room::put;
use arrayvec::ArrayVec;
use cert_reader::Word;
use itoa::{Buffer, Integer};
use split_frac::{Frac, number_law};

// Puts a number, with a space before it.
fn put_number<I: Integer>(text: &mut [u8], used: usize, number: I) -> usize
    ensures { Puts (32 ∷ I.text number) used text.old text.new result }
{
    let end = put(text, used, b" ");
    let mut buffer = Buffer::new();
    put(text, end, buffer.format(number).as_bytes())
}

// Puts numbers, with a space before each.
fn put_spaced<I: Integer>(text: &mut [u8], used: usize, numbers: &[I]) -> usize
    ensures { Puts (with_spaces (map I.text numbers.now)) used text.old text.new result }
{
    let mut end = used;
    for number in numbers {
        end = put_number(text, end, *number);
    }
    end
}

// Puts a slash and a denominator.
fn put_denominator(text: &mut [u8], used: usize, number: u64) -> usize
    ensures { Puts (47 ∷ decimal number) used text.old text.new result }
{
    let end = put(text, used, b"/");
    let mut buffer = Buffer::new();
    put(text, end, buffer.format(number).as_bytes())
}

// Puts a fraction, with a space before it.
#[tactic(auto, unfolding(split_frac::specs::Frac::pair_text))]
fn put_fraction(text: &mut [u8], used: usize, number: Frac) -> usize
    ensures { Puts (32 ∷ frac_text number) used text.old text.new result }
{
    let end = put_number(text, used, number.num);
    if number.den == 1 {
        return end;
    }
    put_denominator(text, end, number.den)
}

// Puts fractions, with a space before each.
fn put_spaced_fractions(text: &mut [u8], used: usize, numbers: &[Frac]) -> usize
    ensures { Puts (with_spaces (map frac_text numbers.now)) used text.old text.new result }
{
    let mut end = used;
    for number in numbers {
        end = put_fraction(text, end, *number);
    }
    end
}

// Puts a line of a word and numbers.
fn put_line<I: Integer>(text: &mut [u8], used: usize, word: &str, numbers: &[I]) -> usize
    ensures { Puts (line (word.now ++ with_spaces (map I.text numbers.now))) used text.old text.new
        result }
{
    let behind_word = put(text, used, word.as_bytes());
    let behind_numbers = put_spaced(text, behind_word, numbers);
    put(text, behind_numbers, b"\n")
}

// Puts a line of small numbers.
pub(crate) fn put_small(text: &mut [u8], used: usize, word: Word, numbers: &[u8]) -> usize
    ensures { Puts (number_line word (wholes (map pos numbers.now))) used text.old text.new result }
{
    number_law();
    put_line(text, used, word.as_str(), numbers)
}

// Puts a line of amounts.
pub(crate) fn put_amounts(text: &mut [u8], used: usize, word: Word, numbers: &[u32]) -> usize
    ensures { Puts (number_line word (wholes (map pos numbers.now))) used text.old text.new result }
{
    number_law();
    put_line(text, used, word.as_str(), numbers)
}

// Puts a line of whole numbers.
pub(crate) fn put_signed(text: &mut [u8], used: usize, word: Word, numbers: &[i128]) -> usize
    ensures { Puts (number_line word (wholes numbers.now)) used text.old text.new result }
{
    number_law();
    put_line(text, used, word.as_str(), numbers)
}

// Puts a line of fractions.
pub(crate) fn put_fractions(text: &mut [u8], used: usize, word: Word, numbers: &[Frac]) -> usize
    ensures { Puts (number_line word (map fraction_of numbers.now)) used text.old text.new result }
{
    number_law();
    let behind_word = put(text, used, word.as_str().as_bytes());
    let behind_numbers = put_spaced_fractions(text, behind_word, numbers);
    put(text, behind_numbers, b"\n")
}

// Puts a line of amounts for each row.
pub(crate) fn put_rows<const N: usize>(
    text: &mut [u8],
    used: usize,
    word: Word,
    rows: &[ArrayVec<u32, N>],
) -> usize
    ensures { Puts (flat_map (λ row. number_line word (wholes (map pos row.items))) rows.now) used
        text.old text.new result }
{
    let mut end = used;
    for row in rows {
        end = put_amounts(text, end, word, row.as_slice());
    }
    end
}
