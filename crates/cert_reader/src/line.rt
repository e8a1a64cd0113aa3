// Reads one line of certificate text.
ghost use Rattle.std.specs.Prelude.{◌≡◌, ℕ, pos, List, ◌++◌, ◌+◌, ◌<◌, ◌≤◌, ◌↔◌, All, length, map, IsTrue, MatchOption};
ghost use Rattle.std.specs.Bool.{MatchBool};
ghost use Rattle.arrayvec.specs.ArrayVec.{array_vec_len};
ghost use Rattle.bid_rules.specs.Fractions.{Fraction};
ghost use Rattle.split_frac.specs.Frac.{fraction_of};
ghost use Rattle.split_frac.specs.Texts.{numbers_text};
ghost use Rattle.cert_reader.specs.Cuts.{IsLine};
ghost use Rattle.cert_reader.specs.Numbers.{IsNumber};
ghost use Rattle.cert_reader.specs.Text.{BeginsWithNumber};
ghost use Rattle.cert_reader.specs.declared.limits.TheConstants.{MOST_NUMBERS};

use crate::forms::LineForm;
use crate::limits::MOST_NUMBERS;
use crate::number::{front_len, read_number};
use arrayvec::ArrayVec;
use split_frac::Frac;

/// The numbers of a line, a whole number as a fraction over 1.
pub type LineNumbers = ArrayVec<Frac, MOST_NUMBERS>;

// Whether a line, given without its LF, has the form. If so, these are its numbers.
pub(crate) fn read_line(line: &[u8], form: LineForm, numbers: &mut LineNumbers) -> bool
    requires { form.count ≤ MOST_NUMBERS }
    ensures { MatchBool result
        (IsLine form (map fraction_of numbers.new.items) line.now)
        ((read : List Fraction) → IsLine form read line.now → ⊥) }
{
    numbers.clear();
    let Some(rest) = behind(line, form.word.as_str().as_bytes()) else {
        return false;
    };
    if !push_numbers(rest, form.count, form.whole, numbers) {
        return false;
    }
    match form.lead {
        None => true,
        Some(lead) => has_lead(numbers, lead),
    }
}

/// What follows the word.
pub fn behind<'a>(line: &'a [u8], word: &[u8]) -> Option<&'a [u8]>
    ensures { MatchOption result
        ((rest : List ℕ) → line.now ≡ word.now ++ rest → ⊥)
        (λ rest. line.now ≡ word.now ++ rest.now) }
{
    if line.len() < word.len() {
        return None;
    }
    let (front, rest) = line.split_at(word.len());
    if front == word { Some(rest) } else { None }
}

// Whether the first number is this one.
fn has_lead(numbers: &[Frac], lead: u64) -> bool
    ensures { IsTrue result ↔ BeginsWithNumber lead (map fraction_of numbers.now) }
{
    match numbers {
        [] => false,
        [first, ..] => is_whole(*first, lead),
    }
}

// Whether the fraction is this whole number.
fn is_whole(number: Frac, value: u64) -> bool
    ensures { IsTrue result ↔ (number.num ≡ pos value) × (number.den ≡ 1) }
{
    number.num == i128::from(value) && number.den == 1
}

/// Reads this many numbers, to the end of the line.
pub fn push_numbers(rest: &[u8], count: usize, whole: bool, numbers: &mut LineNumbers) -> bool
    requires { array_vec_len numbers.old + count ≤ MOST_NUMBERS }
    ensures { MatchBool result
        ((read : List Fraction)
        × (map fraction_of numbers.new.items ≡ map fraction_of numbers.old.items ++ read)
        × (length read ≡ count) × All (IsNumber whole) read × (rest.now ≡ numbers_text read))
        ((read : List Fraction) → length read ≡ count → All (IsNumber whole) read
        → rest.now ≡ numbers_text read → ⊥) }
{
    if count == 0 {
        return rest.is_empty();
    }
    if rest.len() == 0 {
        return false;
    }
    if rest[0] != b' ' {
        return false;
    }
    let after = &rest[1..];
    let end = front_len(after, b' ');
    let Some(number) = read_number(&after[..end]) else {
        return false;
    };
    if whole && number.den != 1 {
        return false;
    }
    numbers.push(number);
    push_numbers(&after[end..], count - 1, whole, numbers)
}
