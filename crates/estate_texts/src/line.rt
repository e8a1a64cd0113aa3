// Reads one line of numbers from the text of an estate.
ghost use Rattle.std.specs.Prelude.{◌≡◌, ℕ, ℤ, ◌+◌, ◌<◌, ◌≤◌, List, All, MatchOption, drop, length, map, true};
ghost use Rattle.std.specs.Bool.{MatchBool};
ghost use Rattle.bid_rules.specs.Fractions.{Fraction};
ghost use Rattle.split_frac.specs.Frac.{fraction_of};
ghost use Rattle.split_frac.specs.Texts.{numbers_text};
ghost use Rattle.cert_reader.specs.Numbers.{IsNumber};
ghost use Rattle.cert_reader.specs.declared.limits.TheConstants.{MOST_NUMBERS};
ghost use Rattle.estate_texts.specs.Forms.{CanHold};
ghost use Rattle.estate_texts.specs.Lines.{numbers_content};
ghost use Rattle.estate_texts.specs.Steps.{BeginsWithRow, HasNoRow};

use crate::forms::NumberForm;
use crate::text::Row;
use arrayvec::ArrayVec;
use cert_reader::{LineNumbers, behind, front_len, numbers_law, push_numbers, whole_row};

/// The numbers of a line, and where the line after it begins.
#[derive(Drop)]
pub struct Taken {
    /// The numbers.
    pub row: Row,
    /// The place behind the line's LF.
    pub next: usize,
}

// Reads all numbers of a line behind its word, if there are so many of them.
fn push_between(rest: &[u8], least: usize, most: usize, numbers: &mut LineNumbers) -> bool
    requires { most ≤ MOST_NUMBERS }
    ensures { MatchBool result
        ((least ≤ length (map fraction_of numbers.new.items))
        × (length (map fraction_of numbers.new.items) ≤ most)
        × All (IsNumber true) (map fraction_of numbers.new.items)
        × (rest.now ≡ numbers_text (map fraction_of numbers.new.items)))
        ((read : List Fraction) → least ≤ length read → length read ≤ most
        → All (IsNumber true) read → rest.now ≡ numbers_text read → ⊥) }
{
    for count in least..most + 1 {
        numbers.clear();
        if push_numbers(rest, count, true, numbers) {
            return true;
        }
    }
    false
}

// The numbers of a line, given without its LF, if it has the form.
fn read_row(line: &[u8], form: NumberForm) -> Option<Row>
    requires { form.most ≤ MOST_NUMBERS }
    ensures { MatchOption result
        ((numbers : List ℤ) → CanHold form numbers
        → line.now ≡ numbers_content form.word numbers → ⊥)
        (λ row. CanHold form row.items × (line.now ≡ numbers_content form.word row.items)) }
{
    let Some(rest) = behind(line, form.word.as_str().as_bytes()) else {
        return None;
    };
    let mut numbers: LineNumbers = ArrayVec::new();
    if !push_between(rest, form.least, form.most, &mut numbers) {
        return None;
    }
    Some(whole_row(&numbers))
}

/// The numbers of the line at a place, if it has the form, and where the next line begins.
pub fn next_row(text: &[u8], at: usize, form: NumberForm) -> Option<Taken>
    requires at { at ≤ length text.now }
    requires few { form.most ≤ MOST_NUMBERS }
    ensures row { MatchOption result
        (HasNoRow form (drop at text.now))
        (λ taken. BeginsWithRow form (drop at text.now) taken.row.items (drop taken.next text.now)) }
    ensures next { MatchOption result (Unit {0})
        (λ taken. (at < taken.next) × (taken.next ≤ length text.now)) }
{
    numbers_law();
    let rest = &text[at..];
    let len = front_len(rest, b'\n');
    if len >= rest.len() {
        return None;
    }
    match read_row(&rest[..len], form) {
        Some(row) => Some(Taken {
            row,
            next: at + len + 1,
        }),
        None => None,
    }
}
