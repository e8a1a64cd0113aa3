// Turns the numbers of lines into rows of whole numbers or of fractions.
ghost use Rattle.std.specs.Prelude.{◌≡◌, ℕ, ◌<◌, ◌≤◌, [], ◌∷◌, ◌++◌, All, OnOk, drop, flat_map, length, map, true};
ghost use Rattle.split_frac.specs.Frac.{fraction_of};
ghost use Rattle.cert_reader.specs.Gathered.{line_said, numbers_at};
ghost use Rattle.cert_reader.specs.Numbers.{AreSmall, IsNumber, IsSmall};
ghost use Rattle.cert_reader.specs.Text.{wholes};
ghost use Rattle.cert_reader.specs.Views.{says};
ghost use Rattle.cert_reader.specs.declared.limits.TheConstants.{MOST_NUMBERS};

use crate::limits::MOST_NUMBERS;
use crate::line::LineNumbers;
use arrayvec::ArrayVec;
use split_base::NoMemory;
use split_frac::Frac;

/// A row of the numbers of a line, all of which are whole.
pub fn whole_row<const N: usize>(numbers: &[Frac]) -> ArrayVec<i128, N>
    requires room { length numbers.now ≤ N }
    requires whole { All (IsNumber true) (map fraction_of numbers.now) }
    ensures said { wholes result.items ≡ map fraction_of numbers.now }
    ensures small { AreSmall result.items }
    ensures long { length result.items ≡ length numbers.now }
{
    let mut row = ArrayVec::new();
    for number in numbers {
        row.push(number.num);
    }
    row
}

/// The row of a line of whole numbers.
pub fn row_at<const N: usize>(lines: &[LineNumbers], index: usize) -> ArrayVec<i128, N>
    requires index { index < length lines.now }
    requires room { length (numbers_at lines.now index) ≤ N }
    requires whole { All (IsNumber true) (numbers_at lines.now index) }
    ensures said { wholes result.items ≡ numbers_at lines.now index }
    ensures small { AreSmall result.items }
    ensures long { length result.items ≡ length (numbers_at lines.now index) }
{
    whole_row(&lines[index])
}

/// The rows of lines of whole numbers.
pub fn rows_of<const N: usize, const M: usize>(
    lines: &[LineNumbers],
) -> ArrayVec<ArrayVec<i128, N>, M>
    requires room { length lines.now ≤ M }
    requires columns { All (λ line. length line.items ≤ N) lines.now }
    requires whole { All (λ line. All (IsNumber true) (map fraction_of line.items)) lines.now }
    ensures said { map says (map (λ row. row.items) result.items) ≡ map line_said lines.now }
    ensures small { All (λ row. AreSmall row.items) result.items }
    ensures long { length result.items ≡ length lines.now }
    ensures columns { map (λ row. length row.items) result.items
        ≡ map (λ line. length line.items) lines.now }
{
    let mut rows = ArrayVec::new();
    for line in lines {
        rows.push(whole_row(line));
    }
    rows
}

// A row of fractions.
fn fraction_row<const N: usize>(numbers: &[Frac]) -> ArrayVec<Frac, N>
    requires { length numbers.now ≤ N }
    ensures { result.items ≡ numbers.now }
{
    ArrayVec::try_from(numbers).unwrap()
}

/// The numbers of a line once more.
pub fn copy_of(line: &LineNumbers) -> LineNumbers
    ensures { result ≡ line.now }
{
    fraction_row(line)
}

// The row of a line of fractions.
pub(crate) fn fractions_at<const N: usize>(lines: &[LineNumbers], index: usize) -> ArrayVec<Frac, N>
    requires index { index < length lines.now }
    requires room { length (numbers_at lines.now index) ≤ N }
    ensures { map fraction_of result.items ≡ numbers_at lines.now index }
{
    fraction_row(&lines[index])
}

// The first of some whole numbers.
fn first_number(numbers: &[Frac]) -> i128
    requires one { length numbers.now ≡ 1 }
    requires whole { All (IsNumber true) (map fraction_of numbers.now) }
    ensures said { wholes (result ∷ []) ≡ map fraction_of numbers.now }
    ensures small { IsSmall result }
{
    numbers[0].num
}

/// The number of a line that has one whole number.
pub fn number_at(lines: &[LineNumbers], index: usize) -> i128
    requires index { index < length lines.now }
    requires one { length (numbers_at lines.now index) ≡ 1 }
    requires whole { All (IsNumber true) (numbers_at lines.now index) }
    ensures said { wholes (result ∷ []) ≡ numbers_at lines.now index }
    ensures small { IsSmall result }
{
    first_number(&lines[index])
}

// The first of some fractions.
fn first_fraction(numbers: &[Frac]) -> Frac
    requires { length numbers.now ≡ 1 }
    ensures { result ∷ [] ≡ numbers.now }
{
    numbers[0]
}

// The fraction of a line that has one.
pub(crate) fn fraction_at(lines: &[LineNumbers], index: usize) -> Frac
    requires index { index < length lines.now }
    requires one { length (numbers_at lines.now index) ≡ 1 }
    ensures { fraction_of result ∷ [] ≡ numbers_at lines.now index }
{
    first_fraction(&lines[index])
}

// Appends the numbers of a line except its first.
fn push_row(table: &mut Vec<i128>, numbers: &[Frac]) -> Result<(), NoMemory>
    requires some { 1 ≤ length numbers.now }
    requires room { length numbers.now ≤ MOST_NUMBERS }
    requires whole { All (IsNumber true) (map fraction_of numbers.now) }
    ensures said { OnOk result
        (wholes table.new.items ≡ wholes table.old.items ++ map fraction_of (drop 1 numbers.now)) }
    ensures small { OnOk result (AreSmall table.old.items → AreSmall table.new.items) }
{
    let row: ArrayVec<i128, MOST_NUMBERS> = whole_row(&numbers[1..]);
    match table.extend_from_slice(row.as_slice()) {
        Ok(()) => Ok(()),
        Err(_) => Err(NoMemory),
    }
}

// Appends the numbers of these lines, leaving out the first of each.
pub(crate) fn push_rows(table: &mut Vec<i128>, lines: &[LineNumbers]) -> Result<(), NoMemory>
    requires some { All (λ line. 1 ≤ length line.items) lines.now }
    requires whole { All (λ line. All (IsNumber true) (map fraction_of line.items)) lines.now }
    ensures said { OnOk result (wholes table.new.items
        ≡ wholes table.old.items
        ++ flat_map (λ line. map fraction_of (drop 1 line.items)) lines.now) }
    ensures small { OnOk result (AreSmall table.old.items → AreSmall table.new.items) }
{
    for line in lines {
        push_row(table, line)?;
    }
    Ok(())
}
