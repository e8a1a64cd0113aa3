// Reads printed amounts: numbers of cents or of points, from 0 to a limit.
ghost use Rattle.std.specs.Prelude.{◌≡◌, ◌≤◌, All, MatchOption, length, map, unsigned_abs};
ghost use Rattle.rule_verdicts.specs.Ranges.{AreBetween};

use arrayvec::ArrayVec;

/// The numbers in their order, if each is from 0 to `most`.
///
/// None if one is less than 0 or greater than `most`.
pub fn amounts<const ROOM: usize>(numbers: &[i128], most: u32) -> Option<ArrayVec<u32, ROOM>>
    requires room { length numbers.now ≤ ROOM }
    ensures { MatchOption result (AreBetween 0 most numbers.now → ⊥)
        (λ row. AreBetween 0 most numbers.now × (row.items ≡ map unsigned_abs numbers.now)) }
{
    let mut row = ArrayVec::new();
    for k in 0..numbers.len() {
        let number = numbers[k];
        if number < 0 || number > i128::from(most) {
            return None;
        }
        row.push(number as u32);
    }
    Some(row)
}

/// The rows in their order, if each of their numbers is from 0 to `most`.
///
/// None if one is less than 0 or greater than `most`.
pub fn rows_of_amounts<const PRINTED: usize, const ROOM: usize, const ROWS: usize>(
    rows: &[ArrayVec<i128, PRINTED>],
    most: u32,
) -> Option<ArrayVec<ArrayVec<u32, ROOM>, ROWS>>
    requires few { length rows.now ≤ ROWS }
    requires room { PRINTED ≤ ROOM }
    ensures { MatchOption result (All (AreBetween 0 most) (map (λ row. row.items) rows.now) → ⊥)
        (λ read.
        All (AreBetween 0 most) (map (λ row. row.items) rows.now)
        × (read.items
        ≡ map (λ row. record { items = map unsigned_abs row }) (map (λ row. row.items) rows.now))) }
{
    let mut read = ArrayVec::new();
    for k in 0..rows.len() {
        match amounts(rows[k].as_slice(), most) {
            Some(row) => read.push(row),
            None => return None,
        }
    }
    Some(read)
}
