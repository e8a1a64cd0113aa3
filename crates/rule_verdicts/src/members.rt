// Reads printed numbers that count from 1, such as those of members, places, owners, rooms and
// riders.
ghost use Rattle.std.specs.Prelude.{◌≡◌, ℕ, ◌≤◌, ◌↔◌, Contains, IsTrue, MatchOption, length, map, unsigned_abs};
ghost use Rattle.rule_verdicts.specs.Ranges.{AreBetween};

use arrayvec::ArrayVec;

/// The numbers in their order, if each is from `least` to `most`.
///
/// None if one is less than `least` or greater than `most`.
pub fn members_between<const ROOM: usize>(
    numbers: &[i128],
    least: u8,
    most: u8,
) -> Option<ArrayVec<u8, ROOM>>
    requires room { length numbers.now ≤ ROOM }
    ensures { MatchOption result (AreBetween least most numbers.now → ⊥) (λ members.
        AreBetween least most numbers.now × (members.items ≡ map unsigned_abs numbers.now)) }
{
    let mut members = ArrayVec::new();
    for k in 0..numbers.len() {
        let number = numbers[k];
        if number < i128::from(least) || number > i128::from(most) {
            return None;
        }
        members.push(number as u8);
    }
    Some(members)
}

// Whether the number is among the numbers.
fn has_number(numbers: &[u8], number: u8) -> bool
    ensures { IsTrue result ↔ Contains numbers.now number }
{
    for k in 0..numbers.len() {
        if numbers[k] == number {
            return true;
        }
    }
    false
}

/// Whether each number from 1 to `count` is among the numbers.
pub fn has_each(numbers: &[u8], count: u8) -> bool
    ensures { IsTrue result
        ↔ ((number : ℕ) → 1 ≤ number → number ≤ count → Contains numbers.now number) }
{
    for number in 0..count {
        if !has_number(numbers, number + 1) {
            return false;
        }
    }
    true
}
