// Checks the dual numbers against the keys.
ghost use Rattle.std.specs.Prelude.{◌≡◌, ℕ, ◌<◌, ◌≤◌, ◌+ℤ◌, ◌≤ℤ◌, ◌↔◌, length, IsTrue};
ghost use Rattle.bid_rules.specs.Keys.{key};
ghost use Rattle.bid_rules.specs.Rent.{IsAssignment, IsValidRentCase, price_of, room_count};
ghost use Rattle.bid_rules.specs.Walks.{weight_at};
ghost use Rattle.cert_reader.specs.Numbers.{AreSmall, IsSmall};
ghost use Rattle.rent_rules.specs.Rules.{AreAbove, AreReached};

use crate::numbers::{key_of, plus, room_at};
use bid_rules::RentCase;

// Whether a member's number and those of the rooms are at least the member's keys.
fn is_above(case: &RentCase, member: usize, left: &[i128], right: &[i128]) -> bool
    requires case { IsValidRentCase case.now }
    requires member { member < room_count case.now }
    requires left { AreSmall left.now }
    requires lefts { length left.now ≡ room_count case.now }
    requires right { AreSmall right.now }
    requires each { length right.now ≡ room_count case.now }
    ensures { IsTrue result
        ↔ ((room : ℕ) → 1 ≤ room → room ≤ room_count case.now
        → key case.now member room ≤ℤ (weight_at left.now member +ℤ price_of right.now room)) }
{
    for room in 0..right.len() {
        if plus(left[member], right[room]) < key_of(case, member, room) {
            return false;
        }
    }
    true
}

// Whether the dual numbers are at least the keys.
pub(crate) fn are_above(case: &RentCase, left: &[i128], right: &[i128]) -> bool
    requires case { IsValidRentCase case.now }
    requires left { AreSmall left.now }
    requires lefts { length left.now ≡ room_count case.now }
    requires right { AreSmall right.now }
    requires rights { length right.now ≡ room_count case.now }
    ensures { IsTrue result ↔ AreAbove case.now left.now right.now }
{
    for member in 0..left.len() {
        if !is_above(case, member, left, right) {
            return false;
        }
    }
    true
}

// Whether the dual numbers of a member and a room are the member's key.
fn is_reached(case: &RentCase, member: usize, room: u8, left: i128, right: i128) -> bool
    requires case { IsValidRentCase case.now }
    requires member { member < room_count case.now }
    requires low { 1 ≤ room }
    requires high { room ≤ room_count case.now }
    requires left { IsSmall left }
    requires right { IsSmall right }
    ensures { IsTrue result ↔ (left +ℤ right ≡ key case.now member room) }
{
    plus(left, right) == key_of(case, member, room as usize - 1)
}

// Whether the dual numbers reach the key of each member's own room.
pub(crate) fn are_reached(case: &RentCase, rooms: &[u8], left: &[i128], right: &[i128]) -> bool
    requires case { IsValidRentCase case.now }
    requires rooms { IsAssignment case.now rooms.now }
    requires left { AreSmall left.now }
    requires lefts { length left.now ≡ room_count case.now }
    requires right { AreSmall right.now }
    requires rights { length right.now ≡ room_count case.now }
    ensures { IsTrue result ↔ AreReached case.now rooms.now left.now right.now }
{
    for member in 0..usize::from(case.facts.members) {
        let room = room_at(case, rooms, member);
        if !is_reached(case, member, room, left[member], right[room as usize - 1]) {
            return false;
        }
    }
    true
}
