// Looks up numbers of a text, and rooms and values of a case, one at a time.
ghost use Rattle.std.specs.Prelude.{◌≡◌, pos, ◌+◌, ◌*◌, ◌<◌, ◌≤◌, ◌^◌, ◌+ℤ◌, ◌≤ℤ◌, slice_index, unsigned_abs};
ghost use Rattle.bid_rules.specs.declared.limits.TheConstants.{MOST_RENT};
ghost use Rattle.bid_rules.specs.Keys.{key};
ghost use Rattle.bid_rules.specs.Rent.{IsAssignment, IsValidRentCase, room_count, value};
ghost use Rattle.cert_reader.specs.Numbers.{IsSmall};
ghost use Rattle.cert_reader.specs.declared.limits.TheConstants.{MOST_DIGITS};
ghost use Rattle.room_assignment.specs.declared.limits.TheConstants.{MOST_KEY};

use bid_rules::RentCase;
use room_assignment::key_at;

// The sum of two numbers of a text.
pub(crate) fn plus(a: i128, b: i128) -> i128
    requires a { IsSmall a }
    requires b { IsSmall b }
    ensures value { result ≡ a +ℤ b }
    ensures small { unsigned_abs result < 2 * 10 ^ MOST_DIGITS }
{
    a + b
}

// The room of a member, given by the member's place.
pub(crate) fn room_at(_case: &RentCase, rooms: &[u8], member: usize) -> u8
    requires rooms { IsAssignment _case.now rooms.now }
    requires member { member < room_count _case.now }
    ensures value { result ≡ slice_index rooms.now member }
    ensures low { 1 ≤ result }
    ensures high { result ≤ room_count _case.now }
{
    rooms[member]
}

// What a member, given by place, would pay for a room, in cents.
pub(crate) fn value_at(case: &RentCase, member: usize, room: u8) -> i128
    requires case { IsValidRentCase case.now }
    requires member { member < room_count case.now }
    requires low { 1 ≤ room }
    requires high { room ≤ room_count case.now }
    ensures value { result ≡ value case.now member room }
    ensures low { pos 0 ≤ℤ result }
    ensures high { result ≤ℤ pos MOST_RENT }
{
    i128::from(case.value(member as u8 + 1, room))
}

// The key of a member and a room, both given by place.
pub(crate) fn key_of(case: &RentCase, member: usize, room: usize) -> i128
    requires case { IsValidRentCase case.now }
    requires member { member < room_count case.now }
    requires room { room < room_count case.now }
    ensures value { result ≡ key case.now member (room + 1) }
    ensures small { unsigned_abs result ≤ MOST_KEY }
{
    key_at(case, member as u8 + 1, room as u8 + 1)
}
