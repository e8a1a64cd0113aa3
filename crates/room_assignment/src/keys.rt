// Keys, which put values in cents and the order of assignments into one number, so that the greatest sum belongs to the first of
// the best assignments.
ghost use Rattle.std.specs.Prelude.{◌≡◌, ℕ, ℤ, pos, ◌+◌, ◌*◌, ◌-◌, ◌<◌, ◌≤◌, ◌^◌, ◌+ℤ◌, ◌-ℤ◌, ◌*ℤ◌, ◌≤ℤ◌, length, All, slice_index, slice_index_or, unsigned_abs};
ghost use Rattle.bid_rules.specs.Rent.{IsValidRentCase, value, room_count};
ghost use Rattle.room_assignment.specs.Matrix.{IsSquare, entry};
ghost use Rattle.room_assignment.specs.Tree.{AreKeys};
ghost use Rattle.bid_rules.specs.Keys.{key};
ghost use Rattle.room_assignment.specs.Entries.{IsRowOf, HasEntries};

use crate::limits::{MOST_KEY, MOST_STEP};
use crate::walks::{Matrix, step};
use arrayvec::ArrayVec;
use bid_rules::RentCase;
use bid_rules::limits::{MEMBER_ROOM, MOST_MEMBERS, MOST_RENT};

// The power of a small base.
fn power(base: u8, exponent: usize) -> u64
    requires low { 1 ≤ base }
    requires high { base ≤ MOST_MEMBERS }
    requires exponent { exponent ≤ MOST_MEMBERS }
    ensures value { result ≡ base ^ exponent }
    ensures small { result ≤ MOST_MEMBERS ^ MOST_MEMBERS }
{
    let mut power = 1;
    for _k in 0..exponent {
        power *= u64::from(base);
    }
    power
}

// A value multiplied by a power.
fn lifted(value: i128, by: u64) -> i128
    requires low { pos 0 ≤ℤ value }
    requires high { value ≤ℤ pos MOST_RENT }
    requires by { by ≤ MOST_MEMBERS ^ MOST_MEMBERS }
    ensures value { result ≡ pos by *ℤ value }
    ensures low { pos 0 ≤ℤ result }
    ensures high { result ≤ℤ pos (MOST_RENT * MOST_MEMBERS ^ MOST_MEMBERS) }
{
    by as i128 * value
}

// A room's place multiplied by a power.
fn digit(room: usize, by: u64) -> i128
    requires room { room < MOST_MEMBERS }
    requires by { by ≤ MOST_MEMBERS ^ MOST_MEMBERS }
    ensures value { result ≡ pos (room * by) }
    ensures high { result ≤ℤ pos ((MOST_MEMBERS - 1) * MOST_MEMBERS ^ MOST_MEMBERS) }
{
    i128::from(room as u64 * by)
}

// What a member would pay for a room, both by place from 0.
fn value_of(case: &RentCase, member: usize, room: usize) -> i128
    requires case { IsValidRentCase case.now }
    requires member { member < room_count case.now }
    requires room { room < room_count case.now }
    ensures value { result ≡ value case.now member (room + 1) }
    ensures low { pos 0 ≤ℤ result }
    ensures high { result ≤ℤ pos MOST_RENT }
{
    i128::from(case.value(member as u8 + 1, room as u8 + 1))
}

/// The key of a member and a room, both numbered from 1: the value in cents times n^n, less a digit in base n that counts against
/// giving high rooms to early members.
///
/// The assignment with the greatest sum of keys is the first one of greatest welfare.
pub fn key_at(case: &RentCase, member: u8, room: u8) -> i128
    requires case { IsValidRentCase case.now }
    requires member_low { 1 ≤ member }
    requires member_high { member ≤ room_count case.now }
    requires room_low { 1 ≤ room }
    requires room_high { room ≤ room_count case.now }
    ensures value { result ≡ key case.now (member - 1) room }
    ensures small { unsigned_abs result ≤ MOST_KEY }
{
    key_of(case, member as usize - 1, room as usize - 1)
}

// The key of a member and a room, both by place from 0.
fn key_of(case: &RentCase, member: usize, room: usize) -> i128
    requires case { IsValidRentCase case.now }
    requires member { member < room_count case.now }
    requires room { room < room_count case.now }
    ensures value { result ≡ key case.now member (room + 1) }
    ensures small { unsigned_abs result ≤ MOST_KEY }
{
    let count = case.facts.members;
    let value = value_of(case, member, room);
    lifted(value, power(count, count as usize))
        - digit(room, power(count, count as usize - 1 - member))
}

// The keys of one member.
fn key_row(case: &RentCase, member: usize) -> ArrayVec<i128, MEMBER_ROOM>
    requires case { IsValidRentCase case.now }
    requires member { member < room_count case.now }
    ensures { IsRowOf (room_count case.now) MOST_KEY (λ j. key case.now member (j + 1))
        result.items }
{
    let mut row = ArrayVec::new();
    for room in 0..case.facts.members as usize {
        row.push(key_of(case, member, room));
    }
    row
}

// The keys of all members and rooms.
pub(crate) fn keys_of(case: &RentCase) -> Matrix
    requires { IsValidRentCase case.now }
    ensures { HasEntries (room_count case.now) MOST_KEY (λ i j. key case.now i (j + 1)) result }
{
    let mut keys = ArrayVec::new();
    for member in 0..case.facts.members as usize {
        keys.push(key_row(case, member));
    }
    keys
}

// The values of one member.
fn value_row(case: &RentCase, member: usize) -> ArrayVec<i128, MEMBER_ROOM>
    requires case { IsValidRentCase case.now }
    requires member { member < room_count case.now }
    ensures { IsRowOf (room_count case.now) MOST_KEY (λ j. value case.now member (j + 1))
        result.items }
{
    let mut row = ArrayVec::new();
    for room in 0..case.facts.members as usize {
        row.push(value_of(case, member, room));
    }
    row
}

// The values of all members and rooms.
pub(crate) fn values_of(case: &RentCase) -> Matrix
    requires { IsValidRentCase case.now }
    ensures { HasEntries (room_count case.now) MOST_KEY (λ i j. value case.now i (j + 1)) result }
{
    let mut values = ArrayVec::new();
    for member in 0..case.facts.members as usize {
        values.push(value_row(case, member));
    }
    values
}

// The weights of the steps from one member.
fn step_row(weights: &Matrix, rooms: &[u8], from: usize) -> ArrayVec<i128, MEMBER_ROOM>
    requires weights { AreKeys weights.now }
    requires count { length rooms.now ≡ length weights.now.items }
    requires rooms { All (λ room. room < length weights.now.items) rooms.now }
    requires from { from < length weights.now.items }
    ensures { IsRowOf (length weights.now.items) MOST_STEP
        (λ to.
        entry weights.now to (slice_index rooms.now from)
        -ℤ entry weights.now from (slice_index rooms.now from)) result.items }
{
    let room = usize::from(rooms[from]);
    let mut row = ArrayVec::new();
    for to in 0..weights.len() {
        row.push(one_step(weights, from, to, room));
    }
    row
}

// By how much one member's weight for a room exceeds another's.
fn one_step(weights: &Matrix, from: usize, to: usize, room: usize) -> i128
    requires weights { AreKeys weights.now }
    requires from { from < length weights.now.items }
    requires to { to < length weights.now.items }
    requires room { room < length weights.now.items }
    ensures value { result ≡ entry weights.now to room -ℤ entry weights.now from room }
    ensures small { unsigned_abs result ≤ MOST_STEP }
{
    step(weights, to, room) - step(weights, from, room)
}

// The weights of the steps between members: by how much the other's weight for the first one's room exceeds the first one's own.
pub(crate) fn walk_matrix(weights: &Matrix, rooms: &[u8]) -> Matrix
    requires weights { AreKeys weights.now }
    requires count { length rooms.now ≡ length weights.now.items }
    requires rooms { All (λ room. room < length weights.now.items) rooms.now }
    ensures { HasEntries (length weights.now.items) MOST_STEP
        (λ from to.
        entry weights.now to (slice_index rooms.now from)
        -ℤ entry weights.now from (slice_index rooms.now from)) result }
{
    let mut steps = ArrayVec::new();
    for from in 0..weights.len() {
        steps.push(step_row(weights, rooms, from));
    }
    steps
}
