// Checks the printed walks over the values, and their ranks.
ghost use Rattle.std.specs.Prelude.{◌≡◌, ℕ, pos, ◌*◌, ◌^◌, ◌-◌, ◌<◌, ◌≤◌, ◌+ℤ◌, ◌≤ℤ◌, ◌↔◌, ◌⊎◌, length, unsigned_abs, IsTrue};
ghost use Rattle.bid_rules.specs.declared.limits.TheConstants.{MOST_RENT};
ghost use Rattle.bid_rules.specs.Maximin.{value_step};
ghost use Rattle.bid_rules.specs.Rent.{IsAssignment, IsValidRentCase, room_count};
ghost use Rattle.bid_rules.specs.Walks.{weight_at};
ghost use Rattle.cert_reader.specs.Numbers.{AreSmall, IsSmall};
ghost use Rattle.cert_reader.specs.declared.limits.TheConstants.{MOST_DIGITS};
ghost use Rattle.rent_rules.specs.Rules.{AreRanked, AreSettled, IsLed};

use crate::numbers::{plus, room_at, value_at};
use bid_rules::RentCase;

// The step from one member to another.
fn step(case: &RentCase, rooms: &[u8], from: usize, to: usize) -> i128
    requires case { IsValidRentCase case.now }
    requires rooms { IsAssignment case.now rooms.now }
    requires from { from < room_count case.now }
    requires to { to < room_count case.now }
    ensures value { result ≡ value_step case.now rooms.now from to }
    ensures small { unsigned_abs result ≤ MOST_RENT }
{
    let room = room_at(case, rooms, from);
    value_at(case, to, room) - value_at(case, from, room)
}

// The walk that a step leads to.
fn led_to(case: &RentCase, rooms: &[u8], walks: &[i128], from: usize, to: usize) -> i128
    requires case { IsValidRentCase case.now }
    requires rooms { IsAssignment case.now rooms.now }
    requires walks { AreSmall walks.now }
    requires each { length walks.now ≡ room_count case.now }
    requires from { from < room_count case.now }
    requires to { to < room_count case.now }
    ensures value { result ≡ weight_at walks.now from +ℤ value_step case.now rooms.now from to }
    ensures small { unsigned_abs result < 2 * 10 ^ MOST_DIGITS }
{
    plus(walks[from], step(case, rooms, from, to))
}

// Whether no step to a member exceeds its walk.
fn is_settled(case: &RentCase, rooms: &[u8], walks: &[i128], to: usize) -> bool
    requires case { IsValidRentCase case.now }
    requires rooms { IsAssignment case.now rooms.now }
    requires walks { AreSmall walks.now }
    requires each { length walks.now ≡ room_count case.now }
    requires to { to < room_count case.now }
    ensures { IsTrue result
        ↔ ((from : ℕ) → from < room_count case.now
        → (weight_at walks.now from +ℤ value_step case.now rooms.now from to)
        ≤ℤ weight_at walks.now to) }
{
    for from in 0..walks.len() {
        if led_to(case, rooms, walks, from, to) > walks[to] {
            return false;
        }
    }
    true
}

// Whether the walks are 0 or more, and no step exceeds one.
pub(crate) fn are_settled(case: &RentCase, rooms: &[u8], walks: &[i128]) -> bool
    requires case { IsValidRentCase case.now }
    requires rooms { IsAssignment case.now rooms.now }
    requires walks { AreSmall walks.now }
    requires each { length walks.now ≡ room_count case.now }
    ensures { IsTrue result ↔ AreSettled case.now rooms.now walks.now }
{
    for to in 0..walks.len() {
        if walks[to] < 0 {
            return false;
        }
        if !is_settled(case, rooms, walks, to) {
            return false;
        }
    }
    true
}

// Whether a member's rank is one less than another's.
fn precedes(ranks: &[i128], from: usize, to: usize) -> bool
    requires ranks { AreSmall ranks.now }
    requires from { from < length ranks.now }
    requires to { to < length ranks.now }
    ensures { IsTrue result ↔ (weight_at ranks.now from +ℤ pos 1 ≡ weight_at ranks.now to) }
{
    plus(ranks[from], 1) == ranks[to]
}

// Whether a step from a member leads to another one's walk.
fn leads(case: &RentCase, rooms: &[u8], walks: &[i128], from: usize, to: usize) -> bool
    requires case { IsValidRentCase case.now }
    requires rooms { IsAssignment case.now rooms.now }
    requires walks { AreSmall walks.now }
    requires each { length walks.now ≡ room_count case.now }
    requires from { from < room_count case.now }
    requires to { to < room_count case.now }
    ensures { IsTrue result
        ↔ (weight_at walks.now to
        ≡ weight_at walks.now from +ℤ value_step case.now rooms.now from to) }
{
    led_to(case, rooms, walks, from, to) == walks[to]
}

// Whether a step from a member leads to another one's walk, whose rank is one more.
fn is_led(
    case: &RentCase,
    rooms: &[u8],
    walks: &[i128],
    ranks: &[i128],
    to: usize,
    from: usize,
) -> bool
    requires case { IsValidRentCase case.now }
    requires rooms { IsAssignment case.now rooms.now }
    requires walks { AreSmall walks.now }
    requires each_walk { length walks.now ≡ room_count case.now }
    requires ranks { AreSmall ranks.now }
    requires each_rank { length ranks.now ≡ room_count case.now }
    requires to { to < room_count case.now }
    requires from { from < room_count case.now }
    ensures { IsTrue result ↔ IsLed case.now rooms.now walks.now ranks.now to from }
{
    precedes(ranks, from, to) && leads(case, rooms, walks, from, to)
}

// Whether a step from some member of the rank below leads to the walk.
fn some_leads(case: &RentCase, rooms: &[u8], walks: &[i128], ranks: &[i128], to: usize) -> bool
    requires case { IsValidRentCase case.now }
    requires rooms { IsAssignment case.now rooms.now }
    requires walks { AreSmall walks.now }
    requires each_walk { length walks.now ≡ room_count case.now }
    requires ranks { AreSmall ranks.now }
    requires each_rank { length ranks.now ≡ room_count case.now }
    requires to { to < room_count case.now }
    ensures { IsTrue result
        ↔ ((from : ℕ) × (from < room_count case.now)
        × IsLed case.now rooms.now walks.now ranks.now to from) }
{
    for from in 0..walks.len() {
        if is_led(case, rooms, walks, ranks, to, from) {
            return true;
        }
    }
    false
}

// Whether a member's rank is 0 and so is its walk, or a step from a member of the rank below leads to the walk.
fn is_ranked(case: &RentCase, rooms: &[u8], walks: &[i128], ranks: &[i128], to: usize) -> bool
    requires case { IsValidRentCase case.now }
    requires rooms { IsAssignment case.now rooms.now }
    requires walks { AreSmall walks.now }
    requires each_walk { length walks.now ≡ room_count case.now }
    requires ranks { AreSmall ranks.now }
    requires each_rank { length ranks.now ≡ room_count case.now }
    requires to { to < room_count case.now }
    ensures { IsTrue result
        ↔ (((weight_at ranks.now to ≡ pos 0) × (weight_at walks.now to ≡ pos 0))
        ⊎ ((pos 1 ≤ℤ weight_at ranks.now to)
        × (weight_at ranks.now to ≤ℤ pos (room_count case.now - 1))
        × ((from : ℕ) × (from < room_count case.now)
        × IsLed case.now rooms.now walks.now ranks.now to from))) }
{
    let rank = ranks[to];
    let walk = walks[to];
    if rank == 0 {
        return walk == 0;
    }
    if rank < 0 || rank >= i128::from(case.facts.members) {
        return false;
    }
    some_leads(case, rooms, walks, ranks, to)
}

// Whether the ranks show that each walk is attained.
pub(crate) fn are_ranked(case: &RentCase, rooms: &[u8], walks: &[i128], ranks: &[i128]) -> bool
    requires case { IsValidRentCase case.now }
    requires rooms { IsAssignment case.now rooms.now }
    requires walks { AreSmall walks.now }
    requires each_walk { length walks.now ≡ room_count case.now }
    requires ranks { AreSmall ranks.now }
    requires each_rank { length ranks.now ≡ room_count case.now }
    ensures { IsTrue result ↔ AreRanked case.now rooms.now walks.now ranks.now }
{
    for to in 0..walks.len() {
        if !is_ranked(case, rooms, walks, ranks, to) {
            return false;
        }
    }
    true
}
