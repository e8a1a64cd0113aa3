// The prices of the rooms: longest walks over what the members would pay, shifted so that they sum to the rent.
ghost use Rattle.std.specs.Prelude.{◌≡◌, ℕ, ℤ, pos, ◌+◌, ◌*◌, ◌-◌, ◌<◌, ◌≤◌, ◌+ℤ◌, ◌-ℤ◌, ◌*ℤ◌, ◌≤ℤ◌, length, map, All, slice_index, unsigned_abs};
ghost use Rattle.std.specs.List.{range_with_len};
ghost use Rattle.std.specs.List.Sorted.{IsPermutation};
ghost use Rattle.bid_rules.specs.Maximin.{AreMaximinPrices};
ghost use Rattle.bid_rules.specs.Rent.{IsAssignment, IsValidRentCase, room_count, value, welfare};
ghost use Rattle.bid_rules.specs.Sums.{total};
ghost use Rattle.bid_rules.specs.Walks.{weight_at};
ghost use Rattle.rent_maximin.specs.Prices.{HasWalks, IsLeastOf, IsPartAt, IsPriceAt};
ghost use Rattle.split_frac.specs.Frac.{fraction_of};

use arrayvec::ArrayVec;
use bid_rules::RentCase;
use bid_rules::limits::{MEMBER_ROOM, MOST_MEMBERS, MOST_RENT};
use room_assignment::limits::MOST_STEP;
use split_frac::limits::MOST_NUMERATOR;
use split_frac::{Frac, make};

// What a member, from 0, would pay for a room, from 1.
fn value_of(case: &RentCase, member: usize, room: usize) -> i128
    requires case { IsValidRentCase case.now }
    requires member { member < room_count case.now }
    requires room_low { 1 ≤ room }
    requires room_high { room ≤ room_count case.now }
    ensures value { result ≡ value case.now member room }
    ensures low { pos 0 ≤ℤ result }
    ensures high { result ≤ℤ pos MOST_RENT }
{
    i128::from(case.value(member as u8 + 1, room as u8))
}

// The sum of what the members would pay for their own rooms.
fn welfare_of(case: &RentCase, rooms: &[u8]) -> i128
    requires case { IsValidRentCase case.now }
    requires rooms { IsAssignment case.now rooms.now }
    ensures value { result ≡ welfare case.now rooms.now }
    ensures small { unsigned_abs result ≤ MOST_MEMBERS * MOST_RENT }
{
    let mut sum = 0;
    for member in 0..case.facts.members as usize {
        sum += value_of(case, member, usize::from(rooms[member]));
    }
    sum
}

// The sum of the weights of the walks.
fn sum_of(walks: &[i128]) -> i128
    requires few { length walks.now ≤ MEMBER_ROOM }
    requires small { All (λ weight. unsigned_abs weight ≤ MOST_MEMBERS * MOST_STEP) walks.now }
    ensures value { result ≡ total (weight_at walks.now) (range_with_len 0 (length walks.now)) }
    ensures small { unsigned_abs result ≤ MOST_MEMBERS * MOST_MEMBERS * MOST_STEP }
{
    let mut sum = 0;
    for k in 0..walks.len() {
        sum += walks[k];
    }
    sum
}

// A number multiplied by a count.
fn times(count: u8, number: i128) -> i128
    requires count { count ≤ MEMBER_ROOM }
    requires number { unsigned_abs number ≤ MOST_MEMBERS * MOST_STEP }
    ensures value { result ≡ pos count *ℤ number }
    ensures small { unsigned_abs result ≤ MOST_MEMBERS * MOST_MEMBERS * MOST_STEP }
{
    i128::from(count) * number
}

// The member, from 0, who has the room, from 1.
fn holder(rooms: &[u8], room: usize) -> usize
    requires rooms { IsPermutation (range_with_len 1 (length rooms.now)) rooms.now }
    requires low { 1 ≤ room }
    requires high { room ≤ length rooms.now }
    ensures within { result < length rooms.now }
    ensures holds { slice_index rooms.now result ≡ room }
{
    for k in 0..rooms.len() {
        if usize::from(rooms[k]) == room {
            return k;
        }
    }
    0
}

// n times the price of a room, from 0.
fn part_of(case: &RentCase, rooms: &[u8], walks: &[i128], least: i128, room: usize) -> i128
    requires walks { HasWalks case.now rooms.now walks.now }
    requires least { IsLeastOf case.now rooms.now walks.now least }
    requires room { room < room_count case.now }
    ensures value { IsPartAt case.now rooms.now walks.now room result }
    ensures small { unsigned_abs result ≤ MOST_NUMERATOR }
{
    let member = holder(rooms, room + 1);
    let count = case.facts.members;
    times(count, value_of(case, member, room + 1)) - (least + times(count, walks[member]))
}

// The price of a room, from 0.
fn price_of(case: &RentCase, rooms: &[u8], walks: &[i128], least: i128, room: usize) -> Frac
    requires walks { HasWalks case.now rooms.now walks.now }
    requires least { IsLeastOf case.now rooms.now walks.now least }
    requires room { room < room_count case.now }
    ensures { IsPriceAt case.now rooms.now walks.now room (fraction_of result) }
{
    make(
        part_of(case, rooms, walks, least, room),
        u64::from(case.facts.members),
    )
}

// The prices by room that leave each member the least utility, of which n times is given, and the weight of its walk.
pub(crate) fn prices_of(
    case: &RentCase,
    rooms: &[u8],
    walks: &[i128],
    least: i128,
) -> ArrayVec<Frac, MEMBER_ROOM>
    requires walks { HasWalks case.now rooms.now walks.now }
    requires least { IsLeastOf case.now rooms.now walks.now least }
    ensures { AreMaximinPrices case.now rooms.now walks.now (map fraction_of result.items) }
{
    let mut prices = ArrayVec::new();
    for room in 0..case.facts.members as usize {
        prices.push(price_of(case, rooms, walks, least, room));
    }
    prices
}

// n times the least utility: the welfare less the rent and the walks.
pub(crate) fn least_of(case: &RentCase, rooms: &[u8], walks: &[i128]) -> i128
    requires { HasWalks case.now rooms.now walks.now }
    ensures { IsLeastOf case.now rooms.now walks.now result }
{
    welfare_of(case, rooms) - i128::from(case.facts.rent) - sum_of(walks)
}
