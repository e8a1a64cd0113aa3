// Checks the prices against the formula.
ghost use Rattle.std.specs.Prelude.{◌≡◌, ℕ, ℤ, pos, ◌+◌, ◌*◌, ◌-◌, ◌<◌, ◌≤◌, ◌^◌, ◌+ℤ◌, ◌-ℤ◌, ◌*ℤ◌, ◌↔◌, length, map, slice_index, slice_index_or, unsigned_abs, IsTrue};
ghost use Rattle.std.specs.List.{range_with_len};
ghost use Rattle.bid_rules.specs.declared.limits.TheConstants.{MOST_MEMBERS, MOST_RENT};
ghost use Rattle.bid_rules.specs.Fractions.{IsQuotient};
ghost use Rattle.bid_rules.specs.Maximin.{AreMaximinPrices, least_in_parts, price_in_parts};
ghost use Rattle.bid_rules.specs.Rent.{IsAssignment, IsValidRentCase, room_count, value, welfare};
ghost use Rattle.bid_rules.specs.Sums.{total};
ghost use Rattle.bid_rules.specs.Walks.{weight_at};
ghost use Rattle.cert_reader.specs.declared.limits.TheConstants.{MOST_DIGITS, MOST_PRINTED_DENOMINATOR};
ghost use Rattle.cert_reader.specs.Numbers.{AreShort, AreSmall, IsSmall};
ghost use Rattle.split_frac.specs.Frac.{fraction_of};

use crate::numbers::{room_at, value_at};
use bid_rules::RentCase;
use split_frac::Frac;

// The sum of what the members would pay for their own rooms.
fn welfare_of(case: &RentCase, rooms: &[u8]) -> i128
    requires case { IsValidRentCase case.now }
    requires rooms { IsAssignment case.now rooms.now }
    ensures value { result ≡ welfare case.now rooms.now }
    ensures small { unsigned_abs result ≤ MOST_MEMBERS * MOST_RENT }
{
    let mut sum = 0;
    for member in 0..usize::from(case.facts.members) {
        sum += value_at(case, member, room_at(case, rooms, member));
    }
    sum
}

// The sum of the walks.
fn sum_of(walks: &[i128]) -> i128
    requires few { length walks.now ≤ MOST_MEMBERS }
    requires small { AreSmall walks.now }
    ensures value { result ≡ total (weight_at walks.now) (range_with_len 0 (length walks.now)) }
    ensures small { unsigned_abs result ≤ MOST_MEMBERS * 10 ^ MOST_DIGITS }
{
    let mut sum = 0;
    for k in 0..walks.len() {
        sum += walks[k];
    }
    sum
}

// n times the least utility.
fn least_of(case: &RentCase, rooms: &[u8], walks: &[i128]) -> i128
    requires case { IsValidRentCase case.now }
    requires rooms { IsAssignment case.now rooms.now }
    requires walks { AreSmall walks.now }
    requires each { length walks.now ≡ room_count case.now }
    ensures value { result ≡ least_in_parts case.now rooms.now walks.now }
    ensures small { unsigned_abs result ≤ (MOST_MEMBERS + 1) * 10 ^ MOST_DIGITS }
{
    welfare_of(case, rooms) - i128::from(case.facts.rent) - sum_of(walks)
}

// A number multiplied by a count.
fn times(count: u8, number: i128) -> i128
    requires count { count ≤ MOST_MEMBERS }
    requires number { IsSmall number }
    ensures value { result ≡ pos count *ℤ number }
    ensures small { unsigned_abs result ≤ MOST_MEMBERS * 10 ^ MOST_DIGITS }
{
    i128::from(count) * number
}

// Whether a fraction is this whole number divided by this many.
fn is_quotient(fraction: &Frac, whole: i128, parts: u8) -> bool
    requires parts { parts ≤ MOST_MEMBERS }
    requires num { IsSmall fraction.now.num }
    requires den { fraction.now.den ≤ MOST_PRINTED_DENOMINATOR }
    requires whole { unsigned_abs whole ≤ (3 * MOST_MEMBERS + 1) * 10 ^ MOST_DIGITS }
    ensures { IsTrue result ↔ IsQuotient (fraction_of fraction.now) whole parts }
{
    fraction.num * i128::from(parts) == whole * i128::from(fraction.den)
}

// A value less the least utility and a walk, each multiplied by a count.
fn less(worth: i128, least: i128, walk: i128) -> i128
    requires worth { unsigned_abs worth ≤ MOST_MEMBERS * 10 ^ MOST_DIGITS }
    requires least { unsigned_abs least ≤ (MOST_MEMBERS + 1) * 10 ^ MOST_DIGITS }
    requires walk { unsigned_abs walk ≤ MOST_MEMBERS * 10 ^ MOST_DIGITS }
    ensures value { result ≡ worth -ℤ (least +ℤ walk) }
    ensures small { unsigned_abs result ≤ (3 * MOST_MEMBERS + 1) * 10 ^ MOST_DIGITS }
{
    worth - (least + walk)
}

// n times the price of a member's room.
fn part_of(case: &RentCase, rooms: &[u8], walks: &[i128], least: i128, member: usize) -> i128
    requires case { IsValidRentCase case.now }
    requires rooms { IsAssignment case.now rooms.now }
    requires walks { AreSmall walks.now }
    requires each { length walks.now ≡ room_count case.now }
    requires least { least ≡ least_in_parts case.now rooms.now walks.now }
    requires least_small { unsigned_abs least ≤ (MOST_MEMBERS + 1) * 10 ^ MOST_DIGITS }
    requires member { member < room_count case.now }
    ensures value { result ≡ price_in_parts case.now rooms.now walks.now member }
    ensures small { unsigned_abs result ≤ (3 * MOST_MEMBERS + 1) * 10 ^ MOST_DIGITS }
{
    let count = case.facts.members;
    let value = value_at(case, member, room_at(case, rooms, member));
    less(times(count, value), least, times(count, walks[member]))
}

// Whether the price of a member's room is that of the formula.
fn is_price(
    case: &RentCase,
    rooms: &[u8],
    walks: &[i128],
    prices: &[Frac],
    least: i128,
    member: usize,
) -> bool
    requires case { IsValidRentCase case.now }
    requires rooms { IsAssignment case.now rooms.now }
    requires walks { AreSmall walks.now }
    requires each { length walks.now ≡ room_count case.now }
    requires prices { AreShort prices.now }
    requires each_price { length prices.now ≡ room_count case.now }
    requires least { least ≡ least_in_parts case.now rooms.now walks.now }
    requires least_small { unsigned_abs least ≤ (MOST_MEMBERS + 1) * 10 ^ MOST_DIGITS }
    requires member { member < room_count case.now }
    ensures { IsTrue result
        ↔ IsQuotient
        (slice_index_or (map fraction_of prices.now) (slice_index rooms.now member - 1) (pos 0, 1))
        (price_in_parts case.now rooms.now walks.now member) (room_count case.now) }
{
    let part = part_of(case, rooms, walks, least, member);
    is_quotient(
        &prices[room_at(case, rooms, member) as usize - 1],
        part,
        case.facts.members,
    )
}

// Whether the prices by room are those of the formula.
pub(crate) fn are_prices(case: &RentCase, rooms: &[u8], walks: &[i128], prices: &[Frac]) -> bool
    requires case { IsValidRentCase case.now }
    requires rooms { IsAssignment case.now rooms.now }
    requires walks { AreSmall walks.now }
    requires each { length walks.now ≡ room_count case.now }
    requires prices { AreShort prices.now }
    requires each_price { length prices.now ≡ room_count case.now }
    ensures { IsTrue result
        ↔ AreMaximinPrices case.now rooms.now walks.now (map fraction_of prices.now) }
{
    let least = least_of(case, rooms, walks);
    for member in 0..usize::from(case.facts.members) {
        if !is_price(case, rooms, walks, prices, least, member) {
            return false;
        }
    }
    true
}
