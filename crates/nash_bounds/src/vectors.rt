// Vectors with a lane for each player: sums, counts and products of their lanes.
ghost use Rattle.std.specs.Prelude.{◌≡◌, ℕ, ◌<◌, ◌≤◌, ◌-◌, ◌^◌, length, map, max, slice_index, sum, All};
ghost use Rattle.bid_rules.specs.Pairs.{positives, product};
ghost use Rattle.nash_bounds.specs.Reach.{entries_at};

use crate::limits::{HALF_ROOM, LANES};
use bid_rules::limits::{MEMBER_ROOM, WHOLE_POINTS};
use std::simd::prelude::*;

// The number of a player's lane.
pub(crate) fn lane_of(numbers: &u16x16, player: u8) -> u32
    requires long { length numbers.now ≡ LANES }
    requires low { 1 ≤ player }
    requires high { player ≤ LANES }
    ensures { result ≡ slice_index numbers.now (player - 1) }
{
    u32::from(numbers.as_array()[player as usize - 1])
}

// The entries at a level.
pub(crate) fn entries_of(low: u16x16, high: u16x16, level: u32) -> u16x16
    requires lows { length low ≡ LANES }
    requires highs { length high ≡ LANES }
    requires level { level < 2 ^ 16 }
    ensures { result ≡ entries_at level low high }
{
    high.simd_min(u16x16::splat(level as u16)).simd_max(low)
}

// The sum of the lanes.
pub(crate) fn total(numbers: u16x16) -> u32
    requires { sum numbers < 2 ^ 16 }
    ensures { result ≡ sum numbers }
{
    u32::from(numbers.strict_reduce_sum())
}

// How many of the lanes are positive.
pub(crate) fn count_positive(numbers: u16x16) -> u8
    requires { length numbers ≡ LANES }
    ensures value { result ≡ positives numbers }
    ensures few { result ≤ LANES }
{
    total(numbers.simd_min(u16x16::splat(1))) as u8
}

// The numbers, each at least 1.
fn raised(numbers: u16x16) -> u16x16
    requires { length numbers ≡ LANES }
    ensures { result ≡ map (λ number. max number 1) numbers }
{
    numbers.simd_max(u16x16::splat(1))
}

// The product of at most half as many numbers as there is room for players.
fn half_product(numbers: &[u16]) -> u64
    requires short { length numbers.now ≤ HALF_ROOM }
    requires some { All (λ number. 1 ≤ number) numbers.now }
    requires small { All (λ number. number ≤ WHOLE_POINTS) numbers.now }
    ensures value { result ≡ product numbers.now }
    ensures small { result ≤ WHOLE_POINTS ^ HALF_ROOM }
{
    let mut product: u64 = 1;
    for number in numbers {
        product *= u64::from(*number);
    }
    product
}

// The product of the positive numbers, of which there is one for each player, and 0 in the other lanes.
//
// Each half of the players' numbers has a product that fits in 64 bits.
pub(crate) fn product_of(numbers: u16x16) -> u128
    requires long { length numbers ≡ LANES }
    requires small { All (λ number. number ≤ WHOLE_POINTS) numbers }
    requires rest { (k : ℕ) → MEMBER_ROOM ≤ k → slice_index numbers k ≡ 0 }
    ensures { result ≡ product numbers }
{
    let raised = raised(numbers);
    let (first, others) = raised.as_array().split_at(HALF_ROOM);
    u128::from(half_product(first)) * u128::from(half_product(&others[..HALF_ROOM]))
}
