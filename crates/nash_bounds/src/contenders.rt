// Finds the players who could take the next good and still reach a goal, for all players at once.
ghost use Rattle.std.specs.Prelude.{◌≡◌, ◌≤◌, ◌<◌, ◌+◌, ◌-◌, ◌*◌, ◌^◌, ◌⊎◌, ℕ, length, slice_index, min, max, cond, nat_le};
ghost use Rattle.nash_bounds.specs.FarLanes.{FallsShort, IsNoMore, lane_bit};
ghost use Rattle.nash_bounds.specs.Goals.{AreContenders, IsGoal, is_contender};
ghost use Rattle.nash_bounds.specs.Lanes.{HasFreeGood, IsFork, IsLaneTable};
ghost use Rattle.nash_bounds.specs.Levels.{entry_at};
ghost use Rattle.nash_bounds.specs.Reach.{IsFlat};
ghost use Rattle.nash_bounds.specs.declared.limits.TheConstants.{SHARES};

use crate::goals::Goal;
use crate::lanes::{LaneTable, Lanes};
use crate::limits::{ALL_LANES, LANES, SHARES};
use crate::reach::{Flat, flat_of};
use crate::vectors::entries_of;
use bid_rules::GoodsCase;
use bid_rules::limits::WHOLE_POINTS;
use std::simd::prelude::*;

/// Who could reach a goal with the next good.
#[derive(Clone, Copy, Default)]
pub struct Contenders {
    /// Bit k is set if player k + 1 could.
    pub owners: u64,
    /// For each lane, how many points of the top the entries at the level leave over if the lane's player gets the good.
    pub over: u16x16,
    /// A level at which the lanes without the good fit.
    pub level: u32,
    /// Roughly how many lanes rise there.
    pub rising: u32,
}

impl Contenders {
    /// Whether the owner could reach the goal with the next good.
    pub fn has(&self, owner: u8) -> bool
        requires low { 1 ≤ owner }
        requires high { owner ≤ LANES }
        ensures { result ≡ is_contender self.now owner }
    {
        (self.owners >> (owner - 1)) & 1 == 1
    }

    /// Roughly the level of the bound with the good given to the owner.
    pub fn level_of(&self, owner: u8) -> u32
        requires low { 1 ≤ owner }
        requires high { owner ≤ LANES }
    {
        let rise = u32::from(self.over[owner as usize - 1]) / self.rising.max(2);
        self.level.saturating_add(rise)
    }
}

// For each lane, the entry at the level with the lane's points.
fn entries_with(low: u16x16, high: u16x16, points: u16x16, level: u32) -> u16x16
    requires lows { length low ≡ LANES }
    requires highs { length high ≡ LANES }
    requires points { length points ≡ LANES }
    requires order { (k : ℕ) → k < LANES → slice_index low k ≤ slice_index high k }
    requires fits { (k : ℕ) → k < LANES → slice_index high k + slice_index points k ≤ WHOLE_POINTS }
    requires level { level ≤ WHOLE_POINTS }
    ensures each { (k : ℕ) → k < LANES
        → slice_index result k
        ≡ entry_at level (slice_index low k + slice_index points k)
        (slice_index high k + slice_index points k) }
    ensures long { length result ≡ LANES }
{
    let low = low.strict_add(points);
    let high = high.strict_add(points);
    entries_of(low, high, level)
}

// The number and the lane's, lane by lane.
fn sum_with(number: u32, numbers: u16x16) -> u16x16
    requires numbers { length numbers ≡ LANES }
    requires small { number < 2 ^ 16 }
    requires fits { (k : ℕ) → k < LANES → number + slice_index numbers k < 2 ^ 16 }
    ensures each { (k : ℕ) → k < LANES → slice_index result k ≡ number + slice_index numbers k }
    ensures long { length result ≡ LANES }
{
    u16x16::splat(number as u16).strict_add(numbers)
}

// The number less the lane's, lane by lane.
fn rest_of(number: u32, numbers: u16x16) -> u16x16
    requires numbers { length numbers ≡ LANES }
    requires small { number < 2 ^ 16 }
    requires less { (k : ℕ) → k < LANES → slice_index numbers k ≤ number }
    ensures each { (k : ℕ) → k < LANES → slice_index result k ≡ number - slice_index numbers k }
    ensures long { length result ≡ LANES }
{
    u16x16::splat(number as u16).strict_sub(numbers)
}

// For each lane, what is left over if the lane has its points to spare too, and the entry `after` replaces the entry `before`.
fn left_over(spare: u32, points: u16x16, before: u16x16, after: u16x16) -> u16x16
    requires points { length points ≡ LANES }
    requires befores { length before ≡ LANES }
    requires afters { length after ≡ LANES }
    requires small { spare < 2 ^ 16 }
    requires fits { (k : ℕ) → k < LANES
        → spare + slice_index points k + slice_index before k < 2 ^ 16 }
    requires less { (k : ℕ) → k < LANES
        → slice_index after k ≤ spare + slice_index points k + slice_index before k }
    ensures each { (k : ℕ) → k < LANES
        → slice_index result k
        ≡ spare + slice_index points k + slice_index before k - slice_index after k }
    ensures long { length result ≡ LANES }
{
    sum_with(spare, points).strict_add(before).strict_sub(after)
}

// The numbers in wider lanes.
fn widened(numbers: u16x16) -> u32x16
    requires { length numbers ≡ LANES }
    ensures each { (k : ℕ) → k < LANES → slice_index result k ≡ slice_index numbers k }
    ensures long { length result ≡ LANES }
{
    numbers.cast::<u32>()
}

// For each lane, the entry's factor in a product.
fn factors(entries: u16x16) -> u32x16
    requires { length entries ≡ LANES }
    ensures each { (k : ℕ) → k < LANES → slice_index result k ≡ max (slice_index entries k) 1 }
    ensures long { length result ≡ LANES }
{
    widened(entries.simd_max(u16x16::splat(1)))
}

// For each lane, the entry's factor times the number and the shares.
fn weighed(entries: u16x16, numbers: u16x16, shares: u32) -> u32x16
    requires entries { length entries ≡ LANES }
    requires numbers { length numbers ≡ LANES }
    requires small { (k : ℕ) → k < LANES → slice_index entries k ≤ WHOLE_POINTS }
    requires numbers_small { (k : ℕ) → k < LANES → slice_index numbers k ≤ 4 * WHOLE_POINTS }
    requires shares { shares ≤ SHARES }
    ensures each { (k : ℕ) → k < LANES
        → slice_index result k ≡ max (slice_index entries k) 1 * slice_index numbers k * shares }
    ensures long { length result ≡ LANES }
{
    factors(entries)
        .strict_mul(widened(numbers))
        .strict_mul(u32x16::splat(shares))
}

// Bit k is set if lane k of the first is at least that of the second.
fn at_least(first: u32x16, second: u32x16) -> u64
    requires first { length first ≡ LANES }
    requires second { length second ≡ LANES }
    ensures { (k : ℕ) → k < LANES
        → lane_bit result k ≡ cond (nat_le (slice_index second k) (slice_index first k)) 1 0 }
{
    first.simd_ge(second).to_bitmask()
}

// For each lane, the lower of the number and the limit.
fn limited(numbers: u16x16, limit: u32) -> u16x16
    requires numbers { length numbers ≡ LANES }
    requires limit { limit < 2 ^ 16 }
    ensures each { (k : ℕ) → k < LANES → slice_index result k ≡ min (slice_index numbers k) limit }
    ensures long { length result ≡ LANES }
{
    numbers.simd_min(u16x16::splat(limit as u16))
}

// Bit k is clear only if, with the entry `after` in place of the entry `before`, the product falls short of these shares.
fn reaching(before: u16x16, after: u16x16, over: u16x16, level: u32, shares: u32) -> u64
    requires befores { length before ≡ LANES }
    requires afters { length after ≡ LANES }
    requires overs { length over ≡ LANES }
    requires before { (k : ℕ) → k < LANES → slice_index before k ≤ WHOLE_POINTS }
    requires after { (k : ℕ) → k < LANES → slice_index after k ≤ WHOLE_POINTS }
    requires level { level ≤ WHOLE_POINTS }
    requires shares { shares ≤ SHARES }
    ensures { (k : ℕ) → k < LANES → lane_bit result k ≡ 0
        → FallsShort level (slice_index before k) (slice_index after k) (slice_index over k)
        shares }
{
    let twice = 2 * level;
    let few = limited(over, twice);
    let rises = weighed(after, sum_with(twice, few), shares);
    let stays = weighed(before, rest_of(twice, few), SHARES);
    at_least(rises, stays)
}

// Bit k is set if lane k has points with the good, and none without.
fn opened(high: u16x16, points: u16x16) -> u64
    requires highs { length high ≡ LANES }
    requires points { length points ≡ LANES }
    ensures { (k : ℕ) → k < LANES
        → lane_bit result k
        ≡ min (slice_index high k + slice_index points k) 1 - min (slice_index high k) 1 }
{
    high.simd_lt(points.simd_min(u16x16::splat(1))).to_bitmask()
}

// A number of shares of the goal's product that together exceed this product, or else all of the shares.
fn shares_of(product: u128, goal: &Goal) -> u32
    requires { IsGoal goal.now }
    ensures few { result ≤ SHARES }
    ensures above { (result ≡ SHARES) ⊎ (product * SHARES < result * goal.now.pair.product) }
{
    if goal.units == 0 {
        return SHARES;
    }
    let shares = goal.units_above(product) * u64::from(SHARES) / goal.units + 1;
    shares.min(u64::from(SHARES)) as u32
}

// Says which lanes could reach the goal. Bit k is clear only if lane k leaves too few lanes open for the goal's count, or just enough of them
// but falls short of its product.
fn among(open_lanes: u8, count: u8, reaching: u64, opened: u64) -> u64
    ensures { (k : ℕ) → k < LANES → lane_bit result k ≡ 0
        → IsNoMore (open_lanes + lane_bit opened k) count (lane_bit reaching k) }
{
    if open_lanes > count {
        ALL_LANES
    } else if open_lanes == count {
        reaching | opened
    } else if count - open_lanes == 1 {
        reaching & opened
    } else {
        0
    }
}

// The same, from the lanes at a level.
#[inline(always)]
fn contenders_at(
    case: &GoodsCase,
    table: &LaneTable,
    owners: &[u8],
    lanes: &Lanes,
    flat: &Flat,
    goal: &Goal,
) -> Contenders
    requires table { IsLaneTable case.now table.now }
    requires open { HasFreeGood case.now owners.now }
    requires lanes { IsFork case.now owners.now lanes.now }
    requires flat { IsFlat lanes.now flat.now }
    requires goal { IsGoal goal.now }
    ensures { AreContenders case.now owners.now goal.now.pair result }
{
    let points = table.rows[owners.len()].points;
    let after = entries_with(lanes.low, lanes.high, points, flat.level);
    let over = left_over(flat.spare, points, flat.entries, after);
    let shares = shares_of(flat.product, goal);
    let reaching = reaching(flat.entries, after, over, flat.level, shares);
    let opened = opened(lanes.high, points);
    Contenders {
        owners: among(flat.open_lanes, goal.pair.count, reaching, opened),
        over,
        level: flat.level,
        rising: flat.rising,
    }
}

/// Who could reach the goal with the next good: if a player is left out, the bound with the good given to them is below the goal's pair. This
/// is quickest if `start` is near the level of the owners' bound.
#[inline(always)]
pub fn contenders_of(
    case: &GoodsCase,
    table: &LaneTable,
    owners: &[u8],
    lanes: &Lanes,
    start: u32,
    goal: &Goal,
) -> Contenders
    requires table { IsLaneTable case.now table.now }
    requires open { HasFreeGood case.now owners.now }
    requires lanes { IsFork case.now owners.now lanes.now }
    requires goal { IsGoal goal.now }
    ensures { AreContenders case.now owners.now goal.now.pair result }
{
    let flat = flat_of(case, table, owners, lanes, start);
    contenders_at(case, table, owners, lanes, &flat, goal)
}
