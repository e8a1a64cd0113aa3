// The plain bound, counted in units.
ghost use Rattle.std.specs.Prelude.{◌≡◌, ℕ, ◌/◌, ◌<◌, ◌≤◌, ◌&&◌, ◌||◌, length, map};
ghost use Rattle.std.specs.List.{range_with_len};
ghost use Rattle.bid_rules.specs.Goods.{IsAllocation, IsValidGoodsCase, player_count, utilities};
ghost use Rattle.bid_rules.specs.Pairs.{is_less};
ghost use Rattle.estate_bounds.specs.Units.{IsCommonDivisor, IsUnit, in_units, unit_bound, unit_pair, units_close};
ghost use Rattle.nash_bounds.specs.Lanes.{IsLanes, by_lane};
ghost use Rattle.nash_bounds.specs.LeftOut.{is_after, is_same};
ghost use Rattle.nash_bounds.specs.Prefixes.{HasBound, highest, top_of};

use arrayvec::ArrayVec;
use best_laws::players_law;
use bid_rules::limits::{MEMBER_ROOM, WHOLE_POINTS};
use bid_rules::{GoodsCase, Pair};
use nash_bounds::{Lanes, Prefix, bound, players, search_order_law};
use split_frac::gcd;
use std::simd::prelude::*;

/// The unit of a case, and an answer's pair counted in it.
#[derive(Clone, Copy)]
pub struct Units {
    /// The greatest number that divides all points.
    pub unit: u32,
    /// The answer's pair, counted in units.
    pub goal: Pair,
}

// The greatest common divisor of the first number and all others.
fn common_divisor(first: u64, numbers: &[u32]) -> u64
    requires { 0 < first }
    ensures divisor { IsCommonDivisor first numbers.now result }
    ensures some { 0 < result }
{
    let mut divisor = first;
    for number in numbers {
        divisor = gcd(u128::from(*number), divisor);
    }
    divisor
}

/// The greatest number that divides the points of all players for all goods.
pub fn unit_of(case: &GoodsCase) -> u32
    requires { IsValidGoodsCase case.now }
    ensures { IsUnit case.now result }
{
    let mut unit = u64::from(WHOLE_POINTS);
    for k in 0..case.values.len() {
        unit = common_divisor(unit, case.values[k].as_slice());
    }
    unit as u32
}

// The players' numbers in units.
fn in_units(case: &GoodsCase, numbers: u16x16, unit: u32) -> ArrayVec<u32, MEMBER_ROOM>
    requires few { player_count case.now ≤ MEMBER_ROOM }
    requires some { 0 < unit }
    ensures { (f : ℕ → ℕ) → numbers ≡ by_lane f
        → result.items ≡ in_units unit (map f (range_with_len 1 (player_count case.now))) }
{
    let lanes = numbers.as_array();
    let mut list = ArrayVec::new();
    for k in 0..usize::from(players(case)) {
        list.push(u32::from(lanes[k]) / unit);
    }
    list
}

// What the players have under some owners, and may have, in units.
fn prefix_in_units(case: &GoodsCase, unit: u32, owners: &[u8], lanes: &Lanes) -> Prefix
    requires case { IsValidGoodsCase case.now }
    requires unit { IsUnit case.now unit }
    requires lanes { IsLanes case.now owners.now lanes.now }
    ensures low { result.low.items ≡ in_units unit (utilities case.now owners.now) }
    ensures high { result.high.items ≡ in_units unit (highest case.now owners.now) }
    ensures top { result.top ≡ top_of case.now owners.now / unit }
    ensures bound { HasBound result }
{
    players_law();
    search_order_law();
    Prefix {
        owners: ArrayVec::new(),
        low: in_units(case, lanes.low, unit),
        high: in_units(case, lanes.high, unit),
        top: lanes.top / unit,
    }
}

// Whether the bound is below the goal, or equals it and that is enough.
fn stays_below(bound: Pair, goal: Pair, equal: bool) -> bool
    ensures { result ≡ (is_less bound goal || (is_same bound goal && equal)) }
{
    if equal { bound <= goal } else { bound < goal }
}

impl Units {
    /// The unit, and the answer's pair in it.
    pub fn new(case: &GoodsCase, unit: u32, answer: &[u8], lanes: &Lanes) -> Units
        requires case { IsValidGoodsCase case.now }
        requires unit { IsUnit case.now unit }
        requires answer { IsAllocation case.now answer.now }
        requires lanes { IsLanes case.now answer.now lanes.now }
        ensures unit { result.unit ≡ unit }
        ensures goal { result.goal ≡ unit_pair case.now unit answer.now }
    {
        let goal = bound(&prefix_in_units(case, unit, answer, lanes));
        Units { unit, goal }
    }

    /// Whether the owners' bound in units lets them be left out. `after` says whether they come after the answer's first
    /// owners.
    pub fn close(
        &self,
        case: &GoodsCase,
        answer: &[u8],
        owners: &[u8],
        lanes: &Lanes,
        after: bool,
    ) -> bool
        requires case { IsValidGoodsCase case.now }
        requires unit { IsUnit case.now self.now.unit }
        requires goal { self.now.goal ≡ unit_pair case.now self.now.unit answer.now }
        requires lanes { IsLanes case.now owners.now lanes.now }
        requires after { after ≡ is_after answer.now owners.now }
        ensures { result ≡ units_close case.now self.now.unit answer.now owners.now }
    {
        let bound = bound(&prefix_in_units(case, self.unit, owners, lanes));
        stays_below(bound, self.goal, after)
    }
}
