// What bounds are computed from: what each player has by a prefix and may have, in a vector with one lane for each player.
ghost use Rattle.std.specs.Prelude.{◌≡◌, ℕ, List, ◌+◌, ◌-◌, ◌<◌, ◌≤◌, ◌^◌, [], ◌∷◌, ◌++◌, length, All, slice_index, slice_set};
ghost use Rattle.bid_rules.specs.declared.goods.GoodsCase.{GoodsCase};
ghost use Rattle.bid_rules.specs.Goods.{IsValidGoodsCase, player_count, points, order_of};
ghost use Rattle.nash_bounds.specs.Lanes.{IsLaneRow, IsLaneTable, IsLanes, IsFork, HasFreeGood, next_good};
ghost use Rattle.nash_bounds.specs.Prefixes.{IsPrefix};
ghost use Rattle.nash_bounds.specs.Tables.{IsPointRow, IsTable};

use crate::limits::{LANES, MOST_TOP};
use crate::prefix::Prefix;
use crate::table::{PointRow, PointTable};
use crate::vectors::lane_of;
use arrayvec::ArrayVec;
use bid_rules::GoodsCase;
use bid_rules::limits::{ITEM_ROOM, MEMBER_ROOM, WHOLE_POINTS};
use std::simd::prelude::*;

/// How many points the players give one good, by lane.
#[derive(Clone, Copy, Default)]
pub struct LaneRow {
    /// For each lane, its player's points for the good.
    pub points: u16x16,
    /// The greatest of these.
    pub greatest: u32,
}

/// How many points the players give each good, by its place in the search order.
#[derive(Drop)]
pub struct LaneTable {
    /// For each place in the search order, what the players give the good there.
    pub rows: ArrayVec<LaneRow, ITEM_ROOM>,
}

/// What each player has under the owners of the first few goods, and may have with the other goods.
#[derive(Clone, Copy, Default)]
pub struct Lanes {
    /// For each lane, the points that its player has so far.
    pub low: u16x16,
    /// For each lane, the points that its player would have with all free goods.
    pub high: u16x16,
    /// The sum of `low` and, for each free good, the greatest points that any player gives it.
    pub top: u32,
}

// The numbers less the points, lane by lane.
fn less(numbers: u16x16, points: u16x16) -> u16x16
    requires long { length numbers ≡ LANES }
    requires points { length points ≡ LANES }
    requires each { (k : ℕ) → k < LANES → slice_index points k ≤ slice_index numbers k }
    ensures each { (k : ℕ) → k < LANES
        → slice_index result k ≡ slice_index numbers k - slice_index points k }
    ensures long { length result ≡ LANES }
{
    numbers.strict_sub(points)
}

// The numbers and the points, lane by lane.
fn more(numbers: u16x16, points: u16x16) -> u16x16
    requires long { length numbers ≡ LANES }
    requires points { length points ≡ LANES }
    requires each { (k : ℕ) → k < LANES → slice_index numbers k + slice_index points k < 2 ^ 16 }
    ensures each { (k : ℕ) → k < LANES
        → slice_index result k ≡ slice_index numbers k + slice_index points k }
    ensures long { length result ≡ LANES }
{
    numbers.strict_add(points)
}

/// Takes the next good out of what the players may have.
pub fn fork(case: &GoodsCase, table: &LaneTable, owners: &[u8], lanes: &mut Lanes)
    requires table { IsLaneTable case.now table.now }
    requires open { HasFreeGood case.now owners.now }
    requires lanes { IsLanes case.now owners.now lanes.old }
    ensures { IsFork case.now owners.now lanes.new }
{
    let row = &table.rows[owners.len()];
    lanes.high = less(lanes.high, row.points);
    lanes.top -= row.greatest;
}

/// Puts the next good back, which leaves things as they were before `fork`.
pub fn join(case: &GoodsCase, table: &LaneTable, owners: &[u8], lanes: &mut Lanes)
    requires table { IsLaneTable case.now table.now }
    requires open { HasFreeGood case.now owners.now }
    requires lanes { IsFork case.now owners.now lanes.old }
    ensures { IsLanes case.now owners.now lanes.new }
{
    let row = &table.rows[owners.len()];
    lanes.high = more(lanes.high, row.points);
    lanes.top = raised(lanes.top, row.greatest);
}

// A function of its own, so that the range of the sum is shown just once for all lanes.
fn raised(top: u32, points: u32) -> u32
    requires { top + points ≤ MOST_TOP }
    ensures { result ≡ top + points }
{
    top + points
}

// How many points the owner gives the next good.
fn points_of(case: &GoodsCase, table: &LaneTable, owners: &[u8], owner: u8) -> u32
    requires table { IsLaneTable case.now table.now }
    requires open { HasFreeGood case.now owners.now }
    requires owner_low { 1 ≤ owner }
    requires owner_high { owner ≤ player_count case.now }
    ensures value { result ≡ points case.now owner (next_good case.now owners.now) }
{
    lane_of(&table.rows[owners.len()].points, owner)
}

// The numbers with the points added in one lane.
fn raised_lane(numbers: u16x16, owner: u8, points: u32) -> u16x16
    requires owner_low { 1 ≤ owner }
    requires owner_high { owner ≤ LANES }
    requires fits { slice_index numbers (owner - 1) + points < 2 ^ 16 }
    ensures { result ≡ slice_set numbers (owner - 1) (slice_index numbers (owner - 1) + points) }
{
    let mut lanes = numbers.to_array();
    lanes[owner as usize - 1] += points as u16;
    u16x16::from_array(lanes)
}

// The numbers with the points taken off in one lane.
fn lowered_lane(numbers: u16x16, owner: u8, points: u32) -> u16x16
    requires owner_low { 1 ≤ owner }
    requires owner_high { owner ≤ LANES }
    requires small { points < 2 ^ 16 }
    requires fits { points ≤ slice_index numbers (owner - 1) }
    ensures { result ≡ slice_set numbers (owner - 1) (slice_index numbers (owner - 1) - points) }
{
    let mut lanes = numbers.to_array();
    lanes[owner as usize - 1] -= points as u16;
    u16x16::from_array(lanes)
}

/// Gives the next good to the owner.
#[inline(always)]
pub fn give(case: &GoodsCase, table: &LaneTable, owners: &[u8], owner: u8, lanes: &mut Lanes)
    requires table { IsLaneTable case.now table.now }
    requires open { HasFreeGood case.now owners.now }
    requires owner_low { 1 ≤ owner }
    requires owner_high { owner ≤ player_count case.now }
    requires lanes { IsFork case.now owners.now lanes.old }
    ensures { IsLanes case.now (owners.now ++ owner ∷ []) lanes.new }
{
    let points = points_of(case, table, owners, owner);
    lanes.low = raised_lane(lanes.low, owner, points);
    lanes.high = raised_lane(lanes.high, owner, points);
    lanes.top += points;
}

/// Takes the next good back from the owner, which leaves things as they were before `give`.
pub fn take(case: &GoodsCase, table: &LaneTable, owners: &[u8], owner: u8, lanes: &mut Lanes)
    requires table { IsLaneTable case.now table.now }
    requires open { HasFreeGood case.now owners.now }
    requires owner_low { 1 ≤ owner }
    requires owner_high { owner ≤ player_count case.now }
    requires lanes { IsLanes case.now (owners.now ++ owner ∷ []) lanes.old }
    ensures { IsFork case.now owners.now lanes.new }
{
    let points = points_of(case, table, owners, owner);
    lanes.low = lowered_lane(lanes.low, owner, points);
    lanes.high = lowered_lane(lanes.high, owner, points);
    lanes.top -= points;
}

// The numbers, one a lane, and 0 in the other lanes.
pub(crate) fn laned(numbers: &[u32]) -> u16x16
    requires short { length numbers.now ≤ LANES }
    requires small { All (λ number. number ≤ WHOLE_POINTS) numbers.now }
    ensures each { (k : ℕ) → k < LANES → slice_index result k ≡ slice_index numbers.now k }
    ensures long { length result ≡ LANES }
{
    let mut lanes = [0; LANES];
    for k in 0..numbers.len() {
        lanes[k] = numbers[k] as u16;
    }
    u16x16::from_array(lanes)
}

/// The prefix in lanes.
pub fn lanes_of(case: &GoodsCase, prefix: &Prefix) -> Lanes
    requires case { IsValidGoodsCase case.now }
    requires few { player_count case.now ≤ MEMBER_ROOM }
    requires prefix { IsPrefix case.now prefix.now }
    ensures { IsLanes case.now prefix.now.owners.items result }
{
    Lanes {
        low: laned(prefix.low.as_slice()),
        high: laned(prefix.high.as_slice()),
        top: prefix.top,
    }
}

// The points of a good as one vector, so that a step of the search adds for all players at once.
fn lane_row(case: &GoodsCase, row: &PointRow, good: u8) -> LaneRow
    requires case { IsValidGoodsCase case.now }
    requires few { player_count case.now ≤ MEMBER_ROOM }
    requires row { IsPointRow case.now good row.now }
    ensures { IsLaneRow case.now good result }
{
    LaneRow {
        points: laned(row.points.as_slice()),
        greatest: row.greatest,
    }
}

/// How many players there are.
pub fn players(case: &GoodsCase) -> u8
    ensures value { result ≡ player_count case.now }
    ensures few { result ≤ MEMBER_ROOM }
{
    case.values.as_slice().len() as u8
}

/// What the players give each good, by lane, from the case's search order and table.
pub fn lane_table(case: &GoodsCase, order: &[u8], table: &PointTable) -> LaneTable
    requires case { IsValidGoodsCase case.now }
    requires few { player_count case.now ≤ MEMBER_ROOM }
    requires order { order.now ≡ order_of case.now }
    requires table { IsTable case.now table.now }
    ensures { IsLaneTable case.now result }
{
    let mut rows = ArrayVec::new();
    for k in 0..order.len() {
        rows.push(lane_row(case, &table.rows[k], order[k]));
    }
    LaneTable { rows }
}
