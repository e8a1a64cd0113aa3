// The test for a twin of a prefix.
ghost use Rattle.std.specs.Prelude.{◌≡◌, ℕ, ◌+◌, ◌-◌, ◌^◌, ◌<◌, ◌≤◌, ◌↔◌, IsTrue, false, length, slice_index, slice_set, true};
ghost use Rattle.std.specs.Cmp.Lexicographic.{slice_cmp};
ghost use Rattle.std.specs.Ordering.{nat_cmp};
ghost use Rattle.std.specs.declared.cmp.Ordering.TheVariants.{Less};
ghost use Rattle.bid_rules.specs.Goods.{AreOwners, IsAllocation, IsValidGoodsCase, player_count};
ghost use Rattle.prefix_trees.specs.Fronts.{IsFront};
ghost use Rattle.prefix_trees.specs.Ranks.{IsAlikeTable, number_of};
ghost use Rattle.prefix_trees.specs.Twins.{IsPlayer, IsTwin};
ghost use Rattle.bid_rules.specs.declared.limits.TheConstants.{MEMBER_ROOM};
ghost use Rattle.nash_bounds.specs.declared.limits.TheConstants.{LANES};
ghost use Rattle.nash_bounds.specs.Lanes.{IsLaneTable, IsLanes, by_lane, has};

use crate::alike::AlikePlayers;
use bid_rules::GoodsCase;
use nash_bounds::limits::LANES;
use nash_bounds::{
    LaneRow, LaneTable, Lanes, empty_prefix, fork, give, lanes_of, players, search_order_law,
};
use std::cmp::Ordering;
use std::simd::prelude::*;

/// What the players have and may have under these owners.
pub fn lanes_under(case: &GoodsCase, table: &LaneTable, owners: &[u8]) -> Lanes
    requires case { IsValidGoodsCase case.now }
    requires table { IsLaneTable case.now table.now }
    requires front { IsFront case.now owners.now }
    ensures { IsLanes case.now owners.now result }
{
    let mut lanes = lanes_of(case, &empty_prefix(case));
    for k in 0..owners.len() {
        fork(case, table, &owners[..k], &mut lanes);
        give(case, table, &owners[..k], owners[k], &mut lanes);
    }
    lanes
}

// Adds a good's points for its owner to what the players have.
fn add_points(sums: &mut [u16; LANES], row: &LaneRow, owner: u8)
    requires long { length row.now.points ≡ LANES }
    requires owner_low { 1 ≤ owner }
    requires owner_high { owner ≤ LANES }
    requires fits { slice_index sums.old (owner - 1) + slice_index row.now.points (owner - 1)
        < 2 ^ 16 }
    ensures { sums.new
        ≡ slice_set sums.old (owner - 1)
        (slice_index sums.old (owner - 1) + slice_index row.now.points (owner - 1)) }
{
    let lane = owner as usize - 1;
    sums[lane] += row.points.as_array()[lane];
}

// What the players have under these owners, one number a lane.
fn sums_under(case: &GoodsCase, table: &LaneTable, owners: &[u8]) -> [u16; LANES]
    requires case { IsValidGoodsCase case.now }
    requires table { IsLaneTable case.now table.now }
    requires short { length owners.now ≤ case.now.facts.goods }
    requires owned { AreOwners case.now owners.now }
    ensures { result ≡ by_lane (has case.now owners.now) }
{
    search_order_law();
    let mut sums = [0; LANES];
    for k in 0..owners.len() {
        add_points(&mut sums, &table.rows[k], owners[k]);
    }
    sums
}

// Whether each owner is one of the players.
fn are_owners(case: &GoodsCase, owners: &[u8]) -> bool
    ensures { IsTrue result ↔ AreOwners case.now owners.now }
{
    let players = players(case);
    owners.iter().all(|owner| *owner >= 1 && *owner <= players)
}

/// Whether each good has a player as its owner.
pub fn is_allocation(case: &GoodsCase, owners: &[u8]) -> bool
    ensures { IsTrue result ↔ IsAllocation case.now owners.now }
{
    owners.len() == usize::from(case.facts.goods) && are_owners(case, owners)
}

// Whether the first list comes before the second.
fn is_earlier(owners: &[u8], others: &[u8]) -> bool
    ensures { IsTrue result ↔ slice_cmp nat_cmp owners.now others.now ≡ Less }
{
    owners.cmp(others) == Ordering::Less
}

// Whether no player's number is greater in the first list than in the second.
fn nowhere_above(case: &GoodsCase, lows: &[u16; LANES], highs: &[u16; LANES]) -> bool
    requires { player_count case.now ≤ MEMBER_ROOM }
    ensures under { result ≡ true
        → (player : ℕ) → IsPlayer case.now player
        → number_of lows.now player ≤ number_of highs.now player }
    ensures above { result ≡ false
        → (player : ℕ) × IsPlayer case.now player
        × (number_of highs.now player < number_of lows.now player) }
{
    for player in 1..players(case) + 1 {
        let lane = player as usize - 1;
        if lows[lane] > highs[lane] {
            return false;
        }
    }
    true
}

/// Whether the first owners are a twin of the others, under whom the players have and may have this.
pub fn is_twin(
    case: &GoodsCase,
    table: &LaneTable,
    alike: &AlikePlayers,
    twin: &[u8],
    owners: &[u8],
    lanes: &Lanes,
) -> bool
    requires case { IsValidGoodsCase case.now }
    requires table { IsLaneTable case.now table.now }
    requires alike { IsAlikeTable case.now alike.now }
    requires front { IsFront case.now owners.now }
    requires lanes { IsLanes case.now owners.now lanes.now }
    ensures { IsTrue result ↔ IsTwin case.now twin.now owners.now }
{
    if twin.len() != owners.len() {
        return false;
    }
    if !are_owners(case, twin) {
        return false;
    }
    let ranks = alike.ranked(case, lanes.low.as_array());
    let twin_ranks = alike.ranked(case, &sums_under(case, table, twin));
    if !nowhere_above(case, &ranks, &twin_ranks) {
        return false;
    }
    if is_earlier(twin, owners) {
        return true;
    }
    !nowhere_above(case, &twin_ranks, &ranks)
}
