// Weighted sums, and the most that free goods can add to one.
ghost use Rattle.std.specs.Prelude.{◌≡◌, ℕ, ◌+◌, ◌-◌, ◌*◌, ◌≤◌, ◌++◌, All, length, map};
ghost use Rattle.std.specs.List.{range_with_len};
ghost use Rattle.bid_rules.specs.Goods.{player_count};
ghost use Rattle.estate_bounds.specs.Sums.{free_top};
ghost use Rattle.estate_bounds.specs.Weighted.{most_weighted, weighted_sum};
ghost use Rattle.nash_bounds.specs.Lanes.{IsLaneRow, IsLaneTable, IsLanes};
ghost use Rattle.nash_bounds.specs.Prefixes.{free_goods};

use crate::limits::{FREE_ROOM, MOST_TERM, Shares};
use arrayvec::ArrayVec;
use bid_rules::GoodsCase;
use bid_rules::limits::{ITEM_ROOM, MEMBER_ROOM};
use nash_bounds::{LaneRow, LaneTable, Lanes};

// The weight times the points.
fn term(weight: u16, points: u16) -> u64
    ensures value { result ≡ weight * points }
    ensures small { result ≤ MOST_TERM }
{
    u64::from(weight) * u64::from(points)
}

// The sum of the players' utilities, each times the player's weight.
pub(crate) fn weighted_sum(case: &GoodsCase, owners: &[u8], lanes: &Lanes, weights: &[u16]) -> u64
    requires lanes { IsLanes case.now owners.now lanes.now }
    requires each { length weights.now ≡ player_count case.now }
    requires few { player_count case.now ≤ MEMBER_ROOM }
    ensures value { result ≡ weighted_sum case.now weights.now owners.now }
    ensures small { result ≤ MOST_TERM * MEMBER_ROOM }
{
    let low = lanes.low.as_array();
    let mut sum = 0;
    for k in 0..weights.len() {
        sum += term(weights[k], low[k]);
    }
    sum
}

// The most that the good of this row can add to a weighted sum.
fn most_weighted(case: &GoodsCase, row: &LaneRow, weights: &[u16]) -> u64
    requires each { length weights.now ≡ player_count case.now }
    requires few { player_count case.now ≤ MEMBER_ROOM }
    ensures value { (good : ℕ) → IsLaneRow case.now good row.now
        → result ≡ most_weighted case.now weights.now good }
    ensures small { result ≤ MOST_TERM }
{
    let points = row.points.as_array();
    let mut most = 0;
    for k in 0..weights.len() {
        most = term(weights[k], points[k]).max(most);
    }
    most
}

// For each number of free goods, the most that these can add to a weighted sum.
pub(crate) fn tops_of(
    case: &GoodsCase,
    table: &LaneTable,
    weights: &[u16],
) -> ArrayVec<u64, FREE_ROOM>
    requires table { IsLaneTable case.now table.now }
    requires each { length weights.now ≡ player_count case.now }
    ensures value { result.items
        ≡ map (free_top case.now weights.now) (range_with_len 0 (case.now.facts.goods + 1)) }
    ensures small { All (λ top. top ≤ MOST_TERM * ITEM_ROOM) result.items }
{
    let goods = table.rows.len();
    let mut top = 0;
    let mut tops = ArrayVec::new();
    tops.push(top);
    for free in 0..goods {
        top += most_weighted(case, &table.rows[goods - 1 - free], weights);
        tops.push(top);
    }
    tops
}

// The list, and then for each free good the most that it can add to a weighted sum.
pub(crate) fn with_free_goods(
    case: &GoodsCase,
    table: &LaneTable,
    owners: &[u8],
    weights: &[u16],
    list: Shares,
) -> Shares
    requires table { IsLaneTable case.now table.now }
    requires each { length weights.now ≡ player_count case.now }
    requires room { length list.items + length (free_goods case.now owners.now)
        ≤ MEMBER_ROOM }
    ensures { result.items
        ≡ list.items
        ++ map (most_weighted case.now weights.now) (free_goods case.now owners.now) }
{
    let mut longer = list;
    for place in owners.len()..table.rows.len() {
        longer.push(most_weighted(case, &table.rows[place], weights));
    }
    longer
}
