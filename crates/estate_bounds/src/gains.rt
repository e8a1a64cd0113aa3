// What is left of the logarithm of a player's points after the player pays a rate for each of them and a fee for each good.
ghost use Rattle.std.specs.Prelude.{◌≡◌, ℕ, List, ◌+◌, ◌-◌, ◌*◌, ◌^◌, ◌≤◌, [], ◌∷◌, All, fold, length, map, max, min, slice_index};
ghost use Rattle.std.specs.List.{range_with_len};
ghost use Rattle.bid_rules.specs.declared.goods.GoodsCase.{GoodsCase};
ghost use Rattle.bid_rules.specs.Goods.{player_count, points};
ghost use Rattle.estate_bounds.specs.Prices.{AreLogs, IsListOf, gain, most_points, reserve};
ghost use Rattle.nash_bounds.specs.Lanes.{IsLaneTable, IsLanes};
ghost use Rattle.nash_bounds.specs.Prefixes.{free_goods};

use crate::limits::{FREE_ROOM, LOG_ROOM, MOST_LOG, MOST_PRICE, PRICE_PARTS};
use crate::logs::Logs;
use arrayvec::ArrayVec;
use bid_rules::GoodsCase;
use bid_rules::limits::{ITEM_ROOM, MEMBER_ROOM, WHOLE_POINTS};
use nash_bounds::{LaneTable, Lanes};

// A number for each number of points.
type Reserves = ArrayVec<u64, LOG_ROOM>;
// A number of points for each number of goods.
type Counted = ArrayVec<u64, FREE_ROOM>;

// What is left of the logarithm after the price is paid so often.
fn left_over(log: u64, price: u32, times: u64) -> u64
    requires times { times ≤ LOG_ROOM }
    ensures value { result ≡ log - price * PRICE_PARTS * times }
    ensures small { result ≤ log }
{
    log.saturating_sub(u64::from(price) * PRICE_PARTS * times)
}

// For each number of points, the most that is left of the logarithm of up to so many of them after the rate is paid for each.
fn reserves(logs: &Logs, rate: u32) -> Reserves
    requires logs { AreLogs logs.now }
    requires rate { rate ≤ MOST_PRICE }
    ensures value { IsListOf (reserve rate) LOG_ROOM result.items }
    ensures small { All (λ most. most ≤ MOST_LOG) result.items }
{
    let mut most = 0;
    let mut list = ArrayVec::new();
    list.push(most);
    for number in 1..LOG_ROOM {
        most = left_over(logs.up[number], rate, number as u64).max(most);
        list.push(most);
    }
    list
}

// No points, for each number of goods.
fn no_points() -> Counted
    ensures value { (case : GoodsCase) (player : ℕ)
        → IsListOf (λ count. most_points case player count []) FREE_ROOM result.items }
    ensures small { All (λ most. most ≤ 0) result.items }
{
    let mut list = ArrayVec::new();
    for _count in 0..FREE_ROOM {
        list.push(0);
    }
    list
}

// The same with one more good, to which the player gives these points.
fn with_good(worth: u16, mosts: &[u64]) -> Counted
    requires long { length mosts.now ≡ FREE_ROOM }
    requires small { All (λ most. most ≤ 2 ^ 32) mosts.now }
    ensures value { (case : GoodsCase) (player good : ℕ) (goods : List ℕ)
        → worth ≡ points case player good
        → IsListOf (λ count. most_points case player count goods) FREE_ROOM mosts.now
        → IsListOf (λ count. most_points case player count (good ∷ goods)) FREE_ROOM
        result.items }
    ensures small { (most : ℕ) → All (λ n. n ≤ most) mosts.now
        → All (λ n. n ≤ most + 2 ^ 16) result.items }
{
    let mut list = ArrayVec::new();
    list.push(0);
    for count in 1..FREE_ROOM {
        list.push((u64::from(worth) + mosts[count - 1]).max(mosts[count]));
    }
    list
}

// For each number of goods, the most points that so many of the free goods can give the player.
fn most_points(case: &GoodsCase, table: &LaneTable, owners: &[u8], player: u8) -> Counted
    requires table { IsLaneTable case.now table.now }
    requires short { length owners.now ≤ case.now.facts.goods }
    requires low { 1 ≤ player }
    requires high { player ≤ player_count case.now }
    ensures value { IsListOf
        (λ count. most_points case.now player count (free_goods case.now owners.now)) FREE_ROOM
        result.items }
    ensures small { All (λ most. most ≤ 2 ^ 16 * ITEM_ROOM) result.items }
{
    let goods = table.rows.len();
    let mut mosts = no_points();
    for free in 0..goods - owners.len() {
        let row = &table.rows[goods - 1 - free];
        let worth = row.points.as_array()[usize::from(player) - 1];
        mosts = with_good(worth, mosts.as_slice());
    }
    mosts
}

// The most that is left, whatever number of goods the player gets and pays the fee for.
fn most_left(reserves: &[u64], mosts: &[u64], low: u16, fee: u32, most_goods: usize) -> u64
    requires reserves { length reserves.now ≡ LOG_ROOM }
    requires mosts { length mosts.now ≡ FREE_ROOM }
    requires goods { most_goods ≤ ITEM_ROOM }
    requires small { All (λ most. most ≤ 2 ^ 16 * ITEM_ROOM) mosts.now }
    requires logs { All (λ most. most ≤ MOST_LOG) reserves.now }
    ensures value { result
        ≡ fold max 0
        (map
        (λ count.
        slice_index reserves.now (min (low + slice_index mosts.now count) WHOLE_POINTS)
        - fee * PRICE_PARTS * count)
        (range_with_len 0 (most_goods + 1))) }
    ensures small { result ≤ MOST_LOG }
{
    let mut most = 0;
    for count in 0..most_goods + 1 {
        let points = (u64::from(low) + mosts[count]).min(u64::from(WHOLE_POINTS));
        most = left_over(reserves[points as usize], fee, count as u64).max(most);
    }
    most
}

// The most that is left of the logarithm of the player's points.
pub(crate) fn gain(
    case: &GoodsCase,
    table: &LaneTable,
    logs: &Logs,
    owners: &[u8],
    lanes: &Lanes,
    rate: u32,
    fee: u32,
    player: u8,
) -> u64
    requires table { IsLaneTable case.now table.now }
    requires logs { AreLogs logs.now }
    requires lanes { IsLanes case.now owners.now lanes.now }
    requires short { length owners.now ≤ case.now.facts.goods }
    requires rate { rate ≤ MOST_PRICE }
    requires low { 1 ≤ player }
    requires high { player ≤ player_count case.now }
    ensures value { result ≡ gain case.now owners.now rate fee player }
    ensures small { result ≤ MOST_LOG }
{
    let reserves = reserves(logs, rate);
    let mosts = most_points(case, table, owners, player);
    let low = lanes.low.as_array()[usize::from(player) - 1];
    most_left(
        reserves.as_slice(),
        mosts.as_slice(),
        low,
        fee,
        table.rows.len(),
    )
}
