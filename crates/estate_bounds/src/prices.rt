// Prices that the players pay for points and goods, and whether they close a prefix.
ghost use Rattle.std.specs.Prelude.{◌≡◌, ℕ, ◌+◌, ◌*◌, ◌≤◌, All, length, map, sum};
ghost use Rattle.std.specs.List.{range_with_len, sum_by};
ghost use Rattle.bid_rules.specs.Goods.{player_count};
ghost use Rattle.estate_bounds.specs.Logs.{log_down};
ghost use Rattle.estate_bounds.specs.Prices.{AreLogs, ArePrices, IsPriced, free_price, gain, highest_price, price_top, prices_close};
ghost use Rattle.estate_bounds.specs.Weighted.{weight, weighted_sum};
ghost use Rattle.nash_bounds.specs.Lanes.{IsLaneRow, IsLaneTable, IsLanes};

use crate::gains::gain;
use crate::limits::{FREE_ROOM, MOST_LOG, MOST_PAYMENT, MOST_PRICE, PRICE_PARTS};
use crate::logs::Logs;
use arrayvec::ArrayVec;
use bid_rules::GoodsCase;
use bid_rules::limits::{ITEM_ROOM, MEMBER_ROOM, WHOLE_POINTS};
use nash_bounds::{LaneRow, LaneTable, Lanes};

/// A rate and a fee for each player, with the sums by which they close prefixes.
#[derive(Drop)]
pub struct Prices {
    /// What each player pays for a point, in parts of which `PRICE_PARTS` make 1 of a binary logarithm.
    pub rates: ArrayVec<u32, MEMBER_ROOM>,
    /// What each player pays for a free good, in the same parts.
    pub fees: ArrayVec<u32, MEMBER_ROOM>,
    /// For each number of free goods, the most that these can cost.
    pub tops: ArrayVec<u64, FREE_ROOM>,
}

// What a player pays for a good.
fn payment(rate: u32, points: u16, fee: u32) -> u64
    requires rate { rate ≤ MOST_PRICE }
    requires fee { fee ≤ MOST_PRICE }
    ensures value { result ≡ rate * points + fee }
    ensures small { result ≤ MOST_PAYMENT }
{
    u64::from(rate) * u64::from(points) + u64::from(fee)
}

// The greatest price of the good of this row.
fn highest_price(case: &GoodsCase, row: &LaneRow, rates: &[u32], fees: &[u32]) -> u64
    requires prices { ArePrices case.now rates.now fees.now }
    requires few { player_count case.now ≤ MEMBER_ROOM }
    ensures value { (good : ℕ) → IsLaneRow case.now good row.now
        → result ≡ highest_price case.now rates.now fees.now good }
    ensures small { result ≤ MOST_PAYMENT }
{
    let points = row.points.as_array();
    let mut most = 0;
    for k in 0..rates.len() {
        most = payment(rates[k], points[k], fees[k]).max(most);
    }
    most
}

// For each number of free goods, the most that these can cost.
fn free_prices(
    case: &GoodsCase,
    table: &LaneTable,
    rates: &[u32],
    fees: &[u32],
) -> ArrayVec<u64, FREE_ROOM>
    requires table { IsLaneTable case.now table.now }
    requires prices { ArePrices case.now rates.now fees.now }
    ensures value { result.items
        ≡ map (free_price case.now rates.now fees.now)
        (range_with_len 0 (case.now.facts.goods + 1)) }
    ensures small { All (λ top. top ≤ MOST_PAYMENT * ITEM_ROOM) result.items }
{
    let goods = table.rows.len();
    let mut top = 0;
    let mut tops = ArrayVec::new();
    tops.push(top);
    for free in 0..goods {
        top += highest_price(case, &table.rows[goods - 1 - free], rates, fees);
        tops.push(top);
    }
    tops
}

// What the players pay for the points that they have.
fn paid(case: &GoodsCase, owners: &[u8], lanes: &Lanes, rates: &[u32]) -> u64
    requires lanes { IsLanes case.now owners.now lanes.now }
    requires each { length rates.now ≡ player_count case.now }
    requires rates { All (λ rate. rate ≤ MOST_PRICE) rates.now }
    requires few { player_count case.now ≤ MEMBER_ROOM }
    ensures value { result ≡ weighted_sum case.now rates.now owners.now }
    ensures small { result ≤ MOST_PAYMENT * MEMBER_ROOM }
{
    let low = lanes.low.as_array();
    let mut sum = 0;
    for k in 0..rates.len() {
        sum += payment(rates[k], low[k], 0);
    }
    sum
}

// The same numbers, in a list of their own.
fn listed(numbers: &[u32]) -> ArrayVec<u32, MEMBER_ROOM>
    requires { length numbers.now ≤ MEMBER_ROOM }
    ensures { result.items ≡ numbers.now }
{
    let mut list = ArrayVec::new();
    for number in numbers {
        list.push(*number);
    }
    list
}

// The logarithms of the shares, together.
fn logs_of(logs: &Logs, shares: &[u64]) -> u64
    requires logs { AreLogs logs.now }
    requires few { length shares.now ≤ MEMBER_ROOM }
    requires small { All (λ share. share ≤ WHOLE_POINTS) shares.now }
    ensures { result ≡ sum (map log_down shares.now) }
{
    let mut sum = 0;
    for share in shares {
        sum += logs.down[*share as usize];
    }
    sum
}

impl Prices {
    /// The prices with their sums.
    pub fn new(case: &GoodsCase, table: &LaneTable, rates: &[u32], fees: &[u32]) -> Prices
        requires table { IsLaneTable case.now table.now }
        requires prices { ArePrices case.now rates.now fees.now }
        ensures sums { IsPriced case.now result }
        ensures rates { result.rates.items ≡ rates.now }
        ensures fees { result.fees.items ≡ fees.now }
    {
        Prices {
            rates: listed(rates),
            fees: listed(fees),
            tops: free_prices(case, table, rates, fees),
        }
    }

    // What all players pay for the points that they have, and the most that the free goods can cost.
    fn top(&self, case: &GoodsCase, owners: &[u8], lanes: &Lanes) -> u64
        requires prices { IsPriced case.now self.now }
        requires lanes { IsLanes case.now owners.now lanes.now }
        requires players { player_count case.now ≤ MEMBER_ROOM }
        requires short { length owners.now ≤ case.now.facts.goods }
        ensures value { result
            ≡ price_top case.now self.now.rates.items self.now.fees.items owners.now }
        ensures small { result ≤ MOST_PAYMENT * (MEMBER_ROOM + ITEM_ROOM) }
    {
        let free = usize::from(case.facts.goods) - owners.len();
        paid(case, owners, lanes, self.rates.as_slice()) + self.tops[free]
    }

    // What is left to all players of their logarithms.
    fn gains(
        &self,
        case: &GoodsCase,
        table: &LaneTable,
        logs: &Logs,
        owners: &[u8],
        lanes: &Lanes,
    ) -> u64
        requires prices { IsPriced case.now self.now }
        requires table { IsLaneTable case.now table.now }
        requires logs { AreLogs logs.now }
        requires lanes { IsLanes case.now owners.now lanes.now }
        requires short { length owners.now ≤ case.now.facts.goods }
        ensures value { result
            ≡ sum_by
            (λ player.
            gain case.now owners.now (weight self.now.rates.items player)
            (weight self.now.fees.items player) player)
            (range_with_len 1 (player_count case.now)) }
        ensures small { result ≤ MOST_LOG * MEMBER_ROOM }
    {
        let mut sum = 0;
        for k in 0..self.rates.len() {
            let player = k as u8 + 1;
            sum += gain(
                case,
                table,
                logs,
                owners,
                lanes,
                self.rates[k],
                self.fees[k],
                player,
            );
        }
        sum
    }

    /// Whether the prices show that no allocation that begins with the owners gives points to as many players as there are
    /// shares, which have to be all, with as great a product.
    pub fn close(
        &self,
        case: &GoodsCase,
        table: &LaneTable,
        logs: &Logs,
        owners: &[u8],
        lanes: &Lanes,
        shares: &[u64],
    ) -> bool
        requires prices { IsPriced case.now self.now }
        requires table { IsLaneTable case.now table.now }
        requires logs { AreLogs logs.now }
        requires lanes { IsLanes case.now owners.now lanes.now }
        requires short { length owners.now ≤ case.now.facts.goods }
        requires few { length shares.now ≤ MEMBER_ROOM }
        requires small { All (λ share. share ≤ WHOLE_POINTS) shares.now }
        ensures { result
            ≡ prices_close case.now owners.now self.now.rates.items self.now.fees.items shares.now }
    {
        if shares.len() != case.values.len() {
            return false;
        }
        let gains = self.gains(case, table, logs, owners, lanes);
        let bound = gains + PRICE_PARTS * self.top(case, owners, lanes);
        bound < logs_of(logs, shares)
    }
}
