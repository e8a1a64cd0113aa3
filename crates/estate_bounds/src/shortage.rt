// Shows that no allocation gives points to more players than some number.
ghost use Rattle.std.specs.Prelude.{◌≡◌, ℕ, ◌↔◌, ◌<◌, ◌≤◌, IsTrue, cond, count_by, slice_index};
ghost use Rattle.std.specs.List.Sorted.{IsStrictlyIncreasing};
ghost use Rattle.bid_rules.specs.Goods.{AreOwners, order_of, player_count};
ghost use Rattle.estate_bounds.specs.Counts.{IsShort, is_wanted};
ghost use Rattle.nash_bounds.specs.Lanes.{IsLaneRow, IsLaneTable};

use bid_rules::GoodsCase;
use bid_rules::limits::{ITEM_ROOM, MEMBER_ROOM};
use nash_bounds::{LaneRow, LaneTable, players};

// Whether any of the players gives points to the good of this row.
fn is_wanted(case: &GoodsCase, row: &LaneRow, players: &[u8]) -> bool
    requires named { AreOwners case.now players.now }
    requires few { player_count case.now ≤ MEMBER_ROOM }
    ensures { (good : ℕ) → IsLaneRow case.now good row.now
        → result ≡ is_wanted case.now players.now good }
{
    let points = row.points.as_array();
    for player in players {
        if points[usize::from(*player) - 1] > 0 {
            return true;
        }
    }
    false
}

// 1 if any of the players wants the good at the place of the search order, else 0.
fn wanted_at(case: &GoodsCase, table: &LaneTable, players: &[u8], place: usize) -> usize
    requires named { AreOwners case.now players.now }
    requires table { IsLaneTable case.now table.now }
    requires place { place < case.now.facts.goods }
    ensures value { result
        ≡ cond (is_wanted case.now players.now (slice_index (order_of case.now) place)) 1 0 }
    ensures small { result ≤ 1 }
{
    usize::from(is_wanted(case, &table.rows[place], players))
}

// How many goods any of the players wants.
fn wanted(case: &GoodsCase, table: &LaneTable, players: &[u8]) -> usize
    requires named { AreOwners case.now players.now }
    requires table { IsLaneTable case.now table.now }
    ensures value { result ≡ count_by (is_wanted case.now players.now) (order_of case.now) }
    ensures small { result ≤ ITEM_ROOM }
{
    let mut count = 0;
    for place in 0..table.rows.len() {
        count += wanted_at(case, table, players, place);
    }
    count
}

// Whether each number is below the next.
fn rises(numbers: &[u8]) -> bool
    ensures { IsTrue result ↔ IsStrictlyIncreasing numbers.now }
{
    for next in 1..numbers.len() {
        if numbers[next - 1] >= numbers[next] {
            return false;
        }
    }
    true
}

// Whether the numbers are those of players.
fn are_players(case: &GoodsCase, numbers: &[u8]) -> bool
    requires { player_count case.now ≤ MEMBER_ROOM }
    ensures { IsTrue result ↔ AreOwners case.now numbers.now }
{
    let most = players(case);
    numbers.iter().all(|number| (1..=most).contains(number))
}

/// Whether these players want so few goods that no more players than `count` can have points (`count_law`).
pub fn is_short(case: &GoodsCase, table: &LaneTable, numbers: &[u8], count: usize) -> bool
    requires table { IsLaneTable case.now table.now }
    ensures { IsTrue result ↔ IsShort case.now numbers.now count }
{
    if !rises(numbers) || !are_players(case, numbers) {
        return false;
    }
    let others = usize::from(players(case)) - numbers.len();
    others + wanted(case, table, numbers) <= count
}
