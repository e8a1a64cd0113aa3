// What the leaves of the tree are judged by: a valid case and its printed allocation.
ghost use Rattle.std.specs.Prelude.{◌≡◌, ◌≤◌, length};
ghost use Rattle.bid_rules.specs.Goods.{AreOwners, IsAllocation, IsValidGoodsCase, in_search_order, pair_of};
ghost use Rattle.goods_rules.specs.Path.{IsGoodsAnswer};
ghost use Rattle.nash_bounds.specs.LeftOut.{is_after};
ghost use Rattle.nash_bounds.specs.Tables.{IsTable};

use arrayvec::ArrayVec;
use best_laws::players_law;
use bid_rules::GoodsCase;
use bid_rules::limits::ITEM_ROOM;
use nash_bounds::{
    Goal, LaneTable, Pair, PointTable, bound, empty_prefix, extend_by, lane_table,
    owners_by_good_law, owners_in_order, point_table, search_order, search_order_law,
    whole_list_law,
};
use std::cmp::Ordering;

/// A valid case and an allocation, with everything that prefixes are judged by.
#[derive(Drop)]
pub struct Answer {
    /// The case.
    pub case: GoodsCase,
    /// What the players give each good, by its place in the search order.
    pub table: LaneTable,
    /// The owner of each good, in search order.
    pub owners: ArrayVec<u8, ITEM_ROOM>,
    /// The pair of the players' utilities, which prefixes reach or not.
    pub goal: Goal,
}

// The pair of the players' utilities where they own the goods, in search order.
fn pair_of(case: &GoodsCase, table: &PointTable, owners: &[u8]) -> Pair
    requires case { IsValidGoodsCase case.now }
    requires table { IsTable case.now table.now }
    requires owners { IsAllocation case.now owners.now }
    ensures { result ≡ pair_of case.now owners.now }
{
    whole_list_law();
    let mut prefix = empty_prefix(case);
    for k in 0..owners.len() {
        prefix = extend_by(case, table, &prefix, owners[k]);
    }
    bound(&prefix)
}

// The answer of the case with these owners, by good number.
pub(crate) fn answer_of(case: GoodsCase, owners: &[u8]) -> Answer
    requires case { IsValidGoodsCase case }
    requires owners { length owners.now ≡ case.facts.goods }
    requires owned { AreOwners case owners.now }
    ensures answer { IsGoodsAnswer result }
    ensures case { result.case ≡ case }
    ensures owners { result.owners.items ≡ in_search_order case owners.now }
{
    players_law();
    owners_by_good_law();
    let order = search_order(&case);
    let points = point_table(&case, order.as_slice());
    let table = lane_table(&case, order.as_slice(), &points);
    let owners = owners_in_order(&case, order.as_slice(), owners);
    let pair = pair_of(&case, &points, owners.as_slice());
    Answer {
        case,
        table,
        owners,
        goal: Goal::of(pair),
    }
}

impl Answer {
    // Whether the answer's first owners come before these.
    pub(crate) fn comes_before(&self, owners: &[u8]) -> bool
        requires { length owners.now ≤ length self.now.owners.items }
        ensures { result ≡ is_after self.now.owners.items owners.now }
    {
        owners.cmp(&self.owners.as_slice()[..owners.len()]) == Ordering::Greater
    }
}
