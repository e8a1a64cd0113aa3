// The audited allocation as a prefix in which each good has its owner, and its Nash welfare.
ghost use Rattle.std.specs.Prelude.{◌≡◌, length};
ghost use Rattle.bid_rules.specs.Goods.{AreOwners, IsAllocation, IsValidGoodsCase, in_search_order, pair_of};
ghost use Rattle.nash_bounds.specs.Prefixes.{HasBound, IsPrefix};
ghost use Rattle.nash_bounds.specs.Tables.{IsTable};

use bid_rules::GoodsCase;
use nash_bounds::{
    Pair, PointTable, Prefix, bound, empty_prefix, extend_by, owners_by_good_law, owners_in_order,
    point_table, search_order, whole_list_law,
};

// The prefix in which these owners have all goods, in search order.
pub(crate) fn whole_prefix(case: &GoodsCase, table: &PointTable, owners: &[u8]) -> Prefix
    requires case { IsValidGoodsCase case.now }
    requires table { IsTable case.now table.now }
    requires owners { IsAllocation case.now owners.now }
    ensures prefix { IsPrefix case.now result }
    ensures owners { result.owners.items ≡ owners.now }
    ensures bound { HasBound result }
{
    let mut prefix = empty_prefix(case);
    for k in 0..owners.len() {
        prefix = extend_by(case, table, &prefix, owners[k]);
    }
    prefix
}

// The pair of the players' points, with the owners given by good number.
pub(crate) fn welfare(case: &GoodsCase, owners: &[u8]) -> Pair
    requires case { IsValidGoodsCase case.now }
    requires each { length owners.now ≡ case.now.facts.goods }
    requires owners { AreOwners case.now owners.now }
    ensures { result ≡ pair_of case.now (in_search_order case.now owners.now) }
{
    owners_by_good_law();
    whole_list_law();
    let order = search_order(case);
    let table = point_table(case, order.as_slice());
    let list = owners_in_order(case, order.as_slice(), owners);
    bound(&whole_prefix(case, &table, list.as_slice()))
}
