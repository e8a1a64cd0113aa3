// Finds out whether there is a better division: the first allocation that gives every player at least as many points, and someone more.
ghost use Rattle.std.specs.Prelude.{◌≡◌, ◌<◌, ◌↔◌, [], ◌∷◌, length, IfErr, IfOk, IsErr};
ghost use Rattle.bid_rules.specs.Goods.{AreOwners, IsAllocation, IsValidGoodsCase, in_search_order};
ghost use Rattle.nash_bounds.specs.Lanes.{IsLanes};
ghost use Rattle.nash_bounds.specs.Tables.{IsTable};
ghost use Rattle.goods_audit.specs.Domination.{IsBetterDivision, open_count};
ghost use Rattle.goods_audit.specs.Paths.{IsPath};

use crate::paths::Path;
use crate::walk::search;
use crate::whole::whole_prefix;
use arrayvec::ArrayVec;
use best_laws::players_law;
use bid_rules::GoodsCase;
use bid_rules::limits::ITEM_ROOM;
use nash_bounds::{
    Lanes, PointTable, empty_prefix, extend_by, lanes_of, owner_lists_law, owners_by_good,
    owners_by_good_law, owners_in_order, search_order, search_order_law,
};
use nash_search::{OverLimit, Tables};

// What the players have with owners of all goods, in search order.
fn whole_lanes(case: &GoodsCase, table: &PointTable, owners: &[u8]) -> Lanes
    requires case { IsValidGoodsCase case.now }
    requires table { IsTable case.now table.now }
    requires owners { IsAllocation case.now owners.now }
    ensures { IsLanes case.now owners.now result }
{
    players_law();
    lanes_of(case, &whole_prefix(case, table, owners))
}

// The prefix in which the first player has the first good.
fn first_path(case: &GoodsCase, table: &PointTable) -> Path
    requires case { IsValidGoodsCase case.now }
    requires table { IsTable case.now table.now }
    ensures path { IsPath case.now result }
    ensures owners { result.owners.items ≡ 1 ∷ [] }
{
    players_law();
    let prefix = extend_by(case, table, &empty_prefix(case), 1);
    let lanes = lanes_of(case, &prefix);
    Path {
        owners: prefix.owners,
        lanes,
    }
}

/// The least allocation, as a list of owners in search order, that dominates the division: it gives every player at least as many
/// points, and some player more. `None` if there is none: then the division is Pareto-optimal.
///
/// Owners are players by number of the good, in the answer too. `OverLimit` is returned exactly when more prefixes of allocations than
/// the case's limit leave room for one that dominates. No memory is taken.
pub fn dominating(
    case: &GoodsCase,
    owners: &[u8],
) -> Result<Option<ArrayVec<u8, ITEM_ROOM>>, OverLimit>
    requires case { IsValidGoodsCase case.now }
    requires each { length owners.now ≡ case.now.facts.goods }
    requires owners { AreOwners case.now owners.now }
    ensures better { IfOk result (IsBetterDivision case.now (in_search_order case.now owners.now)) }
    ensures limit { IfErr result (λ over. over.limit ≡ case.now.facts.limit) }
    ensures refused { IsErr result
        ↔ (case.now.facts.limit < open_count case.now (in_search_order case.now owners.now)) }
{
    search_order_law();
    owner_lists_law();
    owners_by_good_law();
    let order = search_order(case);
    let tables = Tables::of(case);
    let list = owners_in_order(case, order.as_slice(), owners);
    let whole = whole_lanes(case, &tables.points, list.as_slice());
    let start = first_path(case, &tables.points);
    let Some(found) = search(case, &tables.lanes, &whole, start)? else {
        return Ok(None);
    };
    Ok(Some(owners_by_good(case, order.as_slice(), found.as_slice())))
}
