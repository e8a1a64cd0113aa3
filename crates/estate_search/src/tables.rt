// The table that a search reads points from, and the division that it starts with.
ghost use Rattle.std.specs.Prelude.{◌≡◌};
ghost use Rattle.bid_rules.specs.Goods.{IsAllocation, IsValidGoodsCase, player_count};
ghost use Rattle.nash_bounds.specs.Lanes.{IsLaneTable};
ghost use Rattle.estate_search.specs.Endings.{estate_of};

use crate::drafts::Draft;
use crate::players::{OwnerList, copied};
use arrayvec::ArrayVec;
use bid_rules::limits::MOST_MEMBERS;
use bid_rules::{Goods, GoodsCase};
use nash_bounds::{LaneTable, lane_table, point_table, search_order};
use prefix_trees::is_allocation;

/// The case as the text of an estate prints it, which says neither how many members there are nor how far the specified search may go.
pub(crate) fn printed(case: GoodsCase) -> GoodsCase
    requires { IsValidGoodsCase case }
    ensures valid { IsValidGoodsCase result }
    ensures printed { result ≡ estate_of case }
{
    let GoodsCase { facts, who, values } = case;
    GoodsCase {
        facts: Goods {
            members: MOST_MEMBERS,
            goods: facts.goods,
            limit: 1,
        },
        who,
        values,
    }
}

/// The table of a case.
pub(crate) fn table_of(case: &GoodsCase) -> LaneTable
    requires { IsValidGoodsCase case.now }
    ensures { IsLaneTable case.now result }
{
    let order = search_order(case);
    let points = point_table(case, order.as_slice());
    lane_table(case, order.as_slice(), &points)
}

// All goods go to the first player.
fn all_to_first(case: &GoodsCase) -> OwnerList
    requires { IsValidGoodsCase case.now }
    ensures { IsAllocation case.now result.items }
{
    let mut owners = ArrayVec::new();
    for _good in 0..case.facts.goods {
        owners.push(1);
    }
    owners
}

/// The owners, if they are those of a division in search order, and otherwise others that are.
pub(crate) fn allocated(case: &GoodsCase, owners: &[u8]) -> OwnerList
    requires { IsValidGoodsCase case.now }
    ensures { IsAllocation case.now result.items }
{
    if is_allocation(case, owners) {
        copied(owners)
    } else {
        all_to_first(case)
    }
}

/// The owners of a draft, by place in the search order.
pub(crate) fn drafted(case: &GoodsCase, draft: &Draft) -> OwnerList
    requires { IsValidGoodsCase case.now }
    ensures { IsAllocation case.now result.items }
{
    allocated(case, &draft.owners[..usize::from(case.facts.goods)])
}
