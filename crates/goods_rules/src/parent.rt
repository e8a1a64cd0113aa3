// What the children of an inner node of the tree are judged by.
ghost use Rattle.goods_rules.specs.Path.{IsParent};
ghost use Rattle.nash_bounds.specs.Goals.{IsGoal};
ghost use Rattle.nash_bounds.specs.Lanes.{HasFreeGood, IsLaneTable, IsLanes};

use bid_rules::GoodsCase;
use nash_bounds::{Contenders, Goal, LaneTable, Lanes, contenders_of, fork};

/// What the children of an inner node are judged by.
#[derive(Clone, Copy, Default)]
pub struct Parent {
    /// What the players have and may have without the next good.
    pub lanes: Lanes,
    /// Who could reach the pair of the answer with it.
    pub contenders: Contenders,
}

/// What the children of a node are judged by, from its lanes and a level near that of its bound.
pub fn parent_of(
    case: &GoodsCase,
    table: &LaneTable,
    owners: &[u8],
    lanes: &Lanes,
    level: u32,
    goal: &Goal,
) -> Parent
    requires table { IsLaneTable case.now table.now }
    requires open { HasFreeGood case.now owners.now }
    requires lanes { IsLanes case.now owners.now lanes.now }
    requires goal { IsGoal goal.now }
    ensures { IsParent case.now goal.now.pair owners.now result }
{
    let mut lanes = *lanes;
    fork(case, table, owners, &mut lanes);
    let contenders = contenders_of(case, table, owners, &lanes, level, goal);
    Parent { lanes, contenders }
}
