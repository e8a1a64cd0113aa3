// What the leaves of the tree of an estate are judged by: a valid case and its printed division.
ghost use Rattle.std.specs.Prelude.{◌≡◌, length};
ghost use Rattle.bid_rules.specs.Goods.{AreOwners, IsValidGoodsCase, in_search_order};
ghost use Rattle.estate_judge.specs.Grounds.{IsGround};

use arrayvec::ArrayVec;
use best_laws::players_law;
use bid_rules::GoodsCase;
use bid_rules::limits::ITEM_ROOM;
use estate_bounds::limits::Shares;
use estate_bounds::{Logs, Units, shares_under, unit_of};
use nash_bounds::{
    LaneTable, lane_table, owners_by_good_law, owners_in_order, point_table, search_order,
};
use prefix_trees::{AlikePlayers, lanes_under};

/// A valid case and an answer, with everything that leaves are judged by.
#[derive(Drop)]
pub struct Ground {
    /// The case.
    pub case: GoodsCase,
    /// What the players give each good, by its place in the search order.
    pub table: LaneTable,
    /// The owner of each good in the answer, in search order.
    pub owners: ArrayVec<u8, ITEM_ROOM>,
    /// The positive utilities of the players in the answer.
    pub shares: Shares,
    /// The unit of all points, and the answer's pair counted in it.
    pub units: Units,
    /// Which players are alike.
    pub alike: AlikePlayers,
    /// The logarithms of all numbers of points.
    pub logs: Logs,
}

impl Ground {
    /// What leaves are judged by if these owners, by good number, are the answer.
    pub fn new(case: GoodsCase, owners: &[u8]) -> Ground
        requires case { IsValidGoodsCase case }
        requires count { length owners.now ≡ case.facts.goods }
        requires owned { AreOwners case owners.now }
        ensures ground { IsGround result }
        ensures case { result.case ≡ case }
        ensures owners { result.owners.items ≡ in_search_order case owners.now }
    {
        players_law();
        owners_by_good_law();
        let order = search_order(&case);
        let points = point_table(&case, order.as_slice());
        let table = lane_table(&case, order.as_slice(), &points);
        let owners = owners_in_order(&case, order.as_slice(), owners);
        let lanes = lanes_under(&case, &table, owners.as_slice());
        let shares = shares_under(&case, owners.as_slice(), &lanes);
        let units = Units::new(&case, unit_of(&case), owners.as_slice(), &lanes);
        let alike = AlikePlayers::of(&case);
        Ground {
            case,
            table,
            owners,
            shares,
            units,
            alike,
            logs: Logs::new(),
        }
    }
}
