// The search's two tables of a case, one for prefixes and one for walks, made once for a whole search.
use arrayvec::ArrayVec;
use bid_rules::GoodsCase;
use nash_bounds::{LaneTable, PointTable, lane_table, point_table, search_order};

/// What the players give each good, by its place in the search order, for prefixes and for walks. A search makes them once.
#[derive(Drop)]
pub struct Tables {
    /// For prefixes.
    pub points: PointTable,
    /// For walks.
    pub lanes: LaneTable,
}

impl Tables {
    ghost use Rattle.std.specs.Prelude.{◌≡◌};
    ghost use Rattle.bid_rules.specs.Goods.{IsValidGoodsCase};
    ghost use Rattle.nash_search.specs.Tables.{AreTables};

    /// The tables of a case.
    pub fn of(case: &GoodsCase) -> Tables
        requires { IsValidGoodsCase case.now }
        ensures { AreTables case.now result }
    {
        let order = search_order(case);
        let points = point_table(case, order.as_slice());
        let lanes = lane_table(case, order.as_slice(), &points);
        Tables { points, lanes }
    }

    // A copy of the lanes' table, for a walk to keep.
    pub(crate) fn copied_lanes(&self) -> LaneTable
        ensures { result ≡ self.now.lanes }
    {
        let mut rows = ArrayVec::new();
        rows.try_extend_from_slice(self.lanes.rows.as_slice())
            .unwrap();
        LaneTable { rows }
    }
}
