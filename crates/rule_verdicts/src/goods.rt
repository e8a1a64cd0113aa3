// The case of goods that printed numbers make.
ghost use Rattle.std.specs.Prelude.{◌≡◌, ◌≤◌, MatchOption, length, map};
ghost use Rattle.bid_rules.specs.declared.limits.TheConstants.{MEMBER_ROOM};
ghost use Rattle.rule_verdicts.specs.PrintedGoods.{ArePrintedGoods, printed_goods};

use crate::members::members_between;
use crate::rows::rows_of_amounts;
use arrayvec::ArrayVec;
use bid_rules::limits::{ITEM_ROOM, MOST_MEMBERS, WHOLE_POINTS};
use bid_rules::{Goods, GoodsCase};

/// A row of printed points, by good.
pub type PrintedRow = ArrayVec<i128, ITEM_ROOM>;

/// The printed case of goods, if it is valid. Its members are by player, and its points by player and good.
pub fn printed_goods(
    goods: u8,
    limit: u32,
    who: &[i128],
    values: &[PrintedRow],
) -> Option<GoodsCase>
    requires who { length who.now ≤ MEMBER_ROOM }
    requires values { length values.now ≤ MEMBER_ROOM }
    ensures { MatchOption result
        (ArePrintedGoods goods limit who.now (map (λ row. row.items) values.now) → ⊥)
        (λ case.
        ArePrintedGoods goods limit who.now (map (λ row. row.items) values.now)
        × (case ≡ printed_goods goods limit who.now (map (λ row. row.items) values.now))) }
{
    let Some(members) = members_between(who, 0, MOST_MEMBERS) else {
        return None;
    };
    let Some(points) = rows_of_amounts(values, WHOLE_POINTS) else {
        return None;
    };
    let facts = Goods {
        members: MOST_MEMBERS,
        goods,
        limit,
    };
    let case = GoodsCase {
        facts,
        who: members,
        values: points,
    };
    if case.is_valid() { Some(case) } else { None }
}
