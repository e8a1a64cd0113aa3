// Cases of goods, as tests give them.
ghost use Rattle.bid_rules.specs.Goods.{IsValidGoodsCase};

use arrayvec::ArrayVec;
use bid_rules::limits::{MOST_MEMBERS, MOST_STEPS};
use bid_rules::{Goods, GoodsCase};
use std::process::Abort;

// The case in which players 1, 2 and so on give these points.
pub(crate) fn case_of(rt: &impl Abort, rows: &[&[u32]]) -> GoodsCase
    ensures { IsValidGoodsCase result }
{
    let mut who = ArrayVec::new();
    let mut values = ArrayVec::new();
    let mut goods: u8 = 0;
    let mut member: u8 = 0;
    for row in rows {
        let mut points = ArrayVec::new();
        assert!(rt; points.try_extend_from_slice(row).is_ok());
        goods = u8::try_from(row.len()).unwrap_or(0);
        member = member.saturating_add(1);
        assert!(rt; who.try_push(member).is_ok());
        assert!(rt; values.try_push(points).is_ok());
    }
    let case = GoodsCase {
        facts: Goods {
            members: MOST_MEMBERS,
            goods,
            limit: MOST_STEPS,
        },
        who,
        values,
    };
    assert!(rt; case.is_valid());
    case
}
