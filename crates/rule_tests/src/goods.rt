// The search against the plain program, on tiny cases.
ghost use Rattle.bid_rules.specs.Goods.{IsValidGoodsCase};

use crate::goods_cases::case_of;
use crate::plain_goods::{answer_by_list, owner_at};
use arrayvec::ArrayVec;
use bid_rules::GoodsCase;
use bid_rules::limits::ITEM_ROOM;
use nash_bounds::search_order;
use nash_search::search_alone;
use std::process::Abort;

// The next of some scattered numbers.
fn scattered(seed: u64) -> u64 {
    seed.wrapping_mul(6_364_136_223_846_793_005)
        .wrapping_add(1_442_695_040_888_963_407)
}

// Points for the goods that sum to 1000, many of them alike.
fn spread(rt: &impl Abort, seed: &mut u64, goods: usize) -> ArrayVec<u32, ITEM_ROOM> {
    let mut points = ArrayVec::new();
    let mut left: u32 = 1000;
    for _good in 1..goods {
        *seed = scattered(*seed);
        let share = u32::try_from(*seed >> 33).unwrap_or(0) % 4 * 100;
        let share = share.min(left);
        left = left.saturating_sub(share);
        assert!(rt; points.try_push(share).is_ok());
    }
    assert!(rt; points.try_push(left).is_ok());
    points
}

// The search and the plain program agree on the case.
fn assert_plain(rt: &impl Abort, case: &GoodsCase)
    requires case { IsValidGoodsCase case.now }
{
    let order = search_order(case);
    let want = answer_by_list(case, order.as_slice());
    let n = case.values.len() as u64;
    let goods = order.len() as u64;
    let Ok(division) = search_alone(case) else {
        return assert!(rt; false);
    };
    assert_eq!(rt; u64::from(division.steps), want.steps);
    assert_eq!(rt; division.pair, want.pair);
    for (at, good) in order.iter().enumerate() {
        let owner = owner_at(n, goods, want.place, at as u64);
        let got = division
            .owners
            .as_slice()
            .get((*good as usize).saturating_sub(1))
            .copied();
        assert_eq!(rt; u64::from(got.unwrap_or(0)), owner.wrapping_add(1));
    }
}

// The search must find what a list of all allocations gives, and count as the definition does.
#[test]
fn tiny_cases_as_by_a_list_of_all(rt: HostRuntime) {
    let mut seed = 7;
    for (players, goods) in [(1, 4), (2, 2), (2, 7), (2, 8), (3, 3), (3, 5), (4, 4)] {
        for _case in 0..3 {
            let first = spread(&rt, &mut seed, goods);
            let second = spread(&rt, &mut seed, goods);
            let third = spread(&rt, &mut seed, goods);
            let fourth = spread(&rt, &mut seed, goods);
            let rows: [&[u32]; 4] = [&first, &second, &third, &fourth];
            let case = case_of(&rt, rows.get(..players).unwrap_or(&[]));
            assert_plain(&rt, &case);
        }
    }
}
