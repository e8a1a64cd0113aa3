// Adjusted winner itself: what the two players have once as much of the last good has moved as makes them equal.
ghost use Rattle.std.specs.Prelude.{◌≡◌, ℕ, ◌+◌, ◌*◌, ◌<◌, ◌≤◌, pos, map};
ghost use Rattle.std.specs.List.{AllZip, range_with_len};
ghost use Rattle.bid_rules.specs.Goods.{IsValidGoodsCase, player_count};
ghost use Rattle.split_frac.specs.Frac.{HasValue};
ghost use Rattle.winner_definition.specs.Winners.{given_up, share_after, share_at_first};
ghost use Rattle.adjusted_winner.specs.Answers.{HasWinner};
ghost use Rattle.adjusted_winner.specs.Moves.{MovedUpTo};
ghost use Rattle.bid_rules.specs.declared.limits.TheConstants.{PAIR};

use crate::moving::{
    first_owner, greater_points, last_good, lesser_points, may_move, moves_before, points_at_first,
};
use arrayvec::ArrayVec;
use bid_rules::GoodsCase;
use bid_rules::limits::{ITEM_ROOM, MOST_GOODS, WHOLE_POINTS};
use split_frac::{Frac, make};
use winner_definition::{last_good_law, next_to_move_law};

/// The division between two players.
#[derive(Drop)]
pub struct Winner {
    /// Player 1's share of each good.
    pub shares: ArrayVec<Frac, ITEM_ROOM>,
    /// For each player, the weight of their points; under these weights each good is where it is worth the most.
    pub weights: [u32; 2],
    /// What each player has.
    pub total: Frac,
}

// This many parts out of a number of equal ones.
fn fraction(number: u32, parts: u32) -> Frac
    requires low { 1 ≤ parts }
    requires high { parts ≤ 2 * WHOLE_POINTS }
    ensures { HasValue result (pos number) parts }
{
    make(i128::from(number), u64::from(parts))
}

// The parts of a good that its first owner has given up, once the last good has moved this many.
fn given_up(case: &GoodsCase, parts: u32, last: u8, moved: u32, good: u8) -> u32
    requires case { IsValidGoodsCase case.now }
    requires two { player_count case.now ≡ PAIR }
    requires low { 1 ≤ good }
    requires high { good ≤ case.now.facts.goods }
    requires last_low { 1 ≤ last }
    requires last_high { last ≤ case.now.facts.goods }
    requires moved { moved ≤ parts }
    ensures value { result ≡ given_up case.now parts last moved good }
    ensures within { result ≤ parts }
{
    if good == last {
        return moved;
    }
    if may_move(case, first_owner(case, last), good) && moves_before(case, good, last) {
        return parts;
    }
    0
}

// Player 1's parts of a good at that point.
fn share_after(case: &GoodsCase, parts: u32, last: u8, moved: u32, good: u8) -> u32
    requires case { IsValidGoodsCase case.now }
    requires two { player_count case.now ≡ PAIR }
    requires low { 1 ≤ good }
    requires high { good ≤ case.now.facts.goods }
    requires last_low { 1 ≤ last }
    requires last_high { last ≤ case.now.facts.goods }
    requires moved { moved ≤ parts }
    ensures { result ≡ share_after case.now parts last moved 1 good }
{
    let given = given_up(case, parts, last, moved, good);
    if first_owner(case, good) == 1 {
        parts - given
    } else {
        given
    }
}

// Player 1's shares at that point.
fn shares_after(case: &GoodsCase, parts: u32, last: u8, moved: u32) -> ArrayVec<Frac, ITEM_ROOM>
    requires case { IsValidGoodsCase case.now }
    requires two { player_count case.now ≡ PAIR }
    requires last_low { 1 ≤ last }
    requires last_high { last ≤ case.now.facts.goods }
    requires moved { moved ≤ parts }
    requires parts_low { 1 ≤ parts }
    requires parts_high { parts ≤ 2 * WHOLE_POINTS }
    ensures { AllZip (λ share part. HasValue share (pos part) parts) result.items
        (map (share_after case.now parts last moved 1) (range_with_len 1 case.now.facts.goods)) }
{
    let mut shares = ArrayVec::new();
    for k in 0..case.facts.goods {
        shares.push(fraction(share_after(case, parts, last, moved, k + 1), parts));
    }
    shares
}

// Player 1's share of a good at first: all of it or nothing.
fn share_at_first(case: &GoodsCase, good: u8) -> u32
    requires case { IsValidGoodsCase case.now }
    requires two { player_count case.now ≡ PAIR }
    requires low { 1 ≤ good }
    requires high { good ≤ case.now.facts.goods }
    ensures { result ≡ share_at_first case.now 1 1 good }
{
    if first_owner(case, good) == 1 { 1 } else { 0 }
}

// Player 1's shares at first.
fn shares_at_first(case: &GoodsCase) -> ArrayVec<Frac, ITEM_ROOM>
    requires case { IsValidGoodsCase case.now }
    requires two { player_count case.now ≡ PAIR }
    ensures { AllZip (λ share part. HasValue share (pos part) 1) result.items
        (map (share_at_first case.now 1 1) (range_with_len 1 case.now.facts.goods)) }
{
    let mut shares = ArrayVec::new();
    for k in 0..case.facts.goods {
        shares.push(fraction(share_at_first(case, k + 1), 1));
    }
    shares
}

// The division when one player is richer at first.
fn moved(case: &GoodsCase, player: u8, rich: u32, poor: u32) -> Winner
    requires case { IsValidGoodsCase case.now }
    requires two { player_count case.now ≡ PAIR }
    requires richer { MovedUpTo case.now player 0 rich poor }
    requires small { rich ≤ MOST_GOODS * WHOLE_POINTS }
    ensures { HasWinner case.now result }
{
    last_good_law();
    next_to_move_law();
    let last = last_good(case, player, rich, poor);
    let greater = greater_points(case, last.good);
    let lesser = lesser_points(case, last.good);
    let parts = greater + lesser;
    Winner {
        shares: shares_after(case, parts, last.good, last.rich - last.poor),
        weights: [case.points(2, last.good), case.points(1, last.good)],
        total: fraction(lesser * last.rich + greater * last.poor, parts),
    }
}

/// The division between two players by adjusted winner.
pub fn solve_winner(case: &GoodsCase) -> Winner
    requires case { IsValidGoodsCase case.now }
    requires two { player_count case.now ≡ PAIR }
    ensures { HasWinner case.now result }
{
    last_good_law();
    let first = points_at_first(case, 1);
    let second = points_at_first(case, 2);
    if first > second {
        return moved(case, 1, first, second);
    }
    if first < second {
        return moved(case, 2, second, first);
    }
    Winner {
        shares: shares_at_first(case),
        weights: [1, 1],
        total: fraction(first, 1),
    }
}
