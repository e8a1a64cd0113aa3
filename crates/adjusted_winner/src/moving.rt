// What the players have while goods move one by one, and which good moves next.
ghost use Rattle.std.specs.Prelude.{◌≡◌, ◌+◌, ◌*◌, ◌<◌, ◌≤◌, cond, ◌==◌};
ghost use Rattle.bid_rules.specs.Goods.{IsValidGoodsCase, player_count, points};
ghost use Rattle.winner_definition.specs.Moving.{IsNextOf, is_gone};
ghost use Rattle.winner_definition.specs.Procedure.{points_at_first};
ghost use Rattle.winner_definition.specs.Winners.{first_owner, greater_points, lesser_points, may_move, moves_before};
ghost use Rattle.adjusted_winner.specs.Moves.{IsLastToMove, MovedUpTo};
ghost use Rattle.bid_rules.specs.declared.limits.TheConstants.{PAIR};

use bid_rules::GoodsCase;
use bid_rules::limits::{MOST_GOODS, WHOLE_POINTS};
use winner_definition::{next_good_law, next_to_move_law};

// The points that its first owner gives the good.
pub(crate) fn greater_points(case: &GoodsCase, good: u8) -> u32
    requires case { IsValidGoodsCase case.now }
    requires two { player_count case.now ≡ PAIR }
    requires low { 1 ≤ good }
    requires high { good ≤ case.now.facts.goods }
    ensures value { result ≡ greater_points case.now good }
    ensures small { result ≤ WHOLE_POINTS }
{
    case.points(1, good).max(case.points(2, good))
}

// The points that the other player gives it.
pub(crate) fn lesser_points(case: &GoodsCase, good: u8) -> u32
    requires case { IsValidGoodsCase case.now }
    requires two { player_count case.now ≡ PAIR }
    requires low { 1 ≤ good }
    requires high { good ≤ case.now.facts.goods }
    ensures value { result ≡ lesser_points case.now good }
    ensures small { result ≤ WHOLE_POINTS }
{
    case.points(1, good).min(case.points(2, good))
}

// Who has the good at first: the player who gives it more points, or player 1 if both give it the same.
pub(crate) fn first_owner(case: &GoodsCase, good: u8) -> u8
    requires case { IsValidGoodsCase case.now }
    requires two { player_count case.now ≡ PAIR }
    requires low { 1 ≤ good }
    requires high { good ≤ case.now.facts.goods }
    ensures { result ≡ first_owner case.now good }
{
    if case.points(1, good) >= case.points(2, good) {
        1
    } else {
        2
    }
}

// Whether the player may give the good up: they have it at first, and the other gives it points.
pub(crate) fn may_move(case: &GoodsCase, player: u8, good: u8) -> bool
    requires case { IsValidGoodsCase case.now }
    requires two { player_count case.now ≡ PAIR }
    requires low { 1 ≤ good }
    requires high { good ≤ case.now.facts.goods }
    ensures { result ≡ may_move case.now player good }
{
    first_owner(case, good) == player && lesser_points(case, good) > 0
}

// Whether the first good moves before the second: its ratio of points is lower, or the same and its number is lower.
pub(crate) fn moves_before(case: &GoodsCase, good: u8, other: u8) -> bool
    requires case { IsValidGoodsCase case.now }
    requires two { player_count case.now ≡ PAIR }
    requires low { 1 ≤ good }
    requires high { good ≤ case.now.facts.goods }
    requires other_low { 1 ≤ other }
    requires other_high { other ≤ case.now.facts.goods }
    ensures { result ≡ moves_before case.now good other }
{
    let here = greater_points(case, good) * lesser_points(case, other);
    let there = greater_points(case, other) * lesser_points(case, good);
    here < there || (here == there && good < other)
}

// Whether the player has given the good up, if the last one that they gave up is `last` (0 for none).
fn is_gone(case: &GoodsCase, player: u8, last: u8, good: u8) -> bool
    requires case { IsValidGoodsCase case.now }
    requires two { player_count case.now ≡ PAIR }
    requires low { 1 ≤ good }
    requires high { good ≤ case.now.facts.goods }
    requires last { last ≤ case.now.facts.goods }
    ensures { result ≡ is_gone case.now player last good }
{
    last != 0 && may_move(case, player, good) && (good == last || moves_before(case, good, last))
}

// What the player has of a good before any moves.
fn good_at_first(case: &GoodsCase, player: u8, good: u8) -> u32
    requires case { IsValidGoodsCase case.now }
    requires two { player_count case.now ≡ PAIR }
    requires player_low { 1 ≤ player }
    requires player_high { player ≤ 2 }
    requires low { 1 ≤ good }
    requires high { good ≤ case.now.facts.goods }
    ensures value { result
        ≡ cond (first_owner case.now good == player) (points case.now player good) 0 }
    ensures small { result ≤ WHOLE_POINTS }
{
    if first_owner(case, good) == player {
        case.points(player, good)
    } else {
        0
    }
}

// What the player has before any good moves.
pub(crate) fn points_at_first(case: &GoodsCase, player: u8) -> u32
    requires case { IsValidGoodsCase case.now }
    requires two { player_count case.now ≡ PAIR }
    requires player_low { 1 ≤ player }
    requires player_high { player ≤ 2 }
    ensures value { result ≡ points_at_first case.now player }
    ensures small { result ≤ MOST_GOODS * WHOLE_POINTS }
{
    let mut sum = 0;
    for k in 0..case.facts.goods {
        sum += good_at_first(case, player, k + 1);
    }
    sum
}

// Which good moves next: the first to move of the first `count` goods, or the one after them.
fn next_of(case: &GoodsCase, player: u8, last: u8, next: u8, count: u8) -> u8
    requires case { IsValidGoodsCase case.now }
    requires two { player_count case.now ≡ PAIR }
    requires last { last ≤ case.now.facts.goods }
    requires more { count < case.now.facts.goods }
    requires before { IsNextOf case.now player last count next }
    ensures { IsNextOf case.now player last (count + 1) result }
{
    next_good_law();
    let good = count + 1;
    if !may_move(case, player, good) {
        return next;
    }
    if is_gone(case, player, last, good) {
        return next;
    }
    if next == 0 {
        return good;
    }
    if moves_before(case, good, next) {
        return good;
    }
    next
}

// The first good, in the order in which they move, that the player may give up and has not given up yet, or 0 if
// there is none.
fn next_good(case: &GoodsCase, player: u8, last: u8) -> u8
    requires case { IsValidGoodsCase case.now }
    requires two { player_count case.now ≡ PAIR }
    requires last { last ≤ case.now.facts.goods }
    ensures { IsNextOf case.now player last case.now.facts.goods result }
{
    let mut next = 0;
    for k in 0..case.facts.goods {
        next = next_of(case, player, last, next, k);
    }
    next
}

/// The last good that moves, and what the richer and the poorer player have before it does.
#[derive(Clone, Copy)]
pub(crate) struct Last {
    /// The good.
    pub good: u8,
    /// The richer's points.
    pub rich: u32,
    /// The poorer's points.
    pub poor: u32,
}

// Moves goods of the richer player one by one, until only the last is left to move, in whole or in part.
pub(crate) fn last_good(case: &GoodsCase, player: u8, rich: u32, poor: u32) -> Last
    requires case { IsValidGoodsCase case.now }
    requires two { player_count case.now ≡ PAIR }
    requires richer { MovedUpTo case.now player 0 rich poor }
    requires small { rich ≤ MOST_GOODS * WHOLE_POINTS }
    ensures last { IsLastToMove case.now player result.rich result.poor result.good }
    ensures small { result.rich ≤ MOST_GOODS * WHOLE_POINTS }
{
    next_good_law();
    next_to_move_law();
    let mut rich = rich;
    let mut poor = poor;
    let mut last = 0;
    'goods: loop {
        let good = next_good(case, player, last);
        let greater = greater_points(case, good);
        let lesser = lesser_points(case, good);
        if rich <= poor + greater + lesser {
            return Last { good, rich, poor };
        }
        rich -= greater;
        poor += lesser;
        last = good;
    }
}
