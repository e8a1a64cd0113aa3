// Prefixes of allocations: the owners of the first few goods, and the bound on all allocations that begin so.
ghost use Rattle.std.specs.Prelude.{◌≡◌, ◌+◌, ◌-◌, ◌<◌, ◌≤◌, [], ◌∷◌, ◌++◌, length, map, sum, cond, ◌==◌, slice_index};
ghost use Rattle.std.specs.List.{range_with_len, sum_by};
ghost use Rattle.bid_rules.specs.declared.pair.Pair.{Pair};
ghost use Rattle.bid_rules.specs.Pairs.{IsAtMost};
ghost use Rattle.bid_rules.specs.Goods.{IsValidGoodsCase, greatest_points, player_count, order_of, utilities};
ghost use Rattle.nash_bounds.specs.Bound.{IsBound};
ghost use Rattle.nash_bounds.specs.Levels.{bound_of};
ghost use Rattle.nash_bounds.specs.Prefixes.{IsPrefix, HasBound, highest, top_of};
ghost use Rattle.nash_bounds.specs.NextOwner.{IsNext};
ghost use Rattle.nash_bounds.specs.Tables.{IsPointRow, IsTable};

use crate::lanes::laned;
use crate::levels::bound_between;
use crate::order::greatest;
use crate::table::{PointRow, PointTable, point_row};
use arrayvec::ArrayVec;
use bid_rules::limits::{ITEM_ROOM, MEMBER_ROOM, WHOLE_POINTS};
use bid_rules::{GoodsCase, Pair};

/// Owners of the first few goods in search order. The other goods are free.
///
/// No matter who gets the free goods, the players' utilities lie between `low` and `high`, and sum to at most `top`.
#[derive(Drop)]
pub struct Prefix {
    /// The owner, a player from 1, of each of the first few goods in search order.
    pub owners: ArrayVec<u8, ITEM_ROOM>,
    /// For each player, the points that they have so far.
    pub low: ArrayVec<u32, MEMBER_ROOM>,
    /// For each player, the points that they would have with all free goods, at most `WHOLE_POINTS`.
    pub high: ArrayVec<u32, MEMBER_ROOM>,
    /// The sum of `low` and, for each free good, the greatest points that any player gives it.
    pub top: u32,
}

/// A prefix's `low`, `high` and `top`.
#[derive(Drop)]
struct Limits {
    low: ArrayVec<u32, MEMBER_ROOM>,
    high: ArrayVec<u32, MEMBER_ROOM>,
    top: u32,
}

/// The prefix's bound: the greatest pair of a whole list between `low` and `high` whose sum is at most `top`.
///
/// No allocation that begins with the prefix's owners has a greater pair. Utilities are compared as for the greatest Nash welfare
/// (Caragiannis, Kurokawa, Moulin, Procaccia, Shah and Wang 2016): by how many are positive, then by the product of these.
pub fn bound(prefix: &Prefix) -> Pair
    requires { HasBound prefix.now }
    ensures greatest { IsBound prefix.now.low.items prefix.now.high.items prefix.now.top result }
    ensures value { result ≡ bound_of prefix.now.low.items prefix.now.high.items prefix.now.top }
{
    let players = (prefix.low.len() as u32).max(1);
    bound_between(
        laned(prefix.low.as_slice()),
        laned(prefix.high.as_slice()),
        prefix.top,
        prefix.top / players,
    )
}

/// The prefix in which no good has an owner.
pub fn empty_prefix(case: &GoodsCase) -> Prefix
    requires { IsValidGoodsCase case.now }
    ensures prefix { IsPrefix case.now result }
    ensures bound { HasBound result }
    ensures none { result.owners.items ≡ [] }
{
    let players = case.values.len();
    Prefix {
        owners: ArrayVec::new(),
        low: alike(players, 0),
        high: alike(players, WHOLE_POINTS),
        top: greatest_sum(case),
    }
}

// The same points for each player.
fn alike(players: usize, points: u32) -> ArrayVec<u32, MEMBER_ROOM>
    requires { players ≤ MEMBER_ROOM }
    ensures { result.items ≡ map (λ _. points) (range_with_len 1 players) }
{
    let mut entries = ArrayVec::new();
    for _place in 0..players {
        entries.push(points);
    }
    entries
}

// The sum, over all goods, of the greatest points that any player gives each.
fn greatest_sum(case: &GoodsCase) -> u32
    requires { IsValidGoodsCase case.now }
    ensures { result ≡ sum_by (greatest_points case.now) (range_with_len 1 case.now.facts.goods) }
{
    let mut sum = 0;
    for k in 0..case.facts.goods {
        sum += greatest(case, k + 1);
    }
    sum
}

/// The prefix with one more owner, who gets the next good in the case's search order. Its bound is no higher.
pub fn extend(case: &GoodsCase, order: &[u8], prefix: &Prefix, owner: u8) -> Prefix
    requires case { IsValidGoodsCase case.now }
    requires order { order.now ≡ order_of case.now }
    requires prefix { IsPrefix case.now prefix.now }
    requires shorter { length prefix.now.owners.items < case.now.facts.goods }
    requires owner_low { 1 ≤ owner }
    requires owner_high { owner ≤ player_count case.now }
    ensures prefix { IsPrefix case.now result }
    ensures bound { HasBound result }
    ensures owners { result.owners.items ≡ prefix.now.owners.items ++ owner ∷ [] }
    ensures never_higher { (before after : Pair)
        → IsBound prefix.now.low.items prefix.now.high.items prefix.now.top before
        → IsBound result.low.items result.high.items result.top after → IsAtMost after before }
{
    let row = point_row(case, next_good(case, order, prefix));
    with_limits(case, prefix, owner, limits_after(case, &row, prefix, owner))
}

/// The same as `extend`, but from the case's table, which is faster.
pub fn extend_by(case: &GoodsCase, table: &PointTable, prefix: &Prefix, owner: u8) -> Prefix
    requires case { IsValidGoodsCase case.now }
    requires table { IsTable case.now table.now }
    requires prefix { IsPrefix case.now prefix.now }
    requires shorter { length prefix.now.owners.items < case.now.facts.goods }
    requires owner_low { 1 ≤ owner }
    requires owner_high { owner ≤ player_count case.now }
    ensures prefix { IsPrefix case.now result }
    ensures bound { HasBound result }
    ensures owners { result.owners.items ≡ prefix.now.owners.items ++ owner ∷ [] }
    ensures never_higher { (before after : Pair)
        → IsBound prefix.now.low.items prefix.now.high.items prefix.now.top before
        → IsBound result.low.items result.high.items result.top after → IsAtMost after before }
{
    let row = &table.rows[prefix.owners.len()];
    with_limits(case, prefix, owner, limits_after(case, row, prefix, owner))
}

// The first good in search order that has no owner yet.
fn next_good(case: &GoodsCase, order: &[u8], prefix: &Prefix) -> u8
    requires order { order.now ≡ order_of case.now }
    requires shorter { length prefix.now.owners.items < case.now.facts.goods }
    ensures is { result ≡ slice_index (order_of case.now) (length prefix.now.owners.items) }
    ensures low { 1 ≤ result }
    ensures high { result ≤ case.now.facts.goods }
{
    order[prefix.owners.len()]
}

// What a player gains if the owner gets a good to which the player gives these points.
fn gained(points: u32, owner: u8, player: u8) -> u32
    ensures value { result ≡ cond (owner == player) points 0 }
    ensures most { result ≤ points }
{
    if owner == player { points } else { 0 }
}

// What the players have and may have, and what all may have, once the owner gets the next good, whose points the row gives.
fn limits_after(case: &GoodsCase, row: &PointRow, prefix: &Prefix, owner: u8) -> Limits
    requires next { IsNext case.now prefix.now
        (slice_index (order_of case.now) (length prefix.now.owners.items)) owner }
    requires row { IsPointRow case.now
        (slice_index (order_of case.now) (length prefix.now.owners.items)) row.now }
    ensures low { result.low.items ≡ utilities case.now (prefix.now.owners.items ++ owner ∷ []) }
    ensures high { result.high.items ≡ highest case.now (prefix.now.owners.items ++ owner ∷ []) }
    ensures top { result.top ≡ top_of case.now (prefix.now.owners.items ++ owner ∷ []) }
{
    let mut low = ArrayVec::new();
    let mut high = ArrayVec::new();
    for k in 0..case.values.len() {
        let points = row.points[k];
        let gain = gained(points, owner, k as u8 + 1);
        low.push(prefix.low[k] + gain);
        high.push(prefix.high[k] - (points - gain));
    }
    Limits {
        low,
        high,
        top: prefix.top - row.greatest + row.points[owner as usize - 1],
    }
}

// The prefix with one more owner, and with these limits.
fn with_limits(case: &GoodsCase, prefix: &Prefix, owner: u8, limits: Limits) -> Prefix
    requires case { IsValidGoodsCase case.now }
    requires prefix { IsPrefix case.now prefix.now }
    requires shorter { length prefix.now.owners.items < case.now.facts.goods }
    requires owner_low { 1 ≤ owner }
    requires owner_high { owner ≤ player_count case.now }
    requires low { limits.low.items ≡ utilities case.now (prefix.now.owners.items ++ owner ∷ []) }
    requires high { limits.high.items ≡ highest case.now (prefix.now.owners.items ++ owner ∷ []) }
    requires top { limits.top ≡ top_of case.now (prefix.now.owners.items ++ owner ∷ []) }
    ensures prefix { IsPrefix case.now result }
    ensures bound { HasBound result }
    ensures owners { result.owners.items ≡ prefix.now.owners.items ++ owner ∷ [] }
    ensures never_higher { (before after : Pair)
        → IsBound prefix.now.low.items prefix.now.high.items prefix.now.top before
        → IsBound result.low.items result.high.items result.top after → IsAtMost after before }
{
    let mut owners = ArrayVec::new();
    owners
        .try_extend_from_slice(prefix.owners.as_slice())
        .unwrap();
    owners.push(owner);
    Prefix {
        owners,
        low: limits.low,
        high: limits.high,
        top: limits.top,
    }
}
