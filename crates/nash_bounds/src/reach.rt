// Finds out whether a bound reaches a goal, which is quicker than computing the bound.
ghost use Rattle.std.specs.Prelude.{◌≡◌, ◌<◌, ◌≤◌, [], ◌∷◌, ◌++◌, IfSome, true};
ghost use Rattle.bid_rules.specs.Goods.{IsValidGoodsCase, pair_of, player_count};
ghost use Rattle.nash_bounds.specs.Goals.{IsGoal, IsShort, is_reached};
ghost use Rattle.nash_bounds.specs.Levels.{bound_of};
ghost use Rattle.nash_bounds.specs.Prefixes.{prefix_bound};
ghost use Rattle.nash_bounds.specs.Lanes.{IsLaneTable, IsLanes, IsFork, HasFreeGood};
ghost use Rattle.nash_bounds.specs.Reach.{IsFitting, IsFlat, IsSpan};

use crate::fitting::{Fitting, fit, rising};
use crate::goals::Goal;
use crate::lanes::{LaneTable, Lanes, give, players};
use crate::levels::bound_between;
use crate::vectors::{count_positive, product_of};
use bid_rules::limits::{MEMBER_ROOM, WHOLE_POINTS};
use bid_rules::{GoodsCase, Pair};
use std::simd::prelude::*;

/// The lanes at a level at which they fit.
#[derive(Clone, Copy)]
pub(crate) struct Flat {
    /// The level, at most `WHOLE_POINTS`.
    pub(crate) level: u32,
    /// Roughly how many lanes rise there with the level.
    pub(crate) rising: u32,
    /// For each lane, its entry at the level.
    pub(crate) entries: u16x16,
    /// How much of the lanes' `top` the entries leave over.
    pub(crate) spare: u32,
    /// How many lanes may have points.
    pub(crate) open_lanes: u8,
    /// The product of the positive entries.
    pub(crate) product: u128,
}

/// Whether a bound reaches a goal, and a level near that of the bound.
#[derive(Clone, Copy)]
pub struct Reached {
    /// Whether it does.
    pub reaches: bool,
    /// The level, in points.
    pub level: u32,
}

/// The pair of the players' utilities under these owners.
pub fn pair_so_far(case: &GoodsCase, owners: &[u8], lanes: &Lanes) -> Pair
    requires valid { IsValidGoodsCase case.now }
    requires few { player_count case.now ≤ MEMBER_ROOM }
    requires lanes { IsLanes case.now owners.now lanes.now }
    ensures { result ≡ pair_of case.now owners.now }
{
    Pair {
        count: count_positive(lanes.low),
        product: product_of(lanes.low),
    }
}

// The lanes without the next good at a level at which they fit. This is quickest if `start` is near the level of the owners' bound.
pub(crate) fn flat_of(
    case: &GoodsCase,
    table: &LaneTable,
    owners: &[u8],
    lanes: &Lanes,
    start: u32,
) -> Flat
    requires table { IsLaneTable case.now table.now }
    requires open { HasFreeGood case.now owners.now }
    requires lanes { IsFork case.now owners.now lanes.now }
    ensures { IsFlat lanes.now result }
{
    let row = &table.rows[owners.len()];
    let fall = row.greatest / u32::from(players(case).max(1));
    flat_at(lanes, start.saturating_sub(fall))
}

// The product is greatest if what is left to give raises the lowest lanes to one level, so the bound can be read off from there.
fn flat_at(lanes: &Lanes, start: u32) -> Flat
    requires { IsSpan lanes.now }
    ensures { IsFlat lanes.now result }
{
    let at = fit(lanes, start);
    Flat {
        level: at.level,
        rising: rising(lanes.low, lanes.high, at.level),
        entries: at.entries,
        spare: at.spare,
        open_lanes: count_positive(lanes.high),
        product: product_of(at.entries),
    }
}

// Whether no list with this many more points than the entries reaches the goal's product: they multiply the entries' product by at most (2
// * level + spare) / (2 * level - spare).
fn is_short(at: &Fitting, product: u128, goal: &Goal) -> bool
    requires level { at.now.level ≤ WHOLE_POINTS }
    requires goal { IsGoal goal.now }
    ensures { result ≡ true → IsShort at.now.level at.now.spare product goal.now }
{
    let twice = 2 * at.level;
    if at.spare >= twice {
        return false;
    }
    let units = goal.units_above(product);
    units * u64::from(twice + at.spare) < goal.units * u64::from(twice - at.spare)
}

// Whether the greatest pair of a list between the lanes' low and high, and within their top, reaches the goal, as far as a level shows:
// the entries there are such a list.
fn by_level(lanes: &Lanes, at: &Fitting, goal: &Goal, beyond: bool) -> Option<bool>
    requires lanes { IsSpan lanes.now }
    requires at { IsFitting lanes.now at.now }
    requires goal { IsGoal goal.now }
    ensures { IfSome result (λ reaches.
        reaches
        ≡ is_reached goal.now.pair beyond (bound_of lanes.now.low lanes.now.high lanes.now.top)) }
{
    let open = count_positive(lanes.high);
    if at.level == 0 {
        return None;
    }
    if open != goal.pair.count {
        return Some(open > goal.pair.count);
    }
    let product = product_of(at.entries);
    let entries = Pair {
        count: open,
        product,
    };
    if reaches_by(goal.pair, beyond, entries) {
        return Some(true);
    }
    if is_short(at, product, goal) {
        return Some(false);
    }
    None
}

// Whether the greatest pair of a list between the lanes' low and high, and within their top, reaches the goal.
fn judge(lanes: &Lanes, start: u32, goal: &Goal, beyond: bool) -> Reached
    requires lanes { IsSpan lanes.now }
    requires goal { IsGoal goal.now }
    ensures { result.reaches
        ≡ is_reached goal.now.pair beyond (bound_of lanes.now.low lanes.now.high lanes.now.top) }
{
    let at = fit(lanes, start);
    let reaches = match by_level(lanes, &at, goal, beyond) {
        Some(reaches) => reaches,
        None => {
            let bound = bound_between(lanes.low, lanes.high, lanes.top, at.level);
            reaches_by(goal.pair, beyond, bound)
        }
    };
    Reached {
        reaches,
        level: at.level,
    }
}

// Whether the bound is at least the pair, or above it if it has to be.
fn reaches_by(pair: Pair, beyond: bool, bound: Pair) -> bool
    ensures { result ≡ is_reached pair beyond bound }
{
    if beyond { pair < bound } else { pair <= bound }
}

/// Whether the bound of the owners with these lanes is at least the goal's pair, or above it if it has to be. This is quickest if `start`
/// is near the bound's level.
pub fn reaches(
    case: &GoodsCase,
    owners: &[u8],
    lanes: &Lanes,
    start: u32,
    goal: &Goal,
    beyond: bool,
) -> Reached
    requires valid { IsValidGoodsCase case.now }
    requires few { player_count case.now ≤ MEMBER_ROOM }
    requires lanes { IsLanes case.now owners.now lanes.now }
    requires goal { IsGoal goal.now }
    ensures { result.reaches ≡ is_reached goal.now.pair beyond (prefix_bound case.now owners.now) }
{
    judge(lanes, start, goal, beyond)
}

/// Whether the bound of the owners with the next good given to this owner is at least the goal's pair, or above it if it has to be. This
/// is quickest if `start` is near the bound's level.
pub fn next_reaches(
    case: &GoodsCase,
    table: &LaneTable,
    owners: &[u8],
    owner: u8,
    lanes: &Lanes,
    start: u32,
    goal: &Goal,
    beyond: bool,
) -> Reached
    requires table { IsLaneTable case.now table.now }
    requires open { HasFreeGood case.now owners.now }
    requires owner_low { 1 ≤ owner }
    requires owner_high { owner ≤ player_count case.now }
    requires lanes { IsFork case.now owners.now lanes.now }
    requires goal { IsGoal goal.now }
    ensures { result.reaches
        ≡ is_reached goal.now.pair beyond (prefix_bound case.now (owners.now ++ owner ∷ [])) }
{
    let mut child = *lanes;
    give(case, table, owners, owner, &mut child);
    judge(&child, start, goal, beyond)
}
