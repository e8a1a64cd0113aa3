// The search for the least dominating allocation.
ghost use Rattle.std.specs.Prelude.{◌≡◌, ℕ, ◌+◌, ◌-◌, ◌<◌, ◌≤◌, List, [], ◌∷◌, length, slice_index, Some, None, true, false};
ghost use Rattle.bid_rules.specs.Goods.{IsValidGoodsCase, player_count};
ghost use Rattle.bid_rules.specs.declared.limits.TheConstants.{ITEM_ROOM, MEMBER_ROOM, MOST_STEPS};
ghost use Rattle.nash_bounds.specs.Lanes.{IsLaneTable, IsLanes};
ghost use Rattle.goods_audit.specs.Domination.{OwnersByGood, leaves_room};
ghost use Rattle.goods_audit.specs.Paths.{LosesNothing, IsPath, IsSearched, to_come};

use crate::paths::Path;
use arrayvec::ArrayVec;
use bid_rules::GoodsCase;
use bid_rules::limits::ITEM_ROOM;
use nash_bounds::{LaneTable, Lanes, longer_prefix_law, players, search_order_law};
use nash_search::OverLimit;

// Whether each player may have as many points with a prefix as they have with a whole allocation.
fn may_all_have(case: &GoodsCase, whole: &Lanes, lanes: &Lanes) -> bool
    ensures each { result ≡ true → (player : ℕ) → 1 ≤ player → player ≤ player_count case.now
        → slice_index whole.now.low (player - 1) ≤ slice_index lanes.now.high (player - 1) }
    ensures some { result ≡ false
        → (player : ℕ) × (1 ≤ player) × (player ≤ player_count case.now)
        × (slice_index lanes.now.high (player - 1) < slice_index whole.now.low (player - 1)) }
{
    let had = whole.low.as_array();
    let may_have = lanes.high.as_array();
    for k in 0..players(case) as usize {
        if may_have[k] < had[k] {
            return false;
        }
    }
    true
}

// Whether a prefix leaves room for an allocation that dominates a whole one.
fn has_room(case: &GoodsCase, whole: &Lanes, lanes: &Lanes) -> bool
    requires few { player_count case.now ≤ MEMBER_ROOM }
    ensures { (owners prefix : List ℕ) → IsLanes case.now owners whole.now
        → length owners ≡ case.now.facts.goods → IsLanes case.now prefix lanes.now
        → result ≡ leaves_room case.now owners prefix }
{
    search_order_law();
    if lanes.top <= whole.top {
        return false;
    }
    may_all_have(case, whole, lanes)
}

// The allocation that was found first: the earlier one, or, if there is none, these owners.
fn first_of(
    first: Option<ArrayVec<u8, ITEM_ROOM>>,
    owners: &[u8],
) -> Option<ArrayVec<u8, ITEM_ROOM>>
    requires { length owners.now ≤ ITEM_ROOM }
    ensures earlier { (list : OwnersByGood) → first ≡ Some list → result ≡ Some list }
    ensures new { first ≡ None
        → (list : OwnersByGood) × (result ≡ Some list) × (list.items ≡ owners.now) }
{
    if let Some(list) = first {
        return Some(list);
    }
    Some(ArrayVec::try_from(owners).unwrap())
}

/// A search on a path, along which the prefixes are seen in rising order.
#[derive(Drop)]
pub(crate) struct Walk {
    /// The prefix that is seen next; there is none once no good has an owner.
    pub(crate) path: Path,
    /// How many of the prefixes seen so far leave room.
    pub(crate) openings: u32,
    /// The first allocation that was found, in search order.
    pub(crate) first: Option<ArrayVec<u8, ITEM_ROOM>>,
}

impl Walk {
    // Keeps the path, if it is the first allocation that is found.
    fn keep(&mut self)
        requires { length self.old.path.owners.items ≤ ITEM_ROOM }
        ensures path { self.new.path ≡ self.old.path }
        ensures openings { self.new.openings ≡ self.old.openings }
        ensures earlier { (list : OwnersByGood) → self.old.first ≡ Some list
            → self.new.first ≡ Some list }
        ensures new { self.old.first ≡ None
            → (list : OwnersByGood) × (self.new.first ≡ Some list)
            × (list.items ≡ self.old.path.owners.items) }
    {
        let first = self.first.take();
        self.first = first_of(first, self.path.owners.as_slice());
    }

    // Sees the prefix of the path and goes on to the next one.
    fn step(&mut self, case: &GoodsCase, table: &LaneTable, whole: &Lanes)
        requires case { IsValidGoodsCase case.now }
        requires table { IsLaneTable case.now table.now }
        requires path { IsPath case.now self.old.path }
        requires some { 0 < length self.old.path.owners.items }
        requires openings { self.old.openings ≤ MOST_STEPS }
        ensures path { IsPath case.now self.new.path }
        ensures openings { self.new.openings ≤ self.old.openings + 1 }
        ensures fewer { length (to_come case.now self.new.path.owners.items)
            < length (to_come case.now self.old.path.owners.items) }
        ensures goes { (owners : List ℕ) → IsLanes case.now owners whole.now
            → length owners ≡ case.now.facts.goods
            → LosesNothing case.now owners self.old self.new }
    {
        longer_prefix_law();
        if !has_room(case, whole, &self.path.lanes) {
            self.path.leave(case, table);
            return;
        }
        self.openings += 1;
        if self.path.owners.len() < case.facts.goods as usize {
            self.path.descend(case, table);
            return;
        }
        self.keep();
        self.path.leave(case, table);
    }
}

// The least allocation that dominates the whole one, in search order, if there is one, by a search from the prefix in which the first
// player has the first good.
pub(crate) fn search(
    case: &GoodsCase,
    table: &LaneTable,
    whole: &Lanes,
    start: Path,
) -> Result<Option<ArrayVec<u8, ITEM_ROOM>>, OverLimit>
    requires case { IsValidGoodsCase case.now }
    requires table { IsLaneTable case.now table.now }
    requires path { IsPath case.now start }
    requires first { start.owners.items ≡ 1 ∷ [] }
    ensures { (owners : List ℕ) → IsLanes case.now owners whole.now
        → length owners ≡ case.now.facts.goods → IsSearched case.now owners result }
{
    let limit = case.facts.limit;
    let mut walk = Walk {
        path: start,
        openings: 0,
        first: None,
    };
    'prefixes: while !walk.path.owners.is_empty() && walk.openings <= limit {
        walk.step(case, table, whole);
    }
    if walk.openings > limit {
        return Err(OverLimit { limit });
    }
    Ok(walk.first)
}
