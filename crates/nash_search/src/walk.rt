// The walk down and up the prefixes of a task, which counts them one by one.
ghost use Rattle.std.specs.Prelude.{◌≡◌, ℕ, ◌+◌, ◌<◌, ◌≤◌, ◌^◌, List, [], ◌∷◌, ◌++◌, length, reverse, cond, All, true, false, None};
ghost use Rattle.std.specs.List.{filter, range_with_len};
ghost use Rattle.bid_rules.specs.declared.goods.GoodsCase.{GoodsCase};
ghost use Rattle.bid_rules.specs.Goods.{IsValidGoodsCase, player_count, AreOwners, pair_of};
ghost use Rattle.nash_bounds.specs.Lanes.{IsLaneTable, IsLanes, IsFork, HasFreeGood};
ghost use Rattle.nash_bounds.specs.Prefixes.{IsPrefix};
ghost use Rattle.nash_bounds.specs.Allocations.{keep};
ghost use Rattle.nash_bounds.specs.Counted.{is_counted};
ghost use Rattle.nash_search.specs.Best.{IsKept, list_of};
ghost use Rattle.nash_search.specs.declared.levels.Level.{Level};
ghost use Rattle.nash_search.specs.Waiting.{AreRules, IsWalk, IsReadyForNext, WalksOn, to_come, count_all, best_all};

use crate::found::{Found, copied};
use crate::levels::{Level, Turn, next_level};
use crate::rules::Rules;
use arrayvec::ArrayVec;
use bid_rules::GoodsCase;
use bid_rules::limits::{ITEM_ROOM, MEMBER_ROOM};
use nash_bounds::{
    LaneTable, Lanes, Pair, Prefix, Reached, bound_law, give, lanes_of, pair_so_far, reaches, take,
};

/// A walk on a path: the owners of the prefix that was counted last, and for it and each shorter one a level with those owners of the next
/// good who still wait.
#[derive(Drop)]
pub(crate) struct Walk {
    pub(crate) rules: Rules,
    pub(crate) table: LaneTable,
    pub(crate) path: ArrayVec<u8, ITEM_ROOM>,
    pub(crate) levels: ArrayVec<Level, ITEM_ROOM>,
    pub(crate) nodes: u32,
    pub(crate) best: Option<Found>,
}

// Keeps an allocation that is better than the best so far.
fn offer(best: Option<Found>, pair: Pair, owners: &[u8]) -> Option<Found>
    requires { length owners.now ≤ ITEM_ROOM }
    ensures { (case : GoodsCase) → IsKept case best → pair ≡ pair_of case owners.now
        → IsKept case result × (list_of result ≡ keep case (list_of best) owners.now) }
{
    if let Some(found) = best {
        if found.pair >= pair {
            return Some(found);
        }
    }
    Some(Found {
        pair,
        list: copied(owners),
    })
}

impl Walk {
    // Gives the next good to the owner, and returns the lanes of the longer path.
    fn descend(&mut self, case: &GoodsCase, turn: &Turn) -> Lanes
        requires table { IsLaneTable case.now self.old.table }
        requires fork { IsFork case.now self.old.path.items turn.now.lanes }
        requires open { HasFreeGood case.now self.old.path.items }
        requires owner_low { 1 ≤ turn.now.owner }
        requires owner_high { turn.now.owner ≤ player_count case.now }
        ensures path { self.new.path.items ≡ self.old.path.items ++ turn.now.owner ∷ [] }
        ensures lanes { IsLanes case.now (self.old.path.items ++ turn.now.owner ∷ []) result }
        ensures frame { self.new ≡ record self.old { path = self.new.path } }
    {
        let mut lanes = turn.lanes;
        give(
            case,
            &self.table,
            self.path.as_slice(),
            turn.owner,
            &mut lanes,
        );
        self.path.push(turn.owner);
        lanes
    }

    // Whether nobody is waiting at the last level.
    fn is_stuck(&self) -> bool
        ensures stuck { result ≡ true
            → (front : List Level) × (last : Level) × (self.now.levels.items ≡ front ++ last ∷ [])
            × (last.owners.items ≡ []) }
        ensures settled { result ≡ false → IsReadyForNext self.now }
    {
        match self.levels.last() {
            Some(level) => level.owners.is_empty(),
            None => false,
        }
    }

    // Leaves the last level, at which nobody is waiting.
    fn back(&mut self, case: &GoodsCase)
        requires case { IsValidGoodsCase case.now }
        requires walk { IsWalk case.now self.old }
        requires stuck { (front : List Level) × (last : Level)
            × (self.old.levels.items ≡ front ++ last ∷ []) × (last.owners.items ≡ []) }
        ensures walk { IsWalk case.now self.new }
        ensures same { to_come self.new ≡ to_come self.old }
        ensures frame { self.new
            ≡ record self.old { path = self.new.path; levels = self.new.levels } }
        ensures fewer { length self.new.levels.items + 1 ≡ length self.old.levels.items }
    {
        let _ = self.levels.pop();
        let _ = self.path.pop();
    }

    // Leaves the last levels at which nobody is waiting.
    fn settle(&mut self, case: &GoodsCase)
        requires case { IsValidGoodsCase case.now }
        requires walk { IsWalk case.now self.old }
        ensures walk { IsWalk case.now self.new }
        ensures same { to_come self.new ≡ to_come self.old }
        ensures frame { self.new
            ≡ record self.old { path = self.new.path; levels = self.new.levels } }
        ensures settled { IsReadyForNext self.new }
    {
        'levels: while self.is_stuck() {
            self.back(case);
        }
    }

    // The next prefix that waits.
    fn next(&mut self, case: &GoodsCase) -> Turn
        requires case { IsValidGoodsCase case.now }
        requires walk { IsWalk case.now self.old }
        requires settled { IsReadyForNext self.old }
        requires some { 0 < length self.old.levels.items }
        ensures walk { IsWalk case.now self.new }
        ensures here { length self.new.levels.items ≡ length self.new.path.items + 1 }
        ensures frame { self.new ≡ record self.old { levels = self.new.levels } }
        ensures next { to_come self.old
            ≡ (self.old.path.items ++ result.owner ∷ []) ∷ to_come self.new }
        ensures owner { (1 ≤ result.owner) × (result.owner ≤ player_count case.now) }
        ensures fork { IsFork case.now self.old.path.items result.lanes }
        ensures counted { is_counted case.now self.old.rules.floor self.old.rules.above
            (self.old.path.items ++ result.owner ∷ []) ≡ true }
    {
        let last = self.levels.len() - 1;
        self.levels[last].turn()
    }

    // Goes on to the prefix: offers it if it is an allocation, and otherwise sees who waits after it.
    fn enter(&mut self, case: &GoodsCase, turn: &Turn)
        requires case { IsValidGoodsCase case.now }
        requires walk { IsWalk case.now self.old }
        requires here { length self.old.levels.items ≡ length self.old.path.items + 1 }
        requires owner_low { 1 ≤ turn.now.owner }
        requires owner_high { turn.now.owner ≤ player_count case.now }
        requires fork { IsFork case.now self.old.path.items turn.now.lanes }
        requires counted { is_counted case.now self.old.rules.floor self.old.rules.above
            (self.old.path.items ++ turn.now.owner ∷ []) ≡ true }
        ensures walk { IsWalk case.now self.new }
        ensures nodes { self.new.nodes ≡ self.old.nodes }
        ensures rules { self.new.rules ≡ self.old.rules }
        ensures count { 1
            + count_all case.now self.old.rules.floor self.old.rules.above (to_come self.new)
            ≡ count_all case.now self.old.rules.floor self.old.rules.above
            ((self.old.path.items ++ turn.now.owner ∷ []) ∷ to_come self.old) }
        ensures best { best_all case.now self.old.rules.floor self.old.rules.above
            (to_come self.new) (list_of self.new.best)
            ≡ best_all case.now self.old.rules.floor self.old.rules.above
            ((self.old.path.items ++ turn.now.owner ∷ []) ∷ to_come self.old)
            (list_of self.old.best) }
    {
        bound_law();
        let lanes = self.descend(case, turn);
        if self.path.len() == case.facts.goods as usize {
            self.offer(case, &lanes);
            let _ = self.path.pop();
        } else {
            self.look(case, &lanes, turn.start);
        }
    }

    // Keeps the allocation of the path, if it is better than the best so far.
    fn offer(&mut self, case: &GoodsCase, lanes: &Lanes)
        requires case { IsValidGoodsCase case.now }
        requires few { player_count case.now ≤ MEMBER_ROOM }
        requires lanes { IsLanes case.now self.old.path.items lanes.now }
        requires whole { length self.old.path.items ≡ case.now.facts.goods }
        requires kept { IsKept case.now self.old.best }
        ensures kept { IsKept case.now self.new.best }
        ensures best { list_of self.new.best
            ≡ keep case.now (list_of self.old.best) self.old.path.items }
        ensures frame { self.new ≡ record self.old { best = self.new.best } }
    {
        let pair = pair_so_far(case, self.path.as_slice(), lanes);
        let best = self.best.take();
        self.best = offer(best, pair, self.path.as_slice());
    }

    // Sees which owners of the next good wait.
    fn look(&mut self, case: &GoodsCase, lanes: &Lanes, start: u32)
        requires table { IsLaneTable case.now self.old.table }
        requires open { HasFreeGood case.now self.old.path.items }
        requires lanes { IsLanes case.now self.old.path.items lanes.now }
        requires rules { AreRules self.old.rules }
        requires levels { length self.old.levels.items ≤ length self.old.path.items }
        ensures levels { (level : Level)
            × (self.new.levels.items ≡ self.old.levels.items ++ level ∷ [])
            × AreOwners case.now level.owners.items
            × IsFork case.now self.old.path.items level.lanes
            × (reverse level.owners.items
            ≡ filter
            (λ owner.
            is_counted case.now self.old.rules.floor self.old.rules.above
            (self.old.path.items ++ owner ∷ [])) (range_with_len 1 (player_count case.now))) }
        ensures frame { self.new ≡ record self.old { levels = self.new.levels } }
    {
        let level = next_level(
            case,
            &self.table,
            self.path.as_slice(),
            lanes,
            start,
            &self.rules,
        );
        self.levels.push(level);
    }

    // Counts the next prefix that waits.
    fn step(&mut self, case: &GoodsCase)
        requires case { IsValidGoodsCase case.now }
        requires walk { IsWalk case.now self.old }
        requires settled { IsReadyForNext self.old }
        requires some { 0 < length self.old.levels.items }
        requires fits { self.old.nodes + 1 < 2 ^ 32 }
        ensures walk { IsWalk case.now self.new }
        ensures goes { WalksOn case.now self.old self.new }
        ensures nodes { self.new.nodes ≡ self.old.nodes + 1 }
        ensures settled { IsReadyForNext self.new }
    {
        let turn = self.next(case);
        self.enter(case, &turn);
        self.nodes += 1;
        self.settle(case);
    }

    // Counts up to this many further prefixes, and says whether all have been counted.
    pub(crate) fn run(&mut self, case: &GoodsCase, most: u32) -> bool
        requires case { IsValidGoodsCase case.now }
        requires walk { IsWalk case.now self.old }
        requires settled { IsReadyForNext self.old }
        requires fits { self.old.nodes + most < 2 ^ 32 }
        ensures walk { IsWalk case.now self.new }
        ensures goes { WalksOn case.now self.old self.new }
        ensures settled { IsReadyForNext self.new }
        ensures end { result ≡ true → to_come self.new ≡ [] }
        ensures few { self.new.nodes ≤ self.old.nodes + most }
        ensures more { result ≡ false
            → (self.new.nodes ≡ self.old.nodes + most)
            ×
            (0 < count_all case.now self.old.rules.floor self.old.rules.above (to_come self.new)) }
    {
        'pieces: for _k in 0..most {
            if self.levels.is_empty() {
                return true;
            }
            self.step(case);
        }
        self.levels.is_empty()
    }
}

// A walk that still has the prefix and those below it to come.
pub(crate) fn start(case: &GoodsCase, table: LaneTable, prefix: &Prefix, rules: Rules) -> Walk
    requires case { IsValidGoodsCase case.now }
    requires table { IsLaneTable case.now table }
    requires prefix { IsPrefix case.now prefix.now }
    requires some { 0 < length prefix.now.owners.items }
    requires rules { AreRules rules }
    ensures walk { IsWalk case.now result }
    ensures settled { IsReadyForNext result }
    ensures rules { result.rules ≡ rules }
    ensures nodes { result.nodes ≡ 0 }
    ensures best { result.best ≡ None }
    ensures come { to_come result
        ≡ cond (is_counted case.now rules.floor rules.above prefix.now.owners.items)
        (prefix.now.owners.items ∷ []) [] }
{
    let mut lanes = lanes_of(case, prefix);
    let mut path = copied(prefix.owners.as_slice());
    let reached = reaches(
        case,
        prefix.owners.as_slice(),
        &lanes,
        prefix.top / MEMBER_ROOM as u32,
        &rules.goal,
        rules.beyond,
    );
    let owner = path.pop().unwrap();
    take(case, &table, path.as_slice(), owner, &mut lanes);
    let levels = first_levels(path.len(), lanes, owner, reached);
    Walk {
        rules,
        table,
        path,
        levels,
        nodes: 0,
        best: None,
    }
}

// The levels of a path to this owner: one for each of the owners before, at which nobody is waiting, and one at which this owner is
// waiting. There are none if the bound doesn't reach what it has to.
fn first_levels(
    owners: usize,
    lanes: Lanes,
    owner: u8,
    reached: Reached,
) -> ArrayVec<Level, ITEM_ROOM>
    requires { owners < ITEM_ROOM }
    ensures none { reached.reaches ≡ false → result.items ≡ [] }
    ensures one { reached.reaches ≡ true
        → (front : List Level) × (last : Level) × (result.items ≡ front ++ last ∷ [])
        × (length front ≡ owners) × All (λ (l : Level). l.owners.items ≡ []) front
        × (last.owners.items ≡ owner ∷ []) × (last.lanes ≡ lanes) }
{
    let mut levels = ArrayVec::new();
    if !reached.reaches {
        return levels;
    }
    'blanks: for _k in 0..owners {
        levels.push(Level::blank(lanes));
    }
    let mut last = Level::blank(lanes);
    last.put(owner, reached);
    levels.push(last);
    levels
}
