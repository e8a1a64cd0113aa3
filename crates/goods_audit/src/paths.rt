// The prefix that the audit's search for a dominating allocation has come to. It is changed in place.
ghost use Rattle.std.specs.Prelude.{◌≡◌, ◌⊎◌, ℕ, ◌+◌, ◌<◌, ◌≤◌, List, [], ◌∷◌, ◌++◌, length, true, false};
ghost use Rattle.bid_rules.specs.Goods.{AreOwners, IsValidGoodsCase, player_count};
ghost use Rattle.nash_bounds.specs.Lanes.{IsLaneTable};
ghost use Rattle.goods_audit.specs.Paths.{IsPath, later_ones, to_come};

use arrayvec::ArrayVec;
use bid_rules::GoodsCase;
use bid_rules::limits::ITEM_ROOM;
use nash_bounds::{LaneTable, Lanes, fork, give, join, players, take};

/// Owners of the first few goods in search order.
#[derive(Drop)]
pub(crate) struct Path {
    /// The owner, a player from 1, of each of these goods.
    pub(crate) owners: ArrayVec<u8, ITEM_ROOM>,
    /// What each player has with these owners, and may have with the other goods.
    pub(crate) lanes: Lanes,
}

impl Path {
    // Gives the next good to the first player.
    pub(crate) fn descend(&mut self, case: &GoodsCase, table: &LaneTable)
        requires case { IsValidGoodsCase case.now }
        requires table { IsLaneTable case.now table.now }
        requires path { IsPath case.now self.old }
        requires open { length self.old.owners.items < case.now.facts.goods }
        ensures path { IsPath case.now self.new }
        ensures owners { self.new.owners.items ≡ self.old.owners.items ++ 1 ∷ [] }
    {
        fork(case, table, self.owners.as_slice(), &mut self.lanes);
        give(case, table, self.owners.as_slice(), 1, &mut self.lanes);
        self.owners.push(1);
    }

    // Whether the last good has the last player as its owner.
    fn is_last(&self, case: &GoodsCase) -> bool
        requires path { IsPath case.now self.now }
        ensures last { result ≡ true
            → (front : List ℕ) × (self.now.owners.items ≡ front ++ player_count case.now ∷ []) }
        ensures before { result ≡ false
            → (self.now.owners.items ≡ [])
            ⊎ ((front : List ℕ) × (owner : ℕ) × (self.now.owners.items ≡ front ++ owner ∷ [])
            × (owner < player_count case.now)) }
    {
        match self.owners.last() {
            Some(owner) => *owner == players(case),
            None => false,
        }
    }

    // Takes the last good from its owner.
    fn ascend(&mut self, case: &GoodsCase, table: &LaneTable)
        requires case { IsValidGoodsCase case.now }
        requires table { IsLaneTable case.now table.now }
        requires path { IsPath case.now self.old }
        requires some { 0 < length self.old.owners.items }
        ensures path { IsPath case.now self.new }
        ensures owners { (owner : ℕ)
            × (self.old.owners.items ≡ self.new.owners.items ++ owner ∷ []) }
    {
        if let Some(owner) = self.owners.pop() {
            take(case, table, self.owners.as_slice(), owner, &mut self.lanes);
            join(case, table, self.owners.as_slice(), &mut self.lanes);
        }
    }

    // Takes the last good from its owner and gives it to the next player.
    fn turn(&mut self, case: &GoodsCase, table: &LaneTable)
        requires case { IsValidGoodsCase case.now }
        requires table { IsLaneTable case.now table.now }
        requires path { IsPath case.now self.old }
        requires before { (front : List ℕ) × (owner : ℕ)
            × (self.old.owners.items ≡ front ++ owner ∷ []) × (owner < player_count case.now) }
        ensures path { IsPath case.now self.new }
        ensures owners { (front : List ℕ) × (owner : ℕ)
            × (self.old.owners.items ≡ front ++ owner ∷ []) × (owner < player_count case.now)
            × (self.new.owners.items ≡ front ++ (owner + 1) ∷ []) }
    {
        if let Some(owner) = self.owners.pop() {
            take(case, table, self.owners.as_slice(), owner, &mut self.lanes);
            give(
                case,
                table,
                self.owners.as_slice(),
                owner + 1,
                &mut self.lanes,
            );
            self.owners.push(owner + 1);
        }
    }

    // Leaves the prefix with all that begin with it, for the first one after them.
    pub(crate) fn leave(&mut self, case: &GoodsCase, table: &LaneTable)
        requires case { IsValidGoodsCase case.now }
        requires table { IsLaneTable case.now table.now }
        requires path { IsPath case.now self.old }
        ensures path { IsPath case.now self.new }
        ensures next { to_come case.now self.new.owners.items
            ≡ later_ones case.now self.old.owners.items }
    {
        'full: while self.is_last(case) {
            self.ascend(case, table);
        }
        if !self.owners.is_empty() {
            self.turn(case, table);
        }
    }
}
