// The path from the root of the tree to the node that comes next.
ghost use Rattle.std.specs.Prelude.{◌≡◌, ℕ, [], ◌∷◌, ◌++◌, ◌+◌, ◌<◌, ◌≤◌, ◌↔◌, List, length, reverse, take, true, false};
ghost use Rattle.bid_rules.specs.declared.goods.GoodsCase.{GoodsCase};
ghost use Rattle.bid_rules.specs.declared.pair.Pair.{Pair};
ghost use Rattle.bid_rules.specs.declared.limits.TheConstants.{MEMBER_ROOM};
ghost use Rattle.bid_rules.specs.Goods.{player_count};
ghost use Rattle.goods_rules.specs.Ahead.{FinishesBehind, FinishesTree};
ghost use Rattle.goods_rules.specs.Path.{IsGoodsAnswer, IsParent, IsPath};
ghost use Rattle.goods_rules.specs.Rules.{leaf_rule};
ghost use Rattle.nash_bounds.specs.Lanes.{IsLanes};
ghost use Rattle.nash_bounds.specs.LeftOut.{may_be_left};

use crate::answer::Answer;
use crate::parent::{Parent, parent_of};
use arrayvec::ArrayVec;
use bid_rules::limits::{ITEM_ROOM, MEMBER_ROOM};
use nash_bounds::{Lanes, empty_prefix, give, lanes_of, open_prefixes_law, players, reaches};

/// The path to a node.
#[derive(Drop)]
pub struct Path {
    /// The owner of each of the first few goods, in search order.
    pub owners: ArrayVec<u8, ITEM_ROOM>,
    /// What the children of each node above are judged by, from the root on.
    pub parents: ArrayVec<Parent, ITEM_ROOM>,
}

impl Path {
    // The path to the root.
    pub(crate) fn new() -> Path
        ensures path { (case : GoodsCase) (pair : Pair) → IsPath case pair result }
        ensures none { result.owners.items ≡ [] }
    {
        Path {
            owners: ArrayVec::new(),
            parents: ArrayVec::new(),
        }
    }

    // What the players have and may have.
    fn lanes(&self, answer: &Answer) -> Lanes
        requires answer { IsGoodsAnswer answer.now }
        requires path { IsPath answer.now.case answer.now.goal.pair self.now }
        ensures { IsLanes answer.now.case self.now.owners.items result }
    {
        let Some((owner, owners)) = self.owners.as_slice().split_last() else {
            return lanes_of(&answer.case, &empty_prefix(&answer.case));
        };
        let mut lanes = self.parents[owners.len()].lanes;
        give(&answer.case, &answer.table, owners, *owner, &mut lanes);
        lanes
    }

    // A level near that of the node's bound; for the root it comes from the node's lanes.
    fn level(&self, answer: &Answer, lanes: &Lanes) -> u32
        requires answer { IsGoodsAnswer answer.now }
        requires path { IsPath answer.now.case answer.now.goal.pair self.now }
    {
        let Some((owner, owners)) = self.owners.as_slice().split_last() else {
            return lanes.top / u32::from(players(&answer.case).max(1));
        };
        self.parents[owners.len()].contenders.level_of(*owner)
    }

    // What the children of the node are judged by.
    fn parent(&self, answer: &Answer) -> Parent
        requires answer { IsGoodsAnswer answer.now }
        requires path { IsPath answer.now.case answer.now.goal.pair self.now }
        requires open { length self.now.owners.items < answer.now.case.facts.goods }
        ensures { IsParent answer.now.case answer.now.goal.pair self.now.owners.items result }
    {
        let owners = self.owners.as_slice();
        let lanes = self.lanes(answer);
        let level = self.level(answer, &lanes);
        parent_of(
            &answer.case,
            &answer.table,
            owners,
            &lanes,
            level,
            &answer.goal,
        )
    }

    // Goes down to the first child.
    pub(crate) fn enter(&mut self, answer: &Answer)
        requires answer { IsGoodsAnswer answer.now }
        requires path { IsPath answer.now.case answer.now.goal.pair self.old }
        requires open { length self.old.owners.items < answer.now.case.facts.goods }
        ensures path { IsPath answer.now.case answer.now.goal.pair self.new }
        ensures owners { self.new.owners.items ≡ self.old.owners.items ++ 1 ∷ [] }
    {
        let parent = self.parent(answer);
        self.parents.push(parent);
        self.owners.push(1);
    }

    // Goes to the next sibling of a child, if there is one, and says whether it did.
    fn to_sibling(&mut self, players: u8) -> bool
        requires child { 0 < length self.old.owners.items }
        requires players { players ≤ MEMBER_ROOM }
        ensures parents { self.new.parents.items ≡ self.old.parents.items }
        ensures goes { result ≡ true
            → (above : List ℕ) × (owner : ℕ) × (owner < players)
            × (self.old.owners.items ≡ above ++ owner ∷ [])
            × (self.new.owners.items ≡ above ++ (owner + 1) ∷ []) }
        ensures stays { result ≡ false
            → (above : List ℕ) × (owner : ℕ) × (players ≤ owner)
            × (self.old.owners.items ≡ above ++ owner ∷ [])
            × (self.new.owners.items ≡ self.old.owners.items) }
    {
        let Some((owner, above)) = self.owners.as_slice().split_last() else {
            return false;
        };
        let (owner, last) = (*owner, above.len());
        if owner >= players {
            return false;
        }
        self.owners[last] = owner + 1;
        true
    }

    // Goes up to the parent.
    fn ascend(&mut self)
        ensures owners { (above : List ℕ) (owner : ℕ) → self.old.owners.items ≡ above ++ owner ∷ []
            → self.new.owners.items ≡ above }
        ensures parents { self.new.parents.items
            ≡ take (length self.new.owners.items) self.old.parents.items }
    {
        let _ = self.owners.pop();
        self.parents.truncate(self.owners.len());
    }

    // Leaves a node whose subtree has been read: goes to its next sibling, or to that of the nearest node above that has one. Says whether
    // there is no such sibling.
    #[inline(never)]
    fn climb_up(&mut self, players: u8) -> bool
        requires players { players ≤ MEMBER_ROOM }
        ensures path { (case : GoodsCase) (pair : Pair) → player_count case ≡ players
            → IsPath case pair self.old → IsPath case pair self.new }
        ensures left { (case : GoodsCase) (answer : List ℕ) (number : ℕ) (marks : List ℕ)
            → FinishesBehind (leaf_rule case answer number) players case.facts.goods
            (reverse self.old.owners.items) marks
            ↔ FinishesTree (leaf_rule case answer number) players case.facts.goods result
            self.new.owners.items marks }
        ensures ended { result ≡ true → self.new.owners.items ≡ [] }
    {
        'up: while self.owners.len() > 0 {
            if self.to_sibling(players) {
                return false;
            }
            self.ascend();
        }
        true
    }

    // The same, but faster for most nodes: they have a sibling, so no node above has to be left.
    pub(crate) fn climb(&mut self, players: u8) -> bool
        requires players { players ≤ MEMBER_ROOM }
        ensures path { (case : GoodsCase) (pair : Pair) → player_count case ≡ players
            → IsPath case pair self.old → IsPath case pair self.new }
        ensures left { (case : GoodsCase) (answer : List ℕ) (number : ℕ) (marks : List ℕ)
            → FinishesBehind (leaf_rule case answer number) players case.facts.goods
            (reverse self.old.owners.items) marks
            ↔ FinishesTree (leaf_rule case answer number) players case.facts.goods result
            self.new.owners.items marks }
        ensures ended { result ≡ true → self.new.owners.items ≡ [] }
    {
        if self.owners.is_empty() {
            return true;
        }
        if self.to_sibling(players) {
            return false;
        }
        self.climb_up(players)
    }

    // Whether the node is a child that could not reach the answer's pair, and so may be left out.
    pub(crate) fn is_far(&self, answer: &Answer) -> bool
        requires answer { IsGoodsAnswer answer.now }
        requires path { IsPath answer.now.case answer.now.goal.pair self.now }
        ensures child { result ≡ true → 0 < length self.now.owners.items }
        ensures left { result ≡ true
            → may_be_left answer.now.case answer.now.owners.items self.now.owners.items ≡ true }
    {
        open_prefixes_law();
        let Some((owner, owners)) = self.owners.as_slice().split_last() else {
            return false;
        };
        !self.parents[owners.len()].contenders.has(*owner)
    }

    // Whether the node may be left out: no allocation below it comes before the answer.
    pub(crate) fn may_be_left(&self, answer: &Answer) -> bool
        requires answer { IsGoodsAnswer answer.now }
        requires path { IsPath answer.now.case answer.now.goal.pair self.now }
        ensures { result
            ≡ may_be_left answer.now.case answer.now.owners.items self.now.owners.items }
    {
        open_prefixes_law();
        let owners = self.owners.as_slice();
        let lanes = self.lanes(answer);
        let level = self.level(answer, &lanes);
        let beyond = answer.comes_before(owners);
        let reached = reaches(&answer.case, owners, &lanes, level, &answer.goal, beyond);
        !reached.reaches
    }
}
