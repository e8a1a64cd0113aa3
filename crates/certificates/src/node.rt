// The nodes of a tree: owners of the first few goods in search order. The tree leaves out a node below which no allocation is better.
ghost use Rattle.std.specs.Prelude.{◌≡◌, ℕ, List, ◌<◌, ◌≤◌, ◌++◌, [], ◌∷◌, length, true, false};
ghost use Rattle.bid_rules.specs.Goods.{AreOwners, IsValidGoodsCase, player_count};
ghost use Rattle.bid_rules.specs.declared.limits.TheConstants.{MEMBER_ROOM};
ghost use Rattle.certificates.specs.Nodes.{IsAnswer, IsNode};
ghost use Rattle.goods_rules.specs.Path.{IsParent};
ghost use Rattle.nash_bounds.specs.LeftOut.{may_be_left};
ghost use Rattle.nash_bounds.specs.Lanes.{IsFork, IsLanes, IsLaneTable, HasFreeGood};

use crate::goods_answer::Answer;
use arrayvec::ArrayVec;
use bid_rules::GoodsCase;
use bid_rules::limits::ITEM_ROOM;
use goods_rules::{Parent, parent_of};
use nash_bounds::{
    LaneTable, Lanes, empty_prefix, give, lanes_of, open_prefixes_law, players, reaches,
};

/// A node of the tree. A walk has one value of this type, which moves from node to node.
#[derive(Drop)]
pub(crate) struct Node {
    /// The owner, a player from 1, of each of the first few goods in search order.
    pub(crate) owners: ArrayVec<u8, ITEM_ROOM>,
    /// What the players have with these owners, and may have.
    pub(crate) lanes: Lanes,
    /// A level near that of the node's bound, in points.
    pub(crate) level: u32,
}

// The node without owners, at which a tree begins.
pub(crate) fn root_of(case: &GoodsCase) -> Node
    requires case { IsValidGoodsCase case.now }
    requires few { player_count case.now ≤ MEMBER_ROOM }
    ensures node { IsNode case.now result }
    ensures none { result.owners.items ≡ [] }
{
    let lanes = lanes_of(case, &empty_prefix(case));
    Node {
        owners: ArrayVec::new(),
        lanes,
        level: lanes.top / u32::from(players(case).max(1)),
    }
}

impl Node {
    // Everything that the node's children are judged by.
    pub(crate) fn parent(&self, case: &GoodsCase, table: &LaneTable, answer: &Answer) -> Parent
        requires table { IsLaneTable case.now table.now }
        requires answer { IsAnswer case.now answer.now }
        requires node { IsNode case.now self.now }
        requires shorter { length self.now.owners.items < case.now.facts.goods }
        ensures { IsParent case.now answer.now.goal.pair self.now.owners.items result }
    {
        let owners = self.owners.as_slice();
        parent_of(case, table, owners, &self.lanes, self.level, &answer.goal)
    }

    // Goes down to the child that gives the next good to the owner.
    fn descend(&mut self, case: &GoodsCase, table: &LaneTable, parent: &Parent, owner: u8)
        requires table { IsLaneTable case.now table.now }
        requires open { HasFreeGood case.now self.old.owners.items }
        requires lanes { IsFork case.now self.old.owners.items parent.now.lanes }
        requires owner_low { 1 ≤ owner }
        requires owner_high { owner ≤ player_count case.now }
        ensures owners { self.new.owners.items ≡ self.old.owners.items ++ owner ∷ [] }
        ensures lanes { IsLanes case.now (self.old.owners.items ++ owner ∷ []) self.new.lanes }
    {
        self.lanes = parent.lanes;
        give(case, table, self.owners.as_slice(), owner, &mut self.lanes);
        self.owners.push(owner);
        self.level = parent.contenders.level_of(owner);
    }

    // Goes up to the parent.
    pub(crate) fn ascend(&mut self)
        ensures { (owners : List ℕ) (owner : ℕ) → self.old.owners.items ≡ owners ++ owner ∷ []
            → self.new.owners.items ≡ owners }
    {
        let _ = self.owners.pop();
    }

    // Whether the tree may leave out the node. The node's level is then nearer to that of its bound.
    fn is_left_out(&mut self, case: &GoodsCase, answer: &Answer) -> bool
        requires valid { IsValidGoodsCase case.now }
        requires few { player_count case.now ≤ MEMBER_ROOM }
        requires answer { IsAnswer case.now answer.now }
        requires short { length self.old.owners.items ≤ case.now.facts.goods }
        requires lanes { IsLanes case.now self.old.owners.items self.old.lanes }
        ensures left { result ≡ may_be_left case.now answer.now.owners.items self.old.owners.items }
        ensures owners { self.new.owners.items ≡ self.old.owners.items }
        ensures lanes { self.new.lanes ≡ self.old.lanes }
    {
        open_prefixes_law();
        let owners = self.owners.as_slice();
        let beyond = answer.comes_before(owners);
        let reached = reaches(case, owners, &self.lanes, self.level, &answer.goal, beyond);
        self.level = reached.level;
        !reached.reaches
    }

    // Goes down to the child that gives the next good to the owner, unless the tree may leave it out, and says whether it went down. Most
    // children could not reach the answer's pair.
    pub(crate) fn open_child(
        &mut self,
        case: &GoodsCase,
        table: &LaneTable,
        answer: &Answer,
        parent: &Parent,
        owner: u8,
    ) -> bool
        requires table { IsLaneTable case.now table.now }
        requires answer { IsAnswer case.now answer.now }
        requires open { HasFreeGood case.now self.old.owners.items }
        requires owned { AreOwners case.now self.old.owners.items }
        requires parent { IsParent case.now answer.now.goal.pair self.old.owners.items parent.now }
        requires owner_low { 1 ≤ owner }
        requires owner_high { owner ≤ player_count case.now }
        ensures node { result ≡ true → IsNode case.now self.new }
        ensures owners { result ≡ true
            → self.new.owners.items ≡ self.old.owners.items ++ owner ∷ [] }
        ensures open { result ≡ true
            → may_be_left case.now answer.now.owners.items (self.old.owners.items ++ owner ∷ [])
            ≡ false }
        ensures same { result ≡ false → self.new.owners.items ≡ self.old.owners.items }
        ensures left { result ≡ false
            → may_be_left case.now answer.now.owners.items (self.old.owners.items ++ owner ∷ [])
            ≡ true }
    {
        open_prefixes_law();
        if !parent.contenders.has(owner) {
            return false;
        }
        self.descend(case, table, parent, owner);
        if self.is_left_out(case, answer) {
            self.ascend();
            return false;
        }
        true
    }
}
