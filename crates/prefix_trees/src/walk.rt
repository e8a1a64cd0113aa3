// A walk through a tree, node by node, in fixed memory.
ghost use Rattle.std.specs.Prelude.{◌≡◌, ◌≢◌, ℕ, ◌+◌, ◌<◌, ◌≤◌, ◌++◌, ◌∷◌, [], ◌↔◌, List, IfSome, IsTrue, length, slice_index_or, true, false};
ghost use Rattle.std.specs.declared.option.Option.TheVariants.{Some};
ghost use Rattle.bid_rules.specs.declared.limits.TheConstants.{MEMBER_ROOM};
ghost use Rattle.bid_rules.specs.Goods.{IsValidGoodsCase, player_count};
ghost use Rattle.prefix_trees.specs.Ahead.{AreForks, IsFirst, IsNextAfter, IsWalk, IsWalked, has_tree};
ghost use Rattle.prefix_trees.specs.Fronts.{IsFront};
ghost use Rattle.prefix_trees.specs.declared.limits.TheConstants.{RULE_ROOM};
ghost use Rattle.nash_bounds.specs.Lanes.{IsLaneTable, IsLanes};

use crate::closing::Closing;
use crate::limits::RULE_ROOM;
use arrayvec::ArrayVec;
use bid_rules::GoodsCase;
use bid_rules::limits::{ITEM_ROOM, MEMBER_ROOM};
use nash_bounds::{LaneTable, Lanes, empty_prefix, fork, give, lanes_of, players};

/// How far a walk through a tree has come.
#[derive(Drop)]
pub struct Walk<N> {
    /// The owners of the first few goods at the node that comes next.
    pub owners: ArrayVec<u8, ITEM_ROOM>,
    /// The nodes above it, from the root down, one for each of these goods.
    pub above: ArrayVec<N, ITEM_ROOM>,
    /// For each of these goods, what the players have and may have before it is given, without the good itself.
    pub forks: ArrayVec<Lanes, ITEM_ROOM>,
    /// Whether the whole tree has been read.
    pub whole: bool,
    /// Whether the nodes so far are those of one tree.
    pub kept: bool,
    /// By number, whether the rule holds of all leaves so far.
    pub holds: [bool; RULE_ROOM],
}

// Goes to the next sibling of a child, if there is one, and says whether it did.
fn to_sibling(owners: &mut ArrayVec<u8, ITEM_ROOM>, players: u8) -> bool
    requires child { 0 < length owners.old.items }
    requires players { players ≤ MEMBER_ROOM }
    ensures goes { result ≡ true
        → (above : List ℕ) × (owner : ℕ) × (owner < players)
        × (owners.old.items ≡ above ++ owner ∷ [])
        × (owners.new.items ≡ above ++ (owner + 1) ∷ []) }
    ensures stays { result ≡ false
        → (above : List ℕ) × (owner : ℕ) × (players ≤ owner)
        × (owners.old.items ≡ above ++ owner ∷ []) × (owners.new.items ≡ owners.old.items) }
{
    let Some((owner, above)) = owners.as_slice().split_last() else {
        return false;
    };
    let (owner, last) = (*owner, above.len());
    if owner >= players {
        return false;
    }
    owners[last] = owner + 1;
    true
}

// Leaves a node whose subtree has been read: goes to its next sibling, or to that of the nearest node above that has one. Says whether
// there is no such sibling.
fn climb(owners: &mut ArrayVec<u8, ITEM_ROOM>, players: u8) -> bool
    requires { players ≤ MEMBER_ROOM }
    ensures { IsNextAfter players owners.old.items result owners.new.items }
{
    'up: while owners.len() > 0 {
        if to_sibling(owners, players) {
            return false;
        }
        let _ = owners.pop();
    }
    true
}

// What the players have and may have under these owners, of which the last one is given the last of these goods.
fn lanes_at(case: &GoodsCase, table: &LaneTable, owners: &[u8], forks: &[Lanes]) -> Lanes
    requires case { IsValidGoodsCase case.now }
    requires table { IsLaneTable case.now table.now }
    requires front { IsFront case.now owners.now }
    requires forks { AreForks case.now owners.now forks.now }
    ensures { IsLanes case.now owners.now result }
{
    let Some((owner, above)) = owners.split_last() else {
        return lanes_of(case, &empty_prefix(case));
    };
    let mut lanes = forks[above.len()];
    give(case, table, above, *owner, &mut lanes);
    lanes
}

// Marks the rule as one that doesn't hold, if there is one.
fn mark_broken(holds: &mut [bool; RULE_ROOM], broken: Option<u8>)
    requires { IfSome broken (λ rule. rule < RULE_ROOM) }
    ensures { (number : ℕ)
        → IsTrue (slice_index_or holds.new number true)
        ↔ IsTrue (slice_index_or holds.old number true) × (broken ≢ Some number) }
{
    if let Some(rule) = broken {
        holds[rule as usize] = false;
    }
}

impl<N: Default + Drop> Walk<N> {
    /// Before the first node.
    pub fn new() -> Walk<N>
        ensures { IsFirst result }
    {
        Walk {
            owners: ArrayVec::new(),
            above: ArrayVec::new(),
            forks: ArrayVec::new(),
            whole: false,
            kept: true,
            holds: [true; RULE_ROOM],
        }
    }

    // Goes down to the first child of this node.
    fn enter(&mut self, case: &GoodsCase, table: &LaneTable, node: N)
        requires case { IsValidGoodsCase case.now }
        requires table { IsLaneTable case.now table.now }
        requires walk { IsWalk case.now self.old }
        requires open { length self.old.owners.items < case.now.facts.goods }
        requires going { self.old.whole ≡ false }
        ensures walk { IsWalk case.now self.new }
        ensures owners { self.new.owners.items ≡ self.old.owners.items ++ 1 ∷ [] }
        ensures above { self.new.above.items ≡ self.old.above.items ++ node ∷ [] }
        ensures whole { self.new.whole ≡ self.old.whole }
        ensures kept { self.new.kept ≡ self.old.kept }
        ensures holds { self.new.holds ≡ self.old.holds }
    {
        let mut lanes = lanes_at(case, table, self.owners.as_slice(), self.forks.as_slice());
        fork(case, table, self.owners.as_slice(), &mut lanes);
        self.forks.push(lanes);
        self.owners.push(1);
        self.above.push(node);
    }

    /// Takes one node.
    pub fn take<C: Closing<Node = N>>(
        &mut self,
        case: &GoodsCase,
        table: &LaneTable,
        closing: &C,
        node: N,
    )
        requires case { IsValidGoodsCase case.now }
        requires table { IsLaneTable case.now table.now }
        requires same { C.case closing.now ≡ case.now }
        requires ready { C.IsReady closing.now }
        requires walk { IsWalk case.now self.old }
        ensures walk { IsWalk case.now self.new }
        ensures walked { (taken : List N)
            → IsWalked C.IsInner (C.IsLeaf closing.now) case.now taken self.old
            → IsWalked C.IsInner (C.IsLeaf closing.now) case.now (taken ++ node ∷ []) self.new }
    {
        if self.whole {
            self.kept = false;
            return;
        }
        if C::is_inner(&node) {
            if self.owners.len() >= usize::from(case.facts.goods) {
                self.kept = false;
                return;
            }
            self.enter(case, table, node);
            return;
        }
        let lanes = lanes_at(case, table, self.owners.as_slice(), self.forks.as_slice());
        let broken = closing.broken_rule(
            self.owners.as_slice(),
            &lanes,
            self.above.as_slice(),
            &node,
        );
        mark_broken(&mut self.holds, broken);
        self.whole = climb(&mut self.owners, players(case));
        self.forks.truncate(self.owners.len());
        self.above.truncate(self.owners.len());
    }

    /// Whether the nodes are one tree, and the rule with this number holds of each of its leaves.
    pub fn has_tree(&self, rule: u8) -> bool
        requires { rule < RULE_ROOM }
        ensures { result ≡ has_tree self.now rule }
    {
        self.kept && self.whole && self.holds[rule as usize]
    }
}
