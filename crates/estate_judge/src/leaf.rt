// Judges the leaves of the tree of an estate.
ghost use Rattle.std.specs.Prelude.{◌≡◌, ◌≢◌, ◌↔◌, ℕ, ◌<◌, ◌≤◌, IsTrue, MatchOption, Some, length, true, false};
ghost use Rattle.bid_rules.specs.Goods.{IsValidGoodsCase, player_count};
ghost use Rattle.bid_rules.specs.declared.limits.TheConstants.{ITEM_ROOM};
ghost use Rattle.estate_judge.specs.Grounds.{IsGround};
ghost use Rattle.estate_judge.specs.Leaves.{KeepsRule, with_last};
ghost use Rattle.estate_judge.specs.Nodes.{IsInner};
ghost use Rattle.nash_bounds.specs.Lanes.{IsLanes};
ghost use Rattle.prefix_trees.specs.declared.limits.TheConstants.{RULE_ROOM};
ghost use Rattle.prefix_trees.specs.Fronts.{IsFront};
ghost use Rattle.prefix_trees.specs.Twins.{IsTwin};

use crate::ground::Ground;
use crate::node::{Kind, Node};
use arrayvec::ArrayVec;
use best_laws::players_law;
use bid_rules::GoodsCase;
use bid_rules::limits::ITEM_ROOM;
use nash_bounds::Lanes;
use prefix_trees::{Closing, is_twin};

/// The rule that the nodes are one tree.
pub const SHAPE_RULE: u8 = 3;
/// The rule on leaves below which goods are left to give.
pub const CLOSED_RULE: u8 = 6;
/// The rule on leaves that are closed where all goods are given.
pub const WHOLE_RULE: u8 = 7;
/// The rule on the answer's leaf.
pub const ANSWER_RULE: u8 = 8;
/// The rule on twins.
pub const TWIN_RULE: u8 = 9;

// The owners with other last ones.
fn with_last(owners: &[u8], last: &[u8]) -> ArrayVec<u8, ITEM_ROOM>
    requires few { length owners.now ≤ ITEM_ROOM }
    requires last { length last.now ≤ length owners.now }
    ensures { result.items ≡ with_last owners.now last.now }
{
    let front = owners.len() - last.len();
    let mut list = ArrayVec::new();
    for k in 0..front {
        list.push(owners[k]);
    }
    'twin: for k in 0..last.len() {
        list.push(last[k]);
    }
    list
}

// The rule, unless it holds.
fn unless(holds: bool, rule: u8) -> Option<u8>
    ensures { MatchOption result (holds ≡ true) (λ broken. (holds ≡ false) × (broken ≡ rule)) }
{
    if holds { None } else { Some(rule) }
}

impl Ground {
    // The rule that a closed leaf breaks.
    fn closed_breaks(&self, owners: &[u8], lanes: &Lanes, above: &[Node], node: &Node) -> Option<u8>
        requires ground { IsGround self.now }
        requires front { IsFront self.now.case owners.now }
        requires lanes { IsLanes self.now.case owners.now lanes.now }
        requires kind { node.now.kind ≡ Kind.Closed }
        ensures exact { (number : ℕ)
            → KeepsRule self.now.case self.now.owners.items number owners.now above.now node.now
            ↔ (result ≢ Some number) }
        ensures rule { MatchOption result (Unit {0}) (λ rule. rule < RULE_ROOM) }
    {
        if owners.len() < usize::from(self.case.facts.goods) {
            unless(self.closes(owners, lanes, above, node), CLOSED_RULE)
        } else {
            unless(self.units_close(owners, lanes), WHOLE_RULE)
        }
    }

    // The rule that the answer's leaf breaks.
    fn answer_breaks(&self, owners: &[u8], above: &[Node], node: &Node) -> Option<u8>
        requires kind { node.now.kind ≡ Kind.Answer }
        ensures exact { (number : ℕ)
            → KeepsRule self.now.case self.now.owners.items number owners.now above.now node.now
            ↔ (result ≢ Some number) }
        ensures rule { MatchOption result (Unit {0}) (λ rule. rule < RULE_ROOM) }
    {
        if owners.len() < usize::from(self.case.facts.goods) {
            return Some(SHAPE_RULE);
        }
        unless(owners == self.owners.as_slice(), ANSWER_RULE)
    }

    // The rule that a leaf with a twin breaks.
    fn twin_breaks(
        &self,
        owners: &[u8],
        lanes: &Lanes,
        above: &[Node],
        node: &Node,
        last: &ArrayVec<u8, ITEM_ROOM>,
    ) -> Option<u8>
        requires ground { IsGround self.now }
        requires front { IsFront self.now.case owners.now }
        requires lanes { IsLanes self.now.case owners.now lanes.now }
        requires kind { node.now.kind ≡ Kind.Twin last.now }
        ensures exact { (number : ℕ)
            → KeepsRule self.now.case self.now.owners.items number owners.now above.now node.now
            ↔ (result ≢ Some number) }
        ensures rule { MatchOption result (Unit {0}) (λ rule. rule < RULE_ROOM) }
    {
        if last.len() > owners.len() {
            return Some(SHAPE_RULE);
        }
        players_law();
        let twin = with_last(owners, last.as_slice());
        let is = is_twin(
            &self.case,
            &self.table,
            &self.alike,
            twin.as_slice(),
            owners,
            lanes,
        );
        unless(is, TWIN_RULE)
    }
}

impl Closing for Ground {
    type Node = Node;

    ghost case = { λ ground. ground.case };

    ghost IsReady = { λ ground. IsGround ground };

    ghost IsInner = { IsInner };

    ghost IsLeaf = { λ ground number owners above node. KeepsRule ground.case ground.owners.items number owners above node };

    fn is_inner(node: &Node) -> bool {
        match &node.kind {
            Kind::Inner => true,
            _ => false,
        }
    }

    fn broken_rule(&self, owners: &[u8], lanes: &Lanes, above: &[Node], node: &Node) -> Option<u8> {
        match &node.kind {
            Kind::Inner => None,
            Kind::Closed => self.closed_breaks(owners, lanes, above, node),
            Kind::Answer => self.answer_breaks(owners, above, node),
            Kind::Twin(last) => self.twin_breaks(owners, lanes, above, node, last),
        }
    }
}
