// Why the leaves of a tree that keeps the rules show the best allocation.
ghost use Rattle.std.specs.Prelude.{◌≡◌, ℕ, ◌≤◌, List, length};
ghost use Rattle.bid_rules.specs.declared.goods.GoodsCase.{GoodsCase};
ghost use Rattle.bid_rules.specs.Goods.{GoodsBest, IsAllocation, IsValidGoodsCase, player_count, utilities};
ghost use Rattle.bid_rules.specs.Pairs.{positives};
ghost use Rattle.bid_rules.specs.declared.limits.TheConstants.{MEMBER_ROOM};
ghost use Rattle.estate_bounds.specs.Counts.{IsCountLimit};
ghost use Rattle.estate_judge.specs.declared.node.Node.{Node};
ghost use Rattle.estate_judge.specs.Leaves.{KeepsRule};
ghost use Rattle.estate_judge.specs.Nodes.{AreNodes, IsInner, StandsFirst};
ghost use Rattle.estate_texts.specs.Given.{GivenLine};
ghost use Rattle.prefix_trees.specs.Leaves.{AnyLeaf, HasLeaf};
ghost use Rattle.prefix_trees.specs.Tree.{IsTree};

use crate::ground::Ground;
use estate_bounds::{prices_law, units_law, weights_law};
use prefix_trees::{closed_law, tree_law};

/// If no allocation gives points to more players than the answer, and each leaf of a tree keeps the five rules on leaves, the answer is the best.
pub fn estate_tree_law()
    ensures { (case : GoodsCase) (answer : List ℕ) (nodes : List Node) → IsValidGoodsCase case
        → IsAllocation case answer → IsCountLimit case (positives (utilities case answer))
        → IsTree IsInner AnyLeaf (player_count case) case.facts.goods nodes
        → ((number : ℕ) (owners : List ℕ) (above : List Node) (node : Node)
        → HasLeaf IsInner case nodes owners above node
        → KeepsRule case answer number owners above node) → GoodsBest case answer }
{
    closed_law();
    prices_law();
    units_law();
    weights_law();
    tree_law::<Ground>();
}

/// Marks and lines of weights and prices are those of one list of nodes: only one node stands first, it has some mark, and what follows it is fixed.
pub fn nodes_law()
    ensures first { (players : ℕ) (marks rest left : List ℕ) (lines more later : List GivenLine)
        (node other : Node) → players ≤ MEMBER_ROOM
        → StandsFirst players marks lines node rest more
        → StandsFirst players marks lines other left later
        → (node ≡ other) × (rest ≡ left) × (more ≡ later) }
    ensures some { (players : ℕ) (marks rest : List ℕ) (lines more : List GivenLine) (node : Node)
        → StandsFirst players marks lines node rest more → 1 ≤ length marks }
    ensures nodes { (players : ℕ) (marks : List ℕ) (lines : List GivenLine)
        (nodes others : List Node) → players ≤ MEMBER_ROOM → AreNodes players marks lines nodes
        → AreNodes players marks lines others → nodes ≡ others }
{}
