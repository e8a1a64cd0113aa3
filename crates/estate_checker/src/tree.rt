// Walks through the printed tree, with one cursor into its marks and one into the lines of weights and prices.
ghost use Rattle.std.specs.Prelude.{◌≡◌, List, MatchOption, map};
ghost use Rattle.estate_checker.specs.Said.{IsGroundOf, IsSaid};
ghost use Rattle.estate_judge.specs.declared.node.Node.{Node};
ghost use Rattle.estate_judge.specs.Grounds.{IsGround};
ghost use Rattle.estate_judge.specs.Leaves.{KeepsRule};
ghost use Rattle.estate_judge.specs.Nodes.{AreNodes, IsInner};
ghost use Rattle.estate_texts.specs.Given.{GivenLine};
ghost use Rattle.prefix_trees.specs.Ahead.{IsWalked};

use estate_judge::{Ground, Node, next_node, nodes_law};
use estate_texts::{EstateText, given_law};
use prefix_trees::{Walk, walked_law};

// The walk through all nodes, if the marks are those of nodes that take all lines.
pub(crate) fn walk_tree(ground: &Ground, text: &EstateText<'_>) -> Option<Walk<Node>>
    requires ground { IsGround ground.now }
    requires said { (given : List GivenLine) × IsSaid text.now given }
    ensures { (given : List GivenLine) → IsSaid text.now given
        → MatchOption result
        ((nodes : List Node) → AreNodes text.now.players text.now.marks.now given nodes → ⊥)
        (λ walk.
        (nodes : List Node) × AreNodes text.now.players text.now.marks.now given nodes
        × IsWalked IsInner (KeepsRule ground.now.case ground.now.owners.items)
        ground.now.case nodes walk) }
{
    given_law();
    nodes_law();
    walked_law::<Ground>();
    let mut walk = Walk::new();
    let mut at = 0;
    let mut from = 0;
    'nodes: while at < text.marks.len() {
        let Some(taken) = next_node(text.marks, at, text.given, from, text.players) else {
            return None;
        };
        walk.take(&ground.case, &ground.table, ground, taken.node);
        at = taken.next;
        from = taken.next_given;
    }
    if from < text.given.len() {
        return None;
    }
    Some(walk)
}
