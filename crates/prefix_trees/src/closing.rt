// Which leaves a tree may have.
ghost use Rattle.std.specs.Prelude.{◌≡◌, ◌≢◌, ◌<◌, ◌↔◌, ℕ, List, IfSome, IsTrue, length};
ghost use Rattle.std.specs.declared.option.Option.TheVariants.{Some};
ghost use Rattle.bid_rules.specs.declared.goods.GoodsCase.{GoodsCase};
ghost use Rattle.nash_bounds.specs.Lanes.{IsLanes};
ghost use Rattle.prefix_trees.specs.Fronts.{IsFront};
ghost use Rattle.prefix_trees.specs.declared.limits.TheConstants.{RULE_ROOM};

use nash_bounds::Lanes;

/// Which leaves a tree may have, by rules with numbers, for a walk that knows nothing else of them.
pub trait Closing {
    /// A node of the tree.
    type Node: Default + Drop;

    /// The case whose goods the tree gives.
    ghost case: { Self → GoodsCase };

    /// All is there that judging a leaf needs.
    ghost IsReady: { Self → Type 0 };

    /// The node has children.
    ghost IsInner: { Self.Node → Type 0 };

    /// The rule with this number holds of the leaf with these owners, below these nodes.
    ghost IsLeaf: { Self → ℕ → List ℕ → List Self.Node → Self.Node → Type 0 };

    /// Whether the node has children.
    fn is_inner(node: &Self::Node) -> bool
        ensures { IsTrue result ↔ IsInner node.now };

    /// The one rule that doesn't hold of the leaf with these owners, if there is one. The nodes above it come from the root down, one for each owner,
    /// and under the owners the players have and may have this.
    fn broken_rule(
        &self,
        owners: &[u8],
        lanes: &Lanes,
        above: &[Self::Node],
        node: &Self::Node,
    ) -> Option<u8>
        requires ready { IsReady self.now }
        requires front { IsFront (case self.now) owners.now }
        requires lanes { IsLanes (case self.now) owners.now lanes.now }
        requires above { length above.now ≡ length owners.now }
        ensures rule { IfSome result (λ rule. rule < RULE_ROOM) }
        ensures exact { (number : ℕ)
            → IsLeaf self.now number owners.now above.now node.now ↔ (result ≢ Some number) };
}
