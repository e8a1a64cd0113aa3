// The weights and the prices nearest to a node.
ghost use Rattle.std.specs.Prelude.{◌≡◌, MatchOption, None, Option, Some};
ghost use Rattle.estate_judge.specs.Nodes.{nearest, prices_of, weights_of};
ghost use Rattle.estate_judge.specs.declared.node.Node.{Node};

use crate::node::{Node, PriceList};
use estate_bounds::limits::WeightList;

// Numbers that a node may take, and that hold below it until others take their place.
pub(crate) trait Taken {
    // What the node takes of them.
    ghost taken: { Node → Option Self };

    // What the node takes of them.
    fn taken(node: &Node) -> Option<&Self>
        ensures { MatchOption result (taken node.now ≡ None)
            (λ own. taken node.now ≡ Some own.now) };
}

impl Taken for WeightList {
    ghost taken = { weights_of };

    fn taken(node: &Node) -> Option<&WeightList> {
        node.weights.as_ref()
    }
}

impl Taken for PriceList {
    ghost taken = { prices_of };

    fn taken(node: &Node) -> Option<&PriceList> {
        node.prices.as_ref()
    }
}

// The numbers nearest to a node: its own, or else those of the nearest node above that takes some.
pub(crate) fn nearest<'a, T: Taken>(above: &'a [Node], node: &'a Node) -> Option<&'a T>
    ensures { MatchOption result (nearest T.taken above.now node.now ≡ None)
        (λ own. nearest T.taken above.now node.now ≡ Some own.now) }
{
    if let Some(own) = T::taken(node) {
        return Some(own);
    }
    match above.split_last() {
        Some((last, rest)) => nearest(rest, last),
        None => None,
    }
}
