// Laws about prefixes that a certificate closes, which hold for all cases. Each is the contract of a function that only calls other laws.
ghost use Rattle.std.specs.Prelude.{◌≡◌, ◌≢◌, ◌↔◌, ◌⊎◌, ℕ, ◌≤◌, List, [], ◌++◌, map, IsTrue, true};
ghost use Rattle.std.specs.Cmp.Lexicographic.{slice_cmp};
ghost use Rattle.std.specs.Ordering.{nat_cmp};
ghost use Rattle.std.specs.declared.cmp.Ordering.TheVariants.{Less};
ghost use Rattle.bid_rules.specs.declared.goods.GoodsCase.{GoodsCase};
ghost use Rattle.bid_rules.specs.Goods.{AreOwners, GoodsBest, IsAllocation, IsValidGoodsCase, pair_of, player_count};
ghost use Rattle.bid_rules.specs.Pairs.{IsAtMost, IsLess};
ghost use Rattle.nash_bounds.specs.Lanes.{has};
ghost use Rattle.nash_bounds.specs.LeftOut.{may_be_left};
ghost use Rattle.prefix_trees.specs.declared.walk.Walk.{Walk};
ghost use Rattle.prefix_trees.specs.Ahead.{IsFirst, IsWalked, has_tree};
ghost use Rattle.prefix_trees.specs.Closed.{BeginsClosed, IsAllBehind, IsClosed, IsFarBelow};
ghost use Rattle.prefix_trees.specs.Leaves.{AnyLeaf, BeginsWithOneLeaf, HasLeaf};
ghost use Rattle.prefix_trees.specs.Tree.{IsTree};
ghost use Rattle.prefix_trees.specs.Twins.{IsPlayer, IsTwin};

use crate::closing::Closing;
use best_laws::best_goods_law;
use nash_bounds::{bound_law, open_prefixes_law, search_order_law, serving_law};

/// What follows from a twin of some owners: with the same owners of the other goods, under their new names, it is an allocation too, with which
/// no player has fewer points under the new name. Its pair is no smaller, and it is the earlier list or has a greater pair. So an allocation that
/// begins with these owners is never the best.
pub fn twin_law()
    ensures points { (case : GoodsCase) (twin owners rest : List ℕ) (player : ℕ)
        (is : IsTwin case twin owners) → AreOwners case rest → IsPlayer case player
        → has case (owners ++ rest) player
        ≤ has case (twin ++ map is.names rest) (is.names player) }
    ensures allocation { (case : GoodsCase) (twin owners rest : List ℕ)
        (is : IsTwin case twin owners) → IsAllocation case (owners ++ rest)
        → IsAllocation case (twin ++ map is.names rest) }
    ensures pair { (case : GoodsCase) (twin owners rest : List ℕ) (is : IsTwin case twin owners)
        → IsAllocation case (owners ++ rest)
        → IsAtMost (pair_of case (owners ++ rest)) (pair_of case (twin ++ map is.names rest)) }
    ensures better { (case : GoodsCase) (twin owners rest : List ℕ) (is : IsTwin case twin owners)
        → IsAllocation case (owners ++ rest)
        → (slice_cmp nat_cmp (twin ++ map is.names rest) (owners ++ rest) ≡ Less)
        ⊎ IsLess (pair_of case (owners ++ rest)) (pair_of case (twin ++ map is.names rest)) }
    ensures never { (case : GoodsCase) (twin owners rest : List ℕ) → IsTwin case twin owners
        → GoodsBest case (owners ++ rest) → ⊥ }
{
    best_goods_law();
    search_order_law();
}

/// How owners of the first few goods can be closed: their bound lets them be left out; no allocation that begins with them is better than the
/// answer, or each has less welfare; they have a twin; or they are the answer. What is closed is so for each longer list too.
pub fn closed_law()
    ensures plain { (case : GoodsCase) (answer owners : List ℕ) → IsValidGoodsCase case
        → IsAllocation case answer → may_be_left case answer owners ≡ true
        → IsClosed case answer owners }
    ensures behind { (case : GoodsCase) (answer owners : List ℕ) → IsAllocation case answer
        → IsAllBehind case answer owners → IsClosed case answer owners }
    ensures below { (case : GoodsCase) (answer owners : List ℕ) → IsAllocation case answer
        → IsFarBelow case answer owners → IsClosed case answer owners }
    ensures twin { (case : GoodsCase) (answer twin owners : List ℕ) → IsTwin case twin owners
        → IsClosed case answer owners }
    ensures own { (case : GoodsCase) (answer : List ℕ) → IsAllocation case answer
        → IsClosed case answer answer }
    ensures longer { (case : GoodsCase) (answer owners more : List ℕ) → IsClosed case answer owners
        → IsClosed case answer (owners ++ more) }
{
    twin_law();
    bound_law();
    open_prefixes_law();
}

/// A valid case has a best allocation. So an answer is the best if no other allocation is, or if each allocation begins with closed owners.
pub fn closed_fronts_law()
    ensures alone { (case : GoodsCase) (answer : List ℕ) → IsValidGoodsCase case
        → ((others : List ℕ) → IsAllocation case others → others ≢ answer → GoodsBest case others
        → ⊥) → GoodsBest case answer }
    ensures fronts { (case : GoodsCase) (answer : List ℕ) → IsValidGoodsCase case
        → ((allocation : List ℕ) → IsAllocation case allocation
        → BeginsClosed case answer allocation) → GoodsBest case answer }
{
    serving_law();
}

/// What the leaves of a tree are: each allocation begins with exactly one leaf, and a rule holds of the leaves of a tree exactly when the nodes are a
/// tree and it holds of each leaf.
pub fn leaves_law<C: Closing>()
    ensures one { (case : GoodsCase) (nodes : List C.Node) (allocation : List ℕ)
        → IsTree C.IsInner AnyLeaf (player_count case) case.facts.goods nodes
        → IsAllocation case allocation → BeginsWithOneLeaf C.IsInner case nodes allocation }
    ensures rules { (closing : C) (case : GoodsCase) (number : ℕ) (nodes : List C.Node)
        → IsTree C.IsInner (C.IsLeaf closing number) (player_count case) case.facts.goods nodes
        ↔ IsTree C.IsInner AnyLeaf (player_count case) case.facts.goods nodes
        × ((owners : List ℕ) (above : List C.Node) (node : C.Node)
        → HasLeaf C.IsInner case nodes owners above node
        → C.IsLeaf closing number owners above node) }
{}

/// If each leaf of a tree is closed, whatever the leaves are, the answer is the best.
pub fn tree_law<C: Closing>()
    ensures { (case : GoodsCase) (answer : List ℕ) (nodes : List C.Node) → IsValidGoodsCase case
        → IsTree C.IsInner AnyLeaf (player_count case) case.facts.goods nodes
        → ((owners : List ℕ) (above : List C.Node) (node : C.Node)
        → HasLeaf C.IsInner case nodes owners above node → IsClosed case answer owners)
        → GoodsBest case answer }
{
    closed_fronts_law();
    leaves_law::<C>();
}

/// A walk that has taken no node is one of no nodes, and one that has taken some knows whether these are one tree of whose leaves a rule holds.
pub fn walked_law<C: Closing>()
    ensures first { (closing : C) (case : GoodsCase) (walk : Walk C.Node) → IsFirst walk
        → IsWalked C.IsInner (C.IsLeaf closing) case [] walk }
    ensures last { (closing : C) (case : GoodsCase) (taken : List C.Node) (walk : Walk C.Node)
        (number : ℕ) → IsWalked C.IsInner (C.IsLeaf closing) case taken walk
        → IsTrue (has_tree walk number)
        ↔ IsTree C.IsInner (C.IsLeaf closing number) (player_count case) case.facts.goods taken }
{}
