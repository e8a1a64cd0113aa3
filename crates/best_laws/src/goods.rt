// Laws about the definitions of goods, which hold for all cases. Each is the contract of a function that does nothing.
ghost use Rattle.std.specs.Prelude.{◌≡◌, ◌≤◌, ◌↔◌, ℕ, List, [], ◌∷◌, true};
ghost use Rattle.std.specs.declared.cmp.Ordering.TheVariants.{Less, Greater};
ghost use Rattle.bid_rules.specs.contracts.pair.PairOrd.TheImpl.{ghosts};
ghost use Rattle.bid_rules.specs.declared.pair.Pair.{Pair};
ghost use Rattle.bid_rules.specs.declared.goods.GoodsCase.{GoodsCase};
ghost use Rattle.bid_rules.specs.Goods.{Dominates, GoodsBest, IsAllocation, IsValidGoodsCase, order_of, owners_by_good, pair_of, player_count, utilities, with_members};
ghost use Rattle.bid_rules.specs.Pairs.{IsAtMost, IsLess, is_at_most, is_less, nash_welfare};
ghost use Rattle.bid_rules.specs.declared.limits.TheConstants.{MOST_MEMBERS};
ghost use Rattle.best_laws.specs.MaximumWelfare.{HasMaximumWelfare};
ghost use Rattle.best_laws.specs.WorkedGoods.{contested_good, two_players};

/// A case has at most one best allocation, which is one of maximum Nash welfare. An allocation that dominates another has greater welfare, so
/// no allocation dominates one of maximum Nash welfare: that one is Pareto-optimal (Caragiannis and others 2016).
pub fn best_goods_law()
    ensures one_allocation { (case : GoodsCase) (owners others : List ℕ) → GoodsBest case owners
        → GoodsBest case others → others ≡ owners }
    ensures one_division { (case : GoodsCase) (owners others : List ℕ) → GoodsBest case owners
        → GoodsBest case others → owners_by_good case others ≡ owners_by_good case owners }
    ensures maximum { (case : GoodsCase) (owners : List ℕ) → GoodsBest case owners
        → HasMaximumWelfare case owners }
    ensures dominating { (case : GoodsCase) (owners others : List ℕ) → Dominates case others owners
        → IsLess (pair_of case owners) (pair_of case others) }
    ensures undominated { (case : GoodsCase) (owners others : List ℕ)
        → HasMaximumWelfare case owners → IsAllocation case others → Dominates case others owners
        → ⊥ }
{}

/// There is only one order on pairs of welfare: the comparisons of `Pair`, the definitions, and the tests by which definitions count and
/// choose all agree.
pub fn pair_order_law()
    ensures less { (a b : Pair) → ghosts.cmp a b ≡ Less ↔ IsLess a b }
    ensures at_most { (a b : Pair) → (ghosts.cmp a b ≡ Greater → ⊥) ↔ IsAtMost a b }
    ensures less_test { (a b : Pair) → is_less a b ≡ true ↔ IsLess a b }
    ensures at_most_test { (a b : Pair) → is_at_most a b ≡ true ↔ IsAtMost a b }
{}

/// There are no more players than members, and so at most `MOST_MEMBERS`. The number of members never changes the search order,
/// the utilities or the best allocation.
pub fn players_law()
    ensures members { (case : GoodsCase) → IsValidGoodsCase case
        → player_count case ≤ case.facts.members }
    ensures twelve { (case : GoodsCase) → IsValidGoodsCase case → player_count case ≤ MOST_MEMBERS }
    ensures order { (case : GoodsCase) (members : ℕ)
        → order_of (with_members case members) ≡ order_of case }
    ensures utilities { (case : GoodsCase) (members : ℕ) (owners : List ℕ)
        → utilities (with_members case members) owners ≡ utilities case owners }
    ensures best { (case : GoodsCase) (members : ℕ) (owners : List ℕ)
        → GoodsBest (with_members case members) owners ↔ GoodsBest case owners }
{}

/// The definitions applied to two worked cases, which are valid: the search order, the best owners, their pair and who has each good.
pub fn worked_goods_law()
    ensures two_players_valid { IsValidGoodsCase two_players }
    ensures two_players_order { order_of two_players ≡ 1 ∷ 2 ∷ [] }
    ensures two_players_best { GoodsBest two_players (1 ∷ 2 ∷ []) }
    ensures two_players_pair { nash_welfare (utilities two_players (1 ∷ 2 ∷ []))
        ≡ record { count = 2; product = 420000 } }
    ensures two_players_owners { owners_by_good two_players (1 ∷ 2 ∷ []) ≡ 1 ∷ 2 ∷ [] }
    ensures contested_valid { IsValidGoodsCase contested_good }
    ensures contested_order { order_of contested_good ≡ 1 ∷ 2 ∷ [] }
    ensures contested_best { GoodsBest contested_good (1 ∷ 3 ∷ []) }
    ensures contested_pair { nash_welfare (utilities contested_good (1 ∷ 3 ∷ []))
        ≡ record { count = 2; product = 500000 } }
    ensures contested_owners { owners_by_good contested_good (1 ∷ 3 ∷ []) ≡ 1 ∷ 3 ∷ [] }
{}
