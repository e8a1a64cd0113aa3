// Laws about divisions between two players, which hold for all cases. Each is the contract of a function that does nothing.
ghost use Rattle.std.specs.Prelude.{◌≡◌, ◌*◌, ◌<◌, ◌≤◌, ℕ, List};
ghost use Rattle.bid_rules.specs.declared.goods.GoodsCase.{GoodsCase};
ghost use Rattle.bid_rules.specs.Fractions.{Fraction};
ghost use Rattle.bid_rules.specs.Goods.{IsValidGoodsCase, player_count};
ghost use Rattle.winner_definition.specs.Divisions.{AreWeights, IsDivision, IsEfficient, IsEnvyFree, IsEquitable, parts_held};
ghost use Rattle.winner_definition.specs.Procedure.{HaveMoved, IsOutcome, other_player, points_at_first};
ghost use Rattle.winner_definition.specs.Printed.{AreFairShares, AreProperShares, HaveTotal, SupportShares};
ghost use Rattle.winner_definition.specs.Shown.{AreShares, AreTotals, IsShown};
ghost use Rattle.winner_definition.specs.Winners.{IsMoved, IsWinner, first_owner};
ghost use Rattle.bid_rules.specs.declared.limits.TheConstants.{PAIR};

/// Weights show that a division is efficient, compared with divisions into any number of parts; if it is equitable too, they show that it is envy-free.
pub fn weights_law()
    ensures efficient { (case : GoodsCase) (parts : ℕ) (held : List ℕ) (first second : ℕ)
        → IsDivision case parts held → AreWeights case parts held first second
        → IsEfficient case parts held }
    ensures envy_free { (case : GoodsCase) (parts : ℕ) (held : List ℕ) (first second : ℕ)
        → IsValidGoodsCase case → player_count case ≡ PAIR → IsDivision case parts held
        → IsEquitable case parts held → AreWeights case parts held first second
        → IsEnvyFree case parts held }
{}

/// Shares, one total for both players and weights, as fractions, show that their division is equitable, envy-free and efficient, whatever
/// rule made it.
pub fn shown_law()
    ensures equitable { (case : GoodsCase) (shares : List Fraction) (total : Fraction)
        (first second : ℕ) (shown : IsShown case shares total first second)
        → IsEquitable case shown.parts shown.held }
    ensures envy_free { (case : GoodsCase) (shares : List Fraction) (total : Fraction)
        (first second : ℕ) → IsValidGoodsCase case → player_count case ≡ PAIR
        → (shown : IsShown case shares total first second)
        → IsEnvyFree case shown.parts shown.held }
    ensures efficient { (case : GoodsCase) (shares : List Fraction) (total : Fraction)
        (first second : ℕ) (shown : IsShown case shares total first second)
        → IsEfficient case shown.parts shown.held }
    ensures one_total { (case : GoodsCase) (shares : List Fraction) (parts : ℕ) (held : List ℕ)
        (others_parts : ℕ) (others : List ℕ) (total : Fraction) → AreShares case shares parts held
        → AreShares case shares others_parts others → AreTotals case parts held total
        → AreTotals case others_parts others total }
{}

/// Proper shares, a total that both players have and weights, as they are printed, show a division that is equitable, envy-free and efficient and splits at
/// most one good, whatever rule made it. Conversely, such a division satisfies these rules.
pub fn printed_law()
    ensures fair { (case : GoodsCase) (shares : List Fraction) (total : Fraction) (first second : ℕ)
        → IsValidGoodsCase case → player_count case ≡ PAIR → AreProperShares case shares
        → HaveTotal case shares total → SupportShares case shares first second
        → AreFairShares case shares }
    ensures shown { (case : GoodsCase) (shares : List Fraction) (total : Fraction)
        (first second : ℕ) → AreProperShares case shares → HaveTotal case shares total
        → SupportShares case shares first second → IsShown case shares total first second }
    ensures proper { (case : GoodsCase) (shares : List Fraction) (total : Fraction)
        (first second : ℕ) → IsShown case shares total first second → AreProperShares case shares }
    ensures total { (case : GoodsCase) (shares : List Fraction) (total : Fraction)
        (first second : ℕ) → IsShown case shares total first second → HaveTotal case shares total }
    ensures support { (case : GoodsCase) (shares : List Fraction) (total : Fraction)
        (first second : ℕ) → IsShown case shares total first second
        → SupportShares case shares first second }
{}

/// Carrying out the rule good by good leads to the division by the rule, which names only the last good. Whoever is richer while goods move was richer from
/// the start.
pub fn procedure_law()
    ensures winner { (case : GoodsCase) (parts : ℕ) (held : List ℕ) (first second : ℕ)
        → IsOutcome case parts held first second → IsWinner case parts held first second }
    ensures richer { (case : GoodsCase) (richer : ℕ) (moved : List ℕ) (rich poor : ℕ)
        → HaveMoved case richer moved rich poor → poor < rich
        → points_at_first case (other_player richer) < points_at_first case richer }
{}

/// The division by the rule is equitable, envy-free and efficient, its weights support it, and at most one good is split. If goods have moved, the first
/// owner of the last one was the richer.
pub fn winner_law()
    ensures division { (case : GoodsCase) (parts : ℕ) (held : List ℕ) (first second : ℕ)
        → IsWinner case parts held first second → IsDivision case parts held }
    ensures weights { (case : GoodsCase) (parts : ℕ) (held : List ℕ) (first second : ℕ)
        → IsValidGoodsCase case → player_count case ≡ PAIR → IsWinner case parts held first second
        → AreWeights case parts held first second }
    ensures one_split { (case : GoodsCase) (parts : ℕ) (held : List ℕ) (first second good other : ℕ)
        → IsWinner case parts held first second → 1 ≤ good → good ≤ case.facts.goods → 1 ≤ other
        → other ≤ case.facts.goods → 0 < parts_held held good → parts_held held good < parts
        → 0 < parts_held held other → parts_held held other < parts → good ≡ other }
    ensures richer { (case : GoodsCase) (parts : ℕ) (held : List ℕ) (first second : ℕ)
        → IsEquitable case parts held → (moved : IsMoved case parts held first second)
        → points_at_first case (other_player (first_owner case moved.last))
        < points_at_first case (first_owner case moved.last) }
    ensures equitable { (case : GoodsCase) (parts : ℕ) (held : List ℕ) (first second : ℕ)
        → IsWinner case parts held first second → IsEquitable case parts held }
    ensures envy_free { (case : GoodsCase) (parts : ℕ) (held : List ℕ) (first second : ℕ)
        → IsValidGoodsCase case → player_count case ≡ PAIR → IsWinner case parts held first second
        → IsEnvyFree case parts held }
    ensures efficient { (case : GoodsCase) (parts : ℕ) (held : List ℕ) (first second : ℕ)
        → IsValidGoodsCase case → player_count case ≡ PAIR → IsWinner case parts held first second
        → IsEfficient case parts held }
{}

/// The rule leaves no choice: two divisions by it have the same weights, and give each good in the same proportion.
pub fn one_winner_law()
    ensures one { (case : GoodsCase) (parts : ℕ) (held : List ℕ) (first second others_parts : ℕ)
        (others : List ℕ) (other_first other_second : ℕ) → IsWinner case parts held first second
        → IsWinner case others_parts others other_first other_second
        → (first ≡ other_first) × (second ≡ other_second)
        × ((good : ℕ) → 1 ≤ good → good ≤ case.facts.goods
        → others_parts * parts_held held good ≡ parts * parts_held others good) }
{}
