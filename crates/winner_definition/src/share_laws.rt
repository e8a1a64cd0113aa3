// Laws about shares of goods by adjusted winner, as fractions and in equal parts, and what they add up to. Each is the contract of a function that does nothing.
ghost use Rattle.std.specs.Prelude.{◌≡◌, ◌↔◌, ℕ, pos, ◌*◌, ◌<◌, ◌≤◌, List, All, length, slice_index_or, true};
ghost use Rattle.std.specs.List.{AllZip};
ghost use Rattle.bid_rules.specs.declared.goods.GoodsCase.{GoodsCase};
ghost use Rattle.bid_rules.specs.declared.limits.TheConstants.{PAIR, WHOLE_POINTS};
ghost use Rattle.bid_rules.specs.Fractions.{Fraction, IsQuotient};
ghost use Rattle.bid_rules.specs.Goods.{IsValidGoodsCase, player_count, points};
ghost use Rattle.winner_definition.specs.Divisions.{IsDivision, first_points, parts_held};
ghost use Rattle.winner_definition.specs.Parts.{is_split, parts_list, parts_of};
ghost use Rattle.winner_definition.specs.Printed.{AreProperShares, HaveTotal, IsShare};
ghost use Rattle.winner_definition.specs.Shown.{AreShares, AreTotals, HasOneSplit};

/// Shares split at most one good if their parts do, and exactly when at most one of them lies strictly between 0 and 1. Proper shares are those of a
/// division into the parts of the one that is split, and both players have the total exactly when they have it in parts.
pub fn share_law()
    ensures one_split { (case : GoodsCase) (shares : List Fraction) (parts : ℕ) (held : List ℕ)
        → IsDivision case parts held
        → AllZip (λ share part. IsQuotient share (pos part) parts) shares held
        → ((good other : ℕ) → 1 ≤ good → good ≤ case.facts.goods → 1 ≤ other
        → other ≤ case.facts.goods → (0 < parts_held held good) × (parts_held held good < parts)
        → (0 < parts_held held other) × (parts_held held other < parts) → good ≡ other)
        → HasOneSplit shares }
    ensures by_place { (shares : List Fraction) → All IsShare shares → HasOneSplit shares
        ↔ ((i j : ℕ) → i < length shares → j < length shares
        → is_split (slice_index_or shares i (pos 0, 1)) ≡ true
        → is_split (slice_index_or shares j (pos 0, 1)) ≡ true → i ≡ j) }
    ensures proper { (case : GoodsCase) (shares : List Fraction) → AreProperShares case shares
        → AreShares case shares (parts_of shares) (parts_list shares) }
    ensures totals { (case : GoodsCase) (shares : List Fraction) (total : Fraction) (parts : ℕ)
        (held : List ℕ) → AreShares case shares parts held → HaveTotal case shares total
        ↔ AreTotals case parts held total }
{}

/// What is counted in parts does not depend on how many there are: neither a fraction of them, nor what player 1 has of goods that are shared in the same
/// proportion. In any parts player 1 has at most all points, which are also the most for one good.
pub fn parts_law()
    ensures quotient { (share : Fraction) (part parts other others : ℕ) → 1 ≤ parts
        → others * part ≡ parts * other → IsQuotient share (pos part) parts
        → IsQuotient share (pos other) others }
    ensures points { (case : GoodsCase) (parts : ℕ) (held : List ℕ) (others_parts : ℕ)
        (others : List ℕ)
        → ((good : ℕ) → 1 ≤ good → good ≤ case.facts.goods
        → others_parts * parts_held held good ≡ parts * parts_held others good)
        → others_parts * first_points case held ≡ parts * first_points case others }
    ensures most { (case : GoodsCase) (parts : ℕ) (held : List ℕ) → IsValidGoodsCase case
        → player_count case ≡ PAIR → IsDivision case parts held
        → first_points case held ≤ parts * WHOLE_POINTS }
    ensures few { (case : GoodsCase) (player good : ℕ) → IsValidGoodsCase case → 1 ≤ player
        → player ≤ player_count case → points case player good ≤ WHOLE_POINTS }
{}
