// Laws about how goods move one by one, for solvers that carry out the rule. Each is the contract of a function that does nothing.
ghost use Rattle.std.specs.Prelude.{◌≡◌, ◌⊎◌, ℕ, ◌+◌, ◌-◌, ◌*◌, ◌<◌, ◌≤◌, List, map, false, true};
ghost use Rattle.std.specs.List.{range_with_len};
ghost use Rattle.bid_rules.specs.declared.goods.GoodsCase.{GoodsCase};
ghost use Rattle.bid_rules.specs.Goods.{IsValidGoodsCase, player_count, points};
ghost use Rattle.winner_definition.specs.Divisions.{first_points};
ghost use Rattle.winner_definition.specs.Moving.{IsNextOf, is_gone, latest};
ghost use Rattle.winner_definition.specs.Procedure.{HaveMoved, IsNextToMove, first_share, other_player, points_at_first};
ghost use Rattle.winner_definition.specs.Winners.{first_owner, greater_points, lesser_points, may_move, moves_before, share_after, share_at_first};
ghost use Rattle.bid_rules.specs.declared.limits.TheConstants.{PAIR};

/// The next good to move is found good by good: one that may not move, or has moved, is passed over; otherwise it is taken if it is the first, or moves before the
/// one found so far. While one player is richer there is a next good.
pub fn next_good_law()
    ensures skipped { (case : GoodsCase) (player last next count : ℕ)
        → IsNextOf case player last count next → may_move case player (count + 1) ≡ false
        → IsNextOf case player last (count + 1) next }
    ensures gone { (case : GoodsCase) (player last next count : ℕ)
        → IsNextOf case player last count next → is_gone case player last (count + 1) ≡ true
        → IsNextOf case player last (count + 1) next }
    ensures taken { (case : GoodsCase) (player last next count : ℕ)
        → IsNextOf case player last count next → may_move case player (count + 1) ≡ true
        → is_gone case player last (count + 1) ≡ false
        → (next ≡ 0) ⊎ (moves_before case (count + 1) next ≡ true)
        → IsNextOf case player last (count + 1) (count + 1) }
    ensures kept { (case : GoodsCase) (player last next count : ℕ)
        → IsNextOf case player last count next → (next ≡ 0 → ⊥)
        → moves_before case (count + 1) next ≡ false → IsNextOf case player last (count + 1) next }
    ensures some { (case : GoodsCase) (richer : ℕ) (moved : List ℕ) (rich poor next : ℕ)
        → IsValidGoodsCase case → player_count case ≡ PAIR → HaveMoved case richer moved rich poor
        → poor < rich → IsNextOf case richer (latest moved) case.facts.goods next → 1 ≤ next }
{}

/// When goods have moved and one player is still richer, the next good as it is found from the latest that moved is the one that moves next. A good that may move has some
/// of its first owner's points. The greater points for a good are its first owner's, the lesser ones the other player's.
pub fn next_to_move_law()
    ensures richer { (case : GoodsCase) (richer : ℕ) (moved : List ℕ) (rich poor : ℕ)
        → HaveMoved case richer moved rich poor → poor < rich → (richer ≡ 1) ⊎ (richer ≡ 2) }
    ensures moves { (case : GoodsCase) (richer : ℕ) (moved : List ℕ) (rich poor next : ℕ)
        → HaveMoved case richer moved rich poor → poor < rich → 1 ≤ next
        → IsNextOf case richer (latest moved) case.facts.goods next
        → IsNextToMove case richer moved next }
    ensures some { (case : GoodsCase) (player good : ℕ) → may_move case player good ≡ true
        → 1 ≤ greater_points case good }
    ensures greater { (case : GoodsCase) (player good : ℕ) → (player ≡ 1) ⊎ (player ≡ 2)
        → first_owner case good ≡ player → greater_points case good ≡ points case player good }
    ensures lesser { (case : GoodsCase) (player good : ℕ) → (player ≡ 1) ⊎ (player ≡ 2)
        → first_owner case good ≡ player
        → lesser_points case good ≡ points case (other_player player) good }
{}

/// If the last good moves, player 1's parts of each good follow only from it, and what player 1 then has by what both had before. If no good moves,
/// player 1 has what they had at first.
pub fn last_good_law()
    ensures shares { (case : GoodsCase) (richer : ℕ) (moved : List ℕ)
        (rich poor last parts share : ℕ) → HaveMoved case richer moved rich poor → poor < rich
        → IsNextToMove case richer moved last
        → rich ≤ poor + points case (other_player richer) last + points case richer last
        → map (first_share case moved last parts share) (range_with_len 1 case.facts.goods)
        ≡ map (share_after case parts last share 1) (range_with_len 1 case.facts.goods) }
    ensures total { (case : GoodsCase) (richer : ℕ) (moved : List ℕ) (rich poor last parts : ℕ)
        → HaveMoved case richer moved rich poor → poor < rich → IsNextToMove case richer moved last
        → rich ≤ poor + points case (other_player richer) last + points case richer last
        → parts ≡ greater_points case last + lesser_points case last
        → first_points case
        (map (share_after case parts last (rich - poor) 1) (range_with_len 1 case.facts.goods))
        ≡ lesser_points case last * rich + greater_points case last * poor }
    ensures unmoved { (case : GoodsCase) (parts : ℕ)
        → first_points case (map (share_at_first case parts 1) (range_with_len 1 case.facts.goods))
        ≡ parts * points_at_first case 1 }
{}
