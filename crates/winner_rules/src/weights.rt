// The rule on the weights in the text of adjusted winner: by them, each good or part of one is with a player to whom it is worth most.
ghost use Rattle.std.specs.Prelude.{◌≡◌, ℕ, ◌*◌, ◌<◌, ◌≤◌, ◌<ℤ◌, ◌↔◌, List, [], ◌∷◌, IsTrue, MatchOption, length, map, pos};
ghost use Rattle.bid_rules.specs.Goods.{IsValidGoodsCase, player_count, points};
ghost use Rattle.winner_definition.specs.Printed.{SupportShares};
ghost use Rattle.winner_definition.specs.Shown.{share_of};
ghost use Rattle.split_frac.specs.Frac.{fraction_of};
ghost use Rattle.bid_rules.specs.declared.limits.TheConstants.{PAIR};

use bid_rules::GoodsCase;
use bid_rules::limits::WHOLE_POINTS;
use split_frac::Frac;

// Whether the weights support the share of a good.
fn supports(case: &GoodsCase, shares: &[Frac], first: u32, second: u32, good: u8) -> bool
    requires case { IsValidGoodsCase case.now }
    requires two { player_count case.now ≡ PAIR }
    requires each { length shares.now ≡ case.now.facts.goods }
    requires first { first ≤ WHOLE_POINTS }
    requires second { second ≤ WHOLE_POINTS }
    requires low { 1 ≤ good }
    requires high { good ≤ case.now.facts.goods }
    ensures { IsTrue result
        ↔ (pos 0 <ℤ (share_of (map fraction_of shares.now) good).0
        → second * points case.now 2 good ≤ first * points case.now 1 good)
        × ((share_of (map fraction_of shares.now) good).0
        <ℤ pos (share_of (map fraction_of shares.now) good).1
        → first * points case.now 1 good ≤ second * points case.now 2 good) }
{
    let share = &shares[good as usize - 1];
    let first = first * case.points(1, good);
    let second = second * case.points(2, good);
    if share.num > 0 && second > first {
        return false;
    }
    if share.num < i128::from(share.den) && first > second {
        return false;
    }
    true
}

// Whether the weights support the share of each good.
fn support_all(case: &GoodsCase, shares: &[Frac], first: u32, second: u32) -> bool
    requires case { IsValidGoodsCase case.now }
    requires two { player_count case.now ≡ PAIR }
    requires each { length shares.now ≡ case.now.facts.goods }
    requires first_low { 1 ≤ first }
    requires first_high { first ≤ WHOLE_POINTS }
    requires second_low { 1 ≤ second }
    requires second_high { second ≤ WHOLE_POINTS }
    ensures { IsTrue result ↔ SupportShares case.now (map fraction_of shares.now) first second }
{
    for k in 0..case.facts.goods {
        if !supports(case, shares, first, second, k + 1) {
            return false;
        }
    }
    true
}

// Whether the number is a weight, from 1 to 1000.
fn is_weight(number: i128) -> bool
    ensures { IsTrue result
        ↔ ((weight : ℕ) × (1 ≤ weight) × (weight ≤ WHOLE_POINTS) × (number ≡ pos weight)) }
{
    1 <= number && number <= i128::from(WHOLE_POINTS)
}

// Whether there are two weights, which support the shares.
pub(crate) fn are_weights(case: &GoodsCase, shares: &[Frac], weights: &[i128]) -> bool
    requires case { IsValidGoodsCase case.now }
    requires two { player_count case.now ≡ PAIR }
    requires each { length shares.now ≡ case.now.facts.goods }
    ensures { IsTrue result
        ↔ ((first : ℕ) × (second : ℕ) × (weights.now ≡ pos first ∷ pos second ∷ [])
        × SupportShares case.now (map fraction_of shares.now) first second) }
{
    let [first, second] = weights else {
        return false;
    };
    if !is_weight(*first) || !is_weight(*second) {
        return false;
    }
    support_all(case, shares, *first as u32, *second as u32)
}
