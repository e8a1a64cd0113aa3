// Checks what both players have under the printed shares.
ghost use Rattle.std.specs.Prelude.{◌≡◌, ◌-◌, ◌*◌, ◌≤◌, ◌↔◌, IsTrue, map, unsigned_abs};
ghost use Rattle.bid_rules.specs.Fractions.{IsQuotient};
ghost use Rattle.bid_rules.specs.Goods.{IsValidGoodsCase, player_count, points};
ghost use Rattle.cert_reader.specs.Numbers.{AreShort, IsSmall};
ghost use Rattle.cert_reader.specs.declared.limits.TheConstants.{MOST_PRINTED_DENOMINATOR};
ghost use Rattle.winner_definition.specs.Divisions.{first_points, parts_held, second_points};
ghost use Rattle.winner_definition.specs.Parts.{parts_list, parts_of};
ghost use Rattle.winner_definition.specs.Printed.{AreProperShares, HaveTotal};
ghost use Rattle.split_frac.specs.Frac.{fraction_of};
ghost use Rattle.bid_rules.specs.declared.limits.TheConstants.{PAIR};

use crate::shares::{part_of, parts_of};
use bid_rules::GoodsCase;
use bid_rules::limits::{MOST_GOODS, WHOLE_POINTS};
use split_frac::Frac;
use winner_definition::share_law;

// What player 1's parts of a good are worth to them.
fn first_worth(case: &GoodsCase, shares: &[Frac], parts: u64, good: u8) -> u64
    requires case { IsValidGoodsCase case.now }
    requires two { player_count case.now ≡ PAIR }
    requires proper { AreProperShares case.now (map fraction_of shares.now) }
    requires parts { parts ≡ parts_of (map fraction_of shares.now) }
    requires few { parts ≤ MOST_PRINTED_DENOMINATOR }
    requires low { 1 ≤ good }
    requires high { good ≤ case.now.facts.goods }
    ensures value { result
        ≡ parts_held (parts_list (map fraction_of shares.now)) good * points case.now 1 good }
    ensures small { result ≤ MOST_PRINTED_DENOMINATOR * WHOLE_POINTS }
{
    share_law();
    part_of(parts, &shares[good as usize - 1]) * u64::from(case.points(1, good))
}

// What the rest is worth to player 2.
fn second_worth(case: &GoodsCase, shares: &[Frac], parts: u64, good: u8) -> u64
    requires case { IsValidGoodsCase case.now }
    requires two { player_count case.now ≡ PAIR }
    requires proper { AreProperShares case.now (map fraction_of shares.now) }
    requires parts { parts ≡ parts_of (map fraction_of shares.now) }
    requires few { parts ≤ MOST_PRINTED_DENOMINATOR }
    requires low { 1 ≤ good }
    requires high { good ≤ case.now.facts.goods }
    ensures value { result
        ≡ (parts - parts_held (parts_list (map fraction_of shares.now)) good)
        * points case.now 2 good }
    ensures small { result ≤ MOST_PRINTED_DENOMINATOR * WHOLE_POINTS }
{
    share_law();
    (parts - part_of(parts, &shares[good as usize - 1])) * u64::from(case.points(2, good))
}

// What player 1 has of all goods, in parts.
fn first_points(case: &GoodsCase, shares: &[Frac], parts: u64) -> u64
    requires case { IsValidGoodsCase case.now }
    requires two { player_count case.now ≡ PAIR }
    requires proper { AreProperShares case.now (map fraction_of shares.now) }
    requires parts { parts ≡ parts_of (map fraction_of shares.now) }
    requires few { parts ≤ MOST_PRINTED_DENOMINATOR }
    ensures value { result ≡ first_points case.now (parts_list (map fraction_of shares.now)) }
    ensures small { result ≤ MOST_GOODS * (MOST_PRINTED_DENOMINATOR * WHOLE_POINTS) }
{
    let mut sum = 0;
    for k in 0..case.facts.goods {
        sum += first_worth(case, shares, parts, k + 1);
    }
    sum
}

// What player 2 has of all goods, in parts.
fn second_points(case: &GoodsCase, shares: &[Frac], parts: u64) -> u64
    requires case { IsValidGoodsCase case.now }
    requires two { player_count case.now ≡ PAIR }
    requires proper { AreProperShares case.now (map fraction_of shares.now) }
    requires parts { parts ≡ parts_of (map fraction_of shares.now) }
    requires few { parts ≤ MOST_PRINTED_DENOMINATOR }
    ensures value { result
        ≡ second_points case.now parts (parts_list (map fraction_of shares.now)) }
    ensures small { result ≤ MOST_GOODS * (MOST_PRINTED_DENOMINATOR * WHOLE_POINTS) }
{
    let mut sum = 0;
    for k in 0..case.facts.goods {
        sum += second_worth(case, shares, parts, k + 1);
    }
    sum
}

// Whether a fraction is this whole number divided by this many.
fn is_quotient(fraction: &Frac, whole: i128, parts: u64) -> bool
    requires num { IsSmall fraction.now.num }
    requires den { fraction.now.den ≤ MOST_PRINTED_DENOMINATOR }
    requires parts { parts ≤ MOST_PRINTED_DENOMINATOR }
    requires whole { unsigned_abs whole
        ≤ MOST_GOODS * (MOST_PRINTED_DENOMINATOR * WHOLE_POINTS) }
    ensures { IsTrue result ↔ IsQuotient (fraction_of fraction.now) whole parts }
{
    fraction.num * i128::from(parts) == whole * i128::from(fraction.den)
}

// Whether both players have the total.
pub(crate) fn have_total(case: &GoodsCase, shares: &[Frac], total: &Frac) -> bool
    requires case { IsValidGoodsCase case.now }
    requires two { player_count case.now ≡ PAIR }
    requires proper { AreProperShares case.now (map fraction_of shares.now) }
    requires shares { AreShort shares.now }
    requires num { IsSmall total.now.num }
    requires den { total.now.den ≤ MOST_PRINTED_DENOMINATOR }
    ensures { IsTrue result
        ↔ HaveTotal case.now (map fraction_of shares.now) (fraction_of total.now) }
{
    share_law();
    let parts = parts_of(shares);
    let first = first_points(case, shares, parts);
    let second = second_points(case, shares, parts);
    is_quotient(total, i128::from(first), parts) && is_quotient(total, i128::from(second), parts)
}
