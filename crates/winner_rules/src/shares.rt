// Player 1's shares: whether each is from 0 to 1, whether at most one good is split, and how many parts they are counted in.
ghost use Rattle.std.specs.Prelude.{◌≡◌, ◌≤◌, ◌↔◌, All, IsTrue, length, map};
ghost use Rattle.bid_rules.specs.Fractions.{Fraction};
ghost use Rattle.cert_reader.specs.Numbers.{AreShort};
ghost use Rattle.cert_reader.specs.declared.limits.TheConstants.{MOST_PRINTED_DENOMINATOR};
ghost use Rattle.winner_definition.specs.Parts.{is_split, part_of, parts_of};
ghost use Rattle.winner_definition.specs.Printed.{AreProperShares, IsShare};
ghost use Rattle.winner_definition.specs.Shown.{HasOneSplit};
ghost use Rattle.split_frac.specs.Frac.{fraction_of};

use bid_rules::GoodsCase;
use split_frac::Frac;
use winner_definition::share_law;

// Whether the fraction is from 0 to 1.
fn is_share(share: &Frac) -> bool
    ensures { IsTrue result ↔ IsShare (fraction_of share.now) }
{
    0 <= share.num && share.num <= i128::from(share.den)
}

// Whether the share is strictly between 0 and 1.
fn is_split(share: &Frac) -> bool
    ensures { result ≡ is_split (fraction_of share.now) }
{
    let part = share.num.unsigned_abs();
    part > 0 && part < u128::from(share.den)
}

// Whether each fraction is from 0 to 1.
fn are_shares(shares: &[Frac]) -> bool
    ensures { IsTrue result ↔ All (λ share. IsShare (fraction_of share)) shares.now }
{
    shares.iter().all(|share| is_share(share))
}

// Whether at most one of the shares is split.
fn has_one_split(shares: &[Frac]) -> bool
    requires { All (λ share. IsShare (fraction_of share)) shares.now }
    ensures { IsTrue result ↔ HasOneSplit (map fraction_of shares.now) }
{
    share_law();
    let mut found = false;
    for k in 0..shares.len() {
        if is_split(&shares[k]) {
            if found {
                return false;
            }
            found = true;
        }
    }
    true
}

// Whether there is a share of each good, from 0 to 1, and at most one good is split.
pub(crate) fn are_proper(case: &GoodsCase, shares: &[Frac]) -> bool
    ensures { IsTrue result ↔ AreProperShares case.now (map fraction_of shares.now) }
{
    if shares.len() != usize::from(case.facts.goods) {
        return false;
    }
    if !are_shares(shares) {
        return false;
    }
    has_one_split(shares)
}

// The parts in which the shares are counted: those of the good that is split, or one.
pub(crate) fn parts_of(shares: &[Frac]) -> u64
    requires { AreShort shares.now }
    ensures value { result ≡ parts_of (map fraction_of shares.now) }
    ensures small { result ≤ MOST_PRINTED_DENOMINATOR }
{
    for k in 0..shares.len() {
        if is_split(&shares[k]) {
            return shares[k].den;
        }
    }
    1
}

// The parts of a good that player 1 has.
pub(crate) fn part_of(parts: u64, share: &Frac) -> u64
    ensures { result ≡ part_of parts (fraction_of share.now) }
{
    let part = share.num.unsigned_abs();
    if part == 0 {
        return 0;
    }
    if part < u128::from(share.den) {
        return part as u64;
    }
    parts
}
