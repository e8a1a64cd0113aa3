// The factors and the divisors of an estimate.
ghost use Rattle.std.specs.Prelude.{◌≡◌, ◌*◌, ◌≤◌, length, replicate, All};
ghost use Rattle.estate_bounds.specs.Shown.{factors};

use crate::limits::{MOST_FACTOR, Shares};
use arrayvec::ArrayVec;
use bid_rules::limits::{MEMBER_ROOM, WHOLE_POINTS};

// The product of the three numbers.
fn factor_of(count: u64, weight: u16, share: u64) -> u64
    requires count { count ≤ MEMBER_ROOM }
    requires share { share ≤ WHOLE_POINTS }
    ensures value { result ≡ count * weight * share }
    ensures small { result ≤ MOST_FACTOR }
{
    count * u64::from(weight) * share
}

// The product of the count, the weight and the share, for each weight and share.
pub(crate) fn factors(count: u64, weights: &[u16], shares: &[u64]) -> Shares
    requires count { count ≤ MEMBER_ROOM }
    requires few { length weights.now ≤ MEMBER_ROOM }
    requires each { length shares.now ≡ length weights.now }
    requires small { All (λ share. share ≤ WHOLE_POINTS) shares.now }
    ensures value { result.items ≡ factors count weights.now shares.now }
    ensures each { length result.items ≡ length weights.now }
    ensures small { All (λ factor. factor ≤ MOST_FACTOR) result.items }
{
    let mut list = ArrayVec::new();
    for k in 0..weights.len() {
        list.push(factor_of(count, weights[k], shares[k]));
    }
    list
}

// The number this many times.
pub(crate) fn alike(number: u64, count: usize) -> Shares
    requires { count ≤ MEMBER_ROOM }
    ensures { result.items ≡ replicate count number }
{
    let mut list = ArrayVec::new();
    for _place in 0..count {
        list.push(number);
    }
    list
}
