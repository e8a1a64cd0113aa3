// Estimates of ratios of products, in fixed point and never too great.
ghost use Rattle.std.specs.Prelude.{◌≡◌, ◌≤◌, length, All};
ghost use Rattle.estate_bounds.specs.Shown.{estimate, is_shown_above, next_ratio};

use crate::limits::{MOST_FACTOR, MOST_RATIO, WHOLE_RATIO};

// The ratio times the factor and divided by the divisor, rounded down, and cut to the greatest ratio.
fn next_ratio(ratio: u128, factor: u64, divisor: u64) -> u128
    requires ratio { ratio ≤ MOST_RATIO }
    requires factor { factor ≤ MOST_FACTOR }
    ensures value { result ≡ next_ratio ratio factor divisor }
    ensures small { result ≤ MOST_RATIO }
{
    if divisor == 0 {
        return MOST_RATIO;
    }
    let next = ratio * u128::from(factor) / u128::from(divisor);
    next.min(MOST_RATIO)
}

// An estimate of the product of the factors, divided by that of the divisors.
fn estimate(factors: &[u64], divisors: &[u64]) -> u128
    requires each { length divisors.now ≡ length factors.now }
    requires small { All (λ factor. factor ≤ MOST_FACTOR) factors.now }
    ensures { result ≡ estimate WHOLE_RATIO factors.now divisors.now }
{
    let mut ratio = WHOLE_RATIO;
    for k in 0..factors.len() {
        ratio = next_ratio(ratio, factors[k], divisors[k]);
    }
    ratio
}

// Whether an estimate shows that the product of the factors is above that of the divisors, or, if equality is enough, no
// less.
pub(crate) fn is_above(equal: bool, factors: &[u64], divisors: &[u64]) -> bool
    requires each { length divisors.now ≡ length factors.now }
    requires small { All (λ factor. factor ≤ MOST_FACTOR) factors.now }
    ensures { result ≡ is_shown_above equal factors.now divisors.now }
{
    let ratio = estimate(factors, divisors);
    if equal {
        WHOLE_RATIO <= ratio
    } else {
        WHOLE_RATIO < ratio
    }
}
