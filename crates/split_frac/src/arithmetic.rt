// Sums, differences, order and floors of exact fractions.
ghost use Rattle.std.specs.Prelude.{◌≡◌, ℕ, ℤ, pos, ◌+ℤ◌, ◌-ℤ◌, ◌*ℤ◌, ◌<ℤ◌, ◌≤ℤ◌, ◌*◌, ◌<◌, ◌≤◌, ◌^◌, unsigned_abs};
ghost use Rattle.std.specs.Int.{IsGcd};
ghost use Rattle.std.specs.Int.RustNames.{int_div};
ghost use Rattle.split_frac.specs.declared.limits.TheConstants.{MOST_DENOMINATOR, MOST_NUMERATOR};
ghost use Rattle.split_frac.specs.Frac.{HasValue, IsSum, IsDifference, IsFloor, IsWithinLimits, frac_cmp};

use crate::frac::Frac;
use std::cmp::Ordering;

/// The fraction of the value `num / den`, in lowest terms.
///
/// Asks for a numerator at most `MOST_NUMERATOR` from 0 and a denominator from 1 to `MOST_DENOMINATOR`,
/// and returns a fraction in these ranges.
pub fn make(num: i128, den: u64) -> Frac
    requires num { unsigned_abs num ≤ MOST_NUMERATOR }
    requires den_low { 0 < den }
    requires den_high { den ≤ MOST_DENOMINATOR }
    ensures value { HasValue result num den }
    ensures within { IsWithinLimits result }
{
    reduced(num, den)
}

/// The exact sum of two fractions.
///
/// Asks that both and their sum, in lowest terms, keep the limits of `make`.
pub fn add(a: Frac, b: Frac) -> Frac
    requires a { IsWithinLimits a }
    requires b { IsWithinLimits b }
    requires result { (c : Frac) → IsSum a b c → IsWithinLimits c }
    ensures value { IsSum a b result }
    ensures within { IsWithinLimits result }
{
    reduced(scaled(a.num, b.den) + scaled(b.num, a.den), a.den * b.den)
}

/// The exact difference: the first fraction less the second.
///
/// Asks that both and their difference, in lowest terms, keep the limits of `make`.
pub fn sub(a: Frac, b: Frac) -> Frac
    requires a { IsWithinLimits a }
    requires b { IsWithinLimits b }
    requires result { (c : Frac) → IsDifference a b c → IsWithinLimits c }
    ensures value { IsDifference a b result }
    ensures within { IsWithinLimits result }
{
    reduced(scaled(a.num, b.den) - scaled(b.num, a.den), a.den * b.den)
}

/// How the values of two fractions compare, by their cross products.
///
/// Asks for fractions within the limits of `make`.
pub fn compare(a: &Frac, b: &Frac) -> Ordering
    requires a { IsWithinLimits a.now }
    requires b { IsWithinLimits b.now }
    ensures { result ≡ frac_cmp a.now b.now }
{
    scaled(a.num, b.den).cmp(&scaled(b.num, a.den))
}

/// The greatest whole number that is not above the fraction.
///
/// Asks for a fraction within the limits of `make`.
pub fn floor(a: &Frac) -> i128
    requires { IsWithinLimits a.now }
    ensures { IsFloor a.now result }
{
    a.num.div_euclid(i128::from(a.den))
}

/// The amount less its floor: from 0 to below 1, over the same denominator.
///
/// Asks for a fraction within the limits of `make`.
pub fn rem(a: &Frac) -> Frac
    requires { IsWithinLimits a.now }
    ensures value { (whole : ℤ) → IsFloor a.now whole
        → result.num ≡ a.now.num -ℤ whole *ℤ pos a.now.den }
    ensures den { result.den ≡ a.now.den }
    ensures low { pos 0 ≤ℤ result.num }
    ensures high { result.num <ℤ pos result.den }
    ensures within { IsWithinLimits result }
{
    Frac {
        num: a.num.rem_euclid(i128::from(a.den)),
        den: a.den,
    }
}

// A numerator times a denominator: the product is small enough that a sum of two such products
// can't overflow.
fn scaled(num: i128, den: u64) -> i128
    requires num { unsigned_abs num ≤ MOST_NUMERATOR }
    requires den { den ≤ MOST_DENOMINATOR }
    ensures value { result ≡ num *ℤ pos den }
    ensures size { unsigned_abs result ≤ MOST_NUMERATOR * MOST_DENOMINATOR }
{
    num * den as i128
}

// The fraction of the value `num / den`, both divided by their greatest common divisor.
fn reduced(num: i128, den: u64) -> Frac
    requires num { unsigned_abs num < 2 ^ 126 }
    requires den { 0 < den }
    ensures value { HasValue result num den }
    ensures num { unsigned_abs result.num ≤ unsigned_abs num }
    ensures den { result.den ≤ den }
{
    let divisor = gcd(num.unsigned_abs(), den);
    Frac {
        num: quotient(num, divisor),
        den: den / divisor,
    }
}

// The quotient of a numerator, rounded towards 0.
fn quotient(num: i128, divisor: u64) -> i128
    requires { 0 < divisor }
    ensures { result ≡ int_div num (pos divisor) }
{
    num / divisor as i128
}

/// The greatest common divisor of two numbers, by Euclid's algorithm (Elements, book VII).
///
/// Asks for a second number above 0.
pub fn gcd(a: u128, b: u64) -> u64
    requires { 0 < b }
    ensures gcd { IsGcd a b result }
    ensures positive { 0 < result }
{
    let mut x = b;
    let mut y = (a % b as u128) as u64;
    while y != 0 {
        let rest = x % y;
        x = y;
        y = rest;
    }
    x
}
