// Reads numbers as they are written in certificate text.
ghost use Rattle.std.specs.Prelude.{◌≡◌, ℕ, ℤ, negsuc, ◌-◌, ◌+◌, ◌^◌, ◌<◌, ◌≤◌, MatchOption, unsigned_abs, false};
ghost use Rattle.std.specs.Fmt.{decimal, signed_decimal};
ghost use Rattle.std.specs.Int.{IsGcd};
ghost use Rattle.bid_rules.specs.Fractions.{Fraction};
ghost use Rattle.split_frac.specs.Frac.{fraction_of, pair_text};
ghost use Rattle.cert_reader.specs.Cuts.{IsFront};
ghost use Rattle.cert_reader.specs.Numbers.{IsNumber, IsSmall};
ghost use Rattle.cert_reader.specs.declared.limits.TheConstants.{MOST_DIGITS};

use crate::limits::{MOST_DIGITS, MOST_PRINTED_DENOMINATOR};
use split_frac::{Frac, gcd};

/// The least denominator that is written.
const LEAST_DENOMINATOR: u128 = 2;
/// The greatest one.
const GREATEST_DENOMINATOR: u128 = MOST_PRINTED_DENOMINATOR as u128;

// The number of at most 25 digits that the token writes, with no zero in front.
fn read_digits(token: &[u8]) -> Option<u128>
    ensures { MatchOption result
        ((n : ℕ) → n < 10 ^ MOST_DIGITS → token.now ≡ decimal n → ⊥)
        (λ n. (n < 10 ^ MOST_DIGITS) × (token.now ≡ decimal n)) }
{
    if token.len() == 0 || token.len() > MOST_DIGITS {
        return None;
    }
    if token.len() > 1 && token[0] == b'0' {
        return None;
    }
    let mut value: u128 = 0;
    for byte in token {
        if *byte < b'0' || *byte > b'9' {
            return None;
        }
        value = value * 10 + (*byte - b'0') as u128;
    }
    Some(value)
}

// The same, if it is above 0.
fn read_positive(token: &[u8]) -> Option<u128>
    ensures { MatchOption result
        ((n : ℕ) → 0 < n → n < 10 ^ MOST_DIGITS → token.now ≡ decimal n → ⊥)
        (λ n. (0 < n) × (n < 10 ^ MOST_DIGITS) × (token.now ≡ decimal n)) }
{
    let Some(value) = read_digits(token) else {
        return None;
    };
    if value > 0 { Some(value) } else { None }
}

// The number with its sign.
fn read_whole(token: &[u8]) -> Option<i128>
    ensures { MatchOption result
        ((z : ℤ) → IsSmall z → token.now ≡ signed_decimal z → ⊥)
        (λ z. IsSmall z × (token.now ≡ signed_decimal z)) }
{
    if token.len() > 0 && token[0] == b'-' {
        return read_below(&token[1..]);
    }
    match read_digits(token) {
        Some(size) => Some(size as i128),
        None => None,
    }
}

// The number below 0 whose digits these are.
fn read_below(digits: &[u8]) -> Option<i128>
    ensures { MatchOption result
        ((n : ℕ) → n + 1 < 10 ^ MOST_DIGITS → digits.now ≡ decimal (n + 1) → ⊥)
        (λ z.
        (n : ℕ) × (z ≡ negsuc n) × (n + 1 < 10 ^ MOST_DIGITS) × (digits.now ≡ decimal (n + 1))) }
{
    match read_positive(digits) {
        Some(size) => Some(negative(size)),
        None => None,
    }
}

// The number below 0 of this size.
fn negative(size: u128) -> i128
    requires low { 0 < size }
    requires high { size < 10 ^ MOST_DIGITS }
    ensures { result ≡ negsuc (size - 1) }
{
    -(size as i128)
}

/// The first place at which the byte stands, or the length if it isn't there.
pub fn front_len(bytes: &[u8], stop: u8) -> usize
    ensures { IsFront stop bytes.now result }
{
    for (i, byte) in bytes.iter().enumerate() {
        if *byte == stop {
            return i;
        }
    }
    bytes.len()
}

// The whole number or the fraction in lowest terms that the token writes.
pub(crate) fn read_number(token: &[u8]) -> Option<Frac>
    ensures { MatchOption result
        ((number : Fraction) → IsNumber false number → token.now ≡ pair_text number → ⊥)
        (λ f. IsNumber false (fraction_of f) × (token.now ≡ pair_text (fraction_of f))) }
{
    let slash = front_len(token, b'/');
    if slash == token.len() {
        read_plain(token)
    } else {
        read_fraction(&token[..slash], &token[slash + 1..])
    }
}

// The fraction of a whole number. It is in lowest terms, so its terms need no common divisor.
fn whole_fraction(num: i128) -> Frac
    ensures { (result.num ≡ num) × (result.den ≡ 1) }
{
    Frac { num, den: 1 }
}

// A whole number as a fraction.
fn read_plain(token: &[u8]) -> Option<Frac>
    ensures { MatchOption result
        ((z : ℤ) → IsSmall z → token.now ≡ signed_decimal z → ⊥)
        (λ f. IsNumber false (fraction_of f) × (f.den ≡ 1) × (token.now ≡ signed_decimal f.num)) }
{
    match read_whole(token) {
        Some(num) => Some(whole_fraction(num)),
        None => None,
    }
}

// The fraction with this numerator and this denominator, which is above 1.
fn read_fraction(front: &[u8], back: &[u8]) -> Option<Frac>
    ensures { MatchOption result
        ((number : Fraction) → IsNumber false number → 2 ≤ number.1
        → front.now ≡ signed_decimal number.0 → back.now ≡ decimal number.1 → ⊥)
        (λ f.
        IsNumber false (fraction_of f) × (2 ≤ f.den) × (front.now ≡ signed_decimal f.num)
        × (back.now ≡ decimal f.den)) }
{
    let Some(num) = read_whole(front) else {
        return None;
    };
    let Some(den) = read_digits(back) else {
        return None;
    };
    if den < LEAST_DENOMINATOR || den > GREATEST_DENOMINATOR {
        return None;
    }
    read_lowest(num, den as u64)
}

// The fraction, if it is in lowest terms.
fn read_lowest(num: i128, den: u64) -> Option<Frac>
    requires { 0 < den }
    ensures { MatchOption result
        (IsGcd (unsigned_abs num) den 1 → ⊥)
        (λ f. (f.num ≡ num) × (f.den ≡ den) × IsGcd (unsigned_abs num) den 1) }
{
    if gcd(num.unsigned_abs(), den) == 1 {
        Some(Frac { num, den })
    } else {
        None
    }
}
