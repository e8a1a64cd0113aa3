// The struct of fractions. It has a file of its own because the struct imports every ghost name
// of its file.
ghost use Rattle.std.specs.Prelude.{◌≡◌, ℕ, ℤ, pos, ◌<◌, unsigned_abs};
ghost use Rattle.std.specs.Int.{IsGcd};

/// A fraction in lowest terms: `num / den`, with a denominator above 0 that shares no divisor
/// above 1 with the numerator. So 0 is `0 / 1`, and each value has exactly one fraction.
#[derive(Clone, Copy, Debug, PartialEq, Eq)]
pub struct Frac {
    pub num: i128,
    pub den: u64,
    ghost positive: { 0 < den },
    ghost lowest: { IsGcd (unsigned_abs num) den 1 },
}

impl Default for Frac {
    ghost is_default = { λ f. (f.num ≡ pos 0) × (f.den ≡ 1) };

    /// The fraction 0.
    fn default() -> Self {
        Frac { num: 0, den: 1 }
    }
}
