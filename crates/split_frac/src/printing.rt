// Writes exact fractions as text.
ghost use Rattle.std.specs.Prelude.{◌≡◌, IfOk, Some};
ghost use Rattle.std.specs.String.{string_bytes};
ghost use Rattle.split_frac.specs.Frac.{frac_text};

use crate::frac::Frac;
use split_base::NoMemory;
use std::alloc::Global;
use std::fmt;

/// In decimal: the numerator, with a `-` if it is below 0, and, unless the denominator is 1, a `/` and
/// the denominator, such as `-3/2` or `5`.
impl fmt::Display for Frac {
    ghost output = { λ a. Some (frac_text a) };

    #[tactic(auto, unfolding(crate::specs::Frac::pair_text))]
    fn fmt<W: fmt::Write>(&self, f: &mut fmt::Formatter<W>) -> fmt::Result {
        let (num, den) = (self.num, self.den);
        if den == 1 {
            write!(f, "{num}")
        } else {
            write!(f, "{num}/{den}")
        }
    }
}

/// The fraction in decimal, as `Display` writes it.
///
/// `NoMemory`: the text could not be allocated.
pub fn text(alloc: Global, a: &Frac) -> Result<String, NoMemory>
    ensures { IfOk result (λ text. string_bytes text ≡ frac_text a.now) }
{
    a.to_string(alloc).map_err(|_| NoMemory)
}
