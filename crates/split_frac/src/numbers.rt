// Writes numbers one after another, each after a space.
ghost use Rattle.std.specs.Prelude.{◌≡◌, ℕ, List, map, refl, Some};
ghost use Rattle.std.specs.Fmt.{decimal, signed_decimal};
ghost use Rattle.split_frac.specs.Frac.{frac_text};
ghost use Rattle.split_frac.specs.Texts.{with_spaces};

use crate::Frac;
use std::fmt;

/// A number that `Display` writes in decimal.
pub trait Number: fmt::Display {
    /// The number in decimal.
    ghost text: { Self → List ℕ };

    /// It is what `Display` writes.
    ghost shown: { (number : Self) → Self.output number ≡ Some (text number) };
}

impl Number for u8 {
    ghost text = { decimal };

    ghost shown = { λ _. refl };
}

impl Number for u32 {
    ghost text = { decimal };

    ghost shown = { λ _. refl };
}

impl Number for i32 {
    ghost text = { signed_decimal };

    ghost shown = { λ _. refl };
}

impl Number for i128 {
    ghost text = { signed_decimal };

    ghost shown = { λ _. refl };
}

impl Number for Frac {
    ghost text = { frac_text };

    ghost shown = { λ _. refl };
}

/// Numbers one after another in decimal, a space before each: ` 1 12 3`, ` -1 0`, ` 1/2 3`.
#[derive(Clone, Copy)]
pub struct Numbers<'a, T>(pub &'a [T]);

impl<T: Number> fmt::Display for Numbers<'_, T> {
    ghost output = { λ l. Some (with_spaces (map T.text l.0.now)) };

    fn fmt<W: fmt::Write>(&self, f: &mut fmt::Formatter<W>) -> fmt::Result {
        for number in self.0 {
            write!(f, " {number}")?;
        }
        Ok(())
    }
}
