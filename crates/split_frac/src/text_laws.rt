// A law about the texts of numbers. It is the contract of a function that does nothing.
ghost use Rattle.std.specs.Prelude.{◌≡◌, ℕ, ℤ, List, map, pos};
ghost use Rattle.std.specs.Fmt.{decimal, signed_decimal};
ghost use Rattle.split_frac.specs.declared.frac.Frac.{Frac};
ghost use Rattle.split_frac.specs.Frac.{frac_text, fraction_of, pair_text};
ghost use Rattle.split_frac.specs.Texts.{numbers_text, with_spaces};

/// A whole number is written just like that number over 1. So numbers with a space before each make the same text,
/// whether they are written as natural numbers, as whole numbers or as fractions.
pub fn number_law()
    ensures natural { (number : ℕ) → pair_text (pos number, 1) ≡ decimal number }
    ensures whole { (number : ℤ) → pair_text (number, 1) ≡ signed_decimal number }
    ensures naturals { (numbers : List ℕ)
        → with_spaces (map decimal numbers)
        ≡ numbers_text (map (λ number. (pos number, 1)) numbers) }
    ensures wholes { (numbers : List ℤ)
        → with_spaces (map signed_decimal numbers)
        ≡ numbers_text (map (λ number. (number, 1)) numbers) }
    ensures fractions { (numbers : List Frac)
        → with_spaces (map frac_text numbers) ≡ numbers_text (map fraction_of numbers) }
{}
