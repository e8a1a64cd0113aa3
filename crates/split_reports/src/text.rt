// Finds the fractions and amounts that the lines of a report tell, each by its number in a list, from 1.
ghost use Rattle.std.specs.Prelude.{◌≡◌, ◌≤◌, map, length};
ghost use Rattle.std.specs.Fmt.{signed_decimal};
ghost use Rattle.split_frac.specs.Frac.{frac_text};
ghost use Rattle.split_reports.specs.Parts.{text_at};

use split_frac::Frac;

// The fraction with this number.
pub(crate) fn fraction_at(fractions: &[Frac], number: u8) -> Frac
    requires low { 1 ≤ number }
    requires high { number ≤ length fractions.now }
    ensures { frac_text result ≡ text_at (map frac_text fractions.now) number }
{
    fractions[number as usize - 1]
}

// The amount with this number.
pub(crate) fn amount_at(amounts: &[i64], number: u8) -> i64
    requires low { 1 ≤ number }
    requires high { number ≤ length amounts.now }
    ensures { signed_decimal result ≡ text_at (map signed_decimal amounts.now) number }
{
    amounts[number as usize - 1]
}
