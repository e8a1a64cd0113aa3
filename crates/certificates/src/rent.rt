// Writes the canonical certificate of a rent into a buffer.
ghost use Rattle.std.specs.Prelude.{◌≡◌, ◌++◌, [], ◌∷◌, map, pos};
ghost use Rattle.bid_rules.specs.Rent.{IsValidRentCase};
ghost use Rattle.cert_reader.specs.declared.forms.Word.TheVariants as word;
ghost use Rattle.cert_reader.specs.Text.{wholes};
ghost use Rattle.cert_reader.specs.Views.{OfRent};
ghost use Rattle.certificates.specs.Canonical.{text_saying};
ghost use Rattle.certificates.specs.Lines.{number_line};
ghost use Rattle.certificates.specs.RentLines.{canonical_rent};
ghost use Rattle.certificates.specs.Puts.{Puts};
ghost use Rattle.rent_maximin.specs.Division.{IsRentDivision};
ghost use Rattle.split_frac.specs.Frac.{fraction_of};

use crate::lines::{put_amounts, put_fractions, put_rows, put_signed, put_small};
use best_laws::assignment_law;
use bid_rules::RentCase;
use cert_reader::Word;
use rent_maximin::RentDivision;

// Puts the lines before the values.
fn put_head(text: &mut [u8], used: usize, members: u8, rent: u32) -> usize
    ensures { Puts
        (number_line word.Fairsplit (wholes (pos 1 ∷ []))
        ++ (number_line word.KindRent []
        ++ (number_line word.Members (wholes (pos members ∷ []))
        ++ number_line word.Rent (wholes (pos rent ∷ []))))) used text.old text.new result }
{
    let used = put_small(text, used, Word::Fairsplit, &[1]);
    let used = put_small(text, used, Word::KindRent, &[]);
    let used = put_small(text, used, Word::Members, &[members]);
    put_amounts(text, used, Word::Rent, &[rent])
}

// Puts the lines of the rooms and of what shows that they are the best.
fn put_rooms(text: &mut [u8], used: usize, division: &RentDivision) -> usize
    ensures { Puts
        (number_line word.Rooms (wholes (map pos division.now.best.rooms.items))
        ++ (number_line word.Left (wholes division.now.best.left.items)
        ++ number_line word.Right (wholes division.now.best.right.items))) used text.old text.new
        result }
{
    let used = put_small(text, used, Word::Rooms, division.best.rooms.as_slice());
    let used = put_signed(text, used, Word::Left, division.best.left.as_slice());
    put_signed(text, used, Word::Right, division.best.right.as_slice())
}

// Puts the lines of the prices and of what shows that they are the best, and the last line.
fn put_prices(text: &mut [u8], used: usize, division: &RentDivision) -> usize
    ensures { Puts
        (number_line word.Walks (wholes division.now.walks.weights.items)
        ++ (number_line word.Ranks (wholes (map pos division.now.walks.ranks.items))
        ++ (number_line word.Prices (map fraction_of division.now.prices.items)
        ++ number_line word.End []))) used text.old text.new result }
{
    let used = put_signed(text, used, Word::Walks, division.walks.weights.as_slice());
    let used = put_small(text, used, Word::Ranks, division.walks.ranks.as_slice());
    let used = put_fractions(text, used, Word::Prices, division.prices.as_slice());
    put_small(text, used, Word::End, &[])
}

/// Puts the canonical certificate of a rent at the front of the text.
pub fn put_rent(text: &mut [u8], case: &RentCase, division: &RentDivision) -> usize
    requires case { IsValidRentCase case.now }
    requires division { IsRentDivision case.now division.now }
    ensures { Puts (text_saying (OfRent (canonical_rent case.now division.now))) 0 text.old text.new
        result }
{
    assignment_law();
    let used = put_head(text, 0, case.facts.members, case.facts.rent);
    let used = put_rows(text, used, Word::Values, case.values.as_slice());
    let used = put_rooms(text, used, division);
    put_prices(text, used, division)
}
