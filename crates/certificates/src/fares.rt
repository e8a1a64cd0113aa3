// Writes the canonical certificate of fares into a buffer.
ghost use Rattle.std.specs.Prelude.{◌≡◌, ◌++◌, [], ◌∷◌, flat_map, length, map, pos};
ghost use Rattle.bid_rules.specs.Facts.{IsValidFareCase};
ghost use Rattle.cert_reader.specs.declared.forms.Word.TheVariants as word;
ghost use Rattle.cert_reader.specs.Text.{wholes};
ghost use Rattle.cert_reader.specs.Views.{OfFares};
ghost use Rattle.certificates.specs.Canonical.{text_saying};
ghost use Rattle.certificates.specs.Lines.{number_line};
ghost use Rattle.certificates.specs.FareLines.{canonical_fares};
ghost use Rattle.certificates.specs.FareDivisions.{division_of};
ghost use Rattle.certificates.specs.Puts.{Puts};
ghost use Rattle.shapley_core.specs.Division.{IsFareDivision};
ghost use Rattle.split_frac.specs.Frac.{fraction_of};

use crate::lines::{put_amounts, put_fractions, put_rows, put_small};
use crate::sets::put_sets;
use best_laws::coalition_law;
use bid_rules::{FareCase, Fares};
use cert_reader::Word;
use set_costs::SetCosts;
use shapley_core::FareDivision;
use split_frac::Frac;

// Puts the lines before the legs.
fn put_head(text: &mut [u8], used: usize, riders: u8, facts: &Fares) -> usize
    ensures { Puts
        (number_line word.Fairsplit (wholes (pos 1 ∷ []))
        ++ (number_line word.KindFares []
        ++ (number_line word.Riders (wholes (pos riders ∷ []))
        ++ (number_line word.Places (wholes (pos facts.now.places ∷ []))
        ++ number_line word.Flag (wholes (pos facts.now.flag ∷ [])))))) used text.old text.new
        result }
{
    let used = put_small(text, used, Word::Fairsplit, &[1]);
    let used = put_small(text, used, Word::KindFares, &[]);
    let used = put_small(text, used, Word::Riders, &[riders]);
    let used = put_small(text, used, Word::Places, &[facts.places]);
    put_amounts(text, used, Word::Flag, &[facts.flag])
}

// Puts the lines of the legs.
fn put_legs(text: &mut [u8], used: usize, case: &FareCase) -> usize
    ensures { Puts
        (flat_map (λ row. number_line word.Legs (wholes (map pos row.items)))
        case.now.facts.legs.items) used text.old text.new result }
{
    put_rows(text, used, Word::Legs, case.facts.legs.as_slice())
}

// Puts the members who are the riders, and where they get off.
fn put_riders(text: &mut [u8], used: usize, case: &FareCase) -> usize
    ensures { Puts
        (number_line word.Who (wholes (map pos case.now.who.items))
        ++ number_line word.At (wholes (map pos case.now.at.items))) used text.old text.new result }
{
    let used = put_small(text, used, Word::Who, case.who.as_slice());
    put_small(text, used, Word::At, case.at.as_slice())
}

// Puts the lines after the table: the route and the fares.
fn put_division(text: &mut [u8], used: usize, route: &[u8], fares: &[Frac]) -> usize
    ensures { Puts
        (number_line word.Route (wholes (map pos route.now))
        ++ (number_line word.Fares (map fraction_of fares.now) ++ number_line word.End [])) used
        text.old text.new result }
{
    let used = put_small(text, used, Word::Route, route);
    let used = put_fractions(text, used, Word::Fares, fares);
    put_small(text, used, Word::End, &[])
}

/// Puts the canonical certificate of fares at the front of the text.
pub fn put_fares(
    text: &mut [u8],
    case: &FareCase,
    costs: &SetCosts<'_>,
    fares: &[Frac],
    route: &[u8],
) -> usize
    requires case { IsValidFareCase case.now }
    requires costs { costs.now ≡ case.now }
    ensures { Puts
        (text_saying
        (OfFares (canonical_fares case.now (division_of case.now fares.now route.now)))) 0 text.old
        text.new result }
{
    coalition_law();
    let riders = case.at.len() as u8;
    let head = put_head(text, 0, riders, &case.facts);
    let legs = put_legs(text, head, case);
    let who = put_riders(text, legs, case);
    let sets = put_sets(text, who, costs, riders);
    put_division(text, sets, route, fares)
}

// The same for the solver's division, whose costs are in memory of their own.
pub(crate) fn put_fare_division(text: &mut [u8], case: &FareCase, division: &FareDivision) -> usize
    requires case { IsValidFareCase case.now }
    requires division { IsFareDivision case.now division.now }
    ensures { Puts (text_saying (OfFares (canonical_fares case.now division.now))) 0 text.old
        text.new result }
{
    let costs = division.costs.borrowed();
    put_fares(
        text,
        case,
        &costs,
        division.fares.as_slice(),
        division.route.as_slice(),
    )
}
