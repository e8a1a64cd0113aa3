// Writes the canonical certificate of a case of any kind.
ghost use Rattle.std.specs.Prelude.{◌≡◌, ◌≤◌, length, take, IfOk};
ghost use Rattle.bid_rules.specs.Facts.{IsValidCase};
ghost use Rattle.cert_checker.specs.Judged.{IsCertificate};
ghost use Rattle.cert_reader.specs.declared.limits.TheConstants.{MOST_BYTES};
ghost use Rattle.certificates.specs.Canonical.{IsCanonical, canonical_text};
ghost use Rattle.certificates.specs.Division.{IsDivisionOf};
ghost use Rattle.certificates.specs.Puts.{Puts};

use crate::Division;
use crate::fares::put_fare_division;
use crate::goods::put_goods;
use crate::laws::certificate_law;
use crate::marks::likely_marks;
use crate::rent::put_rent;
use bid_rules::Case;
use bid_rules::limits::MOST_RIDERS;
use cert_reader::limits::MOST_BYTES;
use split_base::NoMemory;
use std::alloc::Global;

// Puts the canonical certificate of a case at the front of the text, and returns its size. What doesn't fit is only counted.
fn put_certificate(text: &mut [u8], case: &Case, division: &Division) -> usize
    requires case { IsValidCase case.now }
    requires division { IsDivisionOf case.now division.now }
    ensures { Puts (canonical_text case.now division.now) 0 text.old text.new result }
{
    match (case, division) {
        (Case::Rent(case), Division::Rent(division)) => put_rent(text, case, division),
        (Case::Goods(case), Division::Goods(division)) => put_goods(text, case, division),
        (Case::Fares(case), Division::Fares(division)) => put_fare_division(text, case, division),
        _ => unreachable!(),
    }
}

// How many bytes the line of a set of riders takes in most certificates of fares.
const LIKELY_SET_LINE: usize = 96;

// How many bytes the lines take besides the marks of a tree: enough for the largest rents and goods.
const LIKELY_BESIDE_MARKS: usize = 8_192;

// How many bytes a certificate probably takes. Nothing depends on this guess: a longer text is written a second time.
fn likely_size(case: &Case, division: &Division) -> usize {
    let more = match (case, division) {
        (Case::Goods(case), Division::Goods(division)) => likely_marks(case, division),
        (Case::Fares(case), _) => LIKELY_SET_LINE << case.who.len().min(usize::from(MOST_RIDERS)),
        _ => 0,
    };
    more.saturating_add(LIKELY_BESIDE_MARKS).min(MOST_BYTES)
}

// The certificate at the front of this much memory, and its size.
fn write_into(
    alloc: Global,
    case: &Case,
    division: &Division,
    room: usize,
) -> Result<(Vec<u8>, usize), NoMemory>
    requires case { IsValidCase case.now }
    requires division { IsDivisionOf case.now division.now }
    ensures room { IfOk result (λ made. length made.0.items ≡ room) }
    ensures size { IfOk result (λ made. made.1 ≡ length (canonical_text case.now division.now)) }
    ensures text { IfOk result (λ made.
        made.1 ≤ room → take made.1 made.0.items ≡ canonical_text case.now division.now) }
{
    certificate_law();
    let Ok(mut text) = vec![in alloc; 0; room] else {
        return Err(NoMemory);
    };
    let size = put_certificate(text.as_mut_slice(), case, division);
    Ok((text, size))
}

/// The canonical certificate of a case: the case, its division, and the numbers that show that the division is the best (certifying
/// algorithms: McConnell, Mehlhorn, Näher and Schweitzer 2011).
///
/// The division is the solver's for that case. The text is written once, into memory that is probably enough; only one that didn't fit is
/// written again, into as much as it takes.
pub fn write_certificate(
    alloc: Global,
    case: &Case,
    division: &Division,
) -> Result<Vec<u8>, NoMemory>
    requires case { IsValidCase case.now }
    requires division { IsDivisionOf case.now division.now }
    ensures canonical { IfOk result (λ text. IsCanonical case.now text.items) }
    ensures certificate { IfOk result (λ text. IsCertificate text.items) }
    ensures short { IfOk result (λ text. length text.items ≤ MOST_BYTES) }
{
    certificate_law();
    let (mut text, size) = write_into(alloc, case, division, likely_size(case, division))?;
    if text.len() < size {
        let (text, _) = write_into(alloc, case, division, size)?;
        return Ok(text);
    }
    text.truncate(size);
    Ok(text)
}
