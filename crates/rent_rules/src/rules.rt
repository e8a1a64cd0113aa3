// The rules of a certificate of a rent, asked in order.
ghost use Rattle.cert_reader.specs.Views.{rent_view};
ghost use Rattle.rent_rules.specs.Rules.{rules_of_rent};
ghost use Rattle.rule_verdicts.specs.Verdicts.{IsVerdictOf};

use crate::keys::{are_above, are_reached};
use crate::prices::are_prices;
use crate::printed::{case_of, rooms_of};
use crate::walks::{are_ranked, are_settled};
use cert_reader::RentText;
use rule_verdicts::Verdict;

/// Whether the certificate keeps the seven rules of a rent, or the first that it breaks. It takes no memory.
pub fn check_rent(text: &RentText) -> Verdict
    ensures { IsVerdictOf (rules_of_rent (rent_view text.now)) result }
{
    let Some(case) = case_of(text) else {
        return Verdict::No { rule: 1 };
    };
    let Some(numbers) = rooms_of(text) else {
        return Verdict::No { rule: 2 };
    };
    let rooms = numbers.as_slice();
    if !are_above(&case, text.left.as_slice(), text.right.as_slice()) {
        return Verdict::No { rule: 3 };
    }
    if !are_reached(&case, rooms, text.left.as_slice(), text.right.as_slice()) {
        return Verdict::No { rule: 4 };
    }
    if !are_settled(&case, rooms, text.walks.as_slice()) {
        return Verdict::No { rule: 5 };
    }
    if !are_ranked(&case, rooms, text.walks.as_slice(), text.ranks.as_slice()) {
        return Verdict::No { rule: 6 };
    }
    if !are_prices(&case, rooms, text.walks.as_slice(), text.prices.as_slice()) {
        return Verdict::No { rule: 7 };
    }
    Verdict::Yes
}
