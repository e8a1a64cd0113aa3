// Gives the verdict on a certificate that has been read.
ghost use Rattle.std.specs.Prelude.{◌≡◌, ℕ, List};
ghost use Rattle.cert_checker.specs.Judged.{GivesVerdict, IsBest, IsJudged};
ghost use Rattle.cert_reader.specs.Text.{IsText};
ghost use Rattle.cert_reader.specs.Views.{counts_of, fares_view, goods_view, said_of, view_of};
ghost use Rattle.fare_rules.specs.Rules.{rules_of_fares};
ghost use Rattle.goods_rules.specs.Rules.{rules_of_goods};
ghost use Rattle.rule_verdicts.specs.Verdicts.{IsVerdictOf};

use cert_reader::{Certificate, FaresText, GoodsText, set_count, start_count};
use fare_rules::{Rows, end_fares, fares_certificate_law, start_fares, take_set};
use goods_rules::{end_goods, goods_certificate_law, start_goods, take_mark};
use rent_rules::{check_rent, rent_certificate_law};
use rule_verdicts::Verdict;

/// Whether all rules of its kind hold for the certificate, or else the first that does not. This is the verdict that `judge` gives on the bytes from
/// which the certificate was read. It takes no memory.
///
/// The program judges bytes as they come; this is for a caller who has read the certificate already, by `read_certificate`.
pub fn check(certificate: &Certificate) -> Verdict
    ensures verdict { GivesVerdict (view_of certificate.now) result }
    ensures judged { (bytes : List ℕ)
        → IsText bytes (counts_of (view_of certificate.now)) (said_of (view_of certificate.now))
        → IsJudged bytes result }
    ensures best { result ≡ Verdict.Yes → IsBest (view_of certificate.now) }
{
    rent_certificate_law();
    goods_certificate_law();
    fares_certificate_law();
    match certificate {
        Certificate::Rent(text) => check_rent(text),
        Certificate::Goods(text) => check_goods(text),
        Certificate::Fares(text) => check_fares(text),
    }
}

// Whether the certificate keeps the rules of goods, or the first that it breaks.
fn check_goods(text: &GoodsText) -> Verdict
    ensures { IsVerdictOf (rules_of_goods (goods_view text.now)) result }
{
    let mut state = start_goods(
        text.goods,
        text.limit,
        text.who.as_slice(),
        text.values.as_slice(),
        text.owners.as_slice(),
    );
    let marks = text.tree.marks();
    for k in 0..marks.len() {
        take_mark(&mut state, marks[k]);
    }
    end_goods(&state)
}

// Whether the certificate keeps the rules of fares, or the first that it breaks.
fn check_fares(text: &FaresText) -> Verdict
    ensures { IsVerdictOf (rules_of_fares (fares_view text.now)) result }
{
    let riders = text.who.len() as u8;
    let numbers = text.table.numbers();
    let mut rows = Rows::new();
    let mut state = start_fares(
        &mut rows,
        text.places,
        text.flag,
        text.legs.as_slice(),
        text.who.as_slice(),
        text.at.as_slice(),
    );
    let mut from = 0;
    for set in 1..set_count(riders) + 1 {
        let to = from + start_count(riders, set);
        take_set(&mut state, &mut rows, &numbers[from..to]);
        from = to;
    }
    end_fares(&state, &rows, text.route.as_slice(), text.fares.as_slice())
}
