// The report of a case of any kind.
ghost use Rattle.std.specs.Prelude.{◌≡◌, Ok, IfOk, length};
ghost use Rattle.bid_rules.specs.Facts.{IsValidCase, case_of, facts_of, member_count};
ghost use Rattle.body_fields.specs.Creations.{item_count};
ghost use Rattle.certificates.specs.Division.{IsDivisionOf};
ghost use Rattle.split_json.specs.Reading.{IsReady, case_data_of};
ghost use Rattle.split_reports.specs.Names.{shown_names};
ghost use Rattle.split_reports.specs.Reports.{IsNamedReport, IsReport};

use crate::Names;
use crate::fares::fares_report;
use crate::goods::goods_report;
use crate::rent::rent_report;
use bid_rules::{Case, case_law};
use certificates::Division;
use split_base::NoMemory;
use split_json::CaseInput;
use std::alloc::Global;

/// The report that people read: who gets what, what each pays in whole cents for rents and fares, and who envies whom over rents
/// and goods. Lines end with LF.
///
/// The lists of the input have the counts of its facts, the facts and bids have no fault, the case is the one that they make,
/// and the division is the solver's for that case.
pub fn report(
    alloc: Global,
    input: &CaseInput,
    case: &Case,
    division: &Division,
) -> Result<Vec<u8>, NoMemory>
    requires input { IsReady (case_data_of input.now) }
    requires case { case_of input.now.facts input.now.bids.items ≡ Ok case.now }
    requires division { IsDivisionOf case.now division.now }
    ensures { IfOk result (λ text.
        IsReport (case_data_of input.now) case.now division.now text.items) }
{
    case_law();
    let names = Names::new(&input.title, &input.members, &input.items);
    named_report(alloc, &names, case, division)
}

/// The report that people read, of a case whose names are given apart from its facts and bids.
///
/// There is a name for each member and each item of the case, and the division is the solver's for it.
pub fn named_report(
    alloc: Global,
    names: &Names<'_>,
    case: &Case,
    division: &Division,
) -> Result<Vec<u8>, NoMemory>
    requires case { IsValidCase case.now }
    requires members { length names.now.members.now.items ≡ member_count (facts_of case.now) }
    requires items { length names.now.items.now.items ≡ item_count (facts_of case.now) }
    requires division { IsDivisionOf case.now division.now }
    ensures { IfOk result (λ text.
        IsNamedReport (shown_names names.now) case.now division.now text.items) }
{
    match (case, division) {
        (Case::Rent(case), Division::Rent(division)) => rent_report(alloc, names, case, division),
        (Case::Goods(case), Division::Goods(division)) => goods_report(
            alloc, names, case, division,
        ),
        (Case::Fares(case), Division::Fares(division)) => fares_report(
            alloc, names, case, division,
        ),
        _ => unreachable!(),
    }
}
