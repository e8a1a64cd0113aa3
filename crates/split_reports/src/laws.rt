// Laws about reports, which hold for all cases. Each is the contract of a function that does nothing.
ghost use Rattle.std.specs.Prelude.{◌≡◌, ℕ, List, Ok};
ghost use Rattle.bid_rules.specs.declared.cases.Case.{Case};
ghost use Rattle.bid_rules.specs.Facts.{case_of};
ghost use Rattle.certificates.specs.declared.division.Division.{Division};
ghost use Rattle.certificates.specs.Division.{IsDivisionOf};
ghost use Rattle.split_json.specs.Reading.{CaseData, IsReady};
ghost use Rattle.split_reports.specs.Reports.{IsReport};

use best_laws::best_fares_law;
use bid_rules::case_law;
use nash_search::step_count_law;
use rent_maximin::one_rent_division_law;
use split_frac::value_law;

/// What is given fixes the report: a case has one division by the solver, and a division has one text.
pub fn report_law()
    ensures { (given : CaseData) (case : Case) (division others : Division) (text other : List ℕ)
        → IsReady given → case_of given.facts given.bids ≡ Ok case → IsDivisionOf case division
        → IsDivisionOf case others → IsReport given case division text
        → IsReport given case others other → text ≡ other }
{
    best_fares_law();
    case_law();
    step_count_law();
    one_rent_division_law();
    value_law();
}
