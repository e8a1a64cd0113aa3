// A law about the answers, which holds for all facts and bids. It is the contract of a function that does nothing.
ghost use Rattle.std.specs.Prelude.{◌≡◌, ◌≢◌, All, Err, IfSome, List, Ok, Option, Result, length};
ghost use Rattle.bid_rules.specs.declared.bids.Bid.{Bid};
ghost use Rattle.bid_rules.specs.declared.bids.Facts.{Facts};
ghost use Rattle.bid_rules.specs.declared.cases.Case.{Case};
ghost use Rattle.bid_rules.specs.Facts.{IsCheckedBid, IsCheckedFacts, member_count};
ghost use Rattle.certificates.specs.declared.division.Division.{Division};
ghost use Rattle.split_solve.specs.Solving.{IsSolved};
ghost use Rattle.split_solve.specs.declared.solving.SolveFault.{SolveFault};
ghost use Rattle.split_solve.specs.declared.solving.SolveFault.TheVariants.{NoMemory};

use bid_rules::case_law;
use certificates::division_law;
use nash_search::limit_law;

/// Unless memory runs out, facts and bids have at most one end: one case, or one fault. If they are checked, the case has only one
/// division, too (`one_end`). So neither the number of workers nor their order changes it.
pub fn solve_law()
    ensures one_case { (facts : Facts) (bids : List (Option Bid)) (a b : Case × Division)
        → IsSolved facts bids (Ok a) → IsSolved facts bids (Ok b) → a.0 ≡ b.0 }
    ensures one_fault { (facts : Facts) (bids : List (Option Bid)) (fault other : SolveFault)
        → IsSolved facts bids (Err fault) → IsSolved facts bids (Err other) → fault ≢ NoMemory
        → other ≢ NoMemory → fault ≡ other }
    ensures one_kind { (facts : Facts) (bids : List (Option Bid)) (answer : Case × Division)
        (fault : SolveFault) → IsSolved facts bids (Ok answer) → IsSolved facts bids (Err fault)
        → fault ≡ NoMemory }
    ensures one_end { (facts : Facts) (bids : List (Option Bid))
        (end other : Result (Case × Division) SolveFault) → IsCheckedFacts facts
        → length bids ≡ member_count facts → All (λ bid. IfSome bid (IsCheckedBid facts)) bids
        → IsSolved facts bids end → IsSolved facts bids other → end ≢ Err NoMemory
        → other ≢ Err NoMemory → end ≡ other }
{
    case_law();
    division_law();
    limit_law();
}
