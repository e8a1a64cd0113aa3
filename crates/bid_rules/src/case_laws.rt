// A law about the rules of cases: a case made from facts and bids has those facts, and is valid if these and the bids are checked.
// It is the contract of a function that does nothing.
ghost use Rattle.std.specs.Prelude.{◌≡◌, List, Option, Ok, length, All, IfSome};
ghost use Rattle.bid_rules.specs.declared.bids.Bid.{Bid};
ghost use Rattle.bid_rules.specs.declared.bids.Facts.{Facts};
ghost use Rattle.bid_rules.specs.declared.cases.Case.{Case};
ghost use Rattle.bid_rules.specs.Facts.{IsCheckedBid, IsCheckedFacts, IsValidCase, case_of, facts_of, member_count};

/// The case that facts and bids make has the same facts, and it is valid if the facts and the bids
/// are checked.
pub fn case_law()
    ensures facts { (facts : Facts) (bids : List (Option Bid)) (case : Case)
        → case_of facts bids ≡ Ok case → facts_of case ≡ facts }
    ensures valid { (facts : Facts) (bids : List (Option Bid)) (case : Case) → IsCheckedFacts facts
        → length bids ≡ member_count facts → All (λ bid. IfSome bid (IsCheckedBid facts)) bids
        → case_of facts bids ≡ Ok case → IsValidCase case }
{}
