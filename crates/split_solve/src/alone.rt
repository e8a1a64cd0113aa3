// Solves a case without threads, for callers that have none.
ghost use Rattle.std.specs.Prelude.{◌≡◌, ℕ, ◌<◌, ◌↔◌, All, IfSome, Ok, length};
ghost use Rattle.bid_rules.specs.declared.cases.Case.TheVariants as case;
ghost use Rattle.bid_rules.specs.declared.goods.GoodsCase.{GoodsCase};
ghost use Rattle.bid_rules.specs.Facts.{AreMissing, IsCheckedBid, IsCheckedFacts, IsValidCase, case_of, member_count};
ghost use Rattle.bid_rules.specs.Goods.{IsValidGoodsCase};
ghost use Rattle.nash_search.specs.Division.{HasSteps};
ghost use Rattle.split_solve.specs.Searches.{IsSearched};
ghost use Rattle.split_solve.specs.Solving.{IsDivided, IsOver, IsSolved, IsVoid};

use crate::solving::{SolveFault, end_of};
use bid_rules::{Bid, Case, Facts, GoodsCase, case_law, make_case};
use certificates::Division;
use nash_search::{GoodsDivision, OverLimit, limit_law, search_alone};
use rent_maximin::solve_rent;
use shapley_core::solve_fares;
use std::alloc::Global;

/// What `solve` gives, by the calling thread alone: no handle is taken and no thread is started.
pub fn solve_alone(
    alloc: Global,
    facts: &Facts,
    bids: &[Option<Bid>],
) -> Result<(Case, Division), SolveFault>
    requires facts { IsCheckedFacts facts.now }
    requires count { length bids.now ≡ member_count facts.now }
    requires bids { All (λ bid. IfSome bid (IsCheckedBid facts.now)) bids.now }
    ensures solved { IsSolved facts.now bids.now result }
    ensures void { IsVoid result ↔ AreMissing facts.now bids.now }
    ensures over { (goods : GoodsCase) (steps : ℕ)
        → case_of facts.now bids.now ≡ Ok (case.Goods goods) → HasSteps goods steps → IsOver result
        ↔ (goods.facts.limit < steps) }
{
    case_law();
    limit_law();
    let case = match make_case(facts, bids) {
        Ok(case) => case,
        Err(missing) => return Err(SolveFault::Void { missing }),
    };
    let division = lone_division(alloc, &case)?;
    Ok((case, division))
}

// The best division of a case.
fn lone_division(alloc: Global, case: &Case) -> Result<Division, SolveFault>
    requires case { IsValidCase case.now }
    ensures { IsDivided case.now result }
{
    match case {
        Case::Rent(case) => Ok(Division::Rent(solve_rent(case))),
        Case::Goods(case) => end_of(searched(case)),
        Case::Fares(case) => Ok(Division::Fares(solve_fares(alloc, case)?)),
    }
}

// What the search of a case of goods finds.
fn searched(case: &GoodsCase) -> Result<GoodsDivision, OverLimit>
    requires { IsValidGoodsCase case.now }
    ensures { IsSearched case.now result }
{
    search_alone(case)
}
