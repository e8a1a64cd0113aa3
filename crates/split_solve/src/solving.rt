// One call for all kinds: the case of facts and bids, and its best division, kept from before or newly found.
ghost use Rattle.std.specs.Prelude.{◌≡◌, ℕ, ◌<◌, ◌≤◌, ◌↔◌, All, Err, IfSome, Ok, length};
ghost use Rattle.bid_rules.specs.declared.cases.Case.TheVariants as case;
ghost use Rattle.bid_rules.specs.declared.cases.Missing.{Missing};
ghost use Rattle.bid_rules.specs.declared.goods.GoodsCase.{GoodsCase};
ghost use Rattle.bid_rules.specs.Goods.{IsValidGoodsCase};
ghost use Rattle.bid_rules.specs.Facts.{AreMissing, IsCheckedBid, IsCheckedFacts, IsValidCase, case_of, member_count};
ghost use Rattle.nash_search.specs.Division.{HasSteps};
ghost use Rattle.split_solve.specs.Searches.{IsSearched};
ghost use Rattle.split_solve.specs.Solving.{IsDivided, IsOver, IsSolved, IsVoid};

use crate::kept::KeptSearches;
use crate::solver::Solver;
use bid_rules::{Bid, Case, Facts, GoodsCase, Missing, case_law, make_case};
use certificates::Division;
use nash_search::{GoodsDivision, OverLimit, limit_law};
use rent_maximin::solve_rent;
use search_workers::limits::MOST_WORKERS;
use search_workers::{Means, Workers, search};
use shapley_core::solve_fares;
use split_base::{Gate, NoMemory};
use std::alloc::Global;
use std::thread::Threads;

/// Why facts and bids have no division.
#[derive(Debug, Drop, PartialEq, Eq)]
pub enum SolveFault {
    /// The facts and bids make no case, since these members have not bid: for a rent if any bid is missing, for goods and fares if all
    /// are.
    Void { missing: Missing },
    /// The facts and bids make a case of goods whose step count is above this limit of the case.
    OverLimit { limit: u32 },
    /// The facts and bids make a case of fares, but memory ran out.
    NoMemory,
}

impl From<NoMemory> for SolveFault {
    ghost use Rattle.std.specs.Prelude.{◌≡◌};
    ghost use Rattle.split_solve.specs.declared.solving.SolveFault.TheVariants.{NoMemory};

    ghost from_gives = { λ _ fault. fault ≡ NoMemory };

    fn from(_: NoMemory) -> Self {
        SolveFault::NoMemory
    }
}

/// The case that checked facts and checked bids make, and its best division.
///
/// There is an entry in `bids` for each member, which is `None` if the member has not bid. The division has the maximin prices for a rent,
/// the greatest Nash welfare for goods and the Shapley values for fares, with the tie rules of each. Goods are searched by 1 to
/// `MOST_WORKERS` workers, whose number never changes the answer.
pub fn solve<R: Threads + Sync, G: Gate + Sync>(
    alloc: Global,
    rt: &R,
    facts: &Facts,
    bids: &[Option<Bid>],
    workers: u8,
    gate: &G,
) -> Result<(Case, Division), SolveFault>
    requires facts { IsCheckedFacts facts.now }
    requires count { length bids.now ≡ member_count facts.now }
    requires bids { All (λ bid. IfSome bid (IsCheckedBid facts.now)) bids.now }
    requires workers { (1 ≤ workers) × (workers ≤ MOST_WORKERS) }
    ensures solved { IsSolved facts.now bids.now result }
    ensures void { IsVoid result ↔ AreMissing facts.now bids.now }
    ensures over { (goods : GoodsCase) (steps : ℕ)
        → case_of facts.now bids.now ≡ Ok (case.Goods goods) → HasSteps goods steps → IsOver result
        ↔ (goods.facts.limit < steps) }
{
    let mut searches = KeptSearches::new(alloc);
    let means = Means { alloc, rt, gate };
    let mut solver = Solver {
        means: &means,
        workers: Workers::new(workers),
        searches: &mut searches,
    };
    solve_once(&mut solver, facts, bids)
}

/// What `solve` gives, by the kept searches: a case of goods that is among them is not searched again, and the search of another is kept.
///
/// They never change the answer. Memory that is refused for keeping is not a fault.
pub fn solve_once<R: Threads + Sync, G: Gate + Sync>(
    solver: &mut Solver<'_, R, G>,
    facts: &Facts,
    bids: &[Option<Bid>],
) -> Result<(Case, Division), SolveFault>
    requires facts { IsCheckedFacts facts.now }
    requires count { length bids.now ≡ member_count facts.now }
    requires bids { All (λ bid. IfSome bid (IsCheckedBid facts.now)) bids.now }
    ensures solved { IsSolved facts.now bids.now result }
    ensures void { IsVoid result ↔ AreMissing facts.now bids.now }
    ensures over { (goods : GoodsCase) (steps : ℕ)
        → case_of facts.now bids.now ≡ Ok (case.Goods goods) → HasSteps goods steps → IsOver result
        ↔ (goods.facts.limit < steps) }
{
    case_law();
    limit_law();
    let case = match make_case(facts, bids) {
        Ok(case) => case,
        Err(missing) => return Err(SolveFault::Void { missing }),
    };
    let division = best_division(solver, &case)?;
    Ok((case, division))
}

// The best division of a case, by the kept searches.
fn best_division<R: Threads + Sync, G: Gate + Sync>(
    solver: &mut Solver<'_, R, G>,
    case: &Case,
) -> Result<Division, SolveFault>
    requires case { IsValidCase case.now }
    ensures { IsDivided case.now result }
{
    match case {
        Case::Rent(case) => Ok(Division::Rent(solve_rent(case))),
        Case::Goods(case) => end_of(search_once(solver, case)),
        Case::Fares(case) => Ok(Division::Fares(solve_fares(solver.means.alloc, case)?)),
    }
}

// What the search of a case of goods finds: the kept answer, or otherwise that of a new search, which is then kept.
fn search_once<R: Threads + Sync, G: Gate + Sync>(
    solver: &mut Solver<'_, R, G>,
    case: &GoodsCase,
) -> Result<GoodsDivision, OverLimit>
    requires case { IsValidGoodsCase case.now }
    ensures { IsSearched case.now result }
{
    match solver.searches.answer(case) {
        Some(found) => found,
        None => {
            let means = solver.means;
            let workers = solver.workers.count();
            let found = search(means.alloc, means.rt, case, workers, means.gate);
            solver.searches.keep(case, &found);
            found
        }
    }
}

// How a case of goods ends by its search.
pub(crate) fn end_of(found: Result<GoodsDivision, OverLimit>) -> Result<Division, SolveFault>
    ensures { (goods : GoodsCase) → IsSearched goods found → IsDivided (case.Goods goods) result }
{
    match found {
        Ok(division) => Ok(Division::Goods(division)),
        Err(over) => Err(SolveFault::OverLimit { limit: over.limit }),
    }
}
