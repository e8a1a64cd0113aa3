// The cases of a trial, solved and checked one after another, and the lines that say so.
ghost use Rattle.std.specs.Prelude.{ℕ, ◌≤◌, IfOk, OnOk, string_bytes};
ghost use Rattle.bid_rules.specs.Facts.{IsValidFareCase};
ghost use Rattle.bid_rules.specs.Goods.{IsValidGoodsCase};
ghost use Rattle.bid_rules.specs.Rent.{IsValidRentCase};
ghost use Rattle.nash_bounds.specs.Steps.{HasSteps};
ghost use Rattle.nash_search.specs.Division.{IsGoodsDivision};
ghost use Rattle.trial_runs.specs.Texts.{IsFareLine, IsGoodsLine, IsRentLine, IsTrialText};

use crate::checking::check_division;
use bid_rules::{Case, FareCase, GoodsCase, RentCase};
use certificates::Division;
use nash_search::GoodsDivision;
use rent_maximin::solve_rent;
use search_workers::{Means, Workers, search};
use shapley_core::solve_fares;
use split_base::{Gate, NoMemory};
use split_frac::push_line;
use split_reports::{trial_cases, trial_law};
use std::alloc::Global;
use std::thread::Threads;

/// The trial of a number, in four lines: the number; the least utility of a member of the rent; how many players get something of the goods,
/// the product of their utilities and the steps of the search; what all riders of the fare cost. The last three end with `check yes`.
///
/// The cases are drawn from the number, each gets its best division, and its certificate is written in memory, read back and judged: the verdict
/// is yes. The number of workers never changes the text, and the step count of the goods is never above the limit.
pub fn trial_text<R: Threads + Sync, G: Gate + Sync>(
    means: &Means<'_, R, G>,
    workers: Workers,
    number: u64,
) -> Result<Vec<u8>, NoMemory>
    ensures { IfOk result (λ text. IsTrialText number text.items) }
{
    trial_law();
    let (rent, goods, fare) = trial_cases(number);
    let alloc = means.alloc;
    let mut text = String::new(alloc);
    push_line(&mut text, format_args!("trial {number}"))?;
    push_rent(alloc, &mut text, rent)?;
    push_goods(means, workers, &mut text, goods)?;
    push_fare(alloc, &mut text, fare)?;
    Ok(text.into_bytes())
}

// Solves and checks a rent, and appends its line.
fn push_rent(alloc: Global, text: &mut String, case: RentCase) -> Result<(), NoMemory>
    requires { IsValidRentCase case }
    ensures { OnOk result (IsRentLine case (string_bytes text.old) (string_bytes text.new)) }
{
    let division = solve_rent(&case);
    let least = division.least;
    check_division(alloc, &Case::Rent(case), &Division::Rent(division))?;
    push_line(text, format_args!("rent least {least} check yes"))
}

// The best division of goods whose step count is within their limit.
fn divide_goods<R: Threads + Sync, G: Gate + Sync>(
    means: &Means<'_, R, G>,
    workers: Workers,
    case: &GoodsCase,
) -> GoodsDivision
    requires case { IsValidGoodsCase case.now }
    requires within { (steps : ℕ) → HasSteps case.now steps → steps ≤ case.now.facts.limit }
    ensures { IsGoodsDivision case.now result }
{
    match search(means.alloc, means.rt, case, workers.count(), means.gate) {
        Ok(division) => division,
        Err(_) => unreachable!(),
    }
}

// Solves and checks goods whose step count is within their limit, and appends their line.
fn push_goods<R: Threads + Sync, G: Gate + Sync>(
    means: &Means<'_, R, G>,
    workers: Workers,
    text: &mut String,
    case: GoodsCase,
) -> Result<(), NoMemory>
    requires case { IsValidGoodsCase case }
    requires within { (steps : ℕ) → HasSteps case steps → steps ≤ case.facts.limit }
    ensures { OnOk result (IsGoodsLine case (string_bytes text.old) (string_bytes text.new)) }
{
    let division = divide_goods(means, workers, &case);
    let (count, product) = (division.pair.count, division.pair.product);
    let steps = division.steps;
    check_division(means.alloc, &Case::Goods(case), &Division::Goods(division))?;
    push_line(
        text,
        format_args!("goods count {count} product {product} steps {steps} check yes"),
    )
}

// Solves and checks a shared fare, and appends its line.
fn push_fare(alloc: Global, text: &mut String, case: FareCase) -> Result<(), NoMemory>
    requires { IsValidFareCase case }
    ensures { OnOk result (IsFareLine case (string_bytes text.old) (string_bytes text.new)) }
{
    let division = solve_fares(alloc, &case)?;
    let total = division.total;
    check_division(alloc, &Case::Fares(case), &Division::Fares(division))?;
    push_line(text, format_args!("fares total {total} check yes"))
}
