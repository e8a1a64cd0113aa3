// The commands that read a case and find its best division.
ghost use Rattle.std.specs.Prelude.{◌≡◌, Err, IfOk, Ok};
ghost use Rattle.bid_rules.specs.Facts.{case_of};
ghost use Rattle.certificates.specs.Division.{IsDivisionOf};
ghost use Rattle.command_results.specs.Endings.{ending_of};
ghost use Rattle.input_commands.specs.declared.dividing.DivisionText.{DivisionText};
ghost use Rattle.split_json.specs.Reading.{CaseData, IsReady, case_in, case_data_of};
ghost use Rattle.split_solve.specs.Solving.{IsSolved};
ghost use Rattle.input_commands.specs.Answers.{OfBody, OfCase};
ghost use Rattle.input_commands.specs.Steps.{IsTextOf, UpToMemory};

use bid_rules::{Case, case_law};
use certificates::{Division, write_certificate};
use command_results::{Stop, Text};
use search_workers::{Means, Workers};
use split_base::{Gate, NoMemory};
use split_json::{CaseInput, read_case};
use split_reports::report;
use split_solve::{SolveFault, solve};
use std::alloc::Global;
use std::thread::Threads;

/// What is written of a case and its division.
#[derive(Clone, Copy, Debug, PartialEq, Eq)]
pub enum DivisionText {
    /// The canonical certificate.
    Certificate,
    /// The report.
    Report,
}

// The text of the best division of the case that the bytes hold.
pub(crate) fn divide<R: Threads + Sync, G: Gate + Sync>(
    means: &Means<'_, R, G>,
    workers: Workers,
    sort: DivisionText,
    bytes: &[u8],
) -> Result<Text, Stop>
    ensures { UpToMemory (OfBody case_in (OfCase (IsTextOf sort)) bytes.now) (ending_of result) }
{
    match read_case(means.alloc, bytes)? {
        Ok(input) => divide_case(means, workers, sort, &input),
        Err(fault) => Err(Stop::BadCase { fault }),
    }
}

// The text of the best division of the case that facts and bids make.
fn divide_case<R: Threads + Sync, G: Gate + Sync>(
    means: &Means<'_, R, G>,
    workers: Workers,
    sort: DivisionText,
    input: &CaseInput,
) -> Result<Text, Stop>
    requires input { IsReady (case_data_of input.now) }
    ensures { UpToMemory (OfCase (IsTextOf sort) (case_data_of input.now)) (ending_of result) }
{
    let (alloc, count) = (means.alloc, workers.count());
    let bids = input.bids.as_slice();
    match solve(alloc, means.rt, &input.facts, bids, count, means.gate) {
        Ok((case, division)) => {
            let text = division_text(alloc, sort, input, &case, &division)?;
            Ok(Text::Kept(text))
        }
        Err(fault) => Err(stop_of(fault)),
    }
}

// The ending of a command whose facts and bids have no division.
pub(crate) fn stop_of(fault: SolveFault) -> Stop
    ensures { (sort : DivisionText) (given : CaseData)
        → IsSolved given.facts given.bids (Err fault)
        → UpToMemory (OfCase (IsTextOf sort) given) (Err result) }
{
    match fault {
        SolveFault::Void { missing } => Stop::Void { missing },
        SolveFault::OverLimit { limit } => Stop::OverLimit { limit },
        SolveFault::NoMemory => Stop::NoMemory,
    }
}

// The text of a case and its division.
fn division_text(
    alloc: Global,
    sort: DivisionText,
    input: &CaseInput,
    case: &Case,
    division: &Division,
) -> Result<Vec<u8>, NoMemory>
    requires input { IsReady (case_data_of input.now) }
    requires case { case_of input.now.facts input.now.bids.items ≡ Ok case.now }
    requires division { IsDivisionOf case.now division.now }
    ensures { IfOk result (λ text.
        IsTextOf sort (case_data_of input.now) case.now division.now text.items) }
{
    case_law();
    match sort {
        DivisionText::Certificate => write_certificate(alloc, case, division),
        DivisionText::Report => report(alloc, input, case, division),
    }
}
