// How the commands end on bytes that a caller has in memory. Only the calling thread works.
ghost use Rattle.std.specs.Prelude.{◌≡◌, IfOk, Ok};
ghost use Rattle.bid_rules.specs.Facts.{case_of};
ghost use Rattle.certificates.specs.Division.{IsDivisionOf};
ghost use Rattle.command_results.specs.Endings.{ending_of, verdict_ending};
ghost use Rattle.split_json.specs.Reading.{IsReady, case_in, case_data_of};
ghost use Rattle.input_commands.specs.Answers.{Answers, OfBody, OfCase};
ghost use Rattle.input_commands.specs.Commands.{TakesMemory};
ghost use Rattle.input_commands.specs.Ends.{CallsFor, EndsOnBytes};
ghost use Rattle.input_commands.specs.Steps.{IsTextOf, UpToMemory};
ghost use Rattle.input_commands.specs.declared.command.InputCommand.TheVariants.{Check, CheckWinner};

use crate::command::InputCommand;
use crate::dividing::{DivisionText, stop_of};
use crate::judging::judge_certificate;
use crate::limits::LONGEST_INPUT;
use crate::pairing::{judge_pair, pair};
use crate::weighing::weigh;
use bid_rules::{Case, case_law};
use certificates::{Division, write_certificate};
use command_results::{Stop, Text};
use split_base::{NoMemory, TextSource};
use split_json::{CaseInput, read_case};
use split_reports::report;
use split_solve::solve_alone;
use std::alloc::Global;

/// Whether `check` says yes to these bytes, or why not. It reaches no allocator.
pub fn check_bytes(bytes: &[u8]) -> Result<(), Stop>
    ensures calls { CallsFor Check bytes.now (verdict_ending result) }
    ensures ends { EndsOnBytes Check bytes.now (verdict_ending result) }
{
    let mut source = TextSource::new(bytes);
    judge_certificate(&mut source)
}

/// Whether `checkwinner` says yes to these bytes, or why not. It reaches no allocator.
pub fn check_winner_bytes(bytes: &[u8]) -> Result<(), Stop>
    ensures calls { CallsFor CheckWinner bytes.now (verdict_ending result) }
    ensures ends { EndsOnBytes CheckWinner bytes.now (verdict_ending result) }
{
    let mut source = TextSource::new(bytes);
    judge_pair(&mut source)
}

/// How a command ends on these bytes: as the bytes call for, or that memory ran out, of a command that takes memory.
///
/// It is the ending of `input_ending` on an input that gives these bytes without a fault. The calling thread does all.
pub fn bytes_ending(alloc: Global, command: InputCommand, bytes: &[u8]) -> Result<Text, Stop>
    ensures { EndsOnBytes command bytes.now (ending_of result) }
{
    match command {
        InputCommand::Check => text_of(check_bytes(bytes)),
        InputCommand::CheckWinner => text_of(check_winner_bytes(bytes)),
        _ => kept_bytes(alloc, command, bytes),
    }
}

// The ending of a judge with its line.
fn text_of(verdict: Result<(), Stop>) -> Result<Text, Stop>
    ensures { ending_of result ≡ verdict_ending verdict }
{
    verdict?;
    Ok(Text::yes())
}

// How a command ends on these bytes that builds its text.
fn kept_bytes(alloc: Global, command: InputCommand, bytes: &[u8]) -> Result<Text, Stop>
    requires memory { TakesMemory command }
    ensures { EndsOnBytes command bytes.now (ending_of result) }
{
    if bytes.len() > LONGEST_INPUT {
        return Err(Stop::TooLong);
    }
    answer(alloc, command, bytes)
}

// What such a command answers to bytes that are not too long.
fn answer(alloc: Global, command: InputCommand, bytes: &[u8]) -> Result<Text, Stop>
    requires memory { TakesMemory command }
    ensures { UpToMemory (Answers command bytes.now) (ending_of result) }
{
    match command {
        InputCommand::Solve { .. } => divide_alone(alloc, DivisionText::Certificate, bytes),
        InputCommand::Report { .. } => divide_alone(alloc, DivisionText::Report, bytes),
        InputCommand::Weigh => weigh(alloc, bytes),
        InputCommand::Winner => pair(alloc, bytes),
        InputCommand::Check | InputCommand::CheckWinner => unreachable!(),
    }
}

// The text of the best division of the case that the bytes hold.
fn divide_alone(alloc: Global, sort: DivisionText, bytes: &[u8]) -> Result<Text, Stop>
    ensures { UpToMemory (OfBody case_in (OfCase (IsTextOf sort)) bytes.now) (ending_of result) }
{
    match read_case(alloc, bytes)? {
        Ok(input) => divide_case(alloc, sort, &input),
        Err(fault) => Err(Stop::BadCase { fault }),
    }
}

// The text of the best division of the case that facts and bids make.
fn divide_case(alloc: Global, sort: DivisionText, input: &CaseInput) -> Result<Text, Stop>
    requires input { IsReady (case_data_of input.now) }
    ensures { UpToMemory (OfCase (IsTextOf sort) (case_data_of input.now)) (ending_of result) }
{
    match solve_alone(alloc, &input.facts, input.bids.as_slice()) {
        Ok((case, division)) => {
            let text = division_text(alloc, sort, input, &case, &division)?;
            Ok(Text::Kept(text))
        }
        Err(fault) => Err(stop_of(fault)),
    }
}

// The text of a case and its division.
fn division_text(
    alloc: Global,
    sort: DivisionText,
    input: &CaseInput,
    case: &Case,
    division: &Division,
) -> Result<Vec<u8>, NoMemory>
    requires input { IsReady (case_data_of input.now) }
    requires case { case_of input.now.facts input.now.bids.items ≡ Ok case.now }
    requires division { IsDivisionOf case.now division.now }
    ensures { IfOk result (λ text.
        IsTextOf sort (case_data_of input.now) case.now division.now text.items) }
{
    case_law();
    match sort {
        DivisionText::Certificate => write_certificate(alloc, case, division),
        DivisionText::Report => report(alloc, input, case, division),
    }
}
