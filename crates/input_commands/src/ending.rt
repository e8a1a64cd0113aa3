// How a command ends on its input.
ghost use Rattle.std.specs.Prelude.{◌≤◌};
ghost use Rattle.command_results.specs.Endings.{ending_of};
ghost use Rattle.command_results.specs.ObjectUse.{use_of};
ghost use Rattle.input_commands.specs.Answers.{Answers};
ghost use Rattle.input_commands.specs.Commands.{TakesMemory};
ghost use Rattle.input_commands.specs.Ends.{EndsOn};
ghost use Rattle.input_commands.specs.Steps.{UpToMemory};

use crate::command::InputCommand;
use crate::dividing::{DivisionText, divide};
use crate::judging::check;
use crate::limits::LONGEST_INPUT;
use crate::pairing::{check_pair, pair};
use crate::weighing::weigh;
use command_results::{Stop, Text};
use search_workers::Means;
use split_base::{Gate, ReadStop, Source, read_all};
use std::thread::Threads;

/// How a command ends on its input, before anything is written.
///
/// `solve`, `report`, `weigh` and `winner` read at most `LONGEST_INPUT` bytes of JSON, `check` and `checkwinner` at most `MOST_BYTES` of
/// `cert_reader`, which they judge while they read, in fixed memory. The gate is told when a worker enters and leaves a task of the search
/// of `solve` and `report`.
///
/// - `TooLong` is returned exactly when the input has more bytes. One byte more than the command may have was read then.
/// - `ReadFault` comes only if the input's count of faults has risen, and at once: the failed read is not tried again.
/// - `NoMemory` is returned only if memory runs out, and never of `check` and `checkwinner`.
/// - Each other ending is what the command answers to the bytes of the input, which was read to its end.
pub fn input_ending<R: Threads + Sync, I: Source, G: Gate + Sync>(
    means: &Means<'_, R, G>,
    command: InputCommand,
    input: &mut I,
) -> Result<Text, Stop>
    ensures ending { EndsOn command (use_of I.left I.faults input.old input.new)
        (ending_of result) }
    ensures count { I.faults input.old ≤ I.faults input.new }
{
    match command {
        InputCommand::Check => check(input),
        InputCommand::CheckWinner => check_pair(input),
        _ => kept_ending(means, command, input),
    }
}

// How a command ends that keeps its input.
fn kept_ending<R: Threads + Sync, I: Source, G: Gate + Sync>(
    means: &Means<'_, R, G>,
    command: InputCommand,
    input: &mut I,
) -> Result<Text, Stop>
    requires memory { TakesMemory command }
    ensures ending { EndsOn command (use_of I.left I.faults input.old input.new)
        (ending_of result) }
    ensures count { I.faults input.old ≤ I.faults input.new }
{
    match read_all(means.alloc, input, LONGEST_INPUT) {
        Ok(bytes) => answer(means, command, bytes.as_slice()),
        Err(ReadStop::Fault) => Err(Stop::ReadFault),
        Err(ReadStop::TooLong) => Err(Stop::TooLong),
        Err(ReadStop::NoMemory) => Err(Stop::NoMemory),
    }
}

// What such a command answers to the bytes of its input.
fn answer<R: Threads + Sync, G: Gate + Sync>(
    means: &Means<'_, R, G>,
    command: InputCommand,
    bytes: &[u8],
) -> Result<Text, Stop>
    requires memory { TakesMemory command }
    ensures { UpToMemory (Answers command bytes.now) (ending_of result) }
{
    match command {
        InputCommand::Solve { workers } => {
            divide(means, workers, DivisionText::Certificate, bytes)
        }
        InputCommand::Report { workers } => divide(means, workers, DivisionText::Report, bytes),
        InputCommand::Weigh => weigh(means.alloc, bytes),
        InputCommand::Winner => pair(means.alloc, bytes),
        InputCommand::Check | InputCommand::CheckWinner => unreachable!(),
    }
}
