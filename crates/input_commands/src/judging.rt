// The command that judges a certificate while it reads it. It takes no memory.
ghost use Rattle.std.specs.Prelude.{◌≤◌};
ghost use Rattle.command_results.specs.Endings.{ending_of, verdict_ending};
ghost use Rattle.command_results.specs.ObjectUse.{use_of};
ghost use Rattle.input_commands.specs.Ends.{EndsOn};
ghost use Rattle.input_commands.specs.declared.command.InputCommand.TheVariants.{Check};

use cert_checker::judge_text;
use cert_reader::TextEnd;
use command_results::{Stop, Text};
use rule_verdicts::Verdict;
use split_base::Source;

// How `check` ends on an input.
pub(crate) fn check<I: Source>(input: &mut I) -> Result<Text, Stop>
    ensures ending { EndsOn Check (use_of I.left I.faults input.old input.new) (ending_of result) }
    ensures count { I.faults input.old ≤ I.faults input.new }
{
    judge_certificate(input)?;
    Ok(Text::yes())
}

// Whether `check` says yes to an input, or why not. It reaches no allocator.
pub(crate) fn judge_certificate<I: Source>(input: &mut I) -> Result<(), Stop>
    ensures ending { EndsOn Check (use_of I.left I.faults input.old input.new)
        (verdict_ending result) }
    ensures count { I.faults input.old ≤ I.faults input.new }
{
    match judge_text(input) {
        Ok(Verdict::Yes) => Ok(()),
        Ok(Verdict::No { rule }) => Err(Stop::BrokenRule { rule }),
        Err(TextEnd::NotText { line }) => Err(Stop::BrokenLine { line }),
        Err(TextEnd::TooLong) => Err(Stop::TooLong),
        Err(TextEnd::ReadFault) => Err(Stop::ReadFault),
    }
}
