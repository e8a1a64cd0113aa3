// Laws that hold for all words of a command and for all whole runs. Each is the contract of a function that does nothing.
ghost use Rattle.std.specs.Prelude.{◌≡◌, ◌⊎◌, ℕ, List, Result, Some};
ghost use Rattle.command_results.specs.Endings.{owed};
ghost use Rattle.command_results.specs.ObjectUse.{Ends, HasWritten, IsSound, ObjectUse};
ghost use Rattle.command_results.specs.declared.stop.Stop.{Stop};
ghost use Rattle.input_commands.specs.Commands.{AreAlike};
ghost use Rattle.input_commands.specs.Ends.{EndsOn};
ghost use Rattle.input_commands.specs.declared.command.InputCommand.{InputCommand};
ghost use Rattle.split_top.specs.Commands.{Names};
ghost use Rattle.split_top.specs.declared.command.Command.{Command};

use input_commands::input_answer_law;

/// Words name at most one command.
pub fn command_law()
    ensures { (words : List (List ℕ)) (command other : Command) → Names words command
        → Names words other → command ≡ other }
{}

/// Two commands that differ only in the number of workers, over the same bytes, have one status and write one text, `void:`, `step limit` and
/// the refusals included, if no call of theirs fails and neither ends because there was no memory. That is said of inputs that tell their bytes.
pub fn output_law()
    ensures { (command other : InputCommand) (bytes : List ℕ)
        (input output other_input other_output : ObjectUse) (ending another : Result (List ℕ) Stop)
        (status others : ℕ) → AreAlike command other → input.bytes_before ≡ Some bytes
        → other_input.bytes_before ≡ Some bytes → IsSound input → IsSound output
        → IsSound other_input → IsSound other_output → EndsOn command input ending
        → Ends output (owed ending).text (owed ending).status status
        → EndsOn other other_input another
        → Ends other_output (owed another).text (owed another).status others
        → (status ≡ 9) ⊎ (others ≡ 9)
        ⊎ ((status ≡ others)
        × ((text : List ℕ) × HasWritten output text × HasWritten other_output text)) }
{
    input_answer_law();
}
