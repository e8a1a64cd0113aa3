// Laws about the commands that read an input, which hold for all inputs. Each is the contract of a function that does nothing.
ghost use Rattle.std.specs.Prelude.{◌≡◌, ◌≢◌, ℕ, List, Err, IfSome, Ok, Result};
ghost use Rattle.cert_checker.specs.Judged.{IsCertificate, PrintsBest};
ghost use Rattle.command_results.specs.Endings.{yes_line};
ghost use Rattle.command_results.specs.ObjectUse.{ObjectUse};
ghost use Rattle.command_results.specs.declared.stop.Stop.{Stop};
ghost use Rattle.command_results.specs.declared.stop.Stop.TheVariants.{NoMemory, ReadFault};
ghost use Rattle.winner_rules.specs.Judged.{PrintsFair};
ghost use Rattle.input_commands.specs.Answers.{Answers};
ghost use Rattle.input_commands.specs.Commands.{AreAlike};
ghost use Rattle.input_commands.specs.Ends.{CallsFor, EndsOn};
ghost use Rattle.input_commands.specs.Replies.{Replies};
ghost use Rattle.input_commands.specs.declared.command.InputCommand.{InputCommand};
ghost use Rattle.input_commands.specs.declared.command.InputCommand.TheVariants.{Check, CheckWinner, Solve};

use adjusted_winner::winner_text_law;
use bid_rules::case_law;
use cert_checker::certificate_verdict_law;
use cert_reader::{pair_law, text_law};
use certificates::certificate_law;
use goods_audit::one_goods_audit_law;
use nash_search::step_count_law;
use split_json::case_in_law;
use split_reports::report_law;
use winner_rules::winner_verdict_law;

/// What a command ends with is fixed by the input's bytes, so it is the same for every number of workers: its text, since a case has one
/// best division and a division one text; and each other ending, with the members who lack a bid, the limit, the rule, the field and the
/// line that it names. And an ending that is neither a fault nor a lack of memory is the one that the bytes of the input call for, if it
/// reveals them.
pub fn input_answer_law()
    ensures one { (command other : InputCommand) (bytes : List ℕ)
        (ending another : Result (List ℕ) Stop) → AreAlike command other
        → CallsFor command bytes ending → CallsFor other bytes another → ending ≡ another }
    ensures ends { (command : InputCommand) (input : ObjectUse) (ending : Result (List ℕ) Stop)
        → ending ≢ Err ReadFault → ending ≢ Err NoMemory → EndsOn command input ending
        → IfSome input.bytes_before (λ bytes. CallsFor command bytes ending) }
{
    case_law();
    case_in_law();
    certificate_law();
    report_law();
    one_goods_audit_law();
    step_count_law();
    certificate_verdict_law();
    text_law();
    winner_text_law();
    winner_verdict_law();
    pair_law();
}

/// Bytes to which `check` says yes print a valid case and the division that its rule gives: so the yes alone shows the division best. Bytes
/// to which `checkwinner` says yes print a valid case of two players, and shares of a division of its goods that is equitable, envy-free
/// and efficient, whatever rule made it.
pub fn yes_law()
    ensures best { (bytes text : List ℕ) → Answers Check bytes (Ok text) → PrintsBest bytes }
    ensures fair { (bytes text : List ℕ) → Answers CheckWinner bytes (Ok text) → PrintsFair bytes }
{
    certificate_verdict_law();
    winner_verdict_law();
}

/// What `solve` writes is a certificate whose rules all hold, and for which `check` is to say so.
pub fn solved_law()
    ensures judged { (workers : ℕ) (bytes text : List ℕ) → Answers (Solve workers) bytes (Ok text)
        → IsCertificate text }
    ensures due { (workers : ℕ) (bytes text : List ℕ) → Answers (Solve workers) bytes (Ok text)
        → CallsFor Check text (Ok yes_line) }
{
    case_law();
    case_in_law();
    certificate_law();
}

/// If a judge's status is 0, the certificate prints a valid case and its best division, and the text of adjusted winner a fair
/// division: so the status is enough to show it to a caller that is not written in Rattle.
pub fn status_law()
    ensures best { (bytes : List ℕ) (size : ℕ) (before after : List ℕ)
        → Replies Check bytes 0 size before after → PrintsBest bytes }
    ensures fair { (bytes : List ℕ) (size : ℕ) (before after : List ℕ)
        → Replies CheckWinner bytes 0 size before after → PrintsFair bytes }
{
    yes_law();
}
