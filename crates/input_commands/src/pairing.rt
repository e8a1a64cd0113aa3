// The commands of adjusted winner: the one that divides goods between two players, and its judge, which takes no memory.
ghost use Rattle.std.specs.Prelude.{◌≤◌};
ghost use Rattle.bid_rules.specs.Goods.{IsValidGoodsCase};
ghost use Rattle.command_results.specs.Endings.{ending_of, verdict_ending};
ghost use Rattle.command_results.specs.ObjectUse.{use_of};
ghost use Rattle.split_json.specs.Proposals.{IsReadyGoods, goods_case_in};
ghost use Rattle.split_json.specs.Reading.{case_data_of};
ghost use Rattle.input_commands.specs.Answers.{OfBody, OfPair};
ghost use Rattle.input_commands.specs.Ends.{EndsOn};
ghost use Rattle.input_commands.specs.Steps.{OfPlayers, UpToMemory};
ghost use Rattle.input_commands.specs.declared.command.InputCommand.TheVariants.{CheckWinner};

use crate::goods::goods_case;
use adjusted_winner::winner_text;
use bid_rules::GoodsCase;
use bid_rules::limits::PAIR_ROOM;
use cert_reader::TextEnd;
use command_results::{Stop, Text};
use rule_verdicts::Verdict;
use split_base::Source;
use split_json::{CaseInput, read_goods};
use std::alloc::Global;
use winner_rules::check_pair_text;

// The text of adjusted winner on the case of goods that the bytes hold.
pub(crate) fn pair(alloc: Global, bytes: &[u8]) -> Result<Text, Stop>
    ensures { UpToMemory (OfBody goods_case_in OfPair bytes.now) (ending_of result) }
{
    match read_goods(alloc, bytes)? {
        Ok(input) => pair_case(alloc, &input),
        Err(fault) => Err(Stop::BadCase { fault }),
    }
}

// The text on the case that facts and bids make.
fn pair_case(alloc: Global, input: &CaseInput) -> Result<Text, Stop>
    requires { IsReadyGoods (case_data_of input.now) }
    ensures { UpToMemory (OfPair (case_data_of input.now)) (ending_of result) }
{
    match goods_case(input) {
        Ok(case) => pair_players(alloc, &case),
        Err(missing) => Err(Stop::Void { missing }),
    }
}

// The text on a case, if it has two players.
fn pair_players(alloc: Global, case: &GoodsCase) -> Result<Text, Stop>
    requires { IsValidGoodsCase case.now }
    ensures { UpToMemory (OfPlayers case.now) (ending_of result) }
{
    if case.values.len() != PAIR_ROOM {
        return Err(Stop::NotTwo);
    }
    Ok(Text::Kept(winner_text(alloc, case)?))
}

// How `checkwinner` ends on an input.
pub(crate) fn check_pair<I: Source>(input: &mut I) -> Result<Text, Stop>
    ensures ending { EndsOn CheckWinner (use_of I.left I.faults input.old input.new)
        (ending_of result) }
    ensures count { I.faults input.old ≤ I.faults input.new }
{
    judge_pair(input)?;
    Ok(Text::yes())
}

// Whether `checkwinner` says yes to an input, or why not. It reaches no allocator.
pub(crate) fn judge_pair<I: Source>(input: &mut I) -> Result<(), Stop>
    ensures ending { EndsOn CheckWinner (use_of I.left I.faults input.old input.new)
        (verdict_ending result) }
    ensures count { I.faults input.old ≤ I.faults input.new }
{
    match check_pair_text(input) {
        Ok(Verdict::Yes) => Ok(()),
        Ok(Verdict::No { rule }) => Err(Stop::BrokenRule { rule }),
        Err(TextEnd::NotText { line }) => Err(Stop::BrokenLine { line }),
        Err(TextEnd::TooLong) => Err(Stop::TooLong),
        Err(TextEnd::ReadFault) => Err(Stop::ReadFault),
    }
}
