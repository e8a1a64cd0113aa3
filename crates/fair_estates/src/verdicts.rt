// The verdict on the text of an estate, as an ending that is handed out.
ghost use Rattle.std.specs.Prelude.{◌≡◌, Ok};
ghost use Rattle.estate_checker.specs.Judged.{PrintsBestEstate};
ghost use Rattle.fair_estates.specs.Replies.{IsCheckEnding};

use command_results::Stop;
use estate_checker::judge_estate;
use estate_texts::EstateEnd;
use rule_verdicts::Verdict;

// Whether the judge says yes to these bytes, or why not.
pub(crate) fn verdict_on(bytes: &[u8]) -> Result<(), Stop>
    ensures ending { IsCheckEnding bytes.now result }
    ensures best { result ≡ Ok tt → PrintsBestEstate bytes.now }
{
    match judge_estate(bytes) {
        Ok(Verdict::Yes) => Ok(()),
        Ok(Verdict::No { rule }) => Err(Stop::BrokenRule { rule }),
        Err(EstateEnd::NotText { line }) => Err(Stop::BrokenLine { line }),
        Err(EstateEnd::TooLong) => Err(Stop::TooLong),
    }
}
