// How the end of a slice is handed out: its status, and its certificate or a line.
ghost use Rattle.std.specs.Prelude.{◌≡◌, List, ℕ};
ghost use Rattle.bid_rules.specs.declared.goods.GoodsCase.{GoodsCase};
ghost use Rattle.estate_solver.specs.Outcomes.{EndsSlice};
ghost use Rattle.fair_estates.specs.Replies.{HandsEnd, SaysLine};

use crate::limits::GOES_ON;
use command_results::{Stop, hand_out_stop};
use estate_solver::SliceEnd;
use number_cases::give;

// Says why there is no certificate.
fn say(line: &[u8], text: &mut [u8], size: &mut usize) -> u8
    ensures status { result ≡ 1 }
    ensures says { SaysLine line.now size.new text.new }
{
    *size = line.len();
    give(line, text);
    1
}

/// Hands out how a slice ends. A certificate stands in the text already.
pub(crate) fn hand_out(end: SliceEnd, limit: u32, text: &mut [u8], size: &mut usize) -> u8
    ensures hands { HandsEnd end limit result size.new text.new }
    ensures keeps { (case : GoodsCase) (owners : List ℕ) → EndsSlice case end owners text.old
        → EndsSlice case end owners text.new }
{
    match end {
        SliceEnd::Best { size: shown } => {
            *size = shown;
            0
        }
        SliceEnd::GoesOn => {
            *size = 0;
            GOES_ON
        }
        SliceEnd::OverLimit => hand_out_stop(&Stop::OverLimit { limit }, text, size),
        SliceEnd::TooLong => say(b"no room\n", text, size),
        SliceEnd::NotShown => say(b"not shown\n", text, size),
    }
}
