// Laws about the text of adjusted winner, which hold for all cases of two players. Each is the contract of a function that does nothing.
ghost use Rattle.std.specs.Prelude.{◌≡◌, ◌≤◌, ℕ, List, length};
ghost use Rattle.adjusted_winner.specs.Texts.{IsWinnerText};
ghost use Rattle.adjusted_winner.specs.declared.winner.Winner.{Winner};
ghost use Rattle.bid_rules.specs.declared.goods.GoodsCase.{GoodsCase};
ghost use Rattle.bid_rules.specs.Goods.{IsValidGoodsCase, player_count};
ghost use Rattle.cert_reader.specs.declared.limits.TheConstants.{MOST_BYTES};
ghost use Rattle.cert_reader.specs.Pairs.{IsPairText};
ghost use Rattle.adjusted_winner.specs.Lines.{winner_view, with_most};
ghost use Rattle.winner_rules.specs.Judged.{IsWinnerCertificate};
ghost use Rattle.winner_rules.specs.Rules.{printed_case};
ghost use Rattle.bid_rules.specs.declared.limits.TheConstants.{PAIR};

use crate::{answer_law, winner_text_law};
use cert_reader::pair_law;
use split_frac::{number_law, value_law};
use winner_definition::{
    next_to_move_law, one_winner_law, parts_law, printed_law, procedure_law, winner_law,
};

/// The text of the winner is the text of a pair. It gives the case, with as many members and steps as there may be, and the winner's shares, weights and total;
/// all its rules hold, so the verdict on it is yes. It has at most `MOST_BYTES` bytes, and a case has only one such text.
pub fn winner_lines_law()
    ensures case { (case : GoodsCase) (winner : Winner)
        → printed_case (winner_view case winner) ≡ with_most case }
    ensures text { (case : GoodsCase) (text : List ℕ) → IsValidGoodsCase case
        → player_count case ≡ PAIR → (is : IsWinnerText case text)
        → IsPairText text (winner_view case is.0) }
    ensures judged { (case : GoodsCase) (text : List ℕ) → IsValidGoodsCase case
        → player_count case ≡ PAIR → IsWinnerText case text → IsWinnerCertificate text }
    ensures short { (case : GoodsCase) (text : List ℕ) → IsValidGoodsCase case
        → player_count case ≡ PAIR → IsWinnerText case text → length text ≤ MOST_BYTES }
    ensures one { (case : GoodsCase) (text other : List ℕ) → IsWinnerText case text
        → IsWinnerText case other → text ≡ other }
{
    answer_law();
    next_to_move_law();
    number_law();
    one_winner_law();
    pair_law();
    parts_law();
    printed_law();
    procedure_law();
    value_law();
    winner_law();
    winner_text_law();
}
