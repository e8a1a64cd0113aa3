// Laws about the answer that the solver of adjusted winner finds, and about its text, which hold for all cases. Each is the contract of a function that does nothing.
ghost use Rattle.std.specs.Prelude.{◌≡◌, ℕ, List, map};
ghost use Rattle.bid_rules.specs.declared.goods.GoodsCase.{GoodsCase};
ghost use Rattle.bid_rules.specs.Goods.{IsValidGoodsCase, player_count};
ghost use Rattle.split_frac.specs.Frac.{fraction_of};
ghost use Rattle.winner_definition.specs.Divisions.{IsEfficient, IsEnvyFree, IsEquitable};
ghost use Rattle.winner_definition.specs.Shown.{HasOneSplit, IsShown};
ghost use Rattle.winner_definition.specs.Winners.{IsWinner};
ghost use Rattle.adjusted_winner.specs.Answers.{HasWinner};
ghost use Rattle.adjusted_winner.specs.Texts.{IsWinnerText};
ghost use Rattle.adjusted_winner.specs.declared.winner.Winner.{Winner};
ghost use Rattle.bid_rules.specs.declared.limits.TheConstants.{PAIR};

use split_frac::value_law;
use winner_definition::{one_winner_law, parts_law, procedure_law, share_law, winner_law};

/// The answer is the division by the rule. Its shares, total and weights show that, and it is equitable, envy-free and efficient, with at most one good
/// split.
pub fn answer_law()
    ensures winner { (case : GoodsCase) (answer : Winner) (winner : HasWinner case answer)
        → IsWinner case winner.parts winner.held winner.first winner.second }
    ensures shown { (case : GoodsCase) (answer : Winner) → IsValidGoodsCase case
        → player_count case ≡ PAIR → (winner : HasWinner case answer)
        → IsShown case (map fraction_of answer.shares.items) (fraction_of answer.total) winner.first
        winner.second }
    ensures one_split { (case : GoodsCase) (answer : Winner) → HasWinner case answer
        → HasOneSplit (map fraction_of answer.shares.items) }
    ensures equitable { (case : GoodsCase) (answer : Winner) (winner : HasWinner case answer)
        → IsEquitable case winner.parts winner.held }
    ensures envy_free { (case : GoodsCase) (answer : Winner) → IsValidGoodsCase case
        → player_count case ≡ PAIR → (winner : HasWinner case answer)
        → IsEnvyFree case winner.parts winner.held }
    ensures efficient { (case : GoodsCase) (answer : Winner) → IsValidGoodsCase case
        → player_count case ≡ PAIR → (winner : HasWinner case answer)
        → IsEfficient case winner.parts winner.held }
{
    procedure_law();
    share_law();
    winner_law();
}

/// A case has only one answer: any two have the same shares, weights and total.
pub fn one_answer_law()
    ensures shares { (case : GoodsCase) (answer other : Winner) → HasWinner case answer
        → HasWinner case other → answer.shares.items ≡ other.shares.items }
    ensures weights { (case : GoodsCase) (answer other : Winner) → HasWinner case answer
        → HasWinner case other → answer.weights ≡ other.weights }
    ensures total { (case : GoodsCase) (answer other : Winner) → HasWinner case answer
        → HasWinner case other → answer.total ≡ other.total }
{
    one_winner_law();
    parts_law();
    procedure_law();
    value_law();
    winner_law();
}

/// A case has only one text.
pub fn winner_text_law()
    ensures { (case : GoodsCase) (text other : List ℕ) → IsWinnerText case text
        → IsWinnerText case other → text ≡ other }
{
    one_answer_law();
}
