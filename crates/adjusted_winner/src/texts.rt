// Writes the text of the division.
ghost use Rattle.std.specs.Prelude.{◌≡◌, ◌++◌, codes, flat_map, map, IfOk, OnOk, string_bytes};
ghost use Rattle.std.specs.Fmt.{decimal};
ghost use Rattle.bid_rules.specs.Goods.{IsValidGoodsCase, player_count};
ghost use Rattle.split_frac.specs.Texts.{word_line};
ghost use Rattle.adjusted_winner.specs.Answers.{HasWinner};
ghost use Rattle.adjusted_winner.specs.Texts.{IsWinnerText, answer_lines, case_lines, winner_text};
ghost use Rattle.bid_rules.specs.declared.limits.TheConstants.{PAIR};

use crate::winner::{Winner, solve_winner};
use bid_rules::GoodsCase;
use bid_rules::limits::Values;
use split_base::NoMemory;
use split_frac::push_numbers;
use std::alloc::Global;

// Appends a line of points for each player.
fn push_values(text: &mut String, values: &[Values]) -> Result<(), NoMemory>
    ensures { OnOk result (string_bytes text.new
        ≡ string_bytes text.old
        ++ flat_map (λ row. word_line (codes "values") (map decimal row.items)) values.now) }
{
    for row in values {
        push_numbers(text, "values", row.as_slice())?;
    }
    Ok(())
}

// Appends the lines of the case.
fn push_case(text: &mut String, case: &GoodsCase) -> Result<(), NoMemory>
    ensures { OnOk result (string_bytes text.new ≡ string_bytes text.old ++ case_lines case.now) }
{
    let one: u8 = 1;
    push_numbers(text, "fairsplit pair", &[one])?;
    push_numbers(text, "goods", &[case.facts.goods])?;
    push_numbers(text, "who", case.who.as_slice())?;
    push_values(text, case.values.as_slice())?;
    Ok(())
}

// Appends the lines of the division.
fn push_winner(text: &mut String, winner: &Winner) -> Result<(), NoMemory>
    ensures { OnOk result
        (string_bytes text.new ≡ string_bytes text.old ++ answer_lines winner.now) }
{
    let nothing: [u8; 0] = [];
    push_numbers(text, "shares", winner.shares.as_slice())?;
    push_numbers(text, "weights", &winner.weights)?;
    push_numbers(text, "total", &[winner.total])?;
    push_numbers(text, "end", &nothing)?;
    Ok(())
}

/// The text of the division: the case, player 1's share of each good, the weights, and what each player has.
///
/// The division is the solver's for that case.
pub fn write_winner(alloc: Global, case: &GoodsCase, winner: &Winner) -> Result<Vec<u8>, NoMemory>
    requires winner { HasWinner case.now winner.now }
    ensures text { IfOk result (λ text. IsWinnerText case.now text.items) }
    ensures lines { IfOk result (λ text. text.items ≡ winner_text case.now winner.now) }
{
    let mut text = String::new(alloc);
    push_case(&mut text, case)?;
    push_winner(&mut text, winner)?;
    Ok(text.into_bytes())
}

/// The text of the division of a case.
pub fn winner_text(alloc: Global, case: &GoodsCase) -> Result<Vec<u8>, NoMemory>
    requires case { IsValidGoodsCase case.now }
    requires two { player_count case.now ≡ PAIR }
    ensures { IfOk result (λ text. IsWinnerText case.now text.items) }
{
    write_winner(alloc, case, &solve_winner(case))
}
