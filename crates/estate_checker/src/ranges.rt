// Whether the printed weights and prices are in range.
ghost use Rattle.std.specs.Prelude.{◌≡◌, ◌↔◌, ◌≤◌, List, All, IsTrue, map};
ghost use Rattle.bid_rules.specs.declared.limits.TheConstants.{MOST_MEMBERS};
ghost use Rattle.estate_checker.specs.Rules.{IsInRange};
ghost use Rattle.estate_texts.specs.Given.{CanGive, GivenLine, given_content, line_of_given};
ghost use Rattle.estate_texts.specs.Lines.{lines_text};
ghost use Rattle.rule_verdicts.specs.Ranges.{AreBetween};

use estate_bounds::limits::MOST_PRICE;
use estate_judge::limits::MOST_WEIGHT;
use estate_texts::{Given, given_law, next_given};

// Whether each number is from the least to the most.
fn are_between(numbers: &[i128], least: u32, most: u32) -> bool
    ensures { IsTrue result ↔ AreBetween least most numbers.now }
{
    for k in 0..numbers.len() {
        let number = numbers[k];
        if number < i128::from(least) || number > i128::from(most) {
            return false;
        }
    }
    true
}

// Whether these are rates and fees in range.
fn are_prices(rates: &[i128], fees: &[i128]) -> bool
    ensures { IsTrue result
        ↔ AreBetween 1 MOST_PRICE rates.now × AreBetween 0 MOST_PRICE fees.now }
{
    are_between(rates, 1, MOST_PRICE) && are_between(fees, 0, MOST_PRICE)
}

// Whether the numbers of a line are in range.
fn is_in_range(given: &Given, players: u8) -> bool
    requires { CanGive players (line_of_given given.now) }
    ensures { IsTrue result ↔ IsInRange players (line_of_given given.now) }
{
    match given {
        Given::Weights(row) => are_between(row.as_slice(), 1, u32::from(MOST_WEIGHT)),
        Given::Prices(row) => {
            let (rates, fees) = row.as_slice().split_at(usize::from(players));
            are_prices(rates, fees)
        }
    }
}

// Whether those of all lines are.
pub(crate) fn are_in_range(given: &[u8], players: u8) -> bool
    requires { players ≤ MOST_MEMBERS }
    ensures { (lines : List GivenLine) → All (CanGive players) lines
        → given.now ≡ lines_text (map given_content lines) → IsTrue result
        ↔ All (IsInRange players) lines }
{
    given_law();
    let mut next = 0;
    while let Some(taken) = next_given(given, next, players) {
        if !is_in_range(&taken.given, players) {
            return false;
        }
        next = taken.next;
    }
    true
}
