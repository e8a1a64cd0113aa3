// Takes the lines of weights and prices of a node.
ghost use Rattle.std.specs.Prelude.{◌≡◌, ◌↔◌, ℕ, ℤ, ◌+◌, ◌<◌, ◌≤◌, IsTrue, List, ◌++◌, All, MatchOption, None, drop, length, map, unsigned_abs};
ghost use Rattle.bid_rules.specs.declared.limits.TheConstants.{MEMBER_ROOM, MOST_MEMBERS};
ghost use Rattle.estate_judge.specs.declared.limits.TheConstants.{MOST_WEIGHT};
ghost use Rattle.estate_bounds.specs.declared.limits.TheConstants.{MOST_PRICE};
ghost use Rattle.estate_judge.specs.Nodes.{ArePriceNumbers, TakesLines, TakesPrices, TakesWeights, price_list};
ghost use Rattle.estate_texts.specs.Given.{CanGive, GivenLine, given_content, line_of_given};
ghost use Rattle.estate_texts.specs.Lines.{lines_text};
ghost use Rattle.estate_texts.specs.Steps.{BeginsWithAllGiven};
ghost use Rattle.rule_verdicts.specs.Ranges.{AreBetween};

use crate::limits::MOST_WEIGHT;
use crate::node::PriceList;
use arrayvec::ArrayVec;
use bid_rules::limits::MEMBER_ROOM;
use estate_bounds::limits::{MOST_PRICE, WeightList};
use estate_texts::{Given, given_law, next_given};
use rule_verdicts::amounts;

// What lines leave of weights and prices, and where the next line is.
#[derive(Drop)]
pub(crate) struct TakenLines {
    // The weights that hold after them.
    pub(crate) weights: Option<WeightList>,
    // The prices that hold after them.
    pub(crate) prices: Option<PriceList>,
    // The place of the next line.
    pub(crate) next: usize,
}

// The numbers as weights, if they are in range.
fn small_weights(numbers: &[i128]) -> Option<WeightList>
    requires { length numbers.now ≤ MEMBER_ROOM }
    ensures { MatchOption result (AreBetween 1 MOST_WEIGHT numbers.now → ⊥) (λ list.
        AreBetween 1 MOST_WEIGHT numbers.now × (list.items ≡ map unsigned_abs numbers.now)) }
{
    let mut list = ArrayVec::new();
    for k in 0..numbers.len() {
        let number = numbers[k];
        if number < 1 || number > i128::from(MOST_WEIGHT) {
            return None;
        }
        list.push(number as u16);
    }
    Some(list)
}

// Whether none of the numbers is 0.
fn are_positive(numbers: &[u32]) -> bool
    ensures { IsTrue result ↔ All (λ number. 1 ≤ number) numbers.now }
{
    numbers.iter().all(|number| *number >= 1)
}

// The numbers as rates, if they are in range.
fn rates_of(numbers: &[i128]) -> Option<ArrayVec<u32, MEMBER_ROOM>>
    requires { length numbers.now ≤ MEMBER_ROOM }
    ensures { MatchOption result (AreBetween 1 MOST_PRICE numbers.now → ⊥) (λ list.
        AreBetween 1 MOST_PRICE numbers.now × (list.items ≡ map unsigned_abs numbers.now)) }
{
    let rates = amounts(numbers, MOST_PRICE)?;
    if are_positive(rates.as_slice()) {
        Some(rates)
    } else {
        None
    }
}

// The numbers as prices, if they are in range: the rates, and then as many fees.
fn prices_of(numbers: &[i128]) -> Option<PriceList>
    requires { length numbers.now ≤ MEMBER_ROOM + MEMBER_ROOM }
    ensures { MatchOption result (ArePriceNumbers numbers.now → ⊥)
        (λ list. ArePriceNumbers numbers.now × (list ≡ price_list numbers.now)) }
{
    let half = numbers.len() / 2;
    let rates = rates_of(&numbers[..half])?;
    let fees = amounts(&numbers[half..], MOST_PRICE)?;
    Some(PriceList { rates, fees })
}

// The weights that hold after a line.
fn weights_after(weights: Option<WeightList>, given: &Given) -> Option<WeightList>
    requires { (players : ℕ) × (players ≤ MOST_MEMBERS)
        × CanGive players (line_of_given given.now) }
    ensures { TakesWeights weights (line_of_given given.now) result }
{
    let Given::Weights(row) = given else {
        return weights;
    };
    small_weights(row.as_slice()).or(weights)
}

// The prices that hold after a line.
fn prices_after(prices: Option<PriceList>, given: &Given) -> Option<PriceList>
    requires { (players : ℕ) × (players ≤ MOST_MEMBERS)
        × CanGive players (line_of_given given.now) }
    ensures { TakesPrices prices (line_of_given given.now) result }
{
    let Given::Prices(row) = given else {
        return prices;
    };
    prices_of(row.as_slice()).or(prices)
}

// Takes this many lines of weights and prices from a place on.
pub(crate) fn take_lines(given: &[u8], from: usize, count: usize, players: u8) -> Option<TakenLines>
    requires players { players ≤ MOST_MEMBERS }
    requires from { from ≤ length given.now }
    ensures lines { MatchOption result
        ((lines : List GivenLine) → All (CanGive players) lines
        → drop from given.now ≡ lines_text (map given_content lines) → count ≤ length lines → ⊥)
        (λ taken. (lines : List GivenLine) × (length lines ≡ count)
        × BeginsWithAllGiven players (drop from given.now) lines (drop taken.next given.now)
        × TakesLines TakesWeights None lines taken.weights
        × TakesLines TakesPrices None lines taken.prices) }
    ensures next { MatchOption result (Unit {0}) (λ taken. taken.next ≤ length given.now) }
{
    given_law();
    let mut weights = None;
    let mut prices = None;
    let mut next = from;
    for line in 0..count {
        let Some(taken) = next_given(given, next, players) else {
            return None;
        };
        weights = weights_after(weights, &taken.given);
        prices = prices_after(prices, &taken.given);
        next = taken.next;
    }
    Some(TakenLines {
        weights,
        prices,
        next,
    })
}
