// Reads lines of weights and prices from the text of an estate.
ghost use Rattle.std.specs.Prelude.{◌≡◌, ℕ, ◌+◌, ◌<◌, ◌≤◌, List, MatchOption, drop, length};
ghost use Rattle.bid_rules.specs.declared.limits.TheConstants.{MOST_MEMBERS};
ghost use Rattle.estate_texts.specs.Given.{GivenLine, line_of_given};
ghost use Rattle.estate_texts.specs.Steps.{BeginsWithAllGiven, BeginsWithGiven};

use crate::forms::exactly;
use crate::line::next_row;
use crate::text::Row;
use cert_reader::Word;

/// What a line that closes leaves says.
#[derive(Drop)]
pub enum Given {
    /// A weight for each player.
    Weights(Row),
    /// A rate for each player, and then a fee for each.
    Prices(Row),
}

/// A line of weights or prices, and where the line after it begins.
#[derive(Drop)]
pub struct TakenGiven {
    /// What the line says.
    pub given: Given,
    /// The place behind the line's LF.
    pub next: usize,
}

/// What the line at a place says, if it has weights or prices.
pub fn next_given(text: &[u8], at: usize, players: u8) -> Option<TakenGiven>
    requires at { at ≤ length text.now }
    requires players { players ≤ MOST_MEMBERS }
    ensures given { MatchOption result
        ((given : GivenLine) (rest : List ℕ)
        → BeginsWithGiven players (drop at text.now) given rest → ⊥)
        (λ taken. BeginsWithGiven players (drop at text.now) (line_of_given taken.given)
        (drop taken.next text.now)) }
    ensures next { MatchOption result (Unit {0})
        (λ taken. (at < taken.next) × (taken.next ≤ length text.now)) }
{
    if let Some(taken) = next_row(text, at, exactly(Word::Weights, players)) {
        return Some(TakenGiven {
            given: Given::Weights(taken.row),
            next: taken.next,
        });
    }
    match next_row(text, at, exactly(Word::Prices, players + players)) {
        Some(taken) => Some(TakenGiven {
            given: Given::Prices(taken.row),
            next: taken.next,
        }),
        None => None,
    }
}

/// Where the lines of weights and prices end.
#[derive(Clone, Copy)]
pub(crate) struct AllGiven {
    /// The place of the first other line.
    pub(crate) next: usize,
    /// How many lines there are.
    pub(crate) count: usize,
}

// Reads all lines of weights and prices from a place on.
pub(crate) fn skip_given(text: &[u8], at: usize, players: u8) -> AllGiven
    requires at { at ≤ length text.now }
    requires players { players ≤ MOST_MEMBERS }
    ensures given { (given : List GivenLine) × (length given ≡ result.count)
        × BeginsWithAllGiven players (drop at text.now) given (drop result.next text.now) }
    ensures none { (given : GivenLine) (rest : List ℕ)
        → BeginsWithGiven players (drop result.next text.now) given rest → ⊥ }
    ensures next { result.next ≤ length text.now }
    ensures count { result.count + at ≤ result.next }
{
    let mut next = at;
    let mut count = 0;
    while let Some(taken) = next_given(text, next, players) {
        next = taken.next;
        count += 1;
    }
    AllGiven { next, count }
}
