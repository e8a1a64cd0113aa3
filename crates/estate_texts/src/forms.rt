// The forms of the lines of numbers in the text of an estate.
ghost use Rattle.std.specs.Prelude.{◌≡◌, ◌+◌, ◌<◌, ◌≤◌, [], ◌∷◌, length, slice_index_or};
ghost use Rattle.bid_rules.specs.declared.limits.TheConstants.{MOST_GOODS, MOST_MEMBERS};
ghost use Rattle.cert_reader.specs.declared.forms.Word.TheVariants as word;
ghost use Rattle.cert_reader.specs.declared.limits.TheConstants.{MOST_NUMBERS};
ghost use Rattle.estate_texts.specs.Forms.{body_forms, numbers_between};

use cert_reader::Word;

/// The form of a line of whole numbers: a word, and how many numbers there may be.
#[derive(Clone, Copy, Debug, PartialEq, Eq)]
pub struct NumberForm {
    /// The word in front.
    pub word: Word,
    /// The fewest numbers.
    pub least: usize,
    /// The most numbers.
    pub most: usize,
}

/// The places of lines of numbers, counted from the one behind the counts.
pub mod places {
    /// The limit of steps.
    pub const LIMIT: usize = 0;
    /// The member number of each player.
    pub const WHO: usize = 1;
    /// The points of the first player.
    pub const VALUES: usize = 2;
    /// How many lines come after the points and before the weights.
    pub const BEHIND_VALUES: usize = 3;
}

// A word and exactly this many numbers.
pub(crate) fn exactly(word: Word, count: u8) -> NumberForm
    ensures { result ≡ numbers_between word count count }
{
    NumberForm {
        word,
        least: usize::from(count),
        most: usize::from(count),
    }
}

// A word and at most this many numbers.
pub(crate) fn at_most(word: Word, count: u8) -> NumberForm
    ensures { result ≡ numbers_between word 0 count }
{
    NumberForm {
        word,
        least: 0,
        most: usize::from(count),
    }
}

// The form of a line behind the points.
fn tail_form(players: u8, goods: u8, index: usize) -> NumberForm
    requires { index < 3 }
    ensures { result
        ≡ slice_index_or (numbers_between word.Owners goods goods
        ∷ numbers_between word.Steps 1 1 ∷ numbers_between word.Short 0 players ∷ []) index result }
{
    match index {
        0 => exactly(Word::Owners, goods),
        1 => exactly(Word::Steps, 1),
        _ => at_most(Word::Short, players),
    }
}

// How many lines of numbers there are between the counts and the weights.
pub(crate) fn body_count(players: u8) -> usize
    ensures { result ≡ players + 5 }
{
    usize::from(players) + 5
}

// The form of one of them, counted from 0.
pub(crate) fn body_form(players: u8, goods: u8, index: usize) -> NumberForm
    requires index { index < players + 5 }
    requires players { players ≤ MOST_MEMBERS }
    requires goods { goods ≤ MOST_GOODS }
    ensures form { result ≡ slice_index_or (body_forms players goods) index result }
    ensures few { result.most ≤ MOST_NUMBERS }
{
    if index == 0 {
        return exactly(Word::Limit, 1);
    }
    if index == 1 {
        return exactly(Word::Who, players);
    }
    let tail = usize::from(players) + 2;
    if index < tail {
        return exactly(Word::Values, goods);
    }
    tail_form(players, goods, index - tail)
}
