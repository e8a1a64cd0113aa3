// Reads the first lines of the text of an estate, which count its players and its goods.
ghost use Rattle.std.specs.Prelude.{◌≡◌, ℕ, ℤ, pos, ◌+◌, ◌<◌, ◌≤◌, ◌≤ℤ◌, List, [], ◌∷◌, ◌++◌, MatchOption, MatchResult, drop, length};
ghost use Rattle.split_frac.specs.Texts.{line};
ghost use Rattle.bid_rules.specs.declared.limits.TheConstants.{MOST_GOODS, MOST_MEMBERS};
ghost use Rattle.estate_texts.specs.Lines.{lines_text, numbers_content};
ghost use Rattle.estate_texts.specs.Texts.{IsBrokenEstate, head_lines};

use crate::forms::exactly;
use crate::line::next_row;
use bid_rules::limits::{MOST_GOODS, MOST_MEMBERS};
use cert_reader::{Word, numbers_law};

/// The version of this text, which its first line names.
const VERSION: u8 = 2;

// A number that stands alone on a line, and where the next line begins.
#[derive(Clone, Copy)]
struct Counted {
    // The number.
    value: u8,
    // The place behind the line's LF.
    next: usize,
}

/// How many players and goods a text has, and where the line behind these counts begins.
#[derive(Clone, Copy)]
pub(crate) struct Head {
    /// How many players.
    pub(crate) players: u8,
    /// How many goods.
    pub(crate) goods: u8,
    /// The place behind the LF.
    pub(crate) next: usize,
}

// The only one of the numbers as a small one, if it is from the least to the most.
fn small_between(numbers: &[i128], least: u8, most: u8) -> Option<u8>
    requires { length numbers.now ≡ 1 }
    ensures { MatchOption result
        ((n : ℕ) → least ≤ n → n ≤ most → numbers.now ≡ pos n ∷ [] → ⊥)
        (λ n. (least ≤ n) × (n ≤ most) × (numbers.now ≡ pos n ∷ [])) }
{
    let number = numbers[0];
    if number < i128::from(least) || number > i128::from(most) {
        return None;
    }
    Some(number as u8)
}

// The number from the least to the most that stands alone on the line at a place.
fn next_count(text: &[u8], at: usize, word: Word, least: u8, most: u8) -> Option<Counted>
    requires at { at ≤ length text.now }
    requires most { most ≤ 24 }
    ensures count { MatchOption result
        ((n : ℕ) (rest : List ℕ) → least ≤ n → n ≤ most
        → drop at text.now ≡ line (numbers_content word (pos n ∷ [])) ++ rest → ⊥)
        (λ count.
        (least ≤ count.value) × (count.value ≤ most)
        × (drop at text.now
        ≡ line (numbers_content word (pos count.value ∷ [])) ++ drop count.next text.now)) }
    ensures next { MatchOption result (Unit {0})
        (λ count. (at < count.next) × (count.next ≤ length text.now)) }
{
    numbers_law();
    let Some(taken) = next_row(text, at, exactly(word, 1)) else {
        return None;
    };
    match small_between(&taken.row, least, most) {
        Some(value) => Some(Counted {
            value,
            next: taken.next,
        }),
        None => None,
    }
}

/// The counts of a text; or the first broken line.
pub(crate) fn read_head(text: &[u8]) -> Result<Head, u32>
    ensures head { MatchResult result
        (λ head.
        (1 ≤ head.players) × (head.players ≤ MOST_MEMBERS) × (1 ≤ head.goods)
        × (head.goods ≤ MOST_GOODS) × (head.next ≤ length text.now)
        × (text.now
        ≡ lines_text (head_lines head.players head.goods) ++ drop head.next text.now))
        (λ line. IsBrokenEstate text.now line) }
    ensures next { MatchResult result (λ head. 4 ≤ head.next) (λ line. Unit {0}) }
{
    numbers_law();
    let Some(version) = next_count(text, 0, Word::Fairsplit, VERSION, VERSION) else {
        return Err(1);
    };
    let Some(kind) = next_row(text, version.next, exactly(Word::KindGoods, 0)) else {
        return Err(2);
    };
    let Some(players) = next_count(text, kind.next, Word::Players, 1, MOST_MEMBERS) else {
        return Err(3);
    };
    let Some(goods) = next_count(text, players.next, Word::Goods, 1, MOST_GOODS) else {
        return Err(4);
    };
    Ok(Head {
        players: players.value,
        goods: goods.value,
        next: goods.next,
    })
}
