// Reads the case, the owners and the players who are short of goods, as the text of an estate prints them.
ghost use Rattle.std.specs.Prelude.{◌≡◌, ◌↔◌, pos, ◌+◌, ◌<◌, ◌≤◌, ◌≤ℤ◌, List, [], IsTrue, MatchOption, drop, length, map, slice_index_or, take, unsigned_abs};
ghost use Rattle.estate_checker.specs.declared.limits.TheConstants.{MOST_ESTATE_STEPS};
ghost use Rattle.estate_checker.specs.Printed.{printed_case, printed_owners};
ghost use Rattle.estate_checker.specs.Rules.{HasCase, HasOwners, HasShort};
ghost use Rattle.estate_checker.specs.Said.{IsGroundOf, IsSaid};
ghost use Rattle.estate_texts.specs.Forms.{rows_numbers};
ghost use Rattle.estate_texts.specs.Given.{GivenLine};
ghost use Rattle.estate_texts.specs.Steps.{view_of_text};
ghost use Rattle.estate_texts.specs.Texts.{short_of};
ghost use Rattle.rule_verdicts.specs.Ranges.{AreBetween};

use crate::limits::MOST_ESTATE_STEPS;
use arrayvec::ArrayVec;
use bid_rules::GoodsCase;
use bid_rules::limits::{ITEM_ROOM, MEMBER_ROOM};
use estate_bounds::is_short;
use estate_judge::Ground;
use estate_texts::{EstateText, places};
use rule_verdicts::{PrintedRow, members_between, printed_goods};

// The numbers of the line at a place behind the counts.
fn line_at<'a>(text: &'a EstateText<'_>, at: usize) -> &'a [i128]
    requires { at < length text.now.body.items }
    ensures { result.now ≡ slice_index_or (rows_numbers text.now.body.items) at [] }
{
    text.body[at].as_slice()
}

// The points, by player and good.
fn values_of<'a>(text: &'a EstateText<'_>) -> &'a [PrintedRow]
    requires { text.now.players + 2 ≤ length text.now.body.items }
    ensures { result.now ≡ take text.now.players (drop 2 text.now.body.items) }
{
    let behind = places::VALUES + usize::from(text.players);
    &text.body.as_slice()[places::VALUES..behind]
}

// Whether the first number is a limit of steps.
fn is_limit(numbers: &[i128]) -> bool
    requires { length numbers.now ≡ 1 }
    ensures { IsTrue result
        ↔ (pos 1 ≤ℤ slice_index_or numbers.now 0 (pos 0))
        × (slice_index_or numbers.now 0 (pos 0) ≤ℤ pos MOST_ESTATE_STEPS) }
{
    let limit = numbers[0];
    limit >= 1 && limit <= i128::from(MOST_ESTATE_STEPS)
}

// The printed case, if it is valid and the limit is in range.
pub(crate) fn case_of(text: &EstateText<'_>) -> Option<GoodsCase>
    requires { (given : List GivenLine) × IsSaid text.now given }
    ensures { (given : List GivenLine) → IsSaid text.now given
        → MatchOption result
        (HasCase (view_of_text text.now given) → ⊥)
        (λ case.
        HasCase (view_of_text text.now given)
        × (case ≡ printed_case (view_of_text text.now given))) }
{
    if !is_limit(line_at(text, places::LIMIT)) {
        return None;
    }
    printed_goods(text.goods, 1, line_at(text, places::WHO), values_of(text))
}

// The printed owner of each good, if each of them is a player.
pub(crate) fn owners_of(text: &EstateText<'_>) -> Option<ArrayVec<u8, ITEM_ROOM>>
    requires { (given : List GivenLine) × IsSaid text.now given }
    ensures { (given : List GivenLine) → IsSaid text.now given
        → MatchOption result
        (HasOwners (view_of_text text.now given) → ⊥)
        (λ owners.
        HasOwners (view_of_text text.now given)
        × (owners.items ≡ printed_owners (view_of_text text.now given))) }
{
    let at = places::VALUES + usize::from(text.players);
    members_between(line_at(text, at), 1, text.players)
}

// The printed players who are short of goods, if each of them is a player.
fn short_of(text: &EstateText<'_>) -> Option<ArrayVec<u8, MEMBER_ROOM>>
    requires { (given : List GivenLine) × IsSaid text.now given }
    ensures { (given : List GivenLine) → IsSaid text.now given
        → MatchOption result
        (AreBetween 1 text.now.players (short_of (view_of_text text.now given)) → ⊥)
        (λ players.
        AreBetween 1 text.now.players (short_of (view_of_text text.now given))
        × (players.items ≡ map unsigned_abs (short_of (view_of_text text.now given)))) }
{
    let at = places::VALUES + usize::from(text.players) + places::BEHIND_VALUES - 1;
    members_between(line_at(text, at), 1, text.players)
}

// Whether the printed players who are short of goods show that no more players can have points than in the answer.
pub(crate) fn has_short(ground: &Ground, text: &EstateText<'_>) -> bool
    requires { (given : List GivenLine) × IsSaid text.now given
        × IsGroundOf (view_of_text text.now given) ground.now }
    ensures { (given : List GivenLine) → IsSaid text.now given
        → IsGroundOf (view_of_text text.now given) ground.now → IsTrue result
        ↔ HasShort (view_of_text text.now given) }
{
    match short_of(text) {
        Some(players) => is_short(
            &ground.case,
            &ground.table,
            players.as_slice(),
            ground.shares.len(),
        ),
        None => false,
    }
}
