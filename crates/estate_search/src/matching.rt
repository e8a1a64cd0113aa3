// How many players can have points at all: a greatest matching of players and goods that they want, and players who want so few goods
// together that no more can (König 1931).
ghost use Rattle.std.specs.Prelude.{◌≤◌, length};

use crate::players::place_of;
use arrayvec::ArrayVec;
use bid_rules::limits::{ITEM_ROOM, MEMBER_ROOM};
use nash_bounds::LaneRow;

/// By place in the search order: the player, or 0.
pub(crate) type Matched = [u8; ITEM_ROOM];

// Whether the player gives the good points.
fn wants(row: &LaneRow, player: u8) -> bool {
    row.points.as_array()[place_of(player)] > 0
}

/// A greatest matching.
pub(crate) fn greatest_matching(rows: &[LaneRow], players: u8) -> Matched
    requires { length rows.now ≤ ITEM_ROOM }
{
    let mut matched = [0; ITEM_ROOM];
    for player in 1..players.saturating_add(1) {
        let mut seen = [false; ITEM_ROOM];
        augment(rows, player, &mut matched, &mut seen, ITEM_ROOM as u8);
    }
    matched
}

// Matches the player with a good, if need be by matching others anew, each time with another good than before.
fn augment(
    rows: &[LaneRow],
    player: u8,
    matched: &mut Matched,
    seen: &mut [bool; ITEM_ROOM],
    depth: u8,
) -> bool
    requires { length rows.now ≤ ITEM_ROOM }
{
    for place in 0..rows.len() {
        if !seen[place] && wants(&rows[place], player) {
            seen[place] = true;
            let other = matched[place];
            if other == 0 || (depth > 0 && augment(rows, other, matched, seen, depth - 1)) {
                matched[place] = player;
                return true;
            }
        }
    }
    false
}

// Marks everyone who has a good that a marked player wants.
fn mark_owners(rows: &[LaneRow], matched: &Matched, player: u8, short: &mut [bool; MEMBER_ROOM])
    requires { length rows.now ≤ ITEM_ROOM }
{
    for place in 0..rows.len() {
        let other = matched[place];
        if other > 0 && wants(&rows[place], player) {
            short[place_of(other)] = true;
        }
    }
}

// Goes once from all marked players to those who have the goods that they want.
fn mark_all(rows: &[LaneRow], players: u8, matched: &Matched, short: &mut [bool; MEMBER_ROOM])
    requires { length rows.now ≤ ITEM_ROOM }
{
    for player in 1..players.saturating_add(1) {
        if short[place_of(player)] {
            mark_owners(rows, matched, player, short);
        }
    }
}

/// The players who show that the matching is greatest, in rising order: those without a good, and whoever is reached from them along
/// wanted goods.
pub(crate) fn short_players(
    rows: &[LaneRow],
    players: u8,
    matched: &Matched,
) -> ArrayVec<u8, MEMBER_ROOM>
    requires { length rows.now ≤ ITEM_ROOM }
{
    let mut short = without_good(players, matched);
    for _ in 0..MEMBER_ROOM {
        mark_all(rows, players, matched, &mut short);
    }
    numbers_of(&short, players)
}

// Who has no good in the matching.
fn without_good(players: u8, matched: &Matched) -> [bool; MEMBER_ROOM] {
    let mut short = [false; MEMBER_ROOM];
    for player in 1..players.saturating_add(1) {
        short[place_of(player)] = !matched.contains(&player);
    }
    short
}

// The numbers of the marked players.
fn numbers_of(marks: &[bool; MEMBER_ROOM], players: u8) -> ArrayVec<u8, MEMBER_ROOM> {
    let mut numbers = ArrayVec::new();
    for player in 1..players.saturating_add(1) {
        if marks[place_of(player)] && !numbers.is_full() {
            numbers.push(player);
        }
    }
    numbers
}
