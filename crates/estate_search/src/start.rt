// A good division to start from: a greatest matching, and then local search.
ghost use Rattle.std.specs.Prelude.{◌<◌, ◌≤◌, length};

use crate::drafts::{Draft, points_in};
use crate::draws::Draws;
use crate::matching::Matched;
use bid_rules::limits::ITEM_ROOM;
use nash_bounds::LaneRow;

// How often some goods of the best division so far are given anew.
const ROUNDS: u32 = 40;

// The first player who gives the good the most points.
fn first_most(row: &LaneRow, players: u8) -> u8 {
    let mut most = 1;
    for player in 2..players.saturating_add(1) {
        if points_in(row, player) > points_in(row, most) {
            most = player;
        }
    }
    most
}

// The goods of the matching go to their players, and each other to whoever gives it the most.
fn first_draft(rows: &[LaneRow], players: u8, matched: &Matched) -> Draft
    requires { length rows.now ≤ ITEM_ROOM }
{
    let mut draft = Draft::new();
    for place in 0..rows.len() {
        let most = first_most(&rows[place], players);
        let owner = if matched[place] > 0 {
            matched[place]
        } else {
            most
        };
        draft.give(rows, place, owner);
    }
    draft
}

// Gives some goods anew, to whomever.
fn shake(draft: &mut Draft, rows: &[LaneRow], players: u8, draws: &mut Draws)
    requires rows { length rows.now ≤ ITEM_ROOM }
    requires some { 0 < length rows.now }
    requires players { 0 < players }
{
    let moves = 2 + draws.below(1 + rows.len() / 3);
    for _ in 0..moves {
        let place = draws.below(rows.len());
        let player = draws.below(usize::from(players)) as u8 + 1;
        draft.move_to(rows, place, player);
    }
}

// The better of two divisions, and of two that are as good the earlier list.
fn better(best: Draft, other: Draft) -> Draft {
    let (best_pair, pair) = (best.pair(), other.pair());
    if pair > best_pair || (pair == best_pair && other.owners < best.owners) {
        other
    } else {
        best
    }
}

/// A good division that gives points to as many players as can have them.
pub(crate) fn start_draft(rows: &[LaneRow], players: u8, matched: &Matched) -> Draft
    requires rows { length rows.now ≤ ITEM_ROOM }
    requires some { 0 < length rows.now }
    requires players { 0 < players }
{
    let mut draws = Draws::new();
    let mut best = first_draft(rows, players, matched);
    best.climb(rows, players);
    for _ in 0..ROUNDS {
        let mut draft = best;
        shake(&mut draft, rows, players, &mut draws);
        draft.climb(rows, players);
        best = better(best, draft);
    }
    best
}
