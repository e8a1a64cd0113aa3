// Which weights and prices a certificate states, and the weights in how few digits.
ghost use Rattle.std.specs.Prelude.{◌≡◌, ◌≤◌, All, IfSome};
ghost use Rattle.estate_bounds.specs.Prices.{IsPriced};
ghost use Rattle.estate_bounds.specs.Sums.{IsWeighted};
ghost use Rattle.estate_search.specs.Estates.{IsAbove};
ghost use Rattle.estate_search.specs.Fronts.{IsLanedFront};

use crate::above::Above;
use crate::estate::Estate;
use crate::fronts::Front;
use crate::players::copied;
use crate::shares::Fine;
use arrayvec::ArrayVec;
use bid_rules::limits::MEMBER_ROOM;
use estate_bounds::{Prices, Weights};

/// The greatest weight that a certificate can state.
pub(crate) const MOST_WEIGHT: u16 = u16::MAX;
// The greatest weights that are tried first, so that the others have few digits.
const FEW_DIGITS: [u16; 7] = [9, 30, 99, 300, 999, 3000, 9999];

// The prefix with the next good given to the player.
fn child_of(estate: &Estate, front: &Front, player: u8) -> Option<Front>
    ensures { IfSome result (IsLanedFront estate.now) }
{
    let mut owners = copied(front.owners.as_slice());
    if owners.is_full() {
        return None;
    }
    owners.push(player);
    estate.front_of(owners.as_slice())
}

// The same prefix, if the weights close it.
fn closed_child(estate: &Estate, weights: &Weights, front: &Front, player: u8) -> Option<Front>
    requires { IsWeighted estate.now weights.now }
    ensures { IfSome result (IsLanedFront estate.now) }
{
    let child = child_of(estate, front, player)?;
    if estate.closes(weights, &child) {
        Some(child)
    } else {
        None
    }
}

// The children of a prefix that the weights close.
fn closed_children(
    estate: &Estate,
    weights: &Weights,
    front: &Front,
) -> ArrayVec<Front, MEMBER_ROOM>
    requires { IsWeighted estate.now weights.now }
    ensures { All (IsLanedFront estate.now) result.items }
{
    let mut closed = ArrayVec::new();
    for player in 1..estate.players() + 1 {
        if let Some(child) = closed_child(estate, weights, front, player) {
            closed.push(child);
        }
    }
    closed
}

// Whether the weights close each of the prefixes.
fn close_all(estate: &Estate, weights: &Weights, fronts: &[Front]) -> bool
    requires weights { IsWeighted estate.now weights.now }
    requires fronts { All (IsLanedFront estate.now) fronts.now }
{
    for front in fronts {
        if !estate.closes(weights, front) {
            return false;
        }
    }
    true
}

// Whether each of the prefixes is closed without further weights.
fn are_closed(estate: &Estate, above: &Above, fronts: &[Front]) -> bool
    requires above { IsAbove estate.now above.now }
    requires fronts { All (IsLanedFront estate.now) fronts.now }
{
    for front in fronts {
        if !estate.is_closed(above, front) {
            return false;
        }
    }
    true
}

/// The weights in as few digits as close all of these prefixes: the greatest of them.
pub(crate) fn narrowest(estate: &Estate, fine: &Fine, fronts: &[Front]) -> u16
    requires { All (IsLanedFront estate.now) fronts.now }
{
    for greatest in FEW_DIGITS {
        if close_all(estate, &estate.weights(fine, greatest), fronts) {
            return greatest;
        }
    }
    MOST_WEIGHT
}

/// The greatest of the weights to state at a prefix that is opened, if they close something that isn't closed without them.
pub(crate) fn stated(estate: &Estate, fine: &Fine, front: &Front, above: &Above) -> Option<u16>
    requires above { IsAbove estate.now above.now }
{
    if front.owners.len() + 1 >= estate.goods() {
        return None;
    }
    let weights = estate.weights(fine, MOST_WEIGHT);
    let closed = closed_children(estate, &weights, front);
    if are_closed(estate, above, closed.as_slice()) {
        return None;
    }
    Some(narrowest(estate, fine, closed.as_slice()))
}

// Whether the prices close the prefix with the next good given to the player, and nothing above does.
fn closes_more(estate: &Estate, prices: &Prices, front: &Front, above: &Above, player: u8) -> bool
    requires prices { IsPriced estate.now prices.now }
    requires above { IsAbove estate.now above.now }
{
    match child_of(estate, front, player) {
        Some(child) => estate.prices_close(prices, &child) && !estate.is_closed(above, &child),
        None => false,
    }
}

/// Whether to state the prices at a prefix that is opened: whether they close something that isn't closed without them.
pub(crate) fn states_prices(estate: &Estate, prices: &Prices, front: &Front, above: &Above) -> bool
    requires prices { IsPriced estate.now prices.now }
    requires above { IsAbove estate.now above.now }
{
    if front.owners.len() + 1 >= estate.goods() {
        return false;
    }
    for player in 1..estate.players() + 1 {
        if closes_more(estate, prices, front, above, player) {
            return true;
        }
    }
    false
}
