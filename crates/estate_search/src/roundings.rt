// Weights and prices as a certificate states them, from those of the search.
ghost use Rattle.std.specs.Prelude.{◌≡◌, ◌≤◌, All, length};

use crate::pricing::FINE_PARTS;
use crate::shares::Fine;
use arrayvec::ArrayVec;
use bid_rules::limits::MEMBER_ROOM;
use estate_bounds::limits::{MOST_PRICE, WeightList};

// Weights for the players from those of the search, with this as the greatest.
pub(crate) fn rounded(fine: &Fine, players: u8, greatest: u16) -> WeightList
    requires { players ≤ MEMBER_ROOM }
    ensures each { length result.items ≡ players }
    ensures some { All (λ weight. 1 ≤ weight) result.items }
{
    let most = u64::from(most_of(fine));
    let mut weights = ArrayVec::new();
    for k in 0..usize::from(players) {
        weights.push(rounded_weight(u64::from(fine[k]), most, greatest));
    }
    weights
}

// The greatest of the weights.
fn most_of(fine: &Fine) -> u32
    ensures { 1 ≤ result }
{
    let mut most = 0;
    for weight in fine {
        most = most.max(*weight);
    }
    most.max(1)
}

// The weight as a part of the greatest, which becomes this.
fn rounded_weight(weight: u64, most: u64, greatest: u16) -> u16
    requires { 1 ≤ most }
    ensures { 1 ≤ result }
{
    let scaled = weight
        .wrapping_mul(u64::from(greatest))
        .wrapping_add(most / 2)
        / most;
    scaled.clamp(1, u64::from(u16::MAX)) as u16
}

// Rates or fees for the players from those of the search.
pub(crate) fn rounded_prices(fine: &[i64; MEMBER_ROOM], players: u8) -> ArrayVec<u32, MEMBER_ROOM>
    requires { players ≤ MEMBER_ROOM }
    ensures each { length result.items ≡ players }
    ensures small { All (λ price. price ≤ MOST_PRICE) result.items }
{
    let mut prices = ArrayVec::new();
    for k in 0..usize::from(players) {
        prices.push(rounded_price(fine[k]));
    }
    prices
}

// The nearest rate or fee that can be stated.
fn rounded_price(fine: i64) -> u32
    ensures { result ≤ MOST_PRICE }
{
    let parts = fine.saturating_add(FINE_PARTS / 2) / FINE_PARTS;
    parts.clamp(0, i64::from(MOST_PRICE)) as u32
}
