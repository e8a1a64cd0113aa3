// Checks the values that one member spreads over rooms or goods, which have to sum to the whole.
ghost use Rattle.std.specs.Prelude.{◌≡◌, ◌≤◌, ◌↔◌, length, sum, IsOk, MatchResult};
ghost use Rattle.bid_rules.specs.Facts.{IsFaultOfSpread, IsSpread};

use crate::BidFault;
use crate::limits::ITEM_ROOM;

// Whether there is a value for each of this many items and they sum to the whole, or else their first
// fault.
//
// `Count` if there is not a value for each item, otherwise `Sum` with their sum if that is not the whole.
pub(crate) fn check_spread(items: u8, whole: u32, values: &[u32]) -> Result<(), BidFault>
    requires { length values.now ≤ ITEM_ROOM }
    ensures fault { MatchResult result (λ _. IsSpread items whole values.now)
        (IsFaultOfSpread items whole values.now) }
    ensures accepted { IsOk result ↔ IsSpread items whole values.now }
{
    if values.len() != usize::from(items) {
        return Err(BidFault::Count);
    }
    let got = sum_of(values);
    if got != u64::from(whole) {
        return Err(BidFault::Sum { got });
    }
    Ok(())
}

// The sum of the values.
fn sum_of(values: &[u32]) -> u64
    requires { length values.now ≤ ITEM_ROOM }
    ensures { result ≡ sum values.now }
{
    let mut total = 0;
    for value in values {
        total += u64::from(*value);
    }
    total
}
