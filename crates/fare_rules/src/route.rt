// Checks the printed route: whether it is an order of the riders, and whether it is a given one.
ghost use Rattle.std.specs.Prelude.{◌≡◌, pos, ◌≤◌, ◌≤ℤ◌, length, map, All, MatchOption, unsigned_abs};
ghost use Rattle.std.specs.List.{range_with_len};
ghost use Rattle.std.specs.List.Sorted.{IsPermutation};

use bid_rules::limits::{MOST_RIDERS, RiderList};
use rule_verdicts::{has_each, members_between};

// The riders of a printed route, if they are all riders in some order.
pub(crate) fn order_of(route: &[i128], count: u8) -> Option<RiderList>
    requires few { count ≤ MOST_RIDERS }
    requires route { length route.now ≡ count }
    ensures { MatchOption result
        (All (λ rider. pos 1 ≤ℤ rider) route.now
        × IsPermutation (range_with_len 1 count) (map unsigned_abs route.now) → ⊥)
        (λ riders.
        All (λ rider. pos 1 ≤ℤ rider) route.now
        × IsPermutation (range_with_len 1 count) (map unsigned_abs route.now)
        × (riders.items ≡ map unsigned_abs route.now)) }
{
    let Some(riders) = members_between(route, 1, count) else {
        return None;
    };
    if has_each(riders.as_slice(), count) {
        Some(riders)
    } else {
        None
    }
}
