// The sets of riders that the recursion goes through, as numbers: each is the sum of 2^(i-1) over the riders i of the set.
ghost use Rattle.std.specs.Prelude.{◌≡◌, ◌<◌, ◌≤◌, ◌^◌, ℕ, Contains};
ghost use Rattle.bid_rules.specs.Coalitions.{riders_in};
ghost use Rattle.best_laws.specs.Entries.{without as set_without};

use best_laws::{coalition_law, without_rider_law};
use bid_rules::limits::{MOST_RIDERS, RiderList};

/// The riders of a set of the first `count` riders, in rising order.
pub fn riders_of_set(count: u8, set: u16) -> RiderList
    requires few { count ≤ MOST_RIDERS }
    requires set { set < 2 ^ count }
    ensures { result.items ≡ riders_in set }
{
    coalition_law();
    let mut riders = RiderList::new();
    for bit in 0..count {
        if (set >> bit) % 2 == 1 {
            riders.push(bit + 1);
        }
    }
    riders
}

/// The set without one of its riders.
pub fn without(set: u16, rider: u8) -> u16
    requires rider { Contains (riders_in set) rider }
    requires high { rider ≤ MOST_RIDERS }
    ensures { result ≡ set_without set rider }
{
    coalition_law();
    without_rider_law();
    set - (1 << (rider - 1))
}

// The lowest rider of a set.
pub(crate) fn lowest(set: u16) -> u8
    requires { 0 < set }
    ensures rider { Contains (riders_in set) result }
    ensures lowest { (other : ℕ) → Contains (riders_in set) other → result ≤ other }
{
    coalition_law();
    set.trailing_zeros() as u8 + 1
}
