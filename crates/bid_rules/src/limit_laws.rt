// A law about what the limits add up to: if a limit is raised too far, the proof fails here first. The law is the contract of a
// function that does nothing.
ghost use Rattle.std.specs.Prelude.{◌+◌, ◌*◌, ◌^◌, ◌<◌};
ghost use Rattle.bid_rules.specs.FareLimits.{most_cost, most_orders, most_sum};

use crate::limits::MOST_RIDERS;

/// The sums of fares never overflow: a cost fits in 32 bits, the number of orders in 64 bits, and what all riders pay over all orders,
/// less a cost, in 128 bits with a sign.
pub fn fare_limits_law()
    ensures costs { most_cost < 2 ^ 32 }
    ensures orders { most_orders < 2 ^ 64 }
    ensures sums { most_sum * (MOST_RIDERS + 1) < 2 ^ 127 }
{}
