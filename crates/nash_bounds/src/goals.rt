// A pair that a bound has to reach, with its product rounded to units so that most comparisons take one word.
ghost use Rattle.std.specs.Prelude.{◌≡◌, ◌+◌, ◌^◌, ◌≤◌};
ghost use Rattle.nash_bounds.specs.Goals.{IsAbove, IsGoal};
ghost use Rattle.nash_bounds.specs.declared.limits.TheConstants.{UNIT_BITS};

use crate::limits::{MOST_UNITS, UNIT_BITS};
use bid_rules::Pair;

/// A pair to be reached, with its product in units of a power of two.
#[derive(Clone, Copy)]
pub struct Goal {
    /// The pair.
    pub pair: Pair,
    /// A unit is 2 to this power.
    pub shift: u32,
    /// The product has at least this many whole units.
    pub units: u64,
}

impl Goal {
    /// The pair as a goal.
    pub fn of(pair: Pair) -> Goal
        ensures goal { IsGoal result }
        ensures pair { result.pair ≡ pair }
    {
        let bits = u128::BITS - pair.product.leading_zeros();
        let shift = bits.saturating_sub(UNIT_BITS);
        Goal {
            pair,
            shift,
            units: (pair.product >> shift).min(MOST_UNITS) as u64,
        }
    }

    // A number of units that is more than the product has, or at least more than the goal's product has.
    pub(crate) fn units_above(&self, product: u128) -> u64
        requires { IsGoal self.now }
        ensures above { IsAbove self.now product result }
        ensures few { result ≤ 2 ^ UNIT_BITS }
    {
        (product >> self.shift).min(MOST_UNITS) as u64 + 1
    }
}
