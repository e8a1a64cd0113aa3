// The rule by which walks through tasks count prefixes, as a goal for the prefixes' bounds.
ghost use Rattle.std.specs.Prelude.{◌≡◌};
ghost use Rattle.nash_search.specs.Waiting.{AreRules};

use nash_bounds::{Goal, Pair};

/// Which prefixes are counted.
#[derive(Clone, Copy)]
pub(crate) struct Rules {
    /// A counted prefix has at least this bound.
    pub(crate) floor: Pair,
    /// If there is such a pair, a counted prefix has a greater bound.
    pub(crate) above: Option<Pair>,
    /// What the bound of a counted prefix reaches.
    pub(crate) goal: Goal,
    /// Whether it has to be above the goal's pair.
    pub(crate) beyond: bool,
}

// The rule that a counted prefix has a bound of at least `floor`, which is greater than `above` if that is given.
pub(crate) fn rules_of(floor: Pair, above: Option<Pair>) -> Rules
    ensures rules { AreRules result }
    ensures floor { result.floor ≡ floor }
    ensures above { result.above ≡ above }
{
    match above {
        Some(pair) if floor <= pair => Rules {
            floor,
            above,
            goal: Goal::of(pair),
            beyond: true,
        },
        _ => Rules {
            floor,
            above,
            goal: Goal::of(floor),
            beyond: false,
        },
    }
}
