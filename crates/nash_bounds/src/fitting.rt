// A level at which the players' lanes sum to no more than the top, found quickly from a guess.
ghost use Rattle.std.specs.Prelude.{◌≡◌, ◌<◌, ◌≤◌};
ghost use Rattle.nash_bounds.specs.Reach.{IsFitting, IsSpan};

use crate::lanes::Lanes;
use crate::limits::MOST_LANES_SUM;
use crate::vectors::{entries_of, total};
use bid_rules::limits::WHOLE_POINTS;
use std::simd::prelude::*;

/// The entries of lanes at a level at which they fit.
#[derive(Clone, Copy)]
pub(crate) struct Fitting {
    /// The level, at most `WHOLE_POINTS`.
    pub(crate) level: u32,
    /// For each lane, its entry.
    pub(crate) entries: u16x16,
    /// How much of the top the entries leave over.
    pub(crate) spare: u32,
}

// Roughly how many lanes rise at the level: those whose low is at most the level and whose
// high is above it.
pub(crate) fn rising(low: u16x16, high: u16x16, level: u32) -> u32
    requires { level ≤ WHOLE_POINTS }
{
    let level = u16x16::splat(level as u16);
    (low.simd_le(level) & high.simd_gt(level))
        .to_bitmask()
        .count_ones()
}

// A lower level: the excess of the entries' sum is shared out among the lanes that rise.
fn lowered(level: u32, excess: u32, rising: u32) -> u32
    requires level { 0 < level }
    requires level_small { level ≤ WHOLE_POINTS }
    requires excess { 0 < excess }
    requires excess_small { excess ≤ MOST_LANES_SUM }
    ensures { result < level }
{
    level.saturating_sub(excess.div_ceil(rising.max(1)))
}

// A level at which the lanes fit, found from the start downwards. It need not be the highest
// one.
pub(crate) fn fit(lanes: &Lanes, start: u32) -> Fitting
    requires { IsSpan lanes.now }
    ensures { IsFitting lanes.now result }
{
    let mut level = start.min(WHOLE_POINTS);
    'down: loop {
        let entries = entries_of(lanes.low, lanes.high, level);
        let sum = total(entries);
        if sum <= lanes.top {
            return Fitting {
                level,
                entries,
                spare: lanes.top - sum,
            };
        }
        let rising = rising(lanes.low, lanes.high, level);
        level = lowered(level, sum - lanes.top, rising);
    }
}
