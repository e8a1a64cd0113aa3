// The bound's level: how high the utilities can rise together before they sum to more than the top.
ghost use Rattle.std.specs.Prelude.{◌≡◌, ℕ, suc, ◌+◌, ◌-◌, ◌*◌, ◌^◌, ◌<◌, ◌≤◌, ◌⊎◌, length, slice_index, All, sum};
ghost use Rattle.std.specs.List.{AllZip};
ghost use Rattle.bid_rules.specs.Pairs.{nash_welfare};
ghost use Rattle.nash_bounds.specs.Bound.{IsBound};
ghost use Rattle.nash_bounds.specs.Levels.{level_sum, entries_at_level, with_extra_points};
ghost use Rattle.nash_bounds.specs.Raised.{Reaches};

use crate::limits::{LANES, MOST_LANES_SUM};
use crate::vectors::{entries_of, total};
use bid_rules::Pair;
use bid_rules::limits::{MEMBER_ROOM, WHOLE_POINTS};
use std::simd::prelude::*;

/// All entries at one level, each within its low and high, and the first few of those that can rise one above it.
#[derive(Clone, Copy)]
struct Height {
    level: u32,
    extra: u32,
}

/// What the entries sum to at a level, and how many of them rise from there to the next level.
#[derive(Clone, Copy)]
struct AtLevel {
    sum: u32,
    rising: u32,
}

// The entries' sum at a level, and how many of them rise from there.
fn at_level(low: u16x16, high: u16x16, level: u32) -> AtLevel
    requires lows { length low ≡ LANES }
    requires highs { length high ≡ LANES }
    requires order { AllZip ◌≤◌ low high }
    requires small { All (λ h. h ≤ WHOLE_POINTS) high }
    requires level { level ≤ WHOLE_POINTS }
    ensures sum { result.sum ≡ level_sum level low high }
    ensures next { level_sum (suc level) low high ≡ result.sum + result.rising }
    ensures most { result.sum ≤ MOST_LANES_SUM }
    ensures few { result.rising ≤ LANES }
{
    let sum = total(entries_of(low, high, level));
    let next = total(entries_of(low, high, level + 1));
    AtLevel {
        sum,
        rising: next - sum,
    }
}

// The level at which the sum would be `top`, if as many entries rose all the way; `middle` if none does.
fn aim(at: AtLevel, level: u32, top: u32, middle: u32) -> u32
    requires sum { at.sum ≤ MOST_LANES_SUM }
    requires rising { at.rising ≤ LANES }
{
    if at.rising == 0 {
        middle
    } else if at.sum <= top {
        level.saturating_add((top - at.sum) / at.rising)
    } else {
        level.saturating_sub((at.sum - top + at.rising - 1) / at.rising)
    }
}

// The last level at which the sum is at most `top`, if the highest entries sum to more.
//
// It lies between a level that fits and one that does not. The first guess is `start`, which can be any number. Each further guess assumes that the number of rising entries
// stays the same, and so it is right as soon as no entry's ends lie in between.
fn last_level(low: u16x16, high: u16x16, top: u32, start: u32) -> Height
    requires lows { length low ≡ LANES }
    requires highs { length high ≡ LANES }
    requires order { AllZip ◌≤◌ low high }
    requires small { All (λ h. h ≤ WHOLE_POINTS) high }
    requires low { sum low ≤ top }
    requires high { top < sum high }
    ensures { Reaches low high top result.level result.extra }
{
    let mut fits = 0;
    let mut above = WHOLE_POINTS;
    let mut guess = start;
    while fits + 1 < above {
        let level = guess.max(fits + 1).min(above - 1);
        let at = at_level(low, high, level);
        if at.sum > top {
            above = level;
        } else if top - at.sum < at.rising {
            return Height {
                level,
                extra: top - at.sum,
            };
        } else {
            fits = level;
        }
        guess = aim(at, level, top, (fits + above) / 2);
    }
    Height {
        level: fits,
        extra: top - at_level(low, high, fits).sum,
    }
}

// How high the entries rise together from low, until they sum to `top` or are all high.
//
// No allowed list of whole numbers has a greater pair, since one more point makes the greatest difference to the smallest utility.
fn raise(low: u16x16, high: u16x16, top: u32, start: u32) -> Height
    requires lows { length low ≡ LANES }
    requires highs { length high ≡ LANES }
    requires order { AllZip ◌≤◌ low high }
    requires small { All (λ h. h ≤ WHOLE_POINTS) high }
    requires top { sum low ≤ top }
    ensures { Reaches low high top result.level result.extra }
{
    let most = total(high);
    if most <= top {
        return Height {
            level: WHOLE_POINTS,
            extra: top - most,
        };
    }
    last_level(low, high, top, start)
}

// The pair of the entries after the first few of them are raised, each to at most its limit.
fn pair_of(entries: &[u16], above: &[u16], extra: u32) -> Pair
    requires lengths { length entries.now ≡ length above.now }
    requires short { length entries.now ≤ MEMBER_ROOM }
    requires order { AllZip ◌≤◌ entries.now above.now }
    requires small { All (λ h. h ≤ WHOLE_POINTS) above.now }
    ensures { result ≡ nash_welfare (with_extra_points extra entries.now above.now) }
{
    let mut count = 0;
    let mut product: u128 = 1;
    let mut left = extra;
    for i in 0..entries.len() {
        let step = u32::from(above[i] - entries[i]).min(left);
        let entry = u32::from(entries[i]) + step;
        left -= step;
        count += entry.min(1) as u8;
        product *= u128::from(entry.max(1));
    }
    Pair { count, product }
}

// The pair of the entries at the level.
fn pair_at(low: u16x16, high: u16x16, at: Height) -> Pair
    requires lows { length low ≡ LANES }
    requires highs { length high ≡ LANES }
    requires order { AllZip ◌≤◌ low high }
    requires small { All (λ h. h ≤ WHOLE_POINTS) high }
    requires rest { (k : ℕ) → MEMBER_ROOM ≤ k → slice_index high k ≡ 0 }
    requires level { at.level ≤ WHOLE_POINTS }
    ensures { result ≡ nash_welfare (entries_at_level at.level at.extra low high) }
{
    let entries = entries_of(low, high, at.level);
    let above = entries_of(low, high, at.level + 1);
    pair_of(
        &entries.as_array()[..MEMBER_ROOM],
        &above.as_array()[..MEMBER_ROOM],
        at.extra,
    )
}

// The greatest pair of a whole list between low and high with a sum of at most `top`.
pub(crate) fn bound_between(low: u16x16, high: u16x16, top: u32, start: u32) -> Pair
    requires lows { length low ≡ LANES }
    requires highs { length high ≡ LANES }
    requires order { AllZip ◌≤◌ low high }
    requires small { All (λ h. h ≤ WHOLE_POINTS) high }
    requires rest { (k : ℕ) → MEMBER_ROOM ≤ k → slice_index high k ≡ 0 }
    requires top { sum low ≤ top }
    ensures { IsBound low high top result }
{
    pair_at(low, high, raise(low, high, top, start))
}
