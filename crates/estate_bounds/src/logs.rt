// Binary logarithms of the points that a player can have, in fixed point.
ghost use Rattle.std.specs.Prelude.{◌≡◌, ◌+◌, ◌*◌, ◌^◌, ◌≤◌, All, cond, nat_lt};
ghost use Rattle.estate_bounds.specs.Logs.{as_power, halved, log_down, log_up, power_after, squared};
ghost use Rattle.estate_bounds.specs.Prices.{AreLogs, IsListOf};

use crate::limits::{LOG_BITS, LOG_ROOM, MOST_LOG, ONE, SQUARINGS, TWO};
use arrayvec::ArrayVec;
use bid_rules::limits::WHOLE_POINTS;

/// A significand, counted in parts of which `ONE` make 1, times a power of 2.
#[derive(Clone, Copy)]
pub struct Power {
    pub significand: u128,
    pub exponent: u64,
}

/// The logarithm of each number of points, by the number.
#[derive(Drop)]
pub struct Logs {
    /// Rounded down.
    pub down: ArrayVec<u64, LOG_ROOM>,
    /// Rounded up.
    pub up: ArrayVec<u64, LOG_ROOM>,
}

// Halves a significand of 2 or more.
fn halved(power: Power, rounding: u128) -> Power
    requires rounding { rounding ≤ 1 }
    requires significand { power.significand ≤ 2 ^ 126 }
    requires exponent { power.exponent ≤ MOST_LOG }
    ensures { result ≡ halved rounding power }
{
    if power.significand < TWO {
        return power;
    }
    Power {
        significand: (power.significand + rounding) / 2,
        exponent: power.exponent + 1,
    }
}

// The square of the power.
fn squared(power: Power, rounding: u128) -> Power
    requires rounding { rounding ≤ 1 }
    requires significand { power.significand ≤ TWO }
    requires exponent { 2 * power.exponent ≤ MOST_LOG }
    ensures { result ≡ squared rounding power }
{
    let square = power.significand * power.significand + rounding * (ONE - 1);
    let whole = Power {
        significand: square / ONE,
        exponent: 2 * power.exponent,
    };
    halved(whole, rounding)
}

// The number as a power whose significand is below 2.
fn as_power(number: u32, rounding: u128) -> Power
    requires number { number ≤ WHOLE_POINTS }
    requires rounding { rounding ≤ 1 }
    ensures value { result ≡ as_power rounding number LOG_BITS }
    ensures significand { result.significand ≤ TWO }
    ensures exponent { result.exponent ≤ LOG_BITS }
{
    let mut power = Power {
        significand: u128::from(number) * ONE,
        exponent: 0,
    };
    for _bit in 0..LOG_BITS {
        power = halved(power, rounding);
    }
    power
}

// The number squared again and again.
fn power_of(number: u32, rounding: u128) -> Power
    requires number { number ≤ WHOLE_POINTS }
    requires rounding { rounding ≤ 1 }
    ensures value { result ≡ power_after rounding number SQUARINGS }
    ensures exponent { result.exponent + 1 ≤ MOST_LOG }
{
    let mut power = as_power(number, rounding);
    for _squaring in 0..SQUARINGS {
        power = squared(power, rounding);
    }
    power
}

// The logarithm of the number, rounded down.
fn log_down(number: u32) -> u64
    requires { number ≤ WHOLE_POINTS }
    ensures value { result ≡ log_down number }
    ensures small { result ≤ MOST_LOG }
{
    power_of(number, 0).exponent
}

// 1 if the significand is above 1, else 0.
fn above_one(significand: u128) -> u64
    ensures value { result ≡ cond (nat_lt ONE significand) 1 0 }
    ensures small { result ≤ 1 }
{
    u64::from(significand > ONE)
}

// The logarithm of the number, rounded up.
fn log_up(number: u32) -> u64
    requires { number ≤ WHOLE_POINTS }
    ensures value { result ≡ log_up number }
    ensures small { result ≤ MOST_LOG }
{
    let power = power_of(number, 1);
    power.exponent + above_one(power.significand)
}

// The logarithms of all numbers of points, rounded down.
fn logs_down() -> ArrayVec<u64, LOG_ROOM>
    ensures value { IsListOf log_down LOG_ROOM result.items }
    ensures small { All (λ log. log ≤ MOST_LOG) result.items }
{
    let mut logs = ArrayVec::new();
    for number in 0..LOG_ROOM {
        logs.push(log_down(number as u32));
    }
    logs
}

// The logarithms of all numbers of points, rounded up.
fn logs_up() -> ArrayVec<u64, LOG_ROOM>
    ensures value { IsListOf log_up LOG_ROOM result.items }
    ensures small { All (λ log. log ≤ MOST_LOG) result.items }
{
    let mut logs = ArrayVec::new();
    for number in 0..LOG_ROOM {
        logs.push(log_up(number as u32));
    }
    logs
}

impl Logs {
    /// The logarithms of all numbers of points.
    pub fn new() -> Logs
        ensures { AreLogs result }
    {
        Logs {
            down: logs_down(),
            up: logs_up(),
        }
    }
}
