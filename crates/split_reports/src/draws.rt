// Draws the numbers for the cases of a trial, one after the other, and the weights made of them.
ghost use Rattle.std.specs.Prelude.{◌≡◌, ◌+◌, ◌%◌, ◌<◌, ◌≤◌, length, map};
ghost use Rattle.split_reports.specs.TrialDraws.{after, next, seed, weights_behind};
ghost use Rattle.split_reports.specs.declared.limits.TheConstants.{DRAW_MODULUS};

use crate::limits::{DRAW_FACTOR, DRAW_MODULUS, WEIGHTS};
use bid_rules::limits::{ITEM_ROOM, Values};

/// The last number drawn, from which the next one follows; the seed before the first.
#[derive(Drop)]
pub(crate) struct Draws {
    pub(crate) last: u32,
}

impl Draws {
    // What is drawn from a number.
    pub(crate) fn of(number: u64) -> Self
        ensures { result.last ≡ seed number }
    {
        Draws {
            last: (number % u64::from(DRAW_MODULUS)) as u32,
        }
    }

    // Draws the next number.
    pub(crate) fn draw(&mut self) -> u32
        ensures drawn { result ≡ next self.old.last }
        ensures last { self.new.last ≡ result }
    {
        let product = u64::from(self.last) * u64::from(DRAW_FACTOR);
        self.last = (product % u64::from(DRAW_MODULUS)) as u32;
        self.last
    }

    // Draws this many weights, each from 1 to `WEIGHTS`.
    pub(crate) fn weights(&mut self, count: u8) -> Values
        requires { count ≤ ITEM_ROOM }
        ensures weights { result.items ≡ weights_behind self.old.last count }
        ensures last { self.new.last ≡ after count self.old.last }
    {
        let mut weights = Values::new();
        for _ in 0..count {
            weights.push(1 + self.draw() % WEIGHTS);
        }
        weights
    }
}
