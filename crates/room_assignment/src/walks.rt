// The longest walks over weighted steps that have no cycle of positive weight.
ghost use Rattle.std.specs.Prelude.{◌≡◌, ℕ, ℤ, pos, ◌+◌, ◌*◌, ◌-◌, ◌<◌, ◌≤◌, ◌^◌, ◌+ℤ◌, ◌≤ℤ◌, ◌⊎◌, replicate, length, All, slice_index_or, unsigned_abs};
ghost use Rattle.bid_rules.specs.Walks.{AreGreatestWeights, AreRanks, HasNoPositiveCycle};
ghost use Rattle.room_assignment.specs.Matrix.{IsSquare, entry};
ghost use Rattle.room_assignment.specs.Rounds.{IsLongestWithin, AreLongestWithin};

use crate::limits::MOST_STEP;
use arrayvec::ArrayVec;
use bid_rules::limits::{MEMBER_ROOM, MOST_MEMBERS};

/// A matrix of weights: the entry (from, to) is the weight of the step from one vertex to another, both numbered
/// from 0.
pub type Matrix = ArrayVec<ArrayVec<i128, MEMBER_ROOM>, MEMBER_ROOM>;

/// The longest walks, by vertex.
#[derive(Drop)]
pub struct Walks {
    /// The greatest weight of a walk that ends at the vertex, including the walk of no steps.
    pub weights: ArrayVec<i128, MEMBER_ROOM>,
    /// The least number of steps of a walk of that weight.
    pub ranks: ArrayVec<u8, MEMBER_ROOM>,
}

/// A longest walk: its weight and its steps.
#[derive(Clone, Copy)]
struct Walk {
    weight: i128,
    steps: u8,
}

// The weight of one step.
pub(crate) fn step(matrix: &Matrix, from: usize, to: usize) -> i128
    requires square { IsSquare matrix.now }
    requires from { from < length matrix.now.items }
    requires to { to < length matrix.now.items }
    ensures value { result ≡ entry matrix.now from to }
    ensures small { unsigned_abs result ≤ MOST_STEP }
{
    matrix[from][to]
}

// The weight of a walk with one more step.
fn extended(matrix: &Matrix, weights: &[i128], from: usize, to: usize) -> i128
    requires square { IsSquare matrix.now }
    requires from { from < length matrix.now.items }
    requires to { to < length matrix.now.items }
    requires count { length weights.now ≡ length matrix.now.items }
    requires small { All (λ weight. unsigned_abs weight ≤ (MOST_MEMBERS - 1) * MOST_STEP)
        weights.now }
    ensures value { result ≡ slice_index_or weights.now from (pos 0) +ℤ entry matrix.now from to }
{
    weights[from] + step(matrix, from, to)
}

// The greater of two weights.
pub(crate) fn greater(first: i128, second: i128) -> i128
    ensures first { first ≤ℤ result }
    ensures second { second ≤ℤ result }
    ensures one { (result ≡ first) ⊎ (result ≡ second) }
{
    if second > first {
        return second;
    }
    first
}

// The greatest weight of a walk with one more step to a vertex.
fn best_extended(matrix: &Matrix, weights: &[i128], to: usize) -> i128
    requires square { IsSquare matrix.now }
    requires to { to < length matrix.now.items }
    requires count { length weights.now ≡ length matrix.now.items }
    requires small { All (λ weight. unsigned_abs weight ≤ (MOST_MEMBERS - 1) * MOST_STEP)
        weights.now }
    ensures reached { (from : ℕ) × (from < length weights.now)
        × (result ≡ slice_index_or weights.now from (pos 0) +ℤ entry matrix.now from to) }
    ensures greatest { (from : ℕ) → from < length weights.now
        → (slice_index_or weights.now from (pos 0) +ℤ entry matrix.now from to) ≤ℤ result }
{
    let mut best = extended(matrix, weights, 0, to);
    for from in 1..weights.len() {
        best = greater(best, extended(matrix, weights, from, to));
    }
    best
}

// A longest walk to one vertex when one more step is allowed.
fn longer_walk(matrix: &Matrix, walks: &Walks, to: usize, limit: u8) -> Walk
    requires square { IsSquare matrix.now }
    requires to { to < length matrix.now.items }
    requires limit { limit < MOST_MEMBERS - 1 }
    requires walks { AreLongestWithin limit (length matrix.now.items) (entry matrix.now)
        walks.now.weights.items walks.now.ranks.items }
    ensures longest { IsLongestWithin (limit + 1) (length matrix.now.items) (entry matrix.now) to
        result.weight result.steps }
    ensures small { unsigned_abs result.weight ≤ MOST_STEP * (limit + 1) }
{
    let best = best_extended(matrix, walks.weights.as_slice(), to);
    let weight = walks.weights[to];
    if best > weight {
        return Walk {
            weight: best,
            steps: limit + 1,
        };
    }
    Walk {
        weight,
        steps: walks.ranks[to],
    }
}

// The longest walks when one more step is allowed.
fn longer_walks(matrix: &Matrix, walks: &Walks, limit: u8) -> Walks
    requires square { IsSquare matrix.now }
    requires limit { limit < MOST_MEMBERS - 1 }
    requires walks { AreLongestWithin limit (length matrix.now.items) (entry matrix.now)
        walks.now.weights.items walks.now.ranks.items }
    ensures { AreLongestWithin (limit + 1) (length matrix.now.items) (entry matrix.now)
        result.weights.items result.ranks.items }
{
    let mut weights = ArrayVec::new();
    let mut ranks = ArrayVec::new();
    for to in 0..matrix.len() {
        let walk = longer_walk(matrix, walks, to, limit);
        weights.push(walk.weight);
        ranks.push(walk.steps);
    }
    Walks { weights, ranks }
}

// The walks of no steps.
fn no_walks(count: usize) -> Walks
    requires { count ≤ MEMBER_ROOM }
    ensures weights { result.weights.items ≡ replicate count (pos 0) }
    ensures ranks { result.ranks.items ≡ replicate count 0 }
{
    let mut weights = ArrayVec::new();
    let mut ranks = ArrayVec::new();
    for _k in 0..count {
        weights.push(0);
        ranks.push(0);
    }
    Walks { weights, ranks }
}

/// The greatest weight of a walk that ends at each vertex, and the least number of steps of such a walk.
///
/// The matrix is square, with weights between -10^21 and 10^21, and no cycle has a positive weight. In each round
/// the walks may have one more step; with n vertices n - 1 steps are enough (Bellman 1958).
pub fn longest_walks(matrix: &Matrix) -> Walks
    requires square { IsSquare matrix.now }
    requires cycles { HasNoPositiveCycle (length matrix.now.items) (entry matrix.now) }
    ensures weights { AreGreatestWeights (length matrix.now.items) (entry matrix.now)
        result.weights.items }
    ensures ranks { AreRanks (length matrix.now.items) (entry matrix.now) result.weights.items
        result.ranks.items }
    ensures small { All (λ weight. unsigned_abs weight ≤ MOST_STEP * length matrix.now.items)
        result.weights.items }
    ensures below { All (λ rank. rank < length matrix.now.items) result.ranks.items }
{
    let mut walks = no_walks(matrix.len());
    for limit in 1..matrix.len() {
        walks = longer_walks(matrix, &walks, limit as u8 - 1);
    }
    walks
}
