// Finds the rooms of greatest welfare, with dual numbers that show that no other rooms have more.
ghost use Rattle.std.specs.Prelude.{◌≡◌, ℕ, ℤ, pos, ◌+◌, ◌*◌, ◌-◌, ◌<◌, ◌≤◌, ◌^◌, List, length, map, All, unsigned_abs};
ghost use Rattle.std.specs.List.{range_with_len};
ghost use Rattle.std.specs.List.Sorted.{IsPermutation};
ghost use Rattle.bid_rules.specs.Keys.{AreDualNumbers, HasGreatestKeySum, HasGreatestWelfare, IsFirstOfItsWelfare, key_step};
ghost use Rattle.bid_rules.specs.Maximin.{value_step};
ghost use Rattle.bid_rules.specs.Rent.{IsValidRentCase, room_count};
ghost use Rattle.bid_rules.specs.Walks.{AreGreatestWeights, AreRanks};
ghost use Rattle.room_assignment.specs.Matrix.{entry};
ghost use Rattle.room_assignment.specs.Tree.{AreKeys, IsRight, numbers};

use crate::keys::{keys_of, values_of, walk_matrix};
use crate::limits::{DUAL_LIMIT, MOST_STEP};
use crate::tree::{assign, holder};
use crate::walks::{Matrix, Walks, longest_walks, step};
use arrayvec::ArrayVec;
use best_laws::{key_law, potential_law, value_cycle_law};
use bid_rules::RentCase;
use bid_rules::limits::{MEMBER_ROOM, MOST_MEMBERS};

/// An assignment, and the dual numbers that show that it has the greatest sum of keys.
#[derive(Drop)]
pub struct Rooms {
    /// The room of each member, numbered from 1.
    pub rooms: ArrayVec<u8, MEMBER_ROOM>,
    /// The dual number of each member: the greatest weight of a walk over the keys that ends there, in cents times n^n.
    pub left: ArrayVec<i128, MEMBER_ROOM>,
    /// The dual number of each room: the key of the member who has it, less that member's number.
    pub right: ArrayVec<i128, MEMBER_ROOM>,
}

// The rooms counted from 1.
fn numbered(rooms: &[u8]) -> ArrayVec<u8, MEMBER_ROOM>
    requires few { length rooms.now ≤ MEMBER_ROOM }
    requires small { All (λ room. room < MEMBER_ROOM) rooms.now }
    ensures { result.items ≡ map (λ r. r + 1) rooms.now }
{
    let mut numbered = ArrayVec::new();
    for room in rooms {
        numbered.push(*room + 1);
    }
    numbered
}

// The dual number of a room.
fn right_of(keys: &Matrix, rooms: &[u8], left: &[i128], room: usize) -> i128
    requires keys { AreKeys keys.now }
    requires rooms { IsPermutation (range_with_len 0 (length keys.now.items)) rooms.now }
    requires count { length rooms.now ≡ length keys.now.items }
    requires lefts { length left.now ≡ length keys.now.items }
    requires small { All (λ weight. unsigned_abs weight ≤ MOST_MEMBERS * MOST_STEP) left.now }
    requires room { room < length keys.now.items }
    ensures { IsRight (length keys.now.items) (entry keys.now) rooms.now left.now room result }
{
    let member = holder(rooms, room);
    step(keys, member, room) - left[member]
}

// The dual numbers of the rooms.
fn rights(keys: &Matrix, rooms: &[u8], left: &[i128]) -> ArrayVec<i128, MEMBER_ROOM>
    requires keys { AreKeys keys.now }
    requires rooms { IsPermutation (range_with_len 0 (length keys.now.items)) rooms.now }
    requires count { length rooms.now ≡ length keys.now.items }
    requires lefts { length left.now ≡ length keys.now.items }
    requires small { All (λ weight. unsigned_abs weight ≤ MOST_MEMBERS * MOST_STEP) left.now }
    ensures count { length result.items ≡ length keys.now.items }
    ensures each { (j : ℕ) → j < length keys.now.items
        → IsRight (length keys.now.items) (entry keys.now) rooms.now left.now j
        (numbers result.items j) }
{
    let mut rights = ArrayVec::new();
    for room in 0..keys.len() {
        rights.push(right_of(keys, rooms, left, room));
    }
    rights
}

/// The assignment with the greatest sum of keys, and the dual numbers that show it.
///
/// No other assignment has that sum. It is the one of greatest welfare, and the first list of rooms among those of that
/// welfare. `left` gives for each member the greatest weight of a walk over the keys, and together with `right`, which is by
/// room, it bounds every key.
pub fn best_rooms(case: &RentCase) -> Rooms
    requires { IsValidRentCase case.now }
    ensures rooms { HasGreatestKeySum case.now result.rooms.items }
    ensures only { (others : List ℕ) → HasGreatestKeySum case.now others
        → others ≡ result.rooms.items }
    ensures welfare { HasGreatestWelfare case.now result.rooms.items }
    ensures first { IsFirstOfItsWelfare case.now result.rooms.items }
    ensures left { AreGreatestWeights (room_count case.now) (key_step case.now result.rooms.items)
        result.left.items }
    ensures dual { AreDualNumbers case.now result.rooms.items result.left.items result.right.items }
    ensures left_small { All (λ number. unsigned_abs number < DUAL_LIMIT) result.left.items }
    ensures right_small { All (λ number. unsigned_abs number < DUAL_LIMIT) result.right.items }
{
    key_law();
    potential_law();
    let keys = keys_of(case);
    let plan = assign(&keys);
    let steps = walk_matrix(&keys, plan.rooms.as_slice());
    let walks = longest_walks(&steps);
    let right = rights(&keys, plan.rooms.as_slice(), walks.weights.as_slice());
    Rooms {
        rooms: numbered(plan.rooms.as_slice()),
        left: walks.weights,
        right,
    }
}

// The rooms counted from 0.
fn unnumbered(rooms: &[u8]) -> ArrayVec<u8, MEMBER_ROOM>
    requires few { length rooms.now ≤ MEMBER_ROOM }
    requires low { All (λ room. 1 ≤ room) rooms.now }
    ensures { result.items ≡ map (λ r. r - 1) rooms.now }
{
    let mut unnumbered = ArrayVec::new();
    for room in rooms {
        unnumbered.push(*room - 1);
    }
    unnumbered
}

/// The longest walks over the values, for an assignment of greatest welfare, given as each member's room, numbered from 1.
///
/// The step from one member to another is how much more the other would pay for the first one's room than the first one
/// would. Since no assignment has a greater welfare, no cycle of such steps has a positive weight.
pub fn value_walks(case: &RentCase, rooms: &[u8]) -> Walks
    requires case { IsValidRentCase case.now }
    requires rooms { HasGreatestWelfare case.now rooms.now }
    ensures weights { AreGreatestWeights (room_count case.now) (value_step case.now rooms.now)
        result.weights.items }
    ensures ranks { AreRanks (room_count case.now) (value_step case.now rooms.now)
        result.weights.items result.ranks.items }
    ensures small { All (λ weight. unsigned_abs weight ≤ MOST_STEP * room_count case.now)
        result.weights.items }
    ensures below { All (λ rank. rank < room_count case.now) result.ranks.items }
{
    value_cycle_law();
    let values = values_of(case);
    // Its dual numbers show that no cycle has a positive weight.
    let _plan = assign(&values);
    let places = unnumbered(rooms);
    let steps = walk_matrix(&values, places.as_slice());
    longest_walks(&steps)
}
