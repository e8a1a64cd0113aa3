// The Hungarian method (Kuhn 1955; Munkres 1957): members are matched one by one. From the next member an alternating tree grows over
// pairs without slack, until it reaches a room that no matched member holds. Instead of paths, it keeps for each of its members the
// assignment that leaves this member free.
ghost use Rattle.std.specs.Prelude.{◌≡◌, ℕ, [], ℤ, pos, true, false, ◌+◌, ◌*◌, ◌-◌, ◌<◌, ◌≤◌, ◌^◌, ◌+ℤ◌, ◌-ℤ◌, ◌≤ℤ◌, ◌≢◌, ◌⊎◌, length, All, slice_index, slice_index_or, unsigned_abs};
ghost use Rattle.std.specs.List.{range_with_len, swap};
ghost use Rattle.std.specs.List.Sorted.{IsPermutation};
ghost use Rattle.room_assignment.specs.Matrix.{entry};
ghost use Rattle.room_assignment.specs.Tree.{AreKeys, IsMatchedPlan, IsTreeOf, IsChoice, IsLeastChoice, slack_of, numbers, marks, plan_of, missing, IsMost};

use crate::limits::MOST_KEY;
use crate::walks::{Matrix, greater, step};
use arrayvec::ArrayVec;
use bid_rules::limits::MEMBER_ROOM;

/// A list of rooms by member, both counted from 0.
pub(crate) type Order = ArrayVec<u8, MEMBER_ROOM>;

/// An assignment of rooms to members, with dual numbers by member and by room.
#[derive(Drop)]
pub(crate) struct Plan {
    pub rooms: Order,
    pub left: ArrayVec<i128, MEMBER_ROOM>,
    pub right: ArrayVec<i128, MEMBER_ROOM>,
}

/// An alternating tree: its members and the rooms that it labels, with the assignment that leaves each of its members free.
#[derive(Drop)]
struct Tree {
    rooms: Order,
    left: ArrayVec<i128, MEMBER_ROOM>,
    right: ArrayVec<i128, MEMBER_ROOM>,
    in_tree: ArrayVec<bool, MEMBER_ROOM>,
    labelled: ArrayVec<bool, MEMBER_ROOM>,
    plans: ArrayVec<Order, MEMBER_ROOM>,
}

/// A member of the tree, a room that is not labelled, and the slack of the two.
#[derive(Clone, Copy)]
struct Choice {
    member: usize,
    room: usize,
    slack: i128,
}

// The slack of a member and a room: the sum of their dual numbers, less the key.
fn slack(keys: &Matrix, tree: &Tree, matched: usize, member: usize, room: usize) -> i128
    requires keys { AreKeys keys.now }
    requires tree { IsTreeOf matched keys.now tree.now }
    requires member { member < length keys.now.items }
    requires room { room < length keys.now.items }
    ensures value { result ≡ slack_of keys.now tree.now member room }
{
    tree.left[member] + tree.right[room] - step(keys, member, room)
}

// The list with the numbers lowered where there is a mark.
fn lowered(values: &[i128], marked: &[bool], by: i128) -> ArrayVec<i128, MEMBER_ROOM>
    requires few { length values.now ≤ MEMBER_ROOM }
    requires same { length marked.now ≡ length values.now }
    requires small { All (λ z. unsigned_abs z ≤ 4 * MOST_KEY) values.now }
    requires by { unsigned_abs by ≤ 4 * MOST_KEY }
    ensures count { length result.items ≡ length values.now }
    ensures yes { (i : ℕ) → i < length values.now → marks marked.now i ≡ true
        → numbers result.items i ≡ numbers values.now i -ℤ by }
    ensures no { (i : ℕ) → i < length values.now → marks marked.now i ≡ false
        → numbers result.items i ≡ numbers values.now i }
{
    let mut lowered = ArrayVec::new();
    for k in 0..values.len() {
        lowered.push(one_lowered(values[k], marked[k], by));
    }
    lowered
}

// The number, lowered if it is marked.
fn one_lowered(value: i128, marked: bool, by: i128) -> i128
    requires value { unsigned_abs value ≤ 4 * MOST_KEY }
    requires by { unsigned_abs by ≤ 4 * MOST_KEY }
    ensures yes { marked ≡ true → result ≡ value -ℤ by }
    ensures no { marked ≡ false → result ≡ value }
{
    if marked {
        return value - by;
    }
    value
}

// The assignment with two rooms exchanged.
fn swapped(plan: &[u8], first: usize, second: usize) -> Order
    requires few { length plan.now ≤ MEMBER_ROOM }
    requires first { first < length plan.now }
    requires second { second < length plan.now }
    ensures { result.items ≡ swap plan.now first second }
{
    let mut swapped = Order::try_from(plan).unwrap();
    swapped[first] = plan[second];
    swapped[second] = plan[first];
    swapped
}

// The member who has the room in the assignment.
pub(crate) fn holder(plan: &[u8], room: usize) -> usize
    requires plan { IsPermutation (range_with_len 0 (length plan.now)) plan.now }
    requires room { room < length plan.now }
    ensures within { result < length plan.now }
    ensures holds { slice_index plan.now result ≡ room }
{
    for k in 0..plan.len() {
        if usize::from(plan[k]) == room {
            return k;
        }
    }
    0
}

// The choice with less slack.
fn better(first: Choice, second: Choice) -> Choice
    ensures one { (result ≡ first) ⊎ (result ≡ second) }
    ensures first { result.slack ≤ℤ first.slack }
    ensures second { result.slack ≤ℤ second.slack }
{
    if second.slack < first.slack {
        return second;
    }
    first
}

// The choice so far, or the member with this room if that is not labelled and has less slack.
fn with_room(
    keys: &Matrix,
    tree: &Tree,
    matched: usize,
    member: usize,
    room: usize,
    least: Choice,
) -> Choice
    requires keys { AreKeys keys.now }
    requires tree { IsTreeOf matched keys.now tree.now }
    requires member { member < length keys.now.items }
    requires room { room < length keys.now.items }
    requires inside { marks tree.now.in_tree.items member ≡ true }
    requires least { IsChoice keys.now tree.now least }
    ensures choice { IsChoice keys.now tree.now result }
    ensures kept { result.slack ≤ℤ least.slack }
    ensures room { marks tree.now.labelled.items room ≡ false
        → result.slack ≤ℤ slack_of keys.now tree.now member room }
{
    if tree.labelled[room] {
        return least;
    }
    let slack = slack(keys, tree, matched, member, room);
    better(
        least,
        Choice {
            member,
            room,
            slack,
        },
    )
}

// The choice so far, or the member with a room if that has less slack.
fn with_rooms(keys: &Matrix, tree: &Tree, matched: usize, member: usize, least: Choice) -> Choice
    requires keys { AreKeys keys.now }
    requires tree { IsTreeOf matched keys.now tree.now }
    requires member { member < length keys.now.items }
    requires inside { marks tree.now.in_tree.items member ≡ true }
    requires least { IsChoice keys.now tree.now least }
    ensures choice { IsChoice keys.now tree.now result }
    ensures kept { result.slack ≤ℤ least.slack }
    ensures rooms { (r : ℕ) → r < length keys.now.items → marks tree.now.labelled.items r ≡ false
        → result.slack ≤ℤ slack_of keys.now tree.now member r }
{
    let mut best = least;
    for room in 0..keys.len() {
        best = with_room(keys, tree, matched, member, room, best);
    }
    best
}

// The choice so far, or this member with a room, if it is in the tree and that has less slack.
fn with_member(keys: &Matrix, tree: &Tree, matched: usize, member: usize, least: Choice) -> Choice
    requires keys { AreKeys keys.now }
    requires tree { IsTreeOf matched keys.now tree.now }
    requires member { member < length keys.now.items }
    requires least { IsChoice keys.now tree.now least }
    ensures choice { IsChoice keys.now tree.now result }
    ensures kept { result.slack ≤ℤ least.slack }
    ensures rooms { marks tree.now.in_tree.items member ≡ true → (r : ℕ) → r < length keys.now.items
        → marks tree.now.labelled.items r ≡ false
        → result.slack ≤ℤ slack_of keys.now tree.now member r }
{
    if tree.in_tree[member] {
        return with_rooms(keys, tree, matched, member, least);
    }
    least
}

// The choice with the least slack.
fn least_choice(keys: &Matrix, tree: &Tree, matched: usize) -> Choice
    requires keys { AreKeys keys.now }
    requires tree { IsTreeOf matched keys.now tree.now }
    ensures { IsLeastChoice keys.now tree.now result }
{
    let room = usize::from(tree.rooms[matched]);
    let slack = slack(keys, tree, matched, matched, room);
    let mut least = Choice {
        member: matched,
        room,
        slack,
    };
    for member in 0..keys.len() {
        least = with_member(keys, tree, matched, member, least);
    }
    least
}

// Adjusts the dual numbers by the least slack: down for the members of the tree, up for the rooms that it labels. The choice
// then has no slack.
fn adjust(keys: &Matrix, tree: &mut Tree, matched: usize, choice: Choice)
    requires keys { AreKeys keys.now }
    requires tree { IsTreeOf matched keys.now tree.old }
    requires choice { IsLeastChoice keys.now tree.old choice }
    ensures tree { IsTreeOf matched keys.now tree.new }
    ensures tight { numbers tree.new.left.items choice.member
        +ℤ numbers tree.new.right.items choice.room ≡ entry keys.now choice.member choice.room }
    ensures members { tree.new.in_tree.items ≡ tree.old.in_tree.items }
    ensures rooms { tree.new.labelled.items ≡ tree.old.labelled.items }
    ensures plans { tree.new.plans.items ≡ tree.old.plans.items }
{
    let left = lowered(tree.left.as_slice(), tree.in_tree.as_slice(), choice.slack);
    let right = lowered(
        tree.right.as_slice(),
        tree.labelled.as_slice(),
        -choice.slack,
    );
    tree.left = left;
    tree.right = right;
}

// Lets the tree grow by the member who holds the room, along a pair without slack.
fn grow(keys: &Matrix, tree: &mut Tree, matched: usize, member: usize, room: usize, holder: usize)
    requires keys { AreKeys keys.now }
    requires tree { IsTreeOf matched keys.now tree.old }
    requires member { member < length keys.now.items }
    requires inside { marks tree.old.in_tree.items member ≡ true }
    requires outside { marks tree.old.labelled.items room ≡ false }
    requires room { room < length keys.now.items }
    requires holder { slice_index (plan_of tree.old member) holder ≡ room }
    requires other { holder ≢ member }
    requires low { holder ≤ matched }
    requires tight { numbers tree.old.left.items member +ℤ numbers tree.old.right.items room
        ≡ entry keys.now member room }
    ensures tree { IsTreeOf matched keys.now tree.new }
    ensures fewer { missing tree.new.in_tree.items < missing tree.old.in_tree.items }
{
    let plan = swapped(tree.plans[member].as_slice(), member, holder);
    tree.plans[holder] = plan;
    tree.in_tree[holder] = true;
    tree.labelled[room] = true;
}

// The assignment after the tree augments it: the member left free takes the room of a holder who is not matched.
fn augmented(keys: &Matrix, tree: Tree, matched: usize, member: usize, holder: usize) -> Plan
    requires keys { AreKeys keys.now }
    requires tree { IsTreeOf matched keys.now tree }
    requires member { member < length keys.now.items }
    requires holder { holder < length keys.now.items }
    requires inside { marks tree.in_tree.items member ≡ true }
    requires tight { numbers tree.left.items member
        +ℤ numbers tree.right.items (slice_index (plan_of tree member) holder)
        ≡ entry keys.now member (slice_index (plan_of tree member) holder) }
    requires end { (holder ≡ member) ⊎ (matched < holder) }
    ensures { IsMatchedPlan (matched + 1) keys.now result }
{
    let rooms = swapped(tree.plans[member].as_slice(), member, holder);
    Plan {
        rooms,
        left: tree.left,
        right: tree.right,
    }
}

// Marks for this many places, of which one is set.
fn one_mark(count: usize, place: usize) -> ArrayVec<bool, MEMBER_ROOM>
    requires { count ≤ MEMBER_ROOM }
    ensures count { length result.items ≡ count }
    ensures yes { place < count → marks result.items place ≡ true }
    ensures no { (i : ℕ) → i ≢ place → marks result.items i ≡ false }
    ensures none { count ≤ place → (i : ℕ) → marks result.items i ≡ false }
{
    let mut marked = ArrayVec::new();
    for k in 0..count {
        marked.push(k == place);
    }
    marked
}

// The same list of rooms, this many times.
fn copies(rooms: &[u8], count: usize) -> ArrayVec<Order, MEMBER_ROOM>
    requires few { length rooms.now ≤ MEMBER_ROOM }
    requires count { count ≤ MEMBER_ROOM }
    ensures count { length result.items ≡ count }
    ensures each { (k : ℕ) → k < count
        → (slice_index_or result.items k (record { items = [] })).items ≡ rooms.now }
{
    let mut copies = ArrayVec::new();
    for _k in 0..count {
        copies.push(Order::try_from(rooms).unwrap());
    }
    copies
}

// The alternating tree that has only its root, the next member.
fn rooted(keys: &Matrix, plan: Plan, matched: usize) -> Tree
    requires keys { AreKeys keys.now }
    requires plan { IsMatchedPlan matched keys.now plan }
    requires low { matched < length keys.now.items }
    ensures { IsTreeOf matched keys.now result }
{
    let count = keys.len();
    let plans = copies(plan.rooms.as_slice(), count);
    Tree {
        rooms: plan.rooms,
        left: plan.left,
        right: plan.right,
        in_tree: one_mark(count, matched),
        labelled: one_mark(count, count),
        plans,
    }
}

// Matches the next member.
fn match_next(keys: &Matrix, plan: Plan, matched: usize) -> Plan
    requires keys { AreKeys keys.now }
    requires plan { IsMatchedPlan matched keys.now plan }
    requires low { matched < length keys.now.items }
    ensures { IsMatchedPlan (matched + 1) keys.now result }
{
    let mut tree = rooted(keys, plan, matched);
    loop {
        let choice = least_choice(keys, &tree, matched);
        adjust(keys, &mut tree, matched, choice);
        let holder = holder(tree.plans[choice.member].as_slice(), choice.room);
        if holder == choice.member {
            return augmented(keys, tree, matched, choice.member, holder);
        }
        if matched < holder {
            return augmented(keys, tree, matched, choice.member, holder);
        }
        grow(keys, &mut tree, matched, choice.member, choice.room, holder);
    }
}

// The greatest key of a member.
fn most(keys: &Matrix, member: usize) -> i128
    requires keys { AreKeys keys.now }
    requires member { member < length keys.now.items }
    ensures { IsMost keys.now member result }
{
    let mut most = step(keys, member, 0);
    for room in 1..keys.len() {
        most = greater(most, step(keys, member, room));
    }
    most
}

// The assignment in which nobody is matched yet: the greatest key of each member is its dual number, and that of each room is 0.
fn first_plan(keys: &Matrix) -> Plan
    requires { AreKeys keys.now }
    ensures { IsMatchedPlan 0 keys.now result }
{
    let mut rooms = Order::new();
    let mut left = ArrayVec::new();
    let mut right = ArrayVec::new();
    for k in 0..keys.len() {
        rooms.push(k as u8);
        left.push(most(keys, k));
        right.push(0);
    }
    Plan { rooms, left, right }
}

// The rooms with the greatest sum of keys, and the dual numbers that show it.
pub(crate) fn assign(keys: &Matrix) -> Plan
    requires { AreKeys keys.now }
    ensures { IsMatchedPlan (length keys.now.items) keys.now result }
{
    let mut plan = first_plan(keys);
    for matched in 0..keys.len() {
        plan = match_next(keys, plan, matched);
    }
    plan
}
