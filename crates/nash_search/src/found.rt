// The best allocation that a search has found so far.
ghost use Rattle.std.specs.Prelude.{◌≡◌, ℕ, ◌≤◌, ◌↔◌, ◌++◌, List, length, true, false};
ghost use Rattle.std.specs.Cmp.Lexicographic.{slice_cmp};
ghost use Rattle.std.specs.Ordering.{nat_cmp};
ghost use Rattle.std.specs.declared.cmp.Ordering.TheVariants.{Less};
ghost use Rattle.bid_rules.specs.declared.goods.GoodsCase.{GoodsCase};
ghost use Rattle.bid_rules.specs.Pairs.{IsLess};
ghost use Rattle.bid_rules.specs.Goods.{IsBehind, pair_of};
ghost use Rattle.nash_bounds.specs.Steps.{pair_kept};
ghost use Rattle.nash_search.specs.Best.{IsFoundBest, IsKept, list_of};

use arrayvec::ArrayVec;
use bid_rules::limits::ITEM_ROOM;
use nash_bounds::Pair;
use std::cmp::Ordering;

/// An allocation that is the best of several.
#[derive(Debug, Drop, PartialEq, Eq)]
pub struct Found {
    /// The number of players with positive utility, and the product of these utilities.
    pub pair: Pair,
    /// The owner of each good, in search order.
    pub list: ArrayVec<u8, ITEM_ROOM>,
}

impl Found {
    // Whether the other is at least as good: it has a greater pair, or the same and is not after this one.
    fn is_behind(&self, other: &Found) -> bool
        ensures behind { (case : GoodsCase) → self.now.pair ≡ pair_of case self.now.list.items
            → other.now.pair ≡ pair_of case other.now.list.items → result ≡ true
            → IsBehind case self.now.list.items other.now.list.items }
        ensures ahead { (case : GoodsCase) → self.now.pair ≡ pair_of case self.now.list.items
            → other.now.pair ≡ pair_of case other.now.list.items → result ≡ false
            → IsBehind case other.now.list.items self.now.list.items }
    {
        if self.pair == other.pair {
            return !comes_before(self.list.as_slice(), other.list.as_slice());
        }
        is_smaller(self.pair, other.pair)
    }
}

// Whether the first list comes before the second.
fn comes_before(a: &[u8], b: &[u8]) -> bool
    ensures { result ≡ true ↔ slice_cmp nat_cmp a.now b.now ≡ Less }
{
    a.cmp(b) == Ordering::Less
}

// Whether the first of two different pairs is smaller.
fn is_smaller(a: Pair, b: Pair) -> bool
    requires { a ≡ b → ⊥ }
    ensures less { result ≡ true → IsLess a b }
    ensures greater { result ≡ false → IsLess b a }
{
    a < b
}

/// The better of the best of some allocations and the best of others: it is the best of all of these, the least list among equals.
///
/// The order in which several are put together makes no difference.
pub fn better(first: Option<Found>, second: Option<Found>) -> Option<Found>
    ensures { (case : GoodsCase) (xs ys : List (List ℕ)) → IsFoundBest case xs first
        → IsFoundBest case ys second → IsFoundBest case (xs ++ ys) result }
{
    let Some(one) = first else {
        return second;
    };
    let Some(other) = second else {
        return Some(one);
    };
    if one.is_behind(&other) {
        Some(other)
    } else {
        Some(one)
    }
}

/// The pair of the allocation that was found.
pub fn pair_found(found: &Option<Found>) -> Option<Pair>
    ensures { (case : GoodsCase) → IsKept case found.now
        → result ≡ pair_kept case (list_of found.now) }
{
    match found {
        Some(found) => Some(found.pair),
        None => None,
    }
}

// A copy of some owners.
pub(crate) fn copied(owners: &[u8]) -> ArrayVec<u8, ITEM_ROOM>
    requires { length owners.now ≤ ITEM_ROOM }
    ensures { result.items ≡ owners.now }
{
    ArrayVec::try_from(owners).unwrap()
}
