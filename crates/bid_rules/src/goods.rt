// The facts and the case of goods, and their limits.
ghost use Rattle.std.specs.Prelude.{◌≡◌, ◌≤◌, ◌↔◌, length, All, IsErrOf, IsOk, IsTrue, MatchResult};
ghost use Rattle.std.specs.List.Sorted.{IsStrictlyIncreasing};
ghost use Rattle.bid_rules.specs.declared.bids.BidFault.TheVariants.{Count, Range};
ghost use Rattle.bid_rules.specs.Facts.{IsSpread};
ghost use Rattle.bid_rules.specs.Goods.{HasCounts, HasLimit, IsCheckedGoods, IsFaultOfGoods, IsValidGoodsCase, player_count, points};

use crate::BidFault;
use crate::limits::{
    FEWEST_MEMBERS, MOST_GOODS, MOST_MEMBERS, MOST_STEPS, MemberList, ValueTable, Values,
    WHOLE_POINTS,
};
use crate::spread::check_spread;

/// The facts of goods that are shared among members.
#[derive(Debug, Drop, PartialEq, Eq)]
pub struct Goods {
    /// How many members may bid, `FEWEST_MEMBERS` to `MOST_MEMBERS`.
    pub members: u8,
    /// How many goods there are, 1 to `MOST_GOODS`.
    pub goods: u8,
    /// The most steps that the search for the best allocation may take, 1 to `MOST_STEPS`.
    pub limit: u32,
}

/// Goods to be shared among the members who bid. They are the players, numbered from 1 in the order of `who`.
#[derive(Debug, Drop, PartialEq, Eq)]
pub struct GoodsCase {
    /// The counts and the limit.
    pub facts: Goods,
    /// By player, the number of the member, from 1, in rising order.
    pub who: MemberList,
    /// By player and by good, the points that the player gives the good. Each player gives 1000 points in all.
    pub values: ValueTable,
}

impl GoodsCase {
    /// Whether the facts are within their limits, the players are members in rising order, at least one, and each gives points
    /// to every good, 1000 in total.
    pub fn is_valid(&self) -> bool
        ensures { IsTrue result ↔ IsValidGoodsCase self.now }
    {
        let facts = &self.facts;
        check_goods(facts).is_ok()
            && are_members(facts.members, self.who.as_slice())
            && self.values.len() == self.who.len()
            && self
                .values
                .iter()
                .all(|row| gives_all_points(facts.goods, row))
    }

    /// The points that a player gives a good, both numbered from 1.
    pub fn points(&self, player: u8, good: u8) -> u32
        requires case { IsValidGoodsCase self.now }
        requires player_low { 1 ≤ player }
        requires player_high { player ≤ player_count self.now }
        requires good_low { 1 ≤ good }
        requires good_high { good ≤ self.now.facts.goods }
        ensures value { result ≡ points self.now player good }
        ensures small { result ≤ WHOLE_POINTS }
    {
        self.values[player as usize - 1][good as usize - 1]
    }
}

// Whether a player gives points to every good, which sum to 1000.
fn gives_all_points(goods: u8, row: &Values) -> bool
    ensures { IsTrue result ↔ IsSpread goods WHOLE_POINTS row.now.items }
{
    check_spread(goods, WHOLE_POINTS, row.as_slice()).is_ok()
}

// Whether the list is not empty and holds numbers of members in rising order.
pub(crate) fn are_members(members: u8, who: &[u8]) -> bool
    ensures { IsTrue result
        ↔ IsStrictlyIncreasing who.now × All (λ member. (1 ≤ member) × (member ≤ members)) who.now
        × (1 ≤ length who.now) }
{
    !who.is_empty() && rises(who) && who.iter().all(|member| (1..=members).contains(member))
}

// Whether each number is below the next.
fn rises(numbers: &[u8]) -> bool
    ensures { IsTrue result ↔ IsStrictlyIncreasing numbers.now }
{
    for next in 1..numbers.len() {
        if numbers[next - 1] >= numbers[next] {
            return false;
        }
    }
    true
}

/// Whether the facts are within the limits, or else their first fault.
///
/// `Count` if there are too few or too many members or goods, otherwise `Range` with place 0 if the limit is not 1 to `MOST_STEPS`.
pub fn check_goods(facts: &Goods) -> Result<(), BidFault>
    ensures fault { MatchResult result (λ _. IsCheckedGoods facts.now) (IsFaultOfGoods facts.now) }
    ensures accepted { IsOk result ↔ IsCheckedGoods facts.now }
    ensures count { IsErrOf result Count ↔ (HasCounts facts.now → ⊥) }
    ensures range { IsErrOf result (Range 0) ↔ HasCounts facts.now × (HasLimit facts.now → ⊥) }
{
    if !(FEWEST_MEMBERS..=MOST_MEMBERS).contains(&facts.members)
        || !(1..=MOST_GOODS).contains(&facts.goods)
    {
        return Err(BidFault::Count);
    }
    if !(1..=MOST_STEPS).contains(&facts.limit) {
        return Err(BidFault::Range { place: 0 });
    }
    Ok(())
}
