// Weights of the players, and whether they close a prefix.
ghost use Rattle.std.specs.Prelude.{◌≡◌, ◌+◌, ◌≤◌, length, All};
ghost use Rattle.bid_rules.specs.Goods.{IsValidGoodsCase, player_count};
ghost use Rattle.estate_bounds.specs.Shown.{is_shown, is_shown_by, most_holders, one_each_closes, sum_closes, weights_close};
ghost use Rattle.estate_bounds.specs.Sums.{IsWeighted};
ghost use Rattle.estate_bounds.specs.Weighted.{AreWeights, weighted_top};
ghost use Rattle.nash_bounds.specs.Lanes.{IsLaneTable, IsLanes};

use crate::factors::{alike, factors};
use crate::lightest::{lengthened, light_weights, threshold_of, weights_with};
use crate::limits::{FREE_ROOM, WeightList};
use crate::ratios::is_above;
use crate::shares::shares_under;
use crate::tops::{tops_of, weighted_sum, with_free_goods};
use arrayvec::ArrayVec;
use bid_rules::GoodsCase;
use bid_rules::limits::{MEMBER_ROOM, WHOLE_POINTS};
use nash_bounds::{LaneTable, Lanes, pair_so_far};

/// A weight for each player, with the sums by which they close prefixes.
#[derive(Drop)]
pub struct Weights {
    /// The weights, by player, each at least 1.
    pub each: WeightList,
    /// For each number of free goods, the most that these can add to the weighted sum of all utilities.
    pub tops: ArrayVec<u64, FREE_ROOM>,
}

// The same weights, in a list of their own.
fn listed(weights: &[u16]) -> WeightList
    requires { length weights.now ≤ MEMBER_ROOM }
    ensures { result.items ≡ weights.now }
{
    let mut list = ArrayVec::new();
    for weight in weights {
        list.push(*weight);
    }
    list
}

// How many players may have something from owners that begin so.
fn most_holders(case: &GoodsCase, table: &LaneTable, owners: &[u8], lanes: &Lanes) -> usize
    requires case { IsValidGoodsCase case.now }
    requires table { IsLaneTable case.now table.now }
    requires lanes { IsLanes case.now owners.now lanes.now }
    requires short { length owners.now ≤ case.now.facts.goods }
    ensures { result ≡ most_holders case.now owners.now }
{
    let free = table.rows.len() - owners.len();
    usize::from(pair_so_far(case, owners, lanes).count) + free
}

// Whether an estimate shows that the least weights of as many players as there are shares, times the shares and each time the count,
// have a greater product than the divisors, or, if equality is enough, no smaller one; with this threshold.
fn is_shown_by(
    case: &GoodsCase,
    owners: &[u8],
    lanes: &Lanes,
    weights: &[u16],
    shares: &[u64],
    equal: bool,
    count: u64,
    divisors: &[u64],
    threshold: u16,
) -> bool
    requires lanes { IsLanes case.now owners.now lanes.now }
    requires weights { AreWeights case.now weights.now }
    requires players { player_count case.now ≤ MEMBER_ROOM }
    requires few { length shares.now ≤ MEMBER_ROOM }
    requires small { All (λ share. share ≤ WHOLE_POINTS) shares.now }
    requires count { count ≤ MEMBER_ROOM }
    requires each { length divisors.now ≡ length shares.now }
    ensures { result
        ≡ is_shown_by case.now owners.now weights.now shares.now equal count divisors.now
        threshold }
{
    let light = light_weights(case, owners, lanes, weights, threshold);
    if light.len() > shares.len() {
        return false;
    }
    let least = lengthened(light, shares.len(), threshold);
    let factors = factors(count, least.as_slice(), shares);
    is_above(equal, factors.as_slice(), divisors)
}

// The same with the threshold that belongs to the weights.
fn is_shown(
    case: &GoodsCase,
    owners: &[u8],
    lanes: &Lanes,
    weights: &[u16],
    shares: &[u64],
    equal: bool,
    count: u64,
    divisors: &[u64],
) -> bool
    requires lanes { IsLanes case.now owners.now lanes.now }
    requires weights { AreWeights case.now weights.now }
    requires players { player_count case.now ≤ MEMBER_ROOM }
    requires few { length shares.now ≤ MEMBER_ROOM }
    requires small { All (λ share. share ≤ WHOLE_POINTS) shares.now }
    requires count { count ≤ MEMBER_ROOM }
    requires each { length divisors.now ≡ length shares.now }
    ensures { result
        ≡ is_shown case.now owners.now weights.now shares.now equal count divisors.now }
{
    let threshold = threshold_of(case, owners, lanes, weights, shares.len());
    is_shown_by(
        case, owners, lanes, weights, shares, equal, count, divisors, threshold,
    )
}

impl Weights {
    /// The weights with their sums.
    pub fn new(case: &GoodsCase, table: &LaneTable, weights: &[u16]) -> Weights
        requires table { IsLaneTable case.now table.now }
        requires weights { AreWeights case.now weights.now }
        ensures sums { IsWeighted case.now result }
        ensures each { result.each.items ≡ weights.now }
    {
        Weights {
            each: listed(weights),
            tops: tops_of(case, table, weights),
        }
    }

    // The weighted top of the owners.
    fn top(&self, case: &GoodsCase, owners: &[u8], lanes: &Lanes) -> u64
        requires weights { IsWeighted case.now self.now }
        requires lanes { IsLanes case.now owners.now lanes.now }
        requires players { player_count case.now ≤ MEMBER_ROOM }
        requires short { length owners.now ≤ case.now.facts.goods }
        ensures { result ≡ weighted_top case.now self.now.each.items owners.now }
    {
        let free = usize::from(case.facts.goods) - owners.len();
        weighted_sum(case, owners, lanes, self.each.as_slice()) + self.tops[free]
    }

    // Whether the weighted top of the owners shows that no allocation that begins with them reaches the shares.
    fn sum_closes(
        &self,
        case: &GoodsCase,
        owners: &[u8],
        lanes: &Lanes,
        shares: &[u64],
        equal: bool,
    ) -> bool
        requires weights { IsWeighted case.now self.now }
        requires lanes { IsLanes case.now owners.now lanes.now }
        requires players { player_count case.now ≤ MEMBER_ROOM }
        requires short { length owners.now ≤ case.now.facts.goods }
        requires few { length shares.now ≤ MEMBER_ROOM }
        requires small { All (λ share. share ≤ WHOLE_POINTS) shares.now }
        ensures { result ≡ sum_closes case.now owners.now self.now.each.items shares.now equal }
    {
        let divisors = alike(self.top(case, owners, lanes), shares.len());
        let count = shares.len() as u64;
        is_shown(
            case,
            owners,
            lanes,
            self.each.as_slice(),
            shares,
            equal,
            count,
            divisors.as_slice(),
        )
    }

    // Whether the free goods show it, each of which goes to another player who has nothing yet.
    fn one_each_closes(
        &self,
        case: &GoodsCase,
        table: &LaneTable,
        owners: &[u8],
        lanes: &Lanes,
        shares: &[u64],
        equal: bool,
    ) -> bool
        requires weights { IsWeighted case.now self.now }
        requires table { IsLaneTable case.now table.now }
        requires lanes { IsLanes case.now owners.now lanes.now }
        requires few { length shares.now ≤ MEMBER_ROOM }
        requires small { All (λ share. share ≤ WHOLE_POINTS) shares.now }
        requires each { most_holders case.now owners.now ≡ length shares.now }
        ensures { result
            ≡ one_each_closes case.now owners.now self.now.each.items shares.now equal }
    {
        let others = weights_with(case, owners, lanes, self.each.as_slice(), 0);
        let taken = shares_under(case, owners, lanes);
        let divisors = with_free_goods(case, table, owners, others.as_slice(), taken);
        let weights = weights_with(case, owners, lanes, self.each.as_slice(), 1);
        is_shown(
            case,
            owners,
            lanes,
            weights.as_slice(),
            shares,
            equal,
            1,
            divisors.as_slice(),
        )
    }

    /// Whether the weights show that no allocation that begins with the owners gives points to as many players as there
    /// are shares, with a greater product than theirs, or, unless equality is enough, as great.
    pub fn close(
        &self,
        case: &GoodsCase,
        table: &LaneTable,
        owners: &[u8],
        lanes: &Lanes,
        shares: &[u64],
        equal: bool,
    ) -> bool
        requires weights { IsWeighted case.now self.now }
        requires case { IsValidGoodsCase case.now }
        requires table { IsLaneTable case.now table.now }
        requires lanes { IsLanes case.now owners.now lanes.now }
        requires short { length owners.now ≤ case.now.facts.goods }
        requires few { length shares.now ≤ MEMBER_ROOM }
        requires small { All (λ share. share ≤ WHOLE_POINTS) shares.now }
        ensures { result
            ≡ weights_close case.now owners.now self.now.each.items shares.now equal }
    {
        let most = most_holders(case, table, owners, lanes);
        if most < shares.len() {
            return true;
        }
        if self.sum_closes(case, owners, lanes, shares, equal) {
            return true;
        }
        if most != shares.len() {
            return false;
        }
        self.one_each_closes(case, table, owners, lanes, shares, equal)
    }
}
