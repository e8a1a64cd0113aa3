// The least weights that as many players as the goal counts can have, where those who have something already are among them.
ghost use Rattle.std.specs.Prelude.{◌≡◌, ◌≤◌, ◌||◌, cond, nat_lt, length};
ghost use Rattle.bid_rules.specs.Goods.{player_count};
ghost use Rattle.estate_bounds.specs.Shown.{light_weights, raise_threshold, threshold_of, weights_from};
ghost use Rattle.estate_bounds.specs.Weighted.{AreWeights, weights_with};
ghost use Rattle.nash_bounds.specs.Lanes.{IsLanes};

use crate::limits::WeightList;
use arrayvec::ArrayVec;
use bid_rules::GoodsCase;
use bid_rules::limits::MEMBER_ROOM;
use nash_bounds::Lanes;

// Whether the player has something already, or a weight below the threshold.
fn counts(low: u16, weight: u16, threshold: u16) -> bool
    ensures { result ≡ (nat_lt 0 low || nat_lt weight threshold) }
{
    low > 0 || weight < threshold
}

// The weights of the players who have something already, and of the others those below the threshold.
pub(crate) fn light_weights(
    case: &GoodsCase,
    owners: &[u8],
    lanes: &Lanes,
    weights: &[u16],
    threshold: u16,
) -> WeightList
    requires lanes { IsLanes case.now owners.now lanes.now }
    requires weights { AreWeights case.now weights.now }
    requires few { player_count case.now ≤ MEMBER_ROOM }
    ensures { result.items ≡ light_weights case.now owners.now weights.now threshold }
{
    let low = lanes.low.as_array();
    let mut list = ArrayVec::new();
    for k in 0..weights.len() {
        if counts(low[k], weights[k], threshold) {
            list.push(weights[k]);
        }
    }
    list
}

// The weight as threshold, if it is greater and there are then no more light weights than this.
fn raised(
    case: &GoodsCase,
    owners: &[u8],
    lanes: &Lanes,
    weights: &[u16],
    count: usize,
    threshold: u16,
    weight: u16,
) -> u16
    requires lanes { IsLanes case.now owners.now lanes.now }
    requires weights { AreWeights case.now weights.now }
    requires few { player_count case.now ≤ MEMBER_ROOM }
    ensures { result ≡ raise_threshold case.now owners.now weights.now count threshold weight }
{
    if weight > threshold && light_weights(case, owners, lanes, weights, weight).len() <= count {
        weight
    } else {
        threshold
    }
}

// The greatest of the weights, or 1, with which as threshold there are no more light weights than this.
pub(crate) fn threshold_of(
    case: &GoodsCase,
    owners: &[u8],
    lanes: &Lanes,
    weights: &[u16],
    count: usize,
) -> u16
    requires lanes { IsLanes case.now owners.now lanes.now }
    requires weights { AreWeights case.now weights.now }
    requires few { player_count case.now ≤ MEMBER_ROOM }
    ensures { result ≡ threshold_of case.now owners.now weights.now count }
{
    let mut threshold = 1;
    for weight in weights {
        threshold = raised(case, owners, lanes, weights, count, threshold, *weight);
    }
    threshold
}

// The list with as many more entries of this weight as make it this long.
pub(crate) fn lengthened(list: WeightList, count: usize, weight: u16) -> WeightList
    requires shorter { length list.items ≤ count }
    requires count { count ≤ MEMBER_ROOM }
    ensures { result.items ≡ weights_from list.items count weight }
{
    let mut longer = list;
    for _place in longer.len()..count {
        longer.push(weight);
    }
    longer
}

// The number for a player who has something already, and the weight for another.
fn replaced(low: u16, number: u16, weight: u16) -> u16
    ensures { result ≡ cond (nat_lt 0 low) number weight }
{
    if low > 0 { number } else { weight }
}

// The weights, with this number in place of that of each player who has something already.
pub(crate) fn weights_with(
    case: &GoodsCase,
    owners: &[u8],
    lanes: &Lanes,
    weights: &[u16],
    number: u16,
) -> WeightList
    requires lanes { IsLanes case.now owners.now lanes.now }
    requires each { length weights.now ≡ player_count case.now }
    requires few { player_count case.now ≤ MEMBER_ROOM }
    ensures { result.items ≡ weights_with case.now owners.now weights.now number }
{
    let low = lanes.low.as_array();
    let mut list = ArrayVec::new();
    for k in 0..weights.len() {
        list.push(replaced(low[k], number, weights[k]));
    }
    list
}
