// Whether leaves are closed: by the nearest weights, by their bound in units, or by the nearest prices.
ghost use Rattle.std.specs.Prelude.{◌≡◌, ◌↔◌, ◌≤◌, ◌⊎◌, All, IsTrue, length, true};
ghost use Rattle.bid_rules.specs.Goods.{player_count, utilities};
ghost use Rattle.estate_bounds.specs.Prices.{ArePrices, prices_close};
ghost use Rattle.estate_bounds.specs.Shown.{shares_of, weights_close};
ghost use Rattle.estate_bounds.specs.Weighted.{AreWeights};
ghost use Rattle.estate_judge.specs.Grounds.{IsGround};
ghost use Rattle.estate_judge.specs.Leaves.{IsClosedByPrices, IsClosedByUnits, IsClosedByWeights};
ghost use Rattle.estate_judge.specs.Nodes.{nearest, prices_of, weights_of};
ghost use Rattle.nash_bounds.specs.Lanes.{IsLanes};
ghost use Rattle.nash_bounds.specs.LeftOut.{is_after};
ghost use Rattle.prefix_trees.specs.Fronts.{IsFront};

use crate::ground::Ground;
use crate::nearest::nearest;
use crate::node::{Node, PriceList};
use bid_rules::GoodsCase;
use estate_bounds::limits::{MOST_PRICE, WeightList};
use estate_bounds::{Prices, Weights};
use nash_bounds::{Lanes, players};
use std::cmp::Ordering;

// Whether the owners come after the answer's first ones.
fn comes_after(owners: &[u8], answer: &[u8]) -> bool
    requires { length owners.now ≤ length answer.now }
    ensures { result ≡ is_after answer.now owners.now }
{
    owners.cmp(&answer[..owners.len()]) == Ordering::Greater
}

// Whether there is a weight for each player, and none of them is 0.
fn are_weights(case: &GoodsCase, weights: &[u16]) -> bool
    ensures { IsTrue result ↔ AreWeights case.now weights.now }
{
    weights.len() == usize::from(players(case)) && weights.iter().all(|weight| *weight >= 1)
}

// Whether there is such a number for each player, and none of them is too great.
fn are_prices(case: &GoodsCase, numbers: &[u32]) -> bool
    ensures { IsTrue result
        ↔ (length numbers.now ≡ player_count case.now)
        × All (λ number. number ≤ MOST_PRICE) numbers.now }
{
    numbers.len() == usize::from(players(case))
        && numbers.iter().all(|number| *number <= MOST_PRICE)
}

impl Ground {
    // Whether the weights close the owners.
    fn weights_close(&self, owners: &[u8], lanes: &Lanes, weights: &WeightList) -> bool
        requires ground { IsGround self.now }
        requires front { IsFront self.now.case owners.now }
        requires lanes { IsLanes self.now.case owners.now lanes.now }
        ensures { IsTrue result
            ↔ AreWeights self.now.case weights.now.items
            × (weights_close self.now.case owners.now weights.now.items
            (shares_of (utilities self.now.case self.now.owners.items))
            (is_after self.now.owners.items owners.now)
            ≡ true) }
    {
        if !are_weights(&self.case, weights) {
            return false;
        }
        let after = comes_after(owners, self.owners.as_slice());
        let weights = Weights::new(&self.case, &self.table, weights.as_slice());
        weights.close(
            &self.case,
            &self.table,
            owners,
            lanes,
            self.shares.as_slice(),
            after,
        )
    }

    // Whether the prices close the owners.
    fn prices_close(&self, owners: &[u8], lanes: &Lanes, prices: &PriceList) -> bool
        requires ground { IsGround self.now }
        requires front { IsFront self.now.case owners.now }
        requires lanes { IsLanes self.now.case owners.now lanes.now }
        ensures { IsTrue result
            ↔ ArePrices self.now.case prices.now.rates.items prices.now.fees.items
            × (prices_close self.now.case owners.now prices.now.rates.items prices.now.fees.items
            (shares_of (utilities self.now.case self.now.owners.items))
            ≡ true) }
    {
        let (rates, fees) = (prices.rates.as_slice(), prices.fees.as_slice());
        if !are_prices(&self.case, rates) || !are_prices(&self.case, fees) {
            return false;
        }
        let prices = Prices::new(&self.case, &self.table, rates, fees);
        prices.close(
            &self.case,
            &self.table,
            &self.logs,
            owners,
            lanes,
            self.shares.as_slice(),
        )
    }

    // Whether their bound closes the owners, counted in units.
    pub(crate) fn units_close(&self, owners: &[u8], lanes: &Lanes) -> bool
        requires ground { IsGround self.now }
        requires front { IsFront self.now.case owners.now }
        requires lanes { IsLanes self.now.case owners.now lanes.now }
        ensures { IsTrue result ↔ IsClosedByUnits self.now.case self.now.owners.items owners.now }
    {
        let after = comes_after(owners, self.owners.as_slice());
        self.units
            .close(&self.case, self.owners.as_slice(), owners, lanes, after)
    }

    // Whether the nearest weights close the owners.
    fn nearest_weights_close(
        &self,
        owners: &[u8],
        lanes: &Lanes,
        above: &[Node],
        node: &Node,
    ) -> bool
        requires ground { IsGround self.now }
        requires front { IsFront self.now.case owners.now }
        requires lanes { IsLanes self.now.case owners.now lanes.now }
        ensures { IsTrue result
            ↔ IsClosedByWeights self.now.case self.now.owners.items
            (nearest weights_of above.now node.now) owners.now }
    {
        match nearest(above, node) {
            Some(weights) => self.weights_close(owners, lanes, weights),
            None => false,
        }
    }

    // Whether the nearest prices close the owners.
    fn nearest_prices_close(
        &self,
        owners: &[u8],
        lanes: &Lanes,
        above: &[Node],
        node: &Node,
    ) -> bool
        requires ground { IsGround self.now }
        requires front { IsFront self.now.case owners.now }
        requires lanes { IsLanes self.now.case owners.now lanes.now }
        ensures { IsTrue result
            ↔ IsClosedByPrices self.now.case self.now.owners.items
            (nearest prices_of above.now node.now) owners.now }
    {
        match nearest(above, node) {
            Some(prices) => self.prices_close(owners, lanes, prices),
            None => false,
        }
    }

    // Whether the nearest weights, their bound or the nearest prices close the owners.
    pub(crate) fn closes(&self, owners: &[u8], lanes: &Lanes, above: &[Node], node: &Node) -> bool
        requires ground { IsGround self.now }
        requires front { IsFront self.now.case owners.now }
        requires lanes { IsLanes self.now.case owners.now lanes.now }
        ensures { IsTrue result
            ↔ IsClosedByWeights self.now.case self.now.owners.items
            (nearest weights_of above.now node.now) owners.now
            ⊎ IsClosedByUnits self.now.case self.now.owners.items owners.now
            ⊎ IsClosedByPrices self.now.case self.now.owners.items
            (nearest prices_of above.now node.now) owners.now }
    {
        if self.nearest_weights_close(owners, lanes, above, node) {
            return true;
        }
        if self.units_close(owners, lanes) {
            return true;
        }
        self.nearest_prices_close(owners, lanes, above, node)
    }
}
