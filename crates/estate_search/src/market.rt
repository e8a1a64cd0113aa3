// What some prices come to: the bound that they give, and how far what the players would take is from what they get.
ghost use Rattle.std.specs.Prelude.{◌<◌};

use crate::demands::{Demand, Offer};
use crate::estate::Estate;
use crate::pricing::FinePrices;
use crate::shares::{Aim, greatest};
use bid_rules::limits::MEMBER_ROOM;
use nash_bounds::LaneRow;

/// What some prices come to.
#[derive(Clone, Copy)]
pub(crate) struct Market {
    /// What is left to the players and what they pay, in units of 2^-32.
    pub(crate) bound: i64,
    /// What each player has of points above what they would take, in units of 2^-16.
    pub(crate) points: [i64; MEMBER_ROOM],
    /// The same of goods.
    pub(crate) goods: [i64; MEMBER_ROOM],
}

// The price of a good for each player.
fn payments(aim: &Aim<'_>, prices: &FinePrices, row: &LaneRow) -> [u64; MEMBER_ROOM] {
    let points = row.points.as_array();
    let mut payments = [0; MEMBER_ROOM];
    for k in 0..aim.players {
        let payment = prices.rates[k].saturating_mul(i64::from(points[k]));
        payments[k] = payment.saturating_add(prices.fees[k]).unsigned_abs();
    }
    payments
}

// The prices in so few bits that shares can be made of them.
fn shifted(payments: &[u64; MEMBER_ROOM], places: u32) -> [u64; MEMBER_ROOM] {
    let mut shifted = [0; MEMBER_ROOM];
    for k in 0..MEMBER_ROOM {
        shifted[k] = payments[k].wrapping_shr(places);
    }
    shifted
}

impl Market {
    // Shares one free good among those who pay nearly most for it.
    fn share(&mut self, aim: &Aim<'_>, prices: &FinePrices, squarings: u8, row: &LaneRow) {
        let payments = payments(aim, prices, row);
        let most = greatest(&payments).max(1);
        self.bound = self.bound.saturating_add(most.min(i64::MAX as u64) as i64);
        let places = (most.ilog2() + 1).saturating_sub(32);
        let worth = shifted(&payments, places);
        let shares = aim.shares_of(&worth, most.wrapping_shr(places).max(1), squarings);
        let points = row.points.as_array();
        for k in 0..aim.players {
            let share = i64::from(shares[k]);
            let part = share.saturating_mul(i64::from(points[k]));
            self.points[k] = self.points[k].saturating_add(part);
            self.goods[k] = self.goods[k].saturating_add(share);
        }
    }

    // Takes off what a player would take.
    fn take(&mut self, aim: &Aim<'_>, prices: &FinePrices, place: usize, demand: &Demand)
        requires { place < MEMBER_ROOM }
    {
        let low = i64::from(aim.low[place]);
        let paid = prices.rates[place].saturating_mul(low);
        self.bound = self.bound.saturating_add(demand.left).saturating_add(paid);
        let over = low.saturating_mul(1 << 16).saturating_sub(demand.points);
        self.points[place] = self.points[place].saturating_add(over);
        self.goods[place] = self.goods[place].saturating_sub(demand.goods);
    }

    /// What the prices come to, if all players can have points.
    pub(crate) fn at(
        estate: &Estate,
        aim: &Aim<'_>,
        offer: &Offer,
        prices: &FinePrices,
        squarings: u8,
    ) -> Option<Market> {
        let mut market = Market {
            bound: 0,
            points: [0; MEMBER_ROOM],
            goods: [0; MEMBER_ROOM],
        };
        for k in 0..aim.players {
            let demand = offer.demand(estate, aim, prices, squarings, k)?;
            market.take(aim, prices, k, &demand);
        }
        for row in aim.rows {
            market.share(aim, prices, squarings, row);
        }
        Some(market)
    }
}
