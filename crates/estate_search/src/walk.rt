// The walk through the prefixes, depth first in search order. It writes the tree of the certificate as it goes.
ghost use Rattle.std.specs.Prelude.{◌≡◌, IfSome, length};
ghost use Rattle.estate_bounds.specs.Prices.{IsPriced};
ghost use Rattle.estate_bounds.specs.Sums.{IsWeighted};
ghost use Rattle.estate_search.specs.Estates.{IsAbove};
ghost use Rattle.estate_search.specs.Fronts.{IsLanedFront};

use crate::above::Above;
use crate::estate::Estate;
use crate::fronts::Front;
use crate::logs::RoughLogs;
use crate::players::{OwnerList, copied};
use crate::price_tuning::{TunedPrices, tune_prices};
use crate::pricing::{FinePrices, from_weights};
use crate::shares::Fine;
use crate::stated::{narrowest, stated, states_prices};
use crate::stops::Stop;
use crate::tree::Tree;
use crate::tuning::{even, tune};
use crate::twins::{Key, Twins, key_of, twin_of};
use arrayvec::ArrayVec;
use bid_rules::limits::ITEM_ROOM;
use estate_bounds::{Prices, Weights};
use std::cmp::Ordering;
use std::slice;

// A prefix that was opened: which player gets the next good next, the weights and prices to tune on from, and those that are stated there.
#[derive(Clone, Copy, Default)]
pub(crate) struct Level {
    pub(crate) next: u8,
    pub(crate) fine: Fine,
    /// The greatest of the weights that are stated there, if any are.
    pub(crate) greatest: Option<u16>,
    /// The prices, if any were sought.
    pub(crate) prices: Option<FinePrices>,
    /// Whether they are stated there.
    pub(crate) states_prices: bool,
}

/// A walk through the prefixes.
#[derive(Drop)]
pub(crate) struct Walk<'a> {
    pub(crate) tree: Tree<'a>,
    pub(crate) twins: Twins<'a>,
    pub(crate) path: Path,
    limit: u32,
}

/// How far a walk has come.
#[derive(Default, Drop)]
pub(crate) struct Path {
    pub(crate) steps: u32,
    /// Whether a better division than the answer was found on the way.
    pub(crate) improved: bool,
    /// How often prices could have been sought.
    pub(crate) asked: u32,
    /// How often they closed a prefix.
    pub(crate) priced: u32,
    pub(crate) owners: OwnerList,
    pub(crate) levels: ArrayVec<Level, ITEM_ROOM>,
}

impl<'a> Walk<'a> {
    /// A walk of so many steps at most, which has come so far.
    pub(crate) fn new(tree: Tree<'a>, twins: Twins<'a>, path: Path, limit: u32) -> Walk<'a> {
        Walk {
            tree,
            twins,
            path,
            limit,
        }
    }

    /// Begins with the prefix of no goods.
    pub(crate) fn begin(&mut self, estate: &Estate, logs: &RoughLogs) -> Result<(), Stop> {
        self.tree.clear();
        self.twins.clear();
        self.path = Path::default();
        let Some(front) = estate.front_of(&[]) else {
            return Err(Stop::Steps);
        };
        let start = Level {
            fine: even(usize::from(estate.players())),
            ..Level::default()
        };
        self.open(estate, logs, &front, &start)?;
        Ok(())
    }

    /// Whether all was walked.
    pub(crate) fn is_over(&self) -> bool {
        self.path.levels.is_empty()
    }

    // The nearest weights on the way to the prefixes below the last level.
    fn nearest_weights(&self, estate: &Estate) -> Option<Weights>
        ensures { IfSome result (IsWeighted estate.now) }
    {
        for level in self.path.levels.iter().rev() {
            if let Some(greatest) = level.greatest {
                return Some(estate.weights(&level.fine, greatest));
            }
        }
        None
    }

    // The nearest prices on the way to them.
    fn nearest_prices(&self, estate: &Estate) -> Option<Prices>
        ensures { IfSome result (IsPriced estate.now) }
    {
        for level in self.path.levels.iter().rev() {
            if let Some(prices) = &level.prices {
                if level.states_prices {
                    return Some(estate.prices(prices));
                }
            }
        }
        None
    }

    // The nearest of both.
    fn above(&self, estate: &Estate) -> Above
        ensures { IsAbove estate.now result }
    {
        Above {
            weights: self.nearest_weights(estate),
            prices: self.nearest_prices(estate),
        }
    }

    // Whether prices are sought. That takes long, so where they seldom close anything, they are sought only at one of eight prefixes.
    fn seeks_prices(&mut self, estate: &Estate) -> bool {
        if !estate.gives_to_all() {
            return false;
        }
        self.path.asked = self.path.asked.saturating_add(1);
        self.path.asked <= 64
            || self.path.priced.saturating_mul(16) >= self.path.asked
            || self.path.asked % 8 == 0
    }

    // The prices sought where weights fail.
    fn seek_prices(
        &mut self,
        estate: &Estate,
        logs: &RoughLogs,
        front: &Front,
        start: &Level,
        weights: &Fine,
    ) -> Option<TunedPrices>
        requires { IsLanedFront estate.now front.now }
    {
        if !self.seeks_prices(estate) {
            return None;
        }
        let aim = estate.aim(logs, front);
        let start = match &start.prices {
            Some(prices) => *prices,
            None => from_weights(&aim, weights),
        };
        let tuned = tune_prices(estate, &aim, front, &start);
        self.path.priced = self.path.priced.saturating_add(u32::from(tuned.close));
        Some(tuned)
    }

    // Closes a prefix that isn't closed yet, if weights or prices of its own do. Otherwise the level to open it with.
    fn close(
        &mut self,
        estate: &Estate,
        logs: &RoughLogs,
        front: &Front,
        start: &Level,
    ) -> Result<Option<Level>, Stop>
        requires { IsLanedFront estate.now front.now }
    {
        let tuned = tune(estate, logs, front, &start.fine);
        if tuned.closes {
            let greatest = narrowest(estate, &tuned.fine, slice::from_ref(front));
            self.put_weights(estate, &tuned.fine, greatest)?;
            return Ok(None);
        }
        let mut level = Level {
            fine: tuned.fine,
            ..Level::default()
        };
        if let Some(priced) = self.seek_prices(estate, logs, front, start, &tuned.fine) {
            if priced.close {
                self.put_prices(&estate.prices(&priced.fine))?;
                return Ok(None);
            }
            level.prices = Some(priced.fine);
        }
        Ok(Some(level))
    }

    // Opens a prefix that isn't closed yet, unless weights or prices of its own close it. Whether it was opened.
    fn open(
        &mut self,
        estate: &Estate,
        logs: &RoughLogs,
        front: &Front,
        start: &Level,
    ) -> Result<bool, Stop>
        requires { IsLanedFront estate.now front.now }
    {
        let Some(level) = self.close(estate, logs, front, start)? else {
            self.tree.put(b'-')?;
            return Ok(false);
        };
        if self.path.steps >= self.limit {
            return Err(Stop::Steps);
        }
        self.path.steps += 1;
        self.put_children(estate, level, front)?;
        Ok(true)
    }

    // Opens a prefix, with weights and prices of its own if they close something more.
    fn put_children(&mut self, estate: &Estate, level: Level, front: &Front) -> Result<(), Stop> {
        let mut level = level;
        level.next = 1;
        let mut above = self.above(estate);
        level.greatest = stated(estate, &level.fine, front, &above);
        if let Some(greatest) = level.greatest {
            self.put_weights(estate, &level.fine, greatest)?;
            above.weights = Some(estate.weights(&level.fine, greatest));
        }
        if let Some(fine) = &level.prices {
            let prices = estate.prices(fine);
            level.states_prices = states_prices(estate, &prices, front, &above);
            if level.states_prices {
                self.put_prices(&prices)?;
            }
        }
        self.tree.put(b'+')?;
        self.descend(level);
        Ok(())
    }

    // Puts a line of weights.
    fn put_weights(&mut self, estate: &Estate, fine: &Fine, greatest: u16) -> Result<(), Stop> {
        let weights = estate.weights(fine, greatest);
        self.tree.put_weights(weights.each.as_slice())
    }

    // Puts a line of prices.
    fn put_prices(&mut self, prices: &Prices) -> Result<(), Stop> {
        let (rates, fees) = (prices.rates.as_slice(), prices.fees.as_slice());
        self.tree.put_prices(rates, fees)
    }

    // Goes down to the children of a prefix.
    fn descend(&mut self, level: Level) {
        if !self.path.levels.is_full() {
            self.path.levels.push(level);
        }
    }

    /// Walks to the next prefix, or back up.
    pub(crate) fn turn(&mut self, estate: &mut Estate, logs: &RoughLogs) -> Result<(), Stop>
        ensures { estate.new ≡ estate.old }
    {
        let Some(level) = self.next_child(estate.players()) else {
            return Ok(());
        };
        let mut owners = copied(self.path.owners.as_slice());
        if owners.is_full() {
            return Err(Stop::Steps);
        }
        owners.push(level.next);
        match estate.front_of(owners.as_slice()) {
            Some(front) => self.visit(estate, logs, front, &level),
            None => Err(Stop::Steps),
        }
    }

    // The last level with the player who gets the next good; or none, and back up, if all its children were walked.
    fn next_child(&mut self, players: u8) -> Option<Level> {
        let level = self.path.levels.pop()?;
        if level.next > players {
            let _ = self.path.owners.pop();
            return None;
        }
        let mut rest = level;
        rest.next = rest.next.saturating_add(1);
        if !self.path.levels.is_full() {
            self.path.levels.push(rest);
        }
        Some(level)
    }

    // Walks a prefix: it is a whole division, or closed, or there is a twin, or it is opened.
    fn visit(
        &mut self,
        estate: &mut Estate,
        logs: &RoughLogs,
        front: Front,
        start: &Level,
    ) -> Result<(), Stop>
        requires { IsLanedFront estate.old front }
        ensures { estate.new ≡ estate.old }
    {
        if front.owners.len() == estate.goods() {
            return self.finish(estate, front);
        }
        if estate.is_closed(&self.above(estate), &front) {
            return self.tree.put(b'-');
        }
        let key = key_of(front.owners.len(), &estate.ranked(&front));
        if let Some(twin) = self.twin(estate, &front, &key) {
            return self.tree.put_twin(&twin);
        }
        self.twins.keep(&key, front.owners.as_slice());
        if self.open(estate, logs, &front, start)? {
            self.path.owners = front.owners;
        }
        Ok(())
    }

    // A twin of the prefix.
    fn twin(&self, estate: &Estate, front: &Front, key: &Key) -> Option<OwnerList> {
        let owners = front.owners.as_slice();
        let rows = estate.rows();
        if owners.is_empty() || owners.len() > rows.len() {
            return None;
        }
        twin_of(rows, estate.players(), owners, key, &self.twins)
    }

    // Comes to a whole division: the answer, a better one, or one that is no better.
    fn finish(&mut self, estate: &mut Estate, front: Front) -> Result<(), Stop>
        requires front { IsLanedFront estate.old front }
        requires whole { length front.owners.items ≡ estate.old.facts.goods }
        ensures { estate.new ≡ estate.old }
    {
        let pair = estate.pair(&front);
        let order = estate.order(&front);
        let best = estate.answer().pair;
        if pair < best || (pair == best && order == Ordering::Greater) {
            return self.tree.put(b'-');
        }
        self.path.improved |= order != Ordering::Equal;
        estate.set_answer(front);
        self.tree.put_answer()
    }
}
