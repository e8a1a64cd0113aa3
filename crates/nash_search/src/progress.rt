// Keeps what the walks of a whole search have counted and found so far, block by block, and gives its answer: the best division, or that the limit is passed.
use crate::division::{GoodsDivision, OverLimit};
use crate::found::{Found, better, pair_found};
use crate::start::start_value;
use crate::task::tasks;
use bid_rules::GoodsCase;
use nash_bounds::limits::BLOCK_TASKS;
use nash_bounds::{
    Pair, owners_by_good, owners_by_good_law, search_order, search_order_law, serving_law,
    steps_law,
};

/// How far a search has come. It goes through the tasks of a case in blocks of `BLOCK_TASKS`.
///
/// In a block, those prefixes are counted whose bound exceeds the best pair of the earlier blocks. The best that was found stands in
/// for that pair: if nothing was found, all earlier allocations are below the start value.
#[derive(Drop)]
pub struct Progress {
    /// The start value of the case. Prefixes with a smaller bound are not counted.
    pub floor: Pair,
    /// The next block, from 0.
    pub block: u32,
    /// How many prefixes of the earlier blocks are counted.
    pub nodes: u32,
    /// The best of their allocations that was found.
    pub best: Option<Found>,
}

impl Progress {
    ghost use Rattle.std.specs.Prelude.{◌≡◌, ◌+◌, ◌-◌, ◌*◌, ◌<◌, ◌≤◌, ◌↔◌, true};
    ghost use Rattle.bid_rules.specs.Goods.{IsValidGoodsCase};
    ghost use Rattle.nash_bounds.specs.Blocks.{count_block, counted_of_block};
    ghost use Rattle.nash_bounds.specs.Tasks.{tasks_of};
    ghost use Rattle.nash_search.specs.Best.{IsFoundBest};
    ghost use Rattle.nash_search.specs.Division.{IsGoodsDivision, IsOverLimit};
    ghost use Rattle.nash_search.specs.Progress.{IsProgress, pair_so_far};
    ghost use Rattle.bid_rules.specs.declared.limits.TheConstants.{MOST_STEPS};
    ghost use Rattle.nash_bounds.specs.declared.limits.TheConstants.{BLOCK_TASKS};

    /// Before the first block.
    pub fn start(case: &GoodsCase) -> Progress
        requires { IsValidGoodsCase case.now }
        ensures progress { IsProgress case.now result }
        ensures block { result.block ≡ 0 }
    {
        serving_law();
        steps_law();
        Progress {
            floor: start_value(case),
            block: 0,
            nodes: 0,
            best: None,
        }
    }

    /// Whether all blocks have been searched.
    pub fn is_done(&self, case: &GoodsCase) -> bool
        requires case { IsValidGoodsCase case.now }
        requires progress { IsProgress case.now self.now }
        ensures { result ≡ true ↔ tasks_of case.now ≤ BLOCK_TASKS * self.now.block }
    {
        let all = tasks(case);
        all <= BLOCK_TASKS * self.block
    }

    /// The pair that the bounds of the next block's counted prefixes exceed.
    pub fn above(&self, case: &GoodsCase) -> Option<Pair>
        requires { IsProgress case.now self.now }
        ensures { result ≡ pair_so_far case.now self.now }
    {
        pair_found(&self.best)
    }

    /// How many prefixes the limit of the case leaves.
    pub fn left(&self, case: &GoodsCase) -> u32
        requires case { IsValidGoodsCase case.now }
        requires progress { IsProgress case.now self.now }
        ensures left { result ≡ case.now.facts.limit - self.now.nodes }
        ensures most { result ≤ MOST_STEPS }
    {
        case.facts.limit - self.nodes
    }

    /// Adds the next block, whose counted prefixes are no more than were left.
    pub fn add(&mut self, case: &GoodsCase, nodes: u32, best: Option<Found>)
        requires case { IsValidGoodsCase case.now }
        requires progress { IsProgress case.now self.old }
        requires block { BLOCK_TASKS * self.old.block < tasks_of case.now }
        requires within { nodes ≤ case.now.facts.limit - self.old.nodes }
        requires count { nodes
            ≡ count_block case.now self.old.floor (pair_so_far case.now self.old) self.old.block }
        requires best { IsFoundBest case.now
            (counted_of_block case.now self.old.floor (pair_so_far case.now self.old)
            self.old.block) best }
        ensures progress { IsProgress case.now self.new }
        ensures block { self.new.block ≡ self.old.block + 1 }
    {
        serving_law();
        let _tasks = tasks(case);
        self.block += 1;
        self.nodes += nodes;
        let earlier = self.best.take();
        self.best = better(earlier, best);
    }

    /// The refusal, if the next block has more counted prefixes than were left.
    pub fn over(&self, case: &GoodsCase) -> OverLimit
        requires case { IsValidGoodsCase case.now }
        requires progress { IsProgress case.now self.now }
        requires block { BLOCK_TASKS * self.now.block < tasks_of case.now }
        requires over { case.now.facts.limit - self.now.nodes
            < count_block case.now self.now.floor (pair_so_far case.now self.now) self.now.block }
        ensures { IsOverLimit case.now result }
    {
        serving_law();
        steps_law();
        OverLimit {
            limit: case.facts.limit,
        }
    }

    /// The best division, once all blocks are searched.
    pub fn divide(self, case: &GoodsCase) -> GoodsDivision
        requires case { IsValidGoodsCase case.now }
        requires progress { IsProgress case.now self }
        requires done { tasks_of case.now ≤ BLOCK_TASKS * self.block }
        ensures { IsGoodsDivision case.now result }
    {
        serving_law();
        owners_by_good_law();
        search_order_law();
        let found = self.best.unwrap();
        let order = search_order(case);
        GoodsDivision {
            owners: owners_by_good(case, order.as_slice(), found.list.as_slice()),
            pair: found.pair,
            steps: self.nodes,
        }
    }
}
