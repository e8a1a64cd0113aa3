// Searches a whole case, block by block, by several workers.
ghost use Rattle.std.specs.Prelude.{◌≡◌, ℕ, ◌<◌, ◌≤◌, ◌↔◌, IsOk, IsErr, IfOk, IfErr};
ghost use Rattle.bid_rules.specs.Goods.{IsValidGoodsCase};
ghost use Rattle.nash_bounds.specs.Steps.{HasSteps};
ghost use Rattle.nash_search.specs.Division.{IsGoodsDivision, IsOverLimit};

use crate::block::{BlockEnd, run_after_few};
use crate::limits::MOST_WORKERS;
use crate::worker::BlockRule;
use bid_rules::GoodsCase;
use nash_search::{GoodsDivision, OverLimit, Progress, Tables, limit_law};
use split_base::Gate;
use std::alloc::Global;
use std::thread::Threads;

/// The same answer as `search_alone`, found by 1 to `MOST_WORKERS` workers: the allocation with the greatest Nash welfare, with its pair and
/// the step count, or the limit of the case exactly when the step count is above it.
///
/// Neither the number of workers nor their order affects the answer. A block takes no more workers than it has tasks. The calling thread walks
/// a block alone if it has one task or at most `FEW_PREFIXES` counted prefixes, or if no more than so many are left to be counted. Otherwise all
/// workers begin the block again, and the gate is told once more of the tasks that the calling thread had begun. It never fails for lack of
/// memory: if there is none for a block's desk, the calling thread walks that block alone.
pub fn search<R: Threads + Sync, G: Gate + Sync>(
    alloc: Global,
    rt: &R,
    case: &GoodsCase,
    workers: u8,
    gate: &G,
) -> Result<GoodsDivision, OverLimit>
    requires case { IsValidGoodsCase case.now }
    requires workers { (1 ≤ workers) × (workers ≤ MOST_WORKERS) }
    ensures division { IfOk result (IsGoodsDivision case.now) }
    ensures over { IfErr result (IsOverLimit case.now) }
    ensures answered { (steps : ℕ) → HasSteps case.now steps
        → (IsOk result ↔ (steps ≤ case.now.facts.limit)) }
    ensures refused { (steps : ℕ) → HasSteps case.now steps
        → (IsErr result ↔ (case.now.facts.limit < steps)) }
{
    limit_law();
    let tables = Tables::of(case);
    let mut progress = Progress::start(case);
    'search: while !progress.is_done(case) {
        let rule = BlockRule {
            block: progress.block,
            floor: progress.floor,
            above: progress.above(case),
            left: progress.left(case),
        };
        let end = run_after_few(alloc, rt, case, &tables, &rule, workers, gate);
        let BlockEnd::Done { nodes, best } = end else {
            return Err(progress.over(case));
        };
        progress.add(case, nodes, best);
    }
    Ok(progress.divide(case))
}
