// A law about the cases that are drawn for a trial, which holds for all numbers. It is the contract of a function that does nothing.
ghost use Rattle.std.specs.Prelude.{◌≡◌, ℕ, ◌*◌, ◌-◌, ◌≤◌};
ghost use Rattle.bid_rules.specs.declared.goods.GoodsCase.{GoodsCase};
ghost use Rattle.bid_rules.specs.Facts.{IsValidFareCase};
ghost use Rattle.bid_rules.specs.Goods.{IsValidGoodsCase, player_count};
ghost use Rattle.bid_rules.specs.Rent.{IsValidRentCase};
ghost use Rattle.nash_bounds.specs.Steps.{HasSteps};
ghost use Rattle.nash_bounds.specs.Tasks.{depth_of, tasks_of};
ghost use Rattle.split_reports.specs.TrialDraws.{after, seed};
ghost use Rattle.split_reports.specs.TrialPrefixes.{list_count};
ghost use Rattle.split_reports.specs.Trials.{trial_fare, trial_goods, trial_rent};

/// The cases of a trial are valid, and its goods are never above their limit: a step count is at most the number of all prefixes from the
/// tasks' length to that of all goods, and `within` says how many those of a trial are. `first` and `second` are the first draws of trial 1.
pub fn trial_law()
    ensures rent { (number : ℕ) → IsValidRentCase (trial_rent number) }
    ensures goods { (number : ℕ) → IsValidGoodsCase (trial_goods number) }
    ensures fare { (number : ℕ) → IsValidFareCase (trial_fare number) }
    ensures prefixes { (case : GoodsCase) (steps : ℕ) → HasSteps case steps
        → steps
        ≤ tasks_of case * list_count (player_count case) (case.facts.goods - depth_of case) }
    ensures within { (number steps : ℕ) → HasSteps (trial_goods number) steps → steps ≤ 87360 }
    ensures first { after 1 (seed 1) ≡ 48271 }
    ensures second { after 2 (seed 1) ≡ 182605794 }
{}
