// Laws about tasks, counted prefixes and the definition of the step count, which hold for all cases. Each is the contract of a function that does nothing.
ghost use Rattle.std.specs.Prelude.{◌≡◌, ◌≢◌, ℕ, ◌+◌, ◌-◌, ◌*◌, ◌^◌, ◌<◌, ◌≤◌, ◌↔◌, ◌⊎◌, List, [], ◌∷◌, ◌++◌, length, take, AllPairs, All, Contains, Option, Some, None, flat_map, not, true};
ghost use Rattle.std.specs.List.{range_with_len};
ghost use Rattle.std.specs.Option.{option_to_list};
ghost use Rattle.std.specs.Cmp.Lexicographic.{slice_cmp};
ghost use Rattle.std.specs.Ordering.{nat_cmp};
ghost use Rattle.std.specs.declared.cmp.Ordering.TheVariants.{Greater, Less};
ghost use Rattle.bid_rules.specs.declared.goods.GoodsCase.{GoodsCase};
ghost use Rattle.bid_rules.specs.declared.pair.Pair.{Pair};
ghost use Rattle.bid_rules.specs.Goods.{AreOwners, GoodsBest, IsAllocation, IsBehind, IsValidGoodsCase, pair_of, player_count};
ghost use Rattle.bid_rules.specs.Pairs.{IsLess};
ghost use Rattle.nash_bounds.specs.Allocations.{IsBestOf};
ghost use Rattle.nash_bounds.specs.Counted.{best, count_task, count_tasks, counted_leaves, counted_of_tasks};
ghost use Rattle.nash_bounds.specs.Goals.{is_reached};
ghost use Rattle.nash_bounds.specs.LeftOut.{is_after, may_be_left, open_count};
ghost use Rattle.nash_bounds.specs.OwnerLists.{ArePlayers, IsLonger, below, leaves, lists};
ghost use Rattle.nash_bounds.specs.Prefixes.{prefix_bound};
ghost use Rattle.nash_bounds.specs.Serving.{Serves};
ghost use Rattle.nash_bounds.specs.Start.{IsStartValue};
ghost use Rattle.nash_bounds.specs.Steps.{HasSteps, best_before, earlier, pair_kept, step_count, steps_before};
ghost use Rattle.nash_bounds.specs.Tasks.{depth_of, task_leaves, task_list, tasks_of};
ghost use Rattle.nash_bounds.specs.declared.limits.TheConstants.{BLOCK_TASKS, FEWEST_LISTS, MOST_SHORTER};

/// The lists of a given length are all the lists of that length, in rising order and therefore each once. The lists that begin with some
/// owners are all those that go on with up to k more, each once; the leaves are those that go on with exactly k more, in rising order.
pub fn owner_lists_law()
    ensures listed { (n k : ℕ) (owners : List ℕ) → Contains (lists n k) owners
        ↔ (length owners ≡ k) × ArePlayers n owners }
    ensures rising { (n k : ℕ)
        → AllPairs (λ owners later. slice_cmp nat_cmp owners later ≡ Less) (lists n k) }
    ensures once { (n k : ℕ) → AllPairs ◌≢◌ (lists n k) }
    ensures count { (n k : ℕ) → length (lists n k) ≡ n ^ k }
    ensures below { (n k : ℕ) (owners longer : List ℕ) → Contains (below n k owners) longer
        ↔ IsLonger n k owners longer }
    ensures below_once { (n k : ℕ) (owners : List ℕ) → AllPairs ◌≢◌ (below n k owners) }
    ensures leaves { (n k : ℕ) (owners longer : List ℕ) → Contains (leaves n k owners) longer
        ↔ (rest : List ℕ) × (longer ≡ owners ++ rest) × (length rest ≡ k) × ArePlayers n rest }
    ensures leaves_rising { (n k : ℕ) (owners : List ℕ)
        → AllPairs (λ one later. slice_cmp nat_cmp one later ≡ Less) (leaves n k owners) }
{}

/// A task begins with a list of the least length for which there are `FEWEST_LISTS` or more, or with an owner for each good. The
/// prefixes that the step count counts at a task are among those that begin with the task's owners, of all lengths from theirs to that of
/// all goods, each once.
pub fn tasks_law()
    ensures within { (case : GoodsCase) → depth_of case ≤ case.facts.goods }
    ensures enough { (case : GoodsCase) → depth_of case < case.facts.goods
        → FEWEST_LISTS ≤ player_count case ^ depth_of case }
    ensures least { (case : GoodsCase) (depth : ℕ) → depth < depth_of case
        → player_count case ^ depth < FEWEST_LISTS }
    ensures begins { (case : GoodsCase) (task : ℕ) → task < tasks_of case
        → (length (task_list case task) ≡ depth_of case) × AreOwners case (task_list case task) }
    ensures prefixes { (case : GoodsCase) (task : ℕ) (owners : List ℕ) → task < tasks_of case
        → Contains
        (below (player_count case) (case.facts.goods - depth_of case) (task_list case task)) owners
        ↔ (rest : List ℕ) × (owners ≡ task_list case task ++ rest)
        × (length owners ≤ case.facts.goods) × AreOwners case rest }
    ensures once { (case : GoodsCase) (task : ℕ)
        → AllPairs ◌≢◌
        (below (player_count case) (case.facts.goods - depth_of case) (task_list case task)) }
{}

/// The listed allocations are all allocations, in rising order and therefore each once. They are the allocations of all tasks, one task
/// after another.
pub fn allocations_law()
    ensures listed { (case : GoodsCase) (owners : List ℕ)
        → Contains (lists (player_count case) case.facts.goods) owners ↔ IsAllocation case owners }
    ensures rising { (case : GoodsCase)
        → AllPairs (λ owners later. slice_cmp nat_cmp owners later ≡ Less)
        (lists (player_count case) case.facts.goods) }
    ensures once { (case : GoodsCase) → AllPairs ◌≢◌ (lists (player_count case) case.facts.goods) }
    ensures count { (case : GoodsCase)
        → length (lists (player_count case) case.facts.goods)
        ≡ player_count case ^ case.facts.goods }
    ensures tasks { (case : GoodsCase)
        → flat_map (task_leaves case) (range_with_len 0 (tasks_of case))
        ≡ lists (player_count case) case.facts.goods }
{}

/// The best allocation of the first few tasks is one of theirs. None of theirs has a greater pair, and none with the same pair comes before
/// it as a list. If they have no allocation, there is no best one.
pub fn best_before_law()
    ensures found { (case : GoodsCase) (task : ℕ) (owners : List ℕ)
        → best_before case task ≡ Some owners
        → Contains (flat_map (task_leaves case) (range_with_len 0 task)) owners }
    ensures best { (case : GoodsCase) (task : ℕ) (owners : List ℕ) → task ≤ tasks_of case
        → best_before case task ≡ Some owners
        → All (λ other. IsBehind case other owners)
        (flat_map (task_leaves case) (range_with_len 0 task)) }
    ensures none { (case : GoodsCase) (task : ℕ) → best_before case task ≡ None
        → flat_map (task_leaves case) (range_with_len 0 task) ≡ [] }
{}

/// Keeping the best of a task's counted allocations one by one gives the best of them all, with the least list among equals. Any
/// allocations have at most one best, whatever their order.
pub fn best_counted_law()
    ensures kept { (case : GoodsCase) (task : ℕ) (floor : Pair) (above : Option Pair)
        → IsBestOf case (counted_leaves case task floor above)
        (best case floor above (case.facts.goods - depth_of case) (task_list case task) None) }
    ensures one { (case : GoodsCase) (allocations : List (List ℕ)) (a b : Option (List ℕ))
        → IsBestOf case allocations a → IsBestOf case allocations b → a ≡ b }
{}

/// What several tasks in a row count is what each of them counts, added up, and their counted allocations are those of each.
pub fn tasks_in_row_law()
    ensures none { (case : GoodsCase) (floor : Pair) (above : Option Pair) (from : ℕ)
        → count_tasks case floor above from 0 ≡ 0 }
    ensures more { (case : GoodsCase) (floor : Pair) (above : Option Pair) (from n : ℕ)
        → count_tasks case floor above from (n + 1)
        ≡ count_tasks case floor above from n + count_task case (from + n) floor above }
    ensures rises { (case : GoodsCase) (floor : Pair) (above : Option Pair) (from n more : ℕ)
        → count_tasks case floor above from n ≤ count_tasks case floor above from (n + more) }
    ensures none_counted { (case : GoodsCase) (floor : Pair) (above : Option Pair) (from : ℕ)
        → counted_of_tasks case floor above from 0 ≡ [] }
    ensures more_counted { (case : GoodsCase) (floor : Pair) (above : Option Pair) (from n : ℕ)
        → counted_of_tasks case floor above from (n + 1)
        ≡ counted_of_tasks case floor above from n ++ counted_leaves case (from + n) floor above }
{}

/// What is found among the counted allocations of the earlier blocks can stand in for the best of all earlier allocations. It leads to the
/// same number of counted prefixes in the next block; the better of it and of what is counted in the tasks after it can stand in again; and
/// after all tasks it is the best allocation, which therefore exists.
pub fn serving_law()
    ensures begins { (case : GoodsCase) (floor : Pair)
        → Serves case floor None (best_before case 0) }
    ensures counts { (case : GoodsCase) (floor : Pair) (found : Option (List ℕ)) (block n : ℕ)
        → n ≤ BLOCK_TASKS → Serves case floor found (best_before case (BLOCK_TASKS * block))
        → steps_before case floor (BLOCK_TASKS * block + n)
        ≡ steps_before case floor (BLOCK_TASKS * block)
        + count_tasks case floor (pair_kept case found) (BLOCK_TASKS * block) n }
    ensures goes_on { (case : GoodsCase) (floor : Pair) (found next : Option (List ℕ)) (from n : ℕ)
        → IsValidGoodsCase case → from + n ≤ tasks_of case
        → Serves case floor found (best_before case from)
        → IsBestOf case
        (option_to_list found ++ counted_of_tasks case floor (pair_kept case found) from n) next
        → Serves case floor next (best_before case (from + n)) }
    ensures best { (case : GoodsCase) (floor : Pair) (found : Option (List ℕ))
        → IsValidGoodsCase case → IsStartValue case floor
        → Serves case floor found (best_before case (tasks_of case))
        → (owners : List ℕ) × (found ≡ Some owners) × GoodsBest case owners }
    ensures exists { (case : GoodsCase) → IsValidGoodsCase case
        → (owners : List ℕ) × GoodsBest case owners }
{}

/// A case has at most one start value, and therefore at most one step count. The count begins at 0 and rises from task to task.
pub fn steps_law()
    ensures one_start { (case : GoodsCase) (pair other : Pair) → IsStartValue case pair
        → IsStartValue case other → pair ≡ other }
    ensures one_count { (case : GoodsCase) (steps other : ℕ) → HasSteps case steps
        → HasSteps case other → steps ≡ other }
    ensures none { (case : GoodsCase) (floor : Pair) → steps_before case floor 0 ≡ 0 }
    ensures rises { (case : GoodsCase) (floor : Pair) (task more : ℕ)
        → steps_before case floor task ≤ steps_before case floor (task + more) }
{}

/// This law is about the prefixes that must not be left out of a tree that shows the best allocation. They can have any length, and the
/// empty one is among them. There are at most as many as the step count plus `MOST_SHORTER`. One may be left out if its bound is below the
/// answer's pair, or the same and it is after the answer's first owners: if its bound does not reach the pair, or is not above it if the
/// owners are after the answer's first ones.
pub fn open_prefixes_law()
    ensures left { (case : GoodsCase) (answer owners : List ℕ)
        → may_be_left case answer owners ≡ true
        ↔ IsLess (prefix_bound case owners) (pair_of case answer)
        ⊎ ((prefix_bound case owners ≡ pair_of case answer)
        × (slice_cmp nat_cmp owners (take (length owners) answer) ≡ Greater)) }
    ensures reached { (case : GoodsCase) (answer owners : List ℕ)
        → may_be_left case answer owners
        ≡ not
        (is_reached (pair_of case answer) (is_after answer owners) (prefix_bound case owners)) }
    ensures few { (case : GoodsCase) (floor : Pair) (answer : List ℕ) → IsValidGoodsCase case
        → IsStartValue case floor → GoodsBest case answer
        → open_count case answer ≤ step_count case floor + MOST_SHORTER }
{}
