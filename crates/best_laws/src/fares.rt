// Laws about the definitions of fares, which hold for all cases. Each is the contract of a function that does nothing.
ghost use Rattle.std.specs.Prelude.{◌≡◌, ◌≢◌, ℕ, pos, ◌+◌, ◌-◌, ◌*◌, ◌^◌, ◌*ℤ◌, ◌<◌, ◌≤◌, ◌↔◌, List, [], ◌∷◌, length, map, All, AllPairs, Contains, slice_index, slice_index_or, unsigned_abs};
ghost use Rattle.std.specs.Int.{bit_at};
ghost use Rattle.std.specs.List.{AllZip, filter, range_with_len};
ghost use Rattle.std.specs.List.Sorted.{IsPermutation, IsStrictlyIncreasing};
ghost use Rattle.bid_rules.specs.declared.cases.FareCase.{FareCase};
ghost use Rattle.bid_rules.specs.Coalitions.{has_rider, riders_in, set_number, start_of};
ghost use Rattle.bid_rules.specs.Facts.{IsValidFareCase};
ghost use Rattle.bid_rules.specs.Fares.{FareBest, IsLeastRoute, coalition_cost, least, legs_along, riders_of, route_cost, sum_of_marginal_costs};
ghost use Rattle.bid_rules.specs.Fractions.{Fraction, HasSameValue, IsQuotient, sum_of_fractions};
ghost use Rattle.bid_rules.specs.Orders.{factorial, orders as all_orders};
ghost use Rattle.bid_rules.specs.Sums.{total};
ghost use Rattle.bid_rules.specs.declared.limits.TheConstants.{MOST_FARE_CENTS, MOST_RIDERS};
ghost use Rattle.best_laws.specs.Entries.{AreEntries, IsLowestRoute, IsDeparture, cost_by, costs_from, without};
ghost use Rattle.best_laws.specs.MarginalSums.{marginal_sum, part_by_last};
ghost use Rattle.best_laws.specs.WorkedFares.{one_place, two_places};

use bid_rules::leg_place_law;

/// The orders listed for a list are its permutations. If the elements differ, none is listed twice, and there are n! of them.
pub fn orders_law()
    ensures listed { (xs ys : List ℕ) → Contains (all_orders xs) ys ↔ IsPermutation xs ys }
    ensures once { (xs : List ℕ) → AllPairs ◌≢◌ xs → AllPairs ◌≢◌ (all_orders xs) }
    ensures count { (xs : List ℕ) → length (all_orders xs) ≡ factorial (length xs) }
{}

/// The cost of a route is the cost of one of its orders and not above any other's, in whatever order its riders are listed.
pub fn route_cost_law()
    ensures attained { (case : FareCase) (from : ℕ) (riders : List ℕ)
        → Contains (map (legs_along case from) (all_orders riders)) (route_cost case from riders) }
    ensures least { (case : FareCase) (from : ℕ) (riders : List ℕ)
        → All (λ sum. route_cost case from riders ≤ sum)
        (map (legs_along case from) (all_orders riders)) }
    ensures same { (case : FareCase) (from : ℕ) (xs ys : List ℕ) → IsPermutation xs ys
        → route_cost case from xs ≡ route_cost case from ys }
    ensures coalition { (case : FareCase) (xs ys : List ℕ) → IsPermutation xs ys
        → coalition_cost case xs ≡ coalition_cost case ys }
    ensures some { (case : FareCase) (riders : List ℕ) → 0 < length riders
        → coalition_cost case riders ≡ case.facts.flag + route_cost case 0 riders }
    ensures route_small { (case : FareCase) (from : ℕ) (riders : List ℕ) → IsValidFareCase case
        → route_cost case from riders ≤ MOST_FARE_CENTS * length riders }
    ensures coalition_small { (case : FareCase) (riders : List ℕ) → IsValidFareCase case
        → coalition_cost case riders ≤ MOST_FARE_CENTS * (length riders + 1) }
{
    leg_place_law();
}

/// Sets of riders and numbers correspond: the riders of a set come in rising order, and are those whose bit is set; a set is the
/// sum of 2^(i-1) over its riders i; and each rising list of riders of 1 to n is the riders of one number, which is below 2^n. A
/// list of riders, each once, in any order, is a permutation of the riders of the set of its number. A valid case has no more
/// riders than the limit allows, and a set of them has no more than the case.
pub fn coalition_law()
    ensures rising { (set : ℕ) → IsStrictlyIncreasing (riders_in set) }
    ensures bits { (set rider : ℕ) → Contains (riders_in set) rider
        ↔ (1 ≤ rider) × (bit_at set (rider - 1) ≡ 1) }
    ensures number { (set : ℕ) → set_number (riders_in set) ≡ set }
    ensures riders { (riders : List ℕ) → IsStrictlyIncreasing riders
        → All (λ rider. 1 ≤ rider) riders → riders_in (set_number riders) ≡ riders }
    ensures within { (n set : ℕ) → set < 2 ^ n
        ↔ All (λ rider. (1 ≤ rider) × (rider ≤ n)) (riders_in set) }
    ensures any_order { (riders : List ℕ) → AllPairs ◌≢◌ riders → All (λ rider. 1 ≤ rider) riders
        → IsPermutation riders (riders_in (set_number riders)) }
    ensures first { (n set : ℕ) → set < 2 ^ n
        → riders_in set ≡ filter (has_rider set) (range_with_len 1 n) }
    ensures all { (n : ℕ) → riders_in (2 ^ n - 1) ≡ range_with_len 1 n }
    ensures some { (set : ℕ) → 0 < set → 0 < length (riders_in set) }
    ensures count { (n set : ℕ) → set < 2 ^ n → length (riders_in set) ≤ n }
    ensures riders_count { (case : FareCase) → IsValidFareCase case
        → length case.at.items ≤ MOST_RIDERS }
{}

/// A set without one of its riders has the others: its number is less by 2^(i-1), and the rider is not in it.
pub fn without_rider_law()
    ensures number { (set rider : ℕ) → Contains (riders_in set) rider → 2 ^ (rider - 1) ≤ set }
    ensures others { (set rider : ℕ) → Contains (riders_in set) rider
        → IsPermutation (riders_in set) (rider ∷ riders_in (without set rider)) }
    ensures apart { (set rider : ℕ) → Contains (riders_in set) rider
        → ¬ Contains (riders_in (without set rider)) rider }
{}

/// Who gets off first: what the route of a set of riders costs from a place is the least, over all riders who may get off first, of
/// the leg to that rider's place plus what the route of the others costs from there. The route of nobody costs 0.
///
/// A table whose entries satisfy this holds what the routes cost, and what the routes cost satisfies it.
pub fn route_set_law()
    ensures none { (case : FareCase) (from : ℕ) → route_cost case from (riders_in 0) ≡ 0 }
    ensures recurrence { (case : FareCase) (from set : ℕ) → 0 < set
        → route_cost case from (riders_in set)
        ≡ least (map (cost_by case from set) (riders_in set)) }
    ensures first { (case : FareCase) (from set rider : ℕ) → Contains (riders_in set) rider
        → ((other : ℕ) → Contains (riders_in set) other
        → cost_by case from set rider ≤ cost_by case from set other)
        → route_cost case from (riders_in set) ≡ cost_by case from set rider }
    ensures entries { (case : FareCase) (n : ℕ) (entry : ℕ → ℕ → ℕ) → AreEntries case n entry
        → (at set : ℕ) → IsDeparture n at set → entry at set ≡ costs_from case at set }
    ensures costs { (case : FareCase) (n : ℕ) → AreEntries case n (costs_from case) }
{}

/// Who comes last: the sum of a rider's marginal costs over all orders of a set is the sum, over each rider of the set who may come
/// last, of the sum over the orders of the set without that rider; if it is the rider in question who comes last, it is what this
/// rider adds to the others, once for each of their orders. For the set of all riders, this is the sum of which the rider's fare is
/// the mean.
pub fn marginal_set_law()
    ensures recurrence { (case : FareCase) (rider set : ℕ) → Contains (riders_in set) rider
        → marginal_sum case rider (riders_in set)
        ≡ total (part_by_last case rider set) (riders_in set) }
    ensures whole { (case : FareCase) (rider : ℕ)
        → sum_of_marginal_costs case rider ≡ marginal_sum case rider (riders_of case) }
    ensures small { (case : FareCase) (rider : ℕ) (riders : List ℕ) → IsValidFareCase case
        → Contains riders rider
        → unsigned_abs (marginal_sum case rider riders)
        ≤ MOST_FARE_CENTS * (length riders + 1) * factorial (length riders) }
{
    route_cost_law();
}

/// The least route: going on from the origin, each time to the lowest rider who attains the entry, gives the cheapest order of all
/// riders that is least as a list, and that order goes this way at every step.
pub fn lowest_route_law()
    ensures least { (case : FareCase) (entry : ℕ → ℕ → ℕ) (route : List ℕ)
        → AreEntries case (length case.at.items) entry
        → IsLowestRoute case entry 0 (2 ^ length case.at.items - 1) route
        → IsLeastRoute case route }
    ensures only { (case : FareCase) (entry : ℕ → ℕ → ℕ) (route : List ℕ)
        → AreEntries case (length case.at.items) entry → IsLeastRoute case route
        → IsLowestRoute case entry 0 (2 ^ length case.at.items - 1) route }
{}

/// Best fares sum to the cost of all riders, riders to the same place pay the same, and a case has just one best division.
///
/// The first two are efficiency, and symmetry for riders to the same place (Shapley 1953).
pub fn best_fares_law()
    ensures total { (case : FareCase) (fares : List Fraction) (route : List ℕ)
        → FareBest case fares route
        → IsQuotient (sum_of_fractions fares) (pos (coalition_cost case (riders_of case))) 1 }
    ensures same_place { (case : FareCase) (fares : List Fraction) (route : List ℕ) (i j : ℕ)
        (d : Fraction) → FareBest case fares route → i < length case.at.items
        → j < length case.at.items → slice_index case.at.items i ≡ slice_index case.at.items j
        → HasSameValue (slice_index_or fares i d) (slice_index_or fares j d) }
    ensures one_route { (case : FareCase) (fares others : List Fraction) (route other : List ℕ)
        → FareBest case fares route → FareBest case others other → route ≡ other }
    ensures one_value { (case : FareCase) (fares others : List Fraction) (route other : List ℕ)
        → FareBest case fares route → FareBest case others other
        → AllZip HasSameValue fares others }
{}

/// The definitions applied to two worked cases, which are valid: what each coalition costs, and the best fares and route.
pub fn worked_fares_law()
    ensures two_places_valid { IsValidFareCase two_places }
    ensures two_places_costs { map (coalition_cost two_places)
        ((1 ∷ []) ∷ (2 ∷ []) ∷ (1 ∷ 2 ∷ []) ∷ []) ≡ 1300 ∷ 1800 ∷ 2000 ∷ [] }
    ensures two_places_best { FareBest two_places ((pos 750, 1) ∷ (pos 1250, 1) ∷ []) (1 ∷ 2 ∷ []) }
    ensures one_place_valid { IsValidFareCase one_place }
    ensures one_place_costs { map (coalition_cost one_place)
        ((1 ∷ []) ∷ (2 ∷ []) ∷ (1 ∷ 2 ∷ []) ∷ []) ≡ 1300 ∷ 1300 ∷ 1300 ∷ [] }
    ensures one_place_best { FareBest one_place ((pos 650, 1) ∷ (pos 650, 1) ∷ []) (1 ∷ 2 ∷ []) }
{}
