// Laws about the definitions of rents, which hold for all cases. Each is the contract of a function that does nothing.
ghost use Rattle.std.specs.Prelude.{◌≡◌, ◌≢◌, ℕ, ℤ, pos, ◌+◌, ◌*◌, ◌<◌, ◌≤◌, ◌+ℤ◌, ◌-ℤ◌, ◌*ℤ◌, ◌≤ℤ◌, ◌↔◌, List, length, All, Contains, slice_index};
ghost use Rattle.std.specs.List.{AllZip, range_with_len};
ghost use Rattle.std.specs.List.Sorted.{IsPermutation};
ghost use Rattle.bid_rules.specs.declared.rents.RentCase.{RentCase};
ghost use Rattle.bid_rules.specs.Cents.{prices_by_member};
ghost use Rattle.bid_rules.specs.Fractions.{Fraction, HasSameValue, IsQuotient, sum_of_fractions};
ghost use Rattle.bid_rules.specs.Keys.{AreDualNumbers, HasGreatestKeySum, HasGreatestWelfare, IsFirstOfItsWelfare};
ghost use Rattle.bid_rules.specs.Maximin.{AreMaximinPrices, HasFormulaParts, least_in_parts, value_step};
ghost use Rattle.bid_rules.specs.Rent.{IsAssignment, IsEnvyFree, IsLeastUtility, IsPricedAssignment, IsValidRentCase, IsWithinRent, RentBest, least_utility, price_of, room_count, utility, value};
ghost use Rattle.bid_rules.specs.Walks.{AreGreatestWeights, AreRanks, AreShownRanks, AreShownWeights, AreVertices, HasNoPositiveCycle, IsAttained, walk_weight, weight_at};

use bid_rules::rent_value_law;

/// Rooms with envy-free prices have the greatest welfare. Under any other assignment with that welfare, the prices are still
/// envy-free and each member's utility stays the same (Gal, Mash, Procaccia and Zick 2016).
pub fn envy_free_law()
    ensures welfare { (case : RentCase) (k : ℕ) (rooms : List ℕ) (prices : List ℤ)
        → IsPricedAssignment case k rooms prices → IsEnvyFree case k rooms prices
        → HasGreatestWelfare case rooms }
    ensures priced { (case : RentCase) (k : ℕ) (rooms others : List ℕ) (prices : List ℤ)
        → IsPricedAssignment case k rooms prices → HasGreatestWelfare case others
        → IsPricedAssignment case k others prices }
    ensures others { (case : RentCase) (k : ℕ) (rooms others : List ℕ) (prices : List ℤ)
        → IsPricedAssignment case k rooms prices → IsEnvyFree case k rooms prices
        → HasGreatestWelfare case others → IsEnvyFree case k others prices }
    ensures utilities { (case : RentCase) (k : ℕ) (rooms others : List ℕ) (prices : List ℤ)
        → IsPricedAssignment case k rooms prices → IsEnvyFree case k rooms prices
        → HasGreatestWelfare case others → (member : ℕ) → member < room_count case
        → utility case k others prices member ≡ utility case k rooms prices member }
{}

/// At envy-free prices each utility is at least any other one plus the step from there, over any assignment of greatest welfare.
/// So it is at least the least utility plus the weight of any walk that ends at the member, and the sum of this over the members
/// bounds the least utility.
pub fn least_utility_law()
    ensures step { (case : RentCase) (k : ℕ) (rooms best : List ℕ) (prices : List ℤ)
        → IsPricedAssignment case k rooms prices → IsEnvyFree case k rooms prices
        → HasGreatestWelfare case best → (from to : ℕ) → from < room_count case
        → to < room_count case
        → (utility case k rooms prices from +ℤ pos k *ℤ value_step case best from to)
        ≤ℤ utility case k rooms prices to }
    ensures walk { (case : RentCase) (k : ℕ) (rooms best : List ℕ) (prices : List ℤ)
        → IsPricedAssignment case k rooms prices → IsEnvyFree case k rooms prices
        → HasGreatestWelfare case best → (member : ℕ) (before : List ℕ) → member < room_count case
        → AreVertices (room_count case) before
        → (least_utility case k rooms prices
        +ℤ pos k *ℤ walk_weight (value_step case best) member before)
        ≤ℤ utility case k rooms prices member }
    ensures bound { (case : RentCase) (k : ℕ) (rooms best : List ℕ) (prices walks : List ℤ)
        → IsPricedAssignment case k rooms prices → IsEnvyFree case k rooms prices
        → HasGreatestWelfare case best
        → ((member : ℕ) → member < room_count case
        → IsAttained (room_count case) (value_step case best) member (weight_at walks member))
        → (pos (room_count case) *ℤ least_utility case k rooms prices)
        ≤ℤ (pos k *ℤ least_in_parts case best walks) }
{}

/// At envy-free prices no utility is below 0, and the least one is at most the rent. No price is further from 0 than the rent.
pub fn price_range_law()
    ensures utilities { (case : RentCase) (k : ℕ) (rooms : List ℕ) (prices : List ℤ)
        → IsValidRentCase case → IsPricedAssignment case k rooms prices
        → IsEnvyFree case k rooms prices → (member : ℕ) → member < room_count case
        → pos 0 ≤ℤ utility case k rooms prices member }
    ensures least { (case : RentCase) (k : ℕ) (rooms : List ℕ) (prices : List ℤ)
        → IsValidRentCase case → IsPricedAssignment case k rooms prices
        → IsEnvyFree case k rooms prices → IsWithinRent case k (least_utility case k rooms prices) }
    ensures prices { (case : RentCase) (k : ℕ) (rooms : List ℕ) (prices : List ℤ)
        → IsValidRentCase case → IsPricedAssignment case k rooms prices
        → IsEnvyFree case k rooms prices → (room : ℕ) → 1 ≤ room → room ≤ room_count case
        → IsWithinRent case k (price_of prices room) }
    ensures best { (case : RentCase) (rooms : List ℕ) (prices : List Fraction)
        → IsValidRentCase case → RentBest case rooms prices
        → All (λ price. IsWithinRent case price.1 price.0) prices }
{
    rent_value_law();
}

/// A list of n numbers that contains each of 1 to n is a permutation of them, and vice versa.
pub fn permutation_law()
    ensures { (n : ℕ) (numbers : List ℕ) → IsPermutation (range_with_len 1 n) numbers
        ↔ (length numbers ≡ n)
        × ((number : ℕ) → 1 ≤ number → number ≤ n → Contains numbers number) }
{}

/// An assignment gives each member, by place from 0, one of the rooms, and each room has one holder.
pub fn assignment_law()
    ensures count { (case : RentCase) (rooms : List ℕ) → IsAssignment case rooms
        → length rooms ≡ room_count case }
    ensures room { (case : RentCase) (rooms : List ℕ) → IsAssignment case rooms → (member : ℕ)
        → member < room_count case
        → (1 ≤ slice_index rooms member) × (slice_index rooms member ≤ room_count case) }
    ensures holder { (case : RentCase) (rooms : List ℕ) → IsAssignment case rooms → (room : ℕ)
        → 1 ≤ room → room ≤ room_count case
        → (member : ℕ) × (member < room_count case) × (slice_index rooms member ≡ room) }
    ensures one_holder { (case : RentCase) (rooms : List ℕ) → IsAssignment case rooms
        → (member other : ℕ) → member < room_count case → other < room_count case
        → slice_index rooms member ≡ slice_index rooms other → member ≡ other }
{}

/// Dual numbers show that a sum of keys is the greatest, and those of the members determine those of the rooms. The assignment
/// that has the greatest sum is the only one, has the greatest welfare, and is the first list among those of that welfare.
pub fn key_law()
    ensures dual { (case : RentCase) (rooms : List ℕ) (left right : List ℤ)
        → IsAssignment case rooms → AreDualNumbers case rooms left right
        → HasGreatestKeySum case rooms }
    ensures one_right { (case : RentCase) (rooms : List ℕ) (left right other : List ℤ)
        → IsAssignment case rooms → AreDualNumbers case rooms left right
        → AreDualNumbers case rooms left other → other ≡ right }
    ensures only { (case : RentCase) (rooms others : List ℕ) → HasGreatestKeySum case rooms
        → HasGreatestKeySum case others → others ≡ rooms }
    ensures welfare { (case : RentCase) (rooms : List ℕ) → HasGreatestKeySum case rooms
        → HasGreatestWelfare case rooms }
    ensures first { (case : RentCase) (rooms : List ℕ) → HasGreatestKeySum case rooms
        → IsFirstOfItsWelfare case rooms }
{}

/// Weights are those of the longest walks exactly when they are 0 or more, some walk attains each of them, and no step exceeds
/// them. Ranks that lead back to a weight of 0 show that each is attained. The least numbers of steps of such walks lead back so.
/// There is only one list of greatest weights, and one of their least numbers of steps.
pub fn walk_law()
    ensures shown { (n : ℕ) (step : ℕ → ℕ → ℤ) (weights : List ℤ) → AreShownWeights n step weights
        ↔ AreGreatestWeights n step weights }
    ensures ranks { (n : ℕ) (step : ℕ → ℕ → ℤ) (weights : List ℤ) (ranks : List ℕ)
        → AreShownRanks n step weights ranks → (to : ℕ) → to < n
        → IsAttained n step to (weight_at weights to) }
    ensures least_ranks { (n : ℕ) (step : ℕ → ℕ → ℤ) (weights : List ℤ) (ranks : List ℕ)
        → AreGreatestWeights n step weights → AreRanks n step weights ranks
        → AreShownRanks n step weights ranks }
    ensures one_weights { (n : ℕ) (step : ℕ → ℕ → ℤ) (weights other : List ℤ)
        → AreGreatestWeights n step weights → AreGreatestWeights n step other → other ≡ weights }
    ensures one_ranks { (n : ℕ) (step : ℕ → ℕ → ℤ) (weights : List ℤ) (ranks other : List ℕ)
        → AreRanks n step weights ranks → AreRanks n step weights other → other ≡ ranks }
{}

/// What shows that an answer is the best: it has the greatest sum of keys, its walks over the values are attained and exceeded by
/// no step, and its prices are those of the formula. Its least utility is that of the formula, which is no further from 0 than
/// the rent.
pub fn shown_rent_law()
    ensures best { (case : RentCase) (rooms : List ℕ) (walks : List ℤ) (prices : List Fraction)
        → 1 ≤ room_count case → HasGreatestKeySum case rooms
        → AreShownWeights (room_count case) (value_step case rooms) walks
        → AreMaximinPrices case rooms walks prices → RentBest case rooms prices }
    ensures least { (case : RentCase) (rooms : List ℕ) (walks : List ℤ) (prices : List Fraction)
        (least : Fraction) → 1 ≤ room_count case → HasGreatestKeySum case rooms
        → AreShownWeights (room_count case) (value_step case rooms) walks
        → AreMaximinPrices case rooms walks prices
        → IsQuotient least (least_in_parts case rooms walks) (room_count case)
        → IsLeastUtility case rooms prices least }
    ensures range { (case : RentCase) (rooms : List ℕ) (walks : List ℤ) (prices : List Fraction)
        (least : Fraction) → IsValidRentCase case → HasGreatestKeySum case rooms
        → AreShownWeights (room_count case) (value_step case rooms) walks
        → AreMaximinPrices case rooms walks prices
        → IsQuotient least (least_in_parts case rooms walks) (room_count case)
        → IsWithinRent case least.1 least.0 }
{
    rent_value_law();
}

/// The prices of the formula, by room, are whole n-ths of a cent.
pub fn formula_law()
    ensures { (case : RentCase) (rooms : List ℕ) (walks : List ℤ) (prices : List Fraction)
        → IsAssignment case rooms → AreMaximinPrices case rooms walks prices
        → HasFormulaParts case rooms walks prices }
{}

/// Two best priced assignments of a case have the same list of rooms and the same prices, which sum to the rent whether they are
/// added by room or by member.
pub fn best_rent_law()
    ensures one_assignment { (case : RentCase) (rooms others : List ℕ)
        (prices other : List Fraction) → RentBest case rooms prices → RentBest case others other
        → others ≡ rooms }
    ensures one_value { (case : RentCase) (rooms others : List ℕ) (prices other : List Fraction)
        → RentBest case rooms prices → RentBest case others other
        → AllZip HasSameValue prices other }
    ensures total { (case : RentCase) (rooms : List ℕ) (prices : List Fraction)
        → RentBest case rooms prices
        → IsQuotient (sum_of_fractions prices) (pos case.facts.rent) 1 }
    ensures by_member { (case : RentCase) (rooms : List ℕ) (prices : List Fraction)
        → RentBest case rooms prices
        → IsQuotient (sum_of_fractions (prices_by_member rooms prices)) (pos case.facts.rent) 1 }
{}

/// If each vertex has a number that every step respects, no cycle has a positive weight: a walk weighs no more than the
/// difference between the numbers at its ends.
pub fn potential_law()
    ensures { (n : ℕ) (step : ℕ → ℕ → ℤ) (number : ℕ → ℤ)
        → ((from to : ℕ) → from < n → to < n → step from to ≤ℤ (number to -ℤ number from))
        → HasNoPositiveCycle n step }
{}

/// Numbers by member and by room that bound every value, and that some assignment reaches, show that for any assignment of
/// greatest welfare, no cycle over the values has a positive weight.
pub fn value_cycle_law()
    ensures { (case : RentCase) (rooms others : List ℕ) (left right : ℕ → ℤ)
        → HasGreatestWelfare case rooms → IsAssignment case others
        → ((member room : ℕ) → member < room_count case → 1 ≤ room → room ≤ room_count case
        → value case member room ≤ℤ (left member +ℤ right room))
        → ((member : ℕ) → member < room_count case
        → left member +ℤ right (slice_index others member)
        ≡ value case member (slice_index others member))
        → HasNoPositiveCycle (room_count case) (value_step case rooms) }
{}
