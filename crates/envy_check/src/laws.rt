// Laws about who envies whom by cent plans and over goods, which hold for all cases. Each is the contract of a function that does nothing.
ghost use Rattle.std.specs.Prelude.{◌≡◌, ◌↔◌, Contains, ℕ, ℤ, pos, negsuc, ◌<◌, ◌≤◌, ◌+ℤ◌, ◌-ℤ◌, ◌≤ℤ◌, List, [], ◌∷◌, slice_index, slice_index_or, ◌*ℤ◌, ◌<ℤ◌, All, count_by, nat_lt, length};
ghost use Rattle.std.specs.List.{range_with_len};
ghost use Rattle.bid_rules.specs.declared.goods.GoodsCase.{GoodsCase};
ghost use Rattle.bid_rules.specs.declared.limits.TheConstants.{MEMBER_ROOM};
ghost use Rattle.bid_rules.specs.declared.rents.RentCase.{RentCase};
ghost use Rattle.bid_rules.specs.Cents.{IsCentPlan, amount_at, cent_plan, cents_left, floor_of, places_before, prices_by_member, remainder_of};
ghost use Rattle.bid_rules.specs.Fractions.{Fraction, IsQuotient, sum_of_fractions};
ghost use Rattle.bid_rules.specs.Goods.{owners_by_good};
ghost use Rattle.bid_rules.specs.Rent.{HasParts, IsAssignment, IsEnvyFree, room_count, value};
ghost use Rattle.best_laws.specs.MaximumWelfare.{HasMaximumWelfare};
ghost use Rattle.best_laws.specs.WorkedGoods.{contested_good};
ghost use Rattle.arrayvec.specs.declared.array_vec.ArrayVec.{ArrayVec};
ghost use Rattle.envy_check.specs.declared.goods.Ef1.{Ef1};
ghost use Rattle.envy_check.specs.Fairness.{HasNoFails, IsEnvyFreeUpToOneGood};
ghost use Rattle.envy_check.specs.Goods.{EndsEnvy, Envies, IsEf1Table, IsMostValued, goods_of};

use best_laws::worked_goods_law;
use nash_bounds::{owners_by_good_law, search_order_law};

/// The floor is the greatest whole number that is not above the amount. As many places get a cent as cents are left over, and a place with
/// fewer places before it never has a smaller remainder.
pub fn cent_plan_law()
    ensures floor { (amount : Fraction) → 0 < amount.1
        → ((floor_of amount *ℤ pos amount.1) ≤ℤ amount.0)
        × (amount.0 <ℤ ((floor_of amount +ℤ pos 1) *ℤ pos amount.1)) }
    ensures given { (amounts : List Fraction) (whole : ℤ) → All (λ amount. 0 < amount.1) amounts
        → IsQuotient (sum_of_fractions amounts) whole 1
        → (k : ℕ) × (cents_left amounts whole ≡ pos k)
        × (count_by (λ place. nat_lt (places_before amounts place) k)
        (range_with_len 0 (length amounts)) ≡ k) }
    ensures greatest { (amounts : List Fraction) → All (λ amount. 0 < amount.1) amounts → (i j : ℕ)
        → j < length amounts → places_before amounts i < places_before amounts j
        → ((remainder_of (amount_at amounts j)).0 *ℤ pos (amount_at amounts i).1)
        ≤ℤ ((remainder_of (amount_at amounts i)).0 *ℤ pos (amount_at amounts j).1) }
{}

/// When members pay the cent plan of envy-free prices, taken over the members in order, nobody envies another by more than
/// one cent.
pub fn cent_envy_law()
    ensures { (case : RentCase) (k : ℕ) (rooms : List ℕ) (prices : List Fraction) (parts : List ℤ)
        (whole : ℤ) (pays : List ℤ) → 1 ≤ k → IsAssignment case rooms → HasParts prices k parts
        → IsEnvyFree case k rooms parts → IsCentPlan (prices_by_member rooms prices) whole pays
        → (member other : ℕ) → member < room_count case → other < room_count case
        → (value case member (slice_index rooms other) -ℤ slice_index_or pays other (pos 0))
        ≤ℤ (value case member (slice_index rooms member) -ℤ slice_index_or pays member (pos 0)
        +ℤ pos 1) }
{}

/// Worked plans: an odd rent of two halves, and thirds of which one is below 0.
pub fn worked_plans_law()
    ensures halves { cent_plan ((pos 1101, 2) ∷ (pos 901, 2) ∷ []) (pos 1001)
        ≡ pos 551 ∷ pos 450 ∷ [] }
    ensures thirds { cent_plan ((pos 800, 3) ∷ (negsuc 99, 3) ∷ (pos 200, 3) ∷ []) (pos 300)
        ≡ pos 267 ∷ negsuc 32 ∷ pos 66 ∷ [] }
{}

/// Taking away the other's good to which a player gives the most points ends that player's envy exactly when taking away some good does.
pub fn ef1_law()
    ensures { (case : GoodsCase) (owners : List ℕ) (player other best : ℕ)
        → IsMostValued case player (goods_of owners other) best
        → (EndsEnvy case owners player other best
        ↔ ((good : ℕ) × Contains (goods_of owners other) good
        × EndsEnvy case owners player other good)) }
{}

/// An allocation of maximum Nash welfare is envy-free up to one good (Caragiannis and others 2016, theorem 3.2): a player who envies another
/// stops once the other loses the good to which they give the most points. So its table of answers has no `Fails`.
pub fn one_good_law()
    ensures up_to_one_good { (case : GoodsCase) (owners : List ℕ) → HasMaximumWelfare case owners
        → IsEnvyFreeUpToOneGood case (owners_by_good case owners) }
    ensures no_fails { (case : GoodsCase) (owners : List ℕ)
        (table : List (ArrayVec Ef1 MEMBER_ROOM (Unit {0}))) → HasMaximumWelfare case owners
        → IsEf1Table case (owners_by_good case owners) table → HasNoFails table }
{
    search_order_law();
    owners_by_good_law();
}

/// The definitions applied to a worked case: with the best owners, one of the two players who want only the contested good envies the other,
/// until it is taken away. If the first player has both goods, the third player's envy remains after any one good is taken away. The product
/// over all three is 0 in that allocation, as in every other, so it is the count of players with points that keeps its welfare from being the
/// maximum.
pub fn worked_envy_law()
    ensures envy { Envies contested_good (1 ∷ 3 ∷ []) 2 1 }
    ensures ended { EndsEnvy contested_good (1 ∷ 3 ∷ []) 2 1 1 }
    ensures past { IsEnvyFreeUpToOneGood contested_good (1 ∷ 1 ∷ []) → ⊥ }
    ensures no_maximum { HasMaximumWelfare contested_good (1 ∷ 1 ∷ []) → ⊥ }
{
    worked_goods_law();
}
