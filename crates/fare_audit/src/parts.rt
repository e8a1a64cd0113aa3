// Fares and excesses in whole parts of a cent, all over one denominator.
ghost use Rattle.std.specs.Prelude.{◌≡◌, ◌+◌, ◌*◌, ◌<◌, ◌≤◌, ◌^◌, length, map, All, unsigned_abs};
ghost use Rattle.std.specs.List.{AllZip};
ghost use Rattle.bid_rules.specs.Coalitions.{riders_in};
ghost use Rattle.bid_rules.specs.Fractions.{IsQuotient};
ghost use Rattle.bid_rules.specs.Orders.{factorial as orders_of};
ghost use Rattle.bid_rules.specs.Sums.{total};
ghost use Rattle.split_frac.specs.Frac.{fraction_of};
ghost use Rattle.fare_audit.specs.Parts.{IsInParts, IsSmallPart, excess_in_parts, part_at};

use arrayvec::ArrayVec;
use best_laws::coalition_law;
use bid_rules::limits::{MOST_FARE_CENTS, MOST_RIDERS, RIDER_ROOM};
use fare_routes::Costs;
use set_costs::riders_of_set;
use split_frac::Frac;

/// Whole parts of a cent, by rider.
pub(crate) type PartList = ArrayVec<i128, RIDER_ROOM>;

// A fare in parts.
fn part_of(fare: &Frac, denominator: u64) -> i128
    requires fare { IsInParts denominator fare.now }
    requires some { 0 < denominator }
    requires few { denominator ≤ orders_of MOST_RIDERS }
    ensures value { IsQuotient (fraction_of fare.now) result denominator }
    ensures small { IsSmallPart result }
{
    fare.num * i128::from(denominator / fare.den)
}

// The fares in parts.
pub(crate) fn parts_of(fares: &[Frac], denominator: u64) -> PartList
    requires count { length fares.now ≤ RIDER_ROOM }
    requires fares { All (IsInParts denominator) fares.now }
    requires some { 0 < denominator }
    requires few { denominator ≤ orders_of MOST_RIDERS }
    ensures parts { AllZip (λ fare part. IsQuotient fare part denominator)
        (map fraction_of fares.now) result.items }
    ensures small { All IsSmallPart result.items }
{
    let mut parts = PartList::new();
    for fare in fares {
        parts.push(part_of(fare, denominator));
    }
    parts
}

// What some riders pay together, in parts.
fn paid_by(parts: &[i128], riders: &[u8]) -> i128
    requires small { All IsSmallPart parts.now }
    requires few { length riders.now ≤ MOST_RIDERS }
    requires riders { All (λ rider. (1 ≤ rider) × (rider ≤ length parts.now)) riders.now }
    ensures value { result ≡ total (part_at parts.now) riders.now }
    ensures size { unsigned_abs result
        ≤ MOST_FARE_CENTS * (MOST_RIDERS + 1) * orders_of MOST_RIDERS * MOST_RIDERS }
{
    let mut paid = 0;
    for rider in riders {
        paid += parts[usize::from(*rider) - 1];
    }
    paid
}

// The excess of a group, in parts.
pub(crate) fn excess_of(costs: &Costs, parts: &[i128], denominator: u64, set: u16) -> i128
    requires small { All IsSmallPart parts.now }
    requires count { length parts.now ≡ length costs.now.at.items }
    requires riders { length parts.now ≤ MOST_RIDERS }
    requires set { set < 2 ^ length parts.now }
    requires few { denominator ≤ orders_of MOST_RIDERS }
    ensures value { result ≡ excess_in_parts costs.now parts.now denominator set }
    ensures size { unsigned_abs result
        ≤ MOST_FARE_CENTS * (MOST_RIDERS + 1) * orders_of MOST_RIDERS * (MOST_RIDERS + 1) }
{
    coalition_law();
    let riders = riders_of_set(parts.len() as u8, set);
    let cost = i128::from(costs.cost_of(set)) * i128::from(denominator);
    paid_by(parts, riders.as_slice()) - cost
}
