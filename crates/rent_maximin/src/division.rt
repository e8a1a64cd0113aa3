// The best division of a rent, with all numbers that its certificate needs.
ghost use Rattle.bid_rules.specs.Rent.{IsValidRentCase};
ghost use Rattle.rent_maximin.specs.Division.{IsRentDivision};

use crate::prices::{least_of, prices_of};
use arrayvec::ArrayVec;
use best_laws::{best_rent_law, formula_law, price_range_law, shown_rent_law, walk_law};
use bid_rules::RentCase;
use bid_rules::limits::MEMBER_ROOM;
use room_assignment::{Rooms, Walks, best_rooms, value_walks};
use split_frac::{Frac, make, value_law};

/// The division of a rent, with the numbers that show that it is the best. Money is in cents.
#[derive(Drop)]
pub struct RentDivision {
    /// The rooms by member, and the dual numbers over the keys.
    pub best: Rooms,
    /// The price of each room, which may be negative.
    pub prices: ArrayVec<Frac, MEMBER_ROOM>,
    /// The least utility of a member.
    pub least: Frac,
    /// The longest walks over the values, by member.
    pub walks: Walks,
}

/// The rooms and prices by the maximin rule (Gal, Mash, Procaccia and Zick 2016).
///
/// They are envy-free, and no envy-free prices of any denominator have a greater least utility; among those with an equal one,
/// the list of rooms is the first. A member's utility is the least utility plus the greatest weight of a walk that ends at the
/// member.
pub fn solve_rent(case: &RentCase) -> RentDivision
    requires { IsValidRentCase case.now }
    ensures division { IsRentDivision case.now result }
{
    best_rent_law();
    formula_law();
    price_range_law();
    shown_rent_law();
    walk_law();
    value_law();
    let best = best_rooms(case);
    let walks = value_walks(case, best.rooms.as_slice());
    let least = least_of(case, best.rooms.as_slice(), walks.weights.as_slice());
    let prices = prices_of(case, best.rooms.as_slice(), walks.weights.as_slice(), least);
    RentDivision {
        best,
        prices,
        least: make(least, u64::from(case.facts.members)),
        walks,
    }
}
