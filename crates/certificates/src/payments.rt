// What each member pays of a rent, in whole cents that add up to the rent.
ghost use Rattle.std.specs.Prelude.{◌≡◌, ◌≤◌, All, length, map, pos};
ghost use Rattle.bid_rules.specs.Cents.{cent_plan, prices_by_member};
ghost use Rattle.bid_rules.specs.Rent.{IsValidRentCase};
ghost use Rattle.bid_rules.specs.declared.limits.TheConstants.{MEMBER_ROOM};
ghost use Rattle.envy_check.specs.Envy.{IsAmount};
ghost use Rattle.rent_maximin.specs.Division.{IsRentDivision};
ghost use Rattle.split_frac.specs.Frac.{fraction_of};

use arrayvec::ArrayVec;
use best_laws::best_rent_law;
use bid_rules::RentCase;
use bid_rules::limits::MEMBER_ROOM;
use envy_check::cent_plan;
use rent_maximin::{RentDivision, division_range_law};
use split_frac::Frac;

// The price of each member's room, in the order of the members.
fn prices_of_members(rooms: &[u8], prices: &[Frac]) -> ArrayVec<Frac, MEMBER_ROOM>
    requires few { length rooms.now ≤ MEMBER_ROOM }
    requires rooms { All (λ room. (1 ≤ room) × (room ≤ length prices.now)) rooms.now }
    requires amounts { All IsAmount prices.now }
    ensures prices { map fraction_of result.items
        ≡ prices_by_member rooms.now (map fraction_of prices.now) }
    ensures amounts { All IsAmount result.items }
{
    let mut amounts = ArrayVec::new();
    for room in rooms {
        amounts.push(prices[*room as usize - 1]);
    }
    amounts
}

/// What each member pays of a rent, in whole cents: the cent plan of the members' exact prices, which sums to the rent.
pub fn rent_pays(case: &RentCase, division: &RentDivision) -> ArrayVec<i64, MEMBER_ROOM>
    requires case { IsValidRentCase case.now }
    requires division { IsRentDivision case.now division.now }
    ensures { result.items
        ≡ cent_plan
        (prices_by_member division.now.best.rooms.items (map fraction_of division.now.prices.items))
        (pos case.now.facts.rent) }
{
    best_rent_law();
    division_range_law();
    let rooms = division.best.rooms.as_slice();
    let prices = division.prices.as_slice();
    let amounts = prices_of_members(rooms, prices);
    cent_plan(amounts.as_slice(), i64::from(case.facts.rent))
}
