// The facts and the case of a rent, and their limits.
ghost use Rattle.std.specs.Prelude.{◌≡◌, ℕ, pos, ◌-◌, ◌<◌, ◌≤◌, ◌≤ℤ◌, ◌↔◌, IsErrOf, IsOk, IsTrue, MatchResult};
ghost use Rattle.bid_rules.specs.declared.bids.BidFault.TheVariants.{Count, Range};
ghost use Rattle.bid_rules.specs.Rent.{HasMembers, HasRent, IsCheckedRent, IsFaultOfRent, IsValidRentCase, room_count, value};

use crate::BidFault;
use crate::limits::{FEWEST_MEMBERS, MOST_MEMBERS, MOST_RENT, ValueTable};
use crate::spread::check_spread;

/// The facts of a rent, with a room for each member. Money is in cents.
#[derive(Debug, Drop, PartialEq, Eq)]
pub struct Rent {
    /// How many members share the rent, `FEWEST_MEMBERS` to `MOST_MEMBERS`. There are as many rooms.
    pub members: u8,
    /// The rent in cents, 1 to `MOST_RENT`.
    pub rent: u32,
}

/// A rent to be shared: its facts, and what each member would pay for each room.
///
/// The values are in cents, by member and by room. Each member's values sum to the rent.
#[derive(Debug, Drop, PartialEq, Eq)]
pub struct RentCase {
    /// The rent and the number of members.
    pub facts: Rent,
    /// By member and by room, what the member would pay for the room, in cents.
    pub values: ValueTable,
}

impl RentCase {
    /// Whether the facts are within their limits, and each member has a value for each room, which sum to the rent.
    pub fn is_valid(&self) -> bool
        ensures { IsTrue result ↔ IsValidRentCase self.now }
    {
        let members = self.facts.members;
        let rent = self.facts.rent;
        check_rent(&self.facts).is_ok()
            && self.values.len() == usize::from(members)
            && self
                .values
                .iter()
                .all(|row| check_spread(members, rent, row.as_slice()).is_ok())
    }

    /// What a member would pay for a room, both numbered from 1, in cents.
    pub fn value(&self, member: u8, room: u8) -> u32
        requires case { IsValidRentCase self.now }
        requires member_low { 1 ≤ member }
        requires member_high { member ≤ room_count self.now }
        requires room_low { 1 ≤ room }
        requires room_high { room ≤ room_count self.now }
        ensures value { pos result ≡ value self.now (member - 1) room }
        ensures small { result ≤ MOST_RENT }
    {
        self.values[member as usize - 1][room as usize - 1]
    }
}

/// Whether the facts are within their limits, or else their first fault.
///
/// `Count` if there are too few or too many members, otherwise `Range` with place 0 if the rent is not 1 to `MOST_RENT`.
pub fn check_rent(facts: &Rent) -> Result<(), BidFault>
    ensures fault { MatchResult result (λ _. IsCheckedRent facts.now) (IsFaultOfRent facts.now) }
    ensures accepted { IsOk result ↔ IsCheckedRent facts.now }
    ensures count { IsErrOf result Count ↔ (HasMembers facts.now → ⊥) }
    ensures range { IsErrOf result (Range 0) ↔ HasMembers facts.now × (HasRent facts.now → ⊥) }
{
    if !(FEWEST_MEMBERS..=MOST_MEMBERS).contains(&facts.members) {
        return Err(BidFault::Count);
    }
    if !(1..=MOST_RENT).contains(&facts.rent) {
        return Err(BidFault::Range { place: 0 });
    }
    Ok(())
}

/// Each value of a valid case is from 0 to the rent. This law is the contract of a function that does nothing.
pub fn rent_value_law()
    ensures low { (case : RentCase) (member room : ℕ) → pos 0 ≤ℤ value case member room }
    ensures high { (case : RentCase) (member room : ℕ) → IsValidRentCase case
        → member < room_count case → value case member room ≤ℤ pos case.facts.rent }
{}
