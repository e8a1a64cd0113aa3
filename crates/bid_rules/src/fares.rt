// The facts of a shared fare, and their limits.
ghost use Rattle.std.specs.Prelude.{◌≡◌, ℕ, ◌+◌, ◌*◌, ◌<◌, ◌≤◌, ◌↔◌, ◌∷◌, length, slice_index, All, IsTrue, IsOk, IsErrOf, MatchResult, MatchOption, IfSome};
ghost use Rattle.bid_rules.specs.declared.bids.BidFault.TheVariants.{Count, Range};
ghost use Rattle.bid_rules.specs.Facts.{HasShape, HasTable, IsCheckedFares, IsFaultOfFares, IsFirstAboveLimit, IsFirstOwnLeg, AreWithinLimit, leg, legs_in_order};

use crate::BidFault;
use crate::limits::{
    FEWEST_MEMBERS, LEG_ROW_ROOM, Legs, MOST_FARE_CENTS, MOST_PLACES, MOST_RIDERS, PLACE_ROOM,
};
use arrayvec::ArrayVec;

/// The facts of a shared fare. Money is in cents.
#[derive(Debug, Drop, PartialEq, Eq)]
pub struct Fares {
    /// How many members share the fare, `FEWEST_MEMBERS` to `MOST_RIDERS`.
    pub members: u8,
    /// At how many places a rider may get off, 1 to `MOST_PLACES`.
    pub places: u8,
    /// The flag fall, which is paid once before any leg, at most `MOST_FARE_CENTS`.
    pub flag: u32,
    /// What each leg costs, at most `MOST_FARE_CENTS`: a row from the origin, then a row from each place; each row has a leg to every
    /// place in order. The leg from a place to itself is 0.
    pub legs: Legs,
}

impl Fares {
    /// The cost in cents of the leg from the origin, which is 0, or from a place, to a place.
    pub fn leg(&self, from: u8, to: u8) -> u32
        requires facts { IsCheckedFares self.now }
        requires from { from ≤ self.now.places }
        requires to_low { 1 ≤ to }
        requires to_high { to ≤ self.now.places }
        ensures value { result ≡ leg self.now from to }
        ensures small { result ≤ MOST_FARE_CENTS }
    {
        self.legs[from as usize][to as usize - 1]
    }

    /// A copy of the facts.
    pub fn copied(&self) -> Fares
        requires { IsCheckedFares self.now }
        ensures { result ≡ self.now }
    {
        let mut legs = ArrayVec::new();
        for row in self.legs.as_slice() {
            legs.push(ArrayVec::try_from(row.as_slice()).unwrap());
        }
        Fares {
            members: self.members,
            places: self.places,
            flag: self.flag,
            legs,
        }
    }
}

// The counts and the table are tested before any amount, because the amounts are read by place.
fn has_shape(facts: &Fares) -> bool
    ensures { IsTrue result ↔ HasShape facts.now }
{
    (FEWEST_MEMBERS..=MOST_RIDERS).contains(&facts.members)
        && (1..=MOST_PLACES).contains(&facts.places)
        && has_table(facts)
}

// A row of legs from the origin and from each place, each with a leg to each place.
fn has_table(facts: &Fares) -> bool
    ensures { IsTrue result ↔ HasTable facts.now }
{
    let places = usize::from(facts.places);
    facts.legs.len() == places + 1 && facts.legs.iter().all(|row| row.len() == places)
}

// The index of the first number above the limit of cents.
fn first_above(row: &[u32]) -> Option<usize>
    ensures cases { MatchOption result (All (λ cents. cents ≤ MOST_FARE_CENTS) row.now)
        (IsFirstAboveLimit row.now) }
    ensures within { IfSome result (λ place. place < length row.now) }
{
    row.iter().position(|cents| *cents > MOST_FARE_CENTS)
}

// The number of legs before the first one above the limit of cents.
fn first_leg_above(facts: &Fares) -> Option<u32>
    ensures cases { MatchOption result
        (All (λ cents. cents ≤ MOST_FARE_CENTS) (legs_in_order facts.now))
        (IsFirstAboveLimit (legs_in_order facts.now)) }
    ensures small { IfSome result (λ place. place < LEG_ROW_ROOM * PLACE_ROOM) }
{
    let mut passed = 0;
    for row in facts.legs.as_slice() {
        if let Some(column) = first_above(row.as_slice()) {
            return Some(passed + column as u32);
        }
        passed += row.len() as u32;
    }
    None
}

// The first place whose leg to itself is not 0.
fn first_own_leg(facts: &Fares) -> Option<u8>
    requires { HasShape facts.now }
    ensures { MatchOption result ((p : ℕ) → 1 ≤ p → p ≤ facts.now.places → leg facts.now p p ≡ 0)
        (IsFirstOwnLeg facts.now) }
{
    for place in 1..=facts.places {
        if facts.legs[place as usize][place as usize - 1] != 0 {
            return Some(place);
        }
    }
    None
}

/// Whether the facts are within the limits, or else the first fault in this order:
///
/// - `Count` if there are too few or too many members or places, or the legs are not `places + 1` rows of `places` legs;
/// - `Range` with place 0 if the flag fall is above `MOST_FARE_CENTS`;
/// - `Range` with the place of the first leg above `MOST_FARE_CENTS`, row by row: the leg in `row` and `column`, each from 0, has the
///   place `1 + row * places + column` (`leg_place_law`);
/// - `Place` with the first place whose leg to itself is not 0.
pub fn check_fares(facts: &Fares) -> Result<(), BidFault>
    ensures fault { MatchResult result (λ _. IsCheckedFares facts.now) (IsFaultOfFares facts.now) }
    ensures accepted { IsOk result ↔ IsCheckedFares facts.now }
    ensures count { IsErrOf result Count ↔ (HasShape facts.now → ⊥) }
    ensures flag { IsErrOf result (Range 0)
        ↔ HasShape facts.now × (MOST_FARE_CENTS < facts.now.flag) }
{
    if !has_shape(facts) {
        return Err(BidFault::Count);
    }
    if facts.flag > MOST_FARE_CENTS {
        return Err(BidFault::Range { place: 0 });
    }
    if let Some(place) = first_leg_above(facts) {
        return Err(BidFault::Range { place: 1 + place });
    }
    if let Some(place) = first_own_leg(facts) {
        return Err(BidFault::Place {
            place: u32::from(place),
        });
    }
    Ok(())
}

/// The place of a leg in a fault: the flag fall has place 0, and the legs come after it, row by row. If the facts are within
/// the limit, so is every leg.
pub fn leg_place_law()
    ensures place { (facts : Fares) (row column : ℕ) → HasTable facts → row ≤ facts.places
        → column < facts.places
        → slice_index (facts.flag ∷ legs_in_order facts) (1 + row * facts.places + column)
        ≡ leg facts row (column + 1) }
    ensures count { (facts : Fares) → HasTable facts
        → length (legs_in_order facts) ≡ (facts.places + 1) * facts.places }
    ensures small { (facts : Fares) (from to : ℕ) → AreWithinLimit facts
        → leg facts from to ≤ MOST_FARE_CENTS }
{}
