// Facts and bids of any kind, and the first thing that is wrong with them.
ghost use Rattle.std.specs.Prelude.{◌↔◌, IsOk, MatchResult};
ghost use Rattle.bid_rules.specs.Facts.{IsCheckedBid, IsCheckedFacts, IsFaultOfBid};
ghost use Rattle.bid_rules.specs.FactFaults.{IsFaultOfFacts};

use crate::limits::{Values, WHOLE_POINTS};
use crate::spread::check_spread;
use crate::{Fares, Goods, Rent, check_fares, check_goods, check_rent};

/// The facts of a case, by kind: what is to be divided among how many members.
#[derive(Debug, Drop, PartialEq, Eq)]
pub enum Facts {
    /// A rent, and as many rooms as members.
    Rent(Rent),
    /// Goods, which are divided whole.
    Goods(Goods),
    /// A taxi fare: the flag fall and the legs.
    Fares(Fares),
}

/// What a member bids.
#[derive(Debug, Drop, PartialEq, Eq)]
pub enum Bid {
    /// What each room or good is worth to the member, in cents or points, by its number.
    Values(Values),
    /// The place, from 1, at which the member gets off.
    Place(u8),
}

/// The first thing that is wrong with facts or with a bid.
#[derive(Clone, Copy, Debug, PartialEq, Eq)]
pub enum BidFault {
    /// A count is outside its limits, a list is too short or too long, or the bid is of another kind than the facts.
    Count,
    /// The values of a bid sum to this number instead of to the rent or to 1000 points.
    Sum { got: u64 },
    /// A number is outside its limits: the one at this place, in the order of the facts.
    Range { place: u32 },
    /// A place, from 1, is at fault: a bid names it though the facts have no such place, or its leg to itself is not 0.
    Place { place: u32 },
}

/// Whether the facts are within their limits, or else their first fault. The rule depends on their kind and is that of
/// `check_rent`, `check_goods` or `check_fares`.
pub fn check_facts(facts: &Facts) -> Result<(), BidFault>
    ensures fault { MatchResult result (λ _. IsCheckedFacts facts.now) (IsFaultOfFacts facts.now) }
    ensures accepted { IsOk result ↔ IsCheckedFacts facts.now }
{
    match facts {
        Facts::Rent(rent) => check_rent(rent),
        Facts::Goods(goods) => check_goods(goods),
        Facts::Fares(fares) => check_fares(fares),
    }
}

/// Whether the checked facts allow the bid, or else the bid's first fault.
///
/// On a rent it is `Count` if the bid is not one value for each room, otherwise `Sum` with their sum if that is not the rent.
/// On goods it is `Count` if the bid is not one value for each good, otherwise `Sum` with their sum if that is not 1000.
/// On fares it is `Count` if the bid is not a place, otherwise `Place` with that place if it is not 1 to `places`.
pub fn check_bid(facts: &Facts, bid: &Bid) -> Result<(), BidFault>
    requires { IsCheckedFacts facts.now }
    ensures fault { MatchResult result (λ _. IsCheckedBid facts.now bid.now)
        (IsFaultOfBid facts.now bid.now) }
    ensures accepted { IsOk result ↔ IsCheckedBid facts.now bid.now }
{
    match (facts, bid) {
        (Facts::Rent(_), Bid::Place(_)) => Err(BidFault::Count),
        (Facts::Rent(rent), Bid::Values(values)) => {
            check_spread(rent.members, rent.rent, values.as_slice())
        }
        (Facts::Goods(_), Bid::Place(_)) => Err(BidFault::Count),
        (Facts::Goods(goods), Bid::Values(values)) => {
            check_spread(goods.goods, WHOLE_POINTS, values.as_slice())
        }
        (Facts::Fares(_), Bid::Values(_)) => Err(BidFault::Count),
        (Facts::Fares(fares), Bid::Place(place)) => {
            if *place < 1 || *place > fares.places {
                return Err(BidFault::Place {
                    place: u32::from(*place),
                });
            }
            Ok(())
        }
    }
}
