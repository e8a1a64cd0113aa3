// Cases of any kind, and which case facts and bids make.
ghost use Rattle.std.specs.Prelude.{◌≡◌, ◌≤◌, ◌↔◌, length, All, IfOk, IfSome, IsErr, IsNone, IsSome, IsTrue, is_some, is_none, false, true};
ghost use Rattle.std.specs.List.{filter_map, list_all};
ghost use Rattle.bid_rules.specs.Facts.{AreMissing, ArePointsOf, AreValuesOf, IsCheckedBid, IsCheckedFacts, IsCheckedFares, IsPlaceOf, IsValidCase, IsValidFareCase, case_of, fare_case, goods_case, member_count, members_where, place_named, rent_case, values_given};
ghost use Rattle.bid_rules.specs.Goods.{IsCheckedGoods, IsValidGoodsCase};
ghost use Rattle.bid_rules.specs.Rent.{IsCheckedRent, IsValidRentCase};

use crate::goods::are_members;
use crate::limits::{MEMBER_ROOM, MemberList, RIDER_ROOM, RiderList, ValueTable, Values};
use crate::{Bid, Facts, Fares, Goods, GoodsCase, Rent, RentCase, check_fares};
use arrayvec::ArrayVec;

/// A fare shared by the members who have bid. They are its riders, numbered from 1 in the order of `who`.
#[derive(Debug, Drop, PartialEq, Eq)]
pub struct FareCase {
    /// What the flag fall and the legs cost, in cents.
    pub facts: Fares,
    /// By rider, the number of the member, from 1, in rising order.
    pub who: RiderList,
    /// By rider, the place, from 1, at which the rider gets off.
    pub at: RiderList,
}

impl FareCase {
    /// Whether the facts are within their limits, the riders are members in rising order, at least one, and each names a place.
    pub fn is_valid(&self) -> bool
        ensures { IsTrue result ↔ IsValidFareCase self.now }
    {
        let places = self.facts.places;
        check_fares(&self.facts).is_ok()
            && are_members(self.facts.members, self.who.as_slice())
            && self.at.len() == self.who.len()
            && self.at.iter().all(|place| (1..=places).contains(place))
    }
}

/// A case to be divided, by kind.
#[derive(Debug, Drop, PartialEq, Eq)]
pub enum Case {
    /// A shared rent, on which all members have bid.
    Rent(RentCase),
    /// Goods to be shared among the members who have bid.
    Goods(GoodsCase),
    /// A shared fare of the members who have bid.
    Fares(FareCase),
}

/// Bids are missing, so there is no case.
#[derive(Debug, Drop, PartialEq, Eq)]
pub struct Missing {
    /// The members without a bid, numbered from 1, in rising order.
    pub members: MemberList,
}

/// The case that checked facts and checked bids make. There is an entry in `bids` for each member, which is `None` if the
/// member has not bid.
///
/// For a rent, all members must bid: if anyone has not, there is no case. For goods the members who bid are the players, and
/// for fares they are the riders, so there is no case only if nobody has bid. The error lists the members without a bid.
pub fn make_case(facts: &Facts, bids: &[Option<Bid>]) -> Result<Case, Missing>
    requires facts { IsCheckedFacts facts.now }
    requires count { length bids.now ≡ member_count facts.now }
    requires bids { All (λ bid. IfSome bid (IsCheckedBid facts.now)) bids.now }
    ensures case { result ≡ case_of facts.now bids.now }
    ensures valid { IfOk result IsValidCase }
    ensures missing { IsErr result ↔ AreMissing facts.now bids.now }
{
    match facts {
        Facts::Rent(rent) if has_all_bids(bids) => Ok(Case::Rent(make_rent_case(rent, bids))),
        Facts::Goods(goods) if !has_no_bid(bids) => Ok(Case::Goods(make_goods_case(goods, bids))),
        Facts::Fares(fares) if !has_no_bid(bids) => Ok(Case::Fares(make_fare_case(fares, bids))),
        _ => Err(Missing {
            members: members_without(bids),
        }),
    }
}

// A rent needs a bid from every member.
fn has_all_bids(bids: &[Option<Bid>]) -> bool
    ensures value { result ≡ list_all is_some bids.now }
    ensures all { IsTrue result ↔ All (λ bid. IsSome bid) bids.now }
{
    bids.iter().all(|bid| bid.is_some())
}

// The case of all members, each with their values.
fn make_rent_case(rent: &Rent, bids: &[Option<Bid>]) -> RentCase
    requires rent { IsCheckedRent rent.now }
    requires count { length bids.now ≡ rent.now.members }
    requires bids { All (λ bid. IfSome bid (AreValuesOf rent.now)) bids.now }
    requires all { list_all is_some bids.now ≡ true }
    ensures case { result ≡ rent_case rent.now bids.now }
    ensures valid { IsValidRentCase result }
{
    RentCase {
        facts: Rent {
            members: rent.members,
            rent: rent.rent,
        },
        values: values_of(bids),
    }
}

// The values that the bids give, in the order of the members.
fn values_of(bids: &[Option<Bid>]) -> ValueTable
    requires { length bids.now ≤ MEMBER_ROOM }
    ensures { result.items ≡ filter_map values_given bids.now }
{
    let mut values = ArrayVec::new();
    for bid in bids {
        if let Some(given) = copied_values(bid) {
            values.push(given);
        }
    }
    values
}

// A case keeps values of its own, since the bids belong to the caller.
fn copied_values(bid: &Option<Bid>) -> Option<Values>
    ensures { result ≡ values_given bid.now }
{
    match bid {
        Some(Bid::Values(values)) => Some(ArrayVec::try_from(values.as_slice()).unwrap()),
        _ => None,
    }
}

// Without any bid there is nothing to divide.
fn has_no_bid(bids: &[Option<Bid>]) -> bool
    ensures value { result ≡ list_all is_none bids.now }
    ensures none { IsTrue result ↔ All (λ bid. IsNone bid) bids.now }
{
    bids.iter().all(|bid| bid.is_none())
}

// The case of those who bid, each with their points.
fn make_goods_case(goods: &Goods, bids: &[Option<Bid>]) -> GoodsCase
    requires goods { IsCheckedGoods goods.now }
    requires count { length bids.now ≡ goods.now.members }
    requires bids { All (λ bid. IfSome bid (ArePointsOf goods.now)) bids.now }
    requires some { list_all is_none bids.now ≡ false }
    ensures case { result ≡ goods_case goods.now bids.now }
    ensures valid { IsValidGoodsCase result }
{
    GoodsCase {
        facts: Goods {
            members: goods.members,
            goods: goods.goods,
            limit: goods.limit,
        },
        who: members_with(bids),
        values: values_of(bids),
    }
}

// The case of those who bid, each with their place.
fn make_fare_case(fares: &Fares, bids: &[Option<Bid>]) -> FareCase
    requires fares { IsCheckedFares fares.now }
    requires count { length bids.now ≡ fares.now.members }
    requires bids { All (λ bid. IfSome bid (IsPlaceOf fares.now)) bids.now }
    requires some { list_all is_none bids.now ≡ false }
    ensures case { result ≡ fare_case fares.now bids.now }
    ensures valid { IsValidFareCase result }
{
    FareCase {
        facts: fares.copied(),
        who: members_with(bids),
        at: places_of(bids),
    }
}

// The members who have a bid.
fn members_with<const N: usize>(bids: &[Option<Bid>]) -> ArrayVec<u8, N>
    requires few { length bids.now ≤ MEMBER_ROOM }
    requires room { length bids.now ≤ N }
    ensures { result.items ≡ members_where is_some bids.now }
{
    let mut who = ArrayVec::new();
    for (k, bid) in bids.iter().enumerate() {
        if bid.is_some() {
            who.push(k as u8 + 1);
        }
    }
    who
}

// The members who lack a bid.
fn members_without(bids: &[Option<Bid>]) -> MemberList
    requires { length bids.now ≤ MEMBER_ROOM }
    ensures { result.items ≡ members_where is_none bids.now }
{
    let mut missing = ArrayVec::new();
    for (k, bid) in bids.iter().enumerate() {
        if bid.is_none() {
            missing.push(k as u8 + 1);
        }
    }
    missing
}

// The places that the bids name, by rider.
fn places_of(bids: &[Option<Bid>]) -> RiderList
    requires { length bids.now ≤ RIDER_ROOM }
    ensures { result.items ≡ filter_map place_named bids.now }
{
    let mut places = ArrayVec::new();
    for bid in bids {
        if let Some(place) = place_of(bid) {
            places.push(place);
        }
    }
    places
}

// Where a rider gets off; a member without a bid does not ride.
fn place_of(bid: &Option<Bid>) -> Option<u8>
    ensures { result ≡ place_named bid.now }
{
    match bid {
        Some(Bid::Place(place)) => Some(*place),
        _ => None,
    }
}
