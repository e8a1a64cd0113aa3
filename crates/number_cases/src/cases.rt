// Turns the caller's numbers into a case, or names the field that is refused.
ghost use Rattle.std.specs.Prelude.{◌≡◌, ◌≤◌, MatchOption, MatchResult};
ghost use Rattle.bid_rules.specs.declared.limits.TheConstants.{MOST_GOODS, MOST_MEMBERS, MOST_PLACES};
ghost use Rattle.number_cases.specs.Cases.{AreFare, AreGoods, AreRent, HasLegs, HasRiders, facts_in, fare_in, goods_in, rent_in, with_riders};
ghost use Rattle.number_cases.specs.Fields.{IsFareField, IsGoodsField, IsRentField};

use crate::rows::{leg_rows, list_of, value_rows};
use bid_rules::limits::{
    FEWEST_MEMBERS, MOST_FARE_CENTS, MOST_GOODS, MOST_MEMBERS, MOST_PLACES, MOST_RENT, MOST_RIDERS,
    MOST_STEPS,
};
use bid_rules::{FareCase, Fares, Goods, GoodsCase, Rent, RentCase, check_fares};
use body_fields::FieldName;

/// The valid case of a rent that the numbers are, or the first field that breaks its rule.
pub fn rent_case(members: u32, rent: u32, values: &[u32]) -> Result<RentCase, FieldName>
    ensures { MatchResult result
        (λ case. AreRent members rent values.now × (case ≡ rent_in members rent values.now))
        (λ field. (AreRent members rent values.now → ⊥) × IsRentField members rent field) }
{
    if members < u32::from(FEWEST_MEMBERS) || members > u32::from(MOST_MEMBERS) {
        return Err(FieldName::Members);
    }
    if rent < 1 || rent > MOST_RENT {
        return Err(FieldName::Rent);
    }
    match rent_with(members as u8, rent, values) {
        Some(case) => Ok(case),
        None => Err(FieldName::Bids),
    }
}

// The valid case with these values.
fn rent_with(members: u8, rent: u32, values: &[u32]) -> Option<RentCase>
    requires { members ≤ MOST_MEMBERS }
    ensures { MatchOption result (AreRent members rent values.now → ⊥) (λ case.
        AreRent members rent values.now × (case ≡ rent_in members rent values.now)) }
{
    let size = usize::from(members);
    if values.len() != size * size {
        return None;
    }
    let case = RentCase {
        facts: Rent { members, rent },
        values: value_rows(size, size, values),
    };
    if case.is_valid() { Some(case) } else { None }
}

/// The valid case of goods that the numbers are, or the first field that breaks its rule.
pub fn goods_case(
    goods: u32,
    limit: u32,
    who: &[u8],
    values: &[u32],
) -> Result<GoodsCase, FieldName>
    ensures { MatchResult result
        (λ case.
        AreGoods goods limit who.now values.now × (case ≡ goods_in goods limit who.now values.now))
        (λ field. (AreGoods goods limit who.now values.now → ⊥) × IsGoodsField goods limit field) }
{
    if goods < 1 || goods > u32::from(MOST_GOODS) {
        return Err(FieldName::Goods);
    }
    if limit < 1 || limit > MOST_STEPS {
        return Err(FieldName::Limit);
    }
    match goods_with(goods as u8, limit, who, values) {
        Some(case) => Ok(case),
        None => Err(FieldName::Bids),
    }
}

/// The valid case of goods with these players and values, if it is one.
pub fn goods_with(goods: u8, limit: u32, who: &[u8], values: &[u32]) -> Option<GoodsCase>
    requires { goods ≤ MOST_GOODS }
    ensures { MatchOption result (AreGoods goods limit who.now values.now → ⊥)
        (λ case.
        AreGoods goods limit who.now values.now
        × (case ≡ goods_in goods limit who.now values.now)) }
{
    if who.len() > usize::from(MOST_MEMBERS) || values.len() != who.len() * usize::from(goods) {
        return None;
    }
    let case = GoodsCase {
        facts: Goods {
            members: MOST_MEMBERS,
            goods,
            limit,
        },
        who: list_of(who),
        values: value_rows(who.len(), usize::from(goods), values),
    };
    if case.is_valid() { Some(case) } else { None }
}

/// The valid case of a fare that the numbers are, or the first field that breaks its rule.
pub fn fare_case(
    places: u32,
    flag: u32,
    legs: &[u32],
    who: &[u8],
    at: &[u8],
) -> Result<FareCase, FieldName>
    ensures { MatchResult result
        (λ case.
        AreFare places flag legs.now who.now at.now
        × (case ≡ fare_in places flag legs.now who.now at.now))
        (λ field.
        (AreFare places flag legs.now who.now at.now → ⊥)
        × IsFareField places flag legs.now field) }
{
    if places < 1 || places > u32::from(MOST_PLACES) {
        return Err(FieldName::Places);
    }
    if flag > MOST_FARE_CENTS {
        return Err(FieldName::Flag);
    }
    let Some(facts) = facts_with(places as u8, flag, legs) else {
        return Err(FieldName::Legs);
    };
    match fare_with(facts, who, at) {
        Some(case) => Ok(case),
        None => Err(FieldName::Bids),
    }
}

// The checked facts with these legs.
fn facts_with(places: u8, flag: u32, legs: &[u32]) -> Option<Fares>
    requires { places ≤ MOST_PLACES }
    ensures { MatchOption result (HasLegs places flag legs.now → ⊥) (λ facts.
        HasLegs places flag legs.now × (facts ≡ facts_in places flag legs.now)) }
{
    let size = usize::from(places);
    if legs.len() != (size + 1) * size {
        return None;
    }
    let facts = Fares {
        members: MOST_RIDERS,
        places,
        flag,
        legs: leg_rows(size + 1, size, legs),
    };
    if check_fares(&facts).is_ok() {
        Some(facts)
    } else {
        None
    }
}

// The valid case with these riders.
fn fare_with(facts: Fares, who: &[u8], at: &[u8]) -> Option<FareCase>
    ensures { MatchOption result (HasRiders facts who.now at.now → ⊥) (λ case.
        HasRiders facts who.now at.now × (case ≡ with_riders facts who.now at.now)) }
{
    if who.len() > usize::from(MOST_RIDERS) || at.len() > usize::from(MOST_RIDERS) {
        return None;
    }
    let case = FareCase {
        facts,
        who: list_of(who),
        at: list_of(at),
    };
    if case.is_valid() { Some(case) } else { None }
}
