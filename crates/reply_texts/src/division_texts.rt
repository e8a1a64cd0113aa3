// The texts of a host's replies that tell a division, as JSON.
ghost use Rattle.std.specs.Prelude.{◌≡◌, ◌≤◌, All, decimal, length, map, pos, IfOk};
ghost use Rattle.std.specs.List.{range_with_len};
ghost use Rattle.serde_json.specs.View.{view};
ghost use Rattle.bid_rules.specs.Cents.{cent_plan};
ghost use Rattle.bid_rules.specs.Facts.{IsValidCase, IsValidFareCase};
ghost use Rattle.bid_rules.specs.Goods.{AreOwners, IsValidGoodsCase, player_count};
ghost use Rattle.bid_rules.specs.Rent.{IsValidRentCase};
ghost use Rattle.bid_rules.specs.declared.limits.TheConstants.{ITEM_ROOM, MEMBER_ROOM};
ghost use Rattle.certificates.specs.Division.{IsDivisionOf};
ghost use Rattle.envy_check.specs.Goods.{goods_of, points_for};
ghost use Rattle.nash_search.specs.Division.{IsGoodsDivision};
ghost use Rattle.rent_maximin.specs.Division.{IsRentDivision};
ghost use Rattle.shapley_core.specs.Division.{IsFareDivision};
ghost use Rattle.split_frac.specs.Frac.{fraction_of};
ghost use Rattle.reply_texts.specs.Divisions.{IsDivisionText, member_of, of_fares, of_goods, of_rent};
ghost use Rattle.reply_texts.specs.Values.{list_by, of_number, of_text};

use crate::values::{cents, fraction, fractions, numbers, written};
use arrayvec::ArrayVec;
use best_laws::orders_law;
use bid_rules::limits::{ITEM_ROOM, MEMBER_ROOM};
use bid_rules::{Case, FareCase, GoodsCase, RentCase};
use certificates::{Division, rent_pays};
use envy_check::{cent_plan, points_of};
use nash_search::GoodsDivision;
use rent_maximin::RentDivision;
use serde_json::{Value, json};
use shapley_core::FareDivision;
use split_base::NoMemory;
use std::alloc::{AllocError, Global};

// A rent as JSON, with the payments in whole cents beside the exact prices.
#[tactic(auto, unfolding(crate::specs::Divisions::of_rent))]
fn rent_value(alloc: Global, case: &RentCase, division: &RentDivision) -> Result<Value, AllocError>
    requires case { IsValidRentCase case.now }
    requires division { IsRentDivision case.now division.now }
    ensures { IfOk result (λ v. view v ≡ of_rent case.now division.now) }
{
    let plan = rent_pays(case, division);
    json!(in alloc; {
        "kind": "rent", "least": fraction(alloc, &division.least)?, "pays": cents(alloc, plan.as_slice())?,
        "prices": fractions(alloc, division.prices.as_slice())?, "rooms": numbers(alloc, division.best.rooms.as_slice())?
    })
}

// The numbers of members of some players or riders, in their order.
fn members_of(who: &[u8], players: &[u8]) -> ArrayVec<u8, ITEM_ROOM>
    requires few { length players.now ≤ ITEM_ROOM }
    requires players { All (λ player. (1 ≤ player) × (player ≤ length who.now)) players.now }
    ensures { result.items ≡ map (member_of who.now) players.now }
{
    let mut members = ArrayVec::new();
    for player in players {
        members.push(who[*player as usize - 1]);
    }
    members
}

// Players are numbered among those who bid, but readers know the members of the case.
fn members_value(alloc: Global, who: &[u8], players: &[u8]) -> Result<Value, AllocError>
    requires few { length players.now ≤ ITEM_ROOM }
    requires players { All (λ player. (1 ≤ player) × (player ≤ length who.now)) players.now }
    ensures { IfOk result (λ v. view v ≡ list_by of_number (map (member_of who.now) players.now)) }
{
    let members = members_of(who, players);
    numbers(alloc, members.as_slice())
}

// A product of utilities, which may be greater than a number of JSON: as a text.
fn product_value(alloc: Global, product: u128) -> Result<Value, AllocError>
    ensures { IfOk result (λ v. view v ≡ of_text (decimal product)) }
{
    Ok(Value::String(product.to_string(alloc)?))
}

// By player the points of their own goods.
fn points_value(alloc: Global, case: &GoodsCase, owners: &[u8]) -> Result<Value, AllocError>
    requires case { IsValidGoodsCase case.now }
    requires each { length owners.now ≡ case.now.facts.goods }
    ensures { IfOk result (λ v.
        view v
        ≡ list_by (λ player. of_number (points_for case.now player (goods_of owners.now player)))
        (range_with_len 1 (player_count case.now))) }
{
    let mut list = Vec::new(alloc);
    for place in 0..case.values.len() as u8 {
        let player = place + 1;
        list.push(Value::from(points_of(case, owners, player, player)))?;
    }
    Ok(Value::Array(list))
}

// By player the points of the goods that a division gives them.
fn won_value(alloc: Global, case: &GoodsCase, division: &GoodsDivision) -> Result<Value, AllocError>
    requires case { IsValidGoodsCase case.now }
    requires each { length division.now.owners.items ≡ case.now.facts.goods }
    ensures { IfOk result (λ v.
        view v
        ≡ list_by
        (λ player.
        of_number (points_for case.now player (goods_of division.now.owners.items player)))
        (range_with_len 1 (player_count case.now))) }
{
    points_value(alloc, case, division.owners.as_slice())
}

// Goods as JSON, with the steps of the search, which everyone can count again.
#[tactic(auto, unfolding(crate::specs::Divisions::of_goods))]
fn goods_value(
    alloc: Global,
    case: &GoodsCase,
    division: &GoodsDivision,
) -> Result<Value, AllocError>
    requires case { IsValidGoodsCase case.now }
    requires division { IsGoodsDivision case.now division.now }
    ensures { IfOk result (λ v. view v ≡ of_goods case.now division.now) }
{
    json!(in alloc; {
        "count": division.pair.count, "kind": "goods",
        "owners": members_value(alloc, case.who.as_slice(), division.owners.as_slice())?,
        "players": numbers(alloc, case.who.as_slice())?,
        "points": won_value(alloc, case, division)?, "product": product_value(alloc, division.pair.product)?, "steps": division.steps
    })
}

// What each rider pays, in whole cents.
fn fare_pays(case: &FareCase, division: &FareDivision) -> ArrayVec<i64, MEMBER_ROOM>
    requires case { IsValidFareCase case.now }
    requires division { IsFareDivision case.now division.now }
    ensures { result.items
        ≡ cent_plan (map fraction_of division.now.fares.items) (pos division.now.total) }
{
    cent_plan(division.fares.as_slice(), i64::from(division.total))
}

// Fares as JSON, with the payments in whole cents beside the exact fares.
#[tactic(auto, unfolding(crate::specs::Divisions::of_fares))]
fn fares_value(alloc: Global, case: &FareCase, division: &FareDivision) -> Result<Value, AllocError>
    requires case { IsValidFareCase case.now }
    requires division { IsFareDivision case.now division.now }
    ensures { IfOk result (λ v. view v ≡ of_fares case.now division.now) }
{
    orders_law();
    let plan = fare_pays(case, division);
    json!(in alloc; {
        "fares": fractions(alloc, division.fares.as_slice())?, "kind": "fares", "pays": cents(alloc, plan.as_slice())?,
        "riders": numbers(alloc, case.who.as_slice())?,
        "route": members_value(alloc, case.who.as_slice(), division.route.as_slice())?, "total": division.total
    })
}

// The object of a rent as bytes.
fn rent_text(alloc: Global, case: &RentCase, division: &RentDivision) -> Result<Vec<u8>, AllocError>
    requires case { IsValidRentCase case.now }
    requires division { IsRentDivision case.now division.now }
    ensures { IfOk result (λ text.
        IsDivisionText (Case.Rent case.now) (Division.Rent division.now) text.items) }
{
    let value = rent_value(alloc, case, division)?;
    written(alloc, &value)
}

// The object of goods as bytes.
fn goods_text(
    alloc: Global,
    case: &GoodsCase,
    division: &GoodsDivision,
) -> Result<Vec<u8>, AllocError>
    requires case { IsValidGoodsCase case.now }
    requires division { IsGoodsDivision case.now division.now }
    ensures { IfOk result (λ text.
        IsDivisionText (Case.Goods case.now) (Division.Goods division.now) text.items) }
{
    let value = goods_value(alloc, case, division)?;
    written(alloc, &value)
}

// The object of fares as bytes.
fn fares_text(
    alloc: Global,
    case: &FareCase,
    division: &FareDivision,
) -> Result<Vec<u8>, AllocError>
    requires case { IsValidFareCase case.now }
    requires division { IsFareDivision case.now division.now }
    ensures { IfOk result (λ text.
        IsDivisionText (Case.Fares case.now) (Division.Fares division.now) text.items) }
{
    let value = fares_value(alloc, case, division)?;
    written(alloc, &value)
}

// A division is of its case's kind, so no other pair comes here.
fn text_of(alloc: Global, case: &Case, division: &Division) -> Result<Vec<u8>, AllocError>
    requires case { IsValidCase case.now }
    requires division { IsDivisionOf case.now division.now }
    ensures { IfOk result (λ text. IsDivisionText case.now division.now text.items) }
{
    match (case, division) {
        (Case::Rent(case), Division::Rent(division)) => rent_text(alloc, case, division),
        (Case::Goods(case), Division::Goods(division)) => goods_text(alloc, case, division),
        (Case::Fares(case), Division::Fares(division)) => fares_text(alloc, case, division),
        _ => unreachable!(),
    }
}

/// The text of the division that the solver gives for the case: fractions and the product of utilities are texts, what each pays follows
/// the cent plan, and owners, players, riders and the route are numbers of members.
pub fn division_text(alloc: Global, case: &Case, division: &Division) -> Result<Vec<u8>, NoMemory>
    requires case { IsValidCase case.now }
    requires division { IsDivisionOf case.now division.now }
    ensures { IfOk result (λ text. IsDivisionText case.now division.now text.items) }
{
    match text_of(alloc, case, division) {
        Ok(text) => Ok(text),
        Err(_) => Err(NoMemory),
    }
}
