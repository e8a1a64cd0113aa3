// The head of a case: its fields before the bids, in the order in which they are tested. Facts are checked as soon as one of
// their fields is read, with good values in place of those still to come, so that a fault must be due to the field read last.
ghost use Rattle.std.specs.Prelude.{◌≡◌, ◌≤◌, length, map, replicate, IfOk};
ghost use Rattle.std.specs.Result.{result_map_both};
ghost use Rattle.serde_json.specs.View.{view};
ghost use Rattle.bid_rules.specs.Facts.{IsCheckedFacts};
ghost use Rattle.split_json.specs.Reading.{fares_head, free_fares, goods_head, head_of_object, rent_head, goods_facts, rent_facts, fares_facts, shown_head};

use crate::held::{allowed, kind_of, legs_of, limit_of, names_of, number_of, title_of};
use crate::input::Head;
use crate::rules::Kind;
use arrayvec::ArrayVec;
use bid_rules::limits::{
    ITEM_ROOM, LegRow, Legs, MEMBER_ROOM, MOST_GOODS, MOST_PLACES, MOST_RENT, PLACE_ROOM,
    USUAL_STEPS,
};
use bid_rules::{Facts, Fares, Goods, Rent};
use body_fields::{FieldName, Name};
use serde_json::Value;

// The head that the body gives, or its first field whose rule is broken.
#[tactic(auto, unfolding(crate::specs::Reading::head_of_object))]
pub(crate) fn head_of_object(body: &Value) -> Result<Head, FieldName>
    ensures head { result_map_both shown_head (λ name. name) result
        ≡ head_of_object (view body.now) }
    ensures checked { IfOk result (λ head. IsCheckedFacts head.facts) }
{
    let kind = kind_of(body)?;
    let title = title_of(body)?;
    match kind {
        Kind::Rent => rent_head(body, title),
        Kind::Goods => goods_head(body, title),
        Kind::Fares => fares_head(body, title),
    }
}

// The number of members is tested before the rooms are read, since there must be exactly as many of them.
#[tactic(auto, unfolding(crate::specs::Reading::rent_head))]
fn rent_head(body: &Value, title: Name) -> Result<Head, FieldName>
    ensures head { result_map_both shown_head (λ name. name) result
        ≡ rent_head title.bytes (view body.now) }
    ensures checked { IfOk result (λ head. IsCheckedFacts head.facts) }
{
    let members = names_of(body, FieldName::Members, 0, MEMBER_ROOM)?;
    let count = name_count(&members);
    allowed(FieldName::Members, rent_facts(count, MOST_RENT))?;
    let many = usize::from(count);
    let rooms = names_of(body, FieldName::Rooms, many, many)?;
    let rent = number_of(body, FieldName::Rent)?;
    let facts = allowed(FieldName::Rent, rent_facts(count, rent))?;
    Ok(Head {
        title,
        members,
        items: rooms,
        facts,
    })
}

// How many names there are.
fn name_count<const N: usize>(names: &ArrayVec<Name, N>) -> u8
    requires { length names.now.items ≤ u8.MAX }
    ensures { result ≡ length (map (λ text. text.bytes) names.now.items) }
{
    names.len() as u8
}

// Facts made early, with the greatest rent, let the members be tested before the rent is read.
fn rent_facts(members: u8, rent: u32) -> Facts
    ensures { result ≡ rent_facts members rent }
{
    Facts::Rent(Rent { members, rent })
}

// Each count is tested as soon as it's known, so that the first field at fault is the one that is named.
#[tactic(auto, unfolding(crate::specs::Reading::goods_head))]
fn goods_head(body: &Value, title: Name) -> Result<Head, FieldName>
    ensures head { result_map_both shown_head (λ name. name) result
        ≡ goods_head title.bytes (view body.now) }
    ensures checked { IfOk result (λ head. IsCheckedFacts head.facts) }
{
    let members = names_of(body, FieldName::Members, 0, MEMBER_ROOM)?;
    let count = name_count(&members);
    allowed(
        FieldName::Members,
        goods_facts(count, MOST_GOODS, USUAL_STEPS),
    )?;
    let goods = names_of(body, FieldName::Goods, 0, ITEM_ROOM)?;
    let many = name_count(&goods);
    allowed(FieldName::Goods, goods_facts(count, many, USUAL_STEPS))?;
    let limit = limit_of(body)?;
    let facts = allowed(FieldName::Limit, goods_facts(count, many, limit))?;
    Ok(Head {
        title,
        members,
        items: goods,
        facts,
    })
}

// Facts made early, with the usual limit, let the counts be tested before the limit is read.
fn goods_facts(members: u8, goods: u8, limit: u32) -> Facts
    ensures { result ≡ goods_facts members goods limit }
{
    Facts::Goods(Goods {
        members,
        goods,
        limit,
    })
}

// Each field is tested as soon as it's read, so that the first one at fault is the one that is named.
#[tactic(auto, unfolding(crate::specs::Reading::fares_head))]
fn fares_head(body: &Value, title: Name) -> Result<Head, FieldName>
    ensures head { result_map_both shown_head (λ name. name) result
        ≡ fares_head title.bytes (view body.now) }
    ensures checked { IfOk result (λ head. IsCheckedFacts head.facts) }
{
    let members = names_of(body, FieldName::Members, 0, MEMBER_ROOM)?;
    let count = name_count(&members);
    allowed(FieldName::Members, free_fares(count, MOST_PLACES, 0))?;
    let places = names_of(body, FieldName::Places, 0, PLACE_ROOM)?;
    let stops = name_count(&places);
    allowed(FieldName::Places, free_fares(count, stops, 0))?;
    let flag = number_of(body, FieldName::Flag)?;
    allowed(FieldName::Flag, free_fares(count, stops, flag))?;
    let legs = legs_of(body)?;
    let facts = allowed(FieldName::Legs, fares_facts(count, stops, flag, legs))?;
    Ok(Head {
        title,
        members,
        items: places,
        facts,
    })
}

// The facts once every field is there; before that, `free_fares` stands in for the costs.
fn fares_facts(members: u8, places: u8, flag: u32, legs: Legs) -> Facts
    ensures { result ≡ fares_facts members places flag legs.items }
{
    Facts::Fares(Fares {
        members,
        places,
        flag,
        legs,
    })
}

// Fares whose legs cost nothing.
#[tactic(auto, unfolding(crate::specs::Reading::free_fares))]
fn free_fares(members: u8, places: u8, flag: u32) -> Facts
    requires { places ≤ MOST_PLACES }
    ensures { result ≡ free_fares members places flag }
{
    let mut legs = Legs::new();
    for _ in 0..usize::from(places) + 1 {
        legs.push(free_legs(places));
    }
    fares_facts(members, places, flag, legs)
}

// A leg to each place, at no cost.
fn free_legs(places: u8) -> LegRow
    requires { places ≤ MOST_PLACES }
    ensures { result.items ≡ replicate places 0 }
{
    let mut row = LegRow::from([0; PLACE_ROOM]);
    row.truncate(usize::from(places));
    row
}
