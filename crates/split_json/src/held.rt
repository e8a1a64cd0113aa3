// One function for each field or kind of field: the value that the body holds by the field's rule, or the field's
// name.
ghost use Rattle.std.specs.Prelude.{◌≡◌, ◌≤◌, length, map, option_map, IfOk};
ghost use Rattle.std.specs.Result.{result_map_both};
ghost use Rattle.serde_json.specs.Find.{get};
ghost use Rattle.serde_json.specs.View.{view};
ghost use Rattle.bid_rules.specs.Facts.{IsCheckedFacts};
ghost use Rattle.body_fields.specs.Fields.{field_text};
ghost use Rattle.split_json.specs.Rules.{bids_in, kind_in, legs_in, name_in, names_in, number_in};
ghost use Rattle.split_json.specs.Reading.{facts_or_field, field_or_name, held_or};

use crate::rules::{Kind, bids_in, kind_in, legs_in, name_in, names_in, number_in};
use arrayvec::ArrayVec;
use bid_rules::limits::{Legs, MEMBER_ROOM, USUAL_STEPS};
use bid_rules::{Bid, Facts, check_facts};
use body_fields::{FieldName, Name};
use serde_json::Value;

// What the body holds in the field.
pub(crate) fn value_of(body: &Value, name: FieldName) -> Option<&Value>
    ensures { option_map (λ value. view value.now) result ≡ get (field_text name) (view body.now) }
{
    body.get(name.name())
}

// What is divided.
pub(crate) fn kind_of(body: &Value) -> Result<Kind, FieldName>
    ensures { result ≡ field_or_name FieldName.Kind kind_in (view body.now) }
{
    value_of(body, FieldName::Kind)
        .and_then(kind_in)
        .ok_or(FieldName::Kind)
}

// The title, which is a name like any other.
pub(crate) fn title_of(body: &Value) -> Result<Name, FieldName>
    ensures { result_map_both (λ text. text.bytes) (λ name. name) result
        ≡ field_or_name FieldName.Title name_in (view body.now) }
{
    value_of(body, FieldName::Title)
        .and_then(name_in)
        .ok_or(FieldName::Title)
}

// The names that the field has, whose number must be in this range.
pub(crate) fn names_of<const N: usize>(
    body: &Value,
    name: FieldName,
    least: usize,
    most: usize,
) -> Result<ArrayVec<Name, N>, FieldName>
    requires { most ≤ N }
    ensures names { result_map_both (λ names. map (λ text. text.bytes) names.items) (λ name. name)
        result ≡ field_or_name name (names_in least most) (view body.now) }
    ensures few { IfOk result (λ names. length names.items ≤ most) }
{
    match value_of(body, name) {
        Some(value) => names_in(value, least, most).ok_or(name),
        None => Err(name),
    }
}

// The number that the field has.
pub(crate) fn number_of(body: &Value, name: FieldName) -> Result<u32, FieldName>
    ensures { result ≡ field_or_name name number_in (view body.now) }
{
    value_of(body, name).and_then(number_in).ok_or(name)
}

// A limit that is left out is the usual one; one that breaks its rule is refused.
pub(crate) fn limit_of(body: &Value) -> Result<u32, FieldName>
    ensures { result ≡ held_or USUAL_STEPS FieldName.Limit number_in (view body.now) }
{
    match value_of(body, FieldName::Limit) {
        Some(value) => number_in(value).ok_or(FieldName::Limit),
        None => Ok(USUAL_STEPS),
    }
}

// The table of costs, whose rows are counted later, when the facts are tested.
pub(crate) fn legs_of(body: &Value) -> Result<Legs, FieldName>
    ensures { result_map_both (λ legs. legs.items) (λ name. name) result
        ≡ field_or_name FieldName.Legs legs_in (view body.now) }
{
    value_of(body, FieldName::Legs)
        .and_then(legs_in)
        .ok_or(FieldName::Legs)
}

// One entry for each member: a bid, or none.
pub(crate) fn bids_of(
    body: &Value,
    facts: &Facts,
) -> Result<ArrayVec<Option<Bid>, MEMBER_ROOM>, FieldName>
    requires { IsCheckedFacts facts.now }
    ensures { result_map_both (λ bids. bids.items) (λ name. name) result
        ≡ field_or_name FieldName.Bids (bids_in facts.now) (view body.now) }
{
    value_of(body, FieldName::Bids)
        .and_then(|value| bids_in(value, facts))
        .ok_or(FieldName::Bids)
}

// The facts, if they have no fault, and otherwise the name of the field that was read last.
#[tactic(auto, unfolding(crate::specs::Reading::facts_or_field))]
pub(crate) fn allowed(name: FieldName, facts: Facts) -> Result<Facts, FieldName>
    ensures value { result ≡ facts_or_field name facts }
    ensures checked { IfOk result IsCheckedFacts }
{
    if check_facts(&facts).is_ok() {
        Ok(facts)
    } else {
        Err(name)
    }
}
