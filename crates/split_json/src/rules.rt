// The rules of the fields, over the JSON values that they hold.
ghost use Rattle.std.specs.Prelude.{◌≡◌, ◌≤◌, length, map, IfSome, option_map};
ghost use Rattle.serde_json.specs.View.{view};
ghost use Rattle.bid_rules.specs.Facts.{IsCheckedFacts};
ghost use Rattle.split_json.specs.Rules.{bid_in, bids_in, each, elements, entry_in, is_within, kind_in, kind_named, legs_in, name_in, names_in, number_in, numbers_in, place_in, row_in, whole_in, written_bid};

use arrayvec::ArrayVec;
use bid_rules::limits::{LEG_ROW_ROOM, LegRow, Legs, MEMBER_ROOM};
use bid_rules::{Bid, Facts};
use body_fields::{Name, allowed_bid, is_name, member_count};
use serde_json::Value;

/// The kinds of case.
#[derive(Clone, Copy, Debug, PartialEq, Eq)]
pub(crate) enum Kind {
    Rent,
    Goods,
    Fares,
}

// The words by which bodies name the kinds.
fn kind_named(text: &str) -> Option<Kind>
    ensures { result ≡ kind_named text.now }
{
    match text {
        "rent" => Some(Kind::Rent),
        "goods" => Some(Kind::Goods),
        "fares" => Some(Kind::Fares),
        _ => None,
    }
}

// A value that is not a text names no kind.
pub(crate) fn kind_in(value: &Value) -> Option<Kind>
    ensures { result ≡ kind_in (view value.now) }
{
    kind_named(value.as_str()?)
}

// A name that breaks the rule counts as none.
pub(crate) fn name_in(value: &Value) -> Option<Name>
    ensures { option_map (λ text. text.bytes) result ≡ name_in (view value.now) }
{
    let text = value.as_str()?;
    if !is_name(text) {
        return None;
    }
    Name::from(text).ok()
}

// The whole number that a value is, if it is no greater than this.
fn whole_in(value: &Value, most: u64) -> Option<u64>
    ensures { result ≡ whole_in most (view value.now) }
{
    let number = value.as_u64()?;
    if number <= most { Some(number) } else { None }
}

// A number of cents, points or steps.
pub(crate) fn number_in(value: &Value) -> Option<u32>
    ensures { result ≡ number_in (view value.now) }
{
    let number = whole_in(value, u64::from(u32::MAX))?;
    Some(number as u32)
}

// The number of a place.
pub(crate) fn place_in(value: &Value) -> Option<u8>
    ensures { result ≡ place_in (view value.now) }
{
    let place = whole_in(value, u64::from(u8::MAX))?;
    Some(place as u8)
}

// Whether the number is in the range, both ends included.
fn is_within(low: usize, high: usize, number: usize) -> bool
    ensures { result ≡ is_within low high number }
{
    low <= number && number <= high
}

// The elements of a list, if their number is in this range.
pub(crate) fn elements(value: &Value, least: usize, most: usize) -> Option<&[Value]>
    ensures values { option_map (λ values. map view values.now) result
        ≡ elements least most (view value.now) }
    ensures few { IfSome result (λ values. length values.now ≤ most) }
{
    let list = value.as_array()?.as_slice();
    if is_within(least, most, list.len()) {
        Some(list)
    } else {
        None
    }
}

// One value that is not a name spoils the list.
fn each_name<const N: usize>(list: &[Value]) -> Option<ArrayVec<Name, N>>
    requires { length list.now ≤ N }
    ensures names { option_map (λ names. map (λ text. text.bytes) names.items) result
        ≡ each name_in (map view list.now) }
    ensures count { IfSome result (λ names. length names.items ≡ length list.now) }
{
    let mut names = ArrayVec::new();
    for item in list {
        names.push(name_in(item)?);
    }
    Some(names)
}

// The length is tested first, so the names always fit their room.
pub(crate) fn names_in<const N: usize>(
    value: &Value,
    least: usize,
    most: usize,
) -> Option<ArrayVec<Name, N>>
    requires { most ≤ N }
    ensures names { option_map (λ names. map (λ text. text.bytes) names.items) result
        ≡ names_in least most (view value.now) }
    ensures few { IfSome result (λ names. length names.items ≤ most) }
{
    each_name(elements(value, least, most)?)
}

// One value that is not a number spoils the list.
fn each_number<const N: usize>(list: &[Value]) -> Option<ArrayVec<u32, N>>
    requires { length list.now ≤ N }
    ensures { option_map (λ numbers. numbers.items) result ≡ each number_in (map view list.now) }
{
    let mut numbers = ArrayVec::new();
    for item in list {
        numbers.push(number_in(item)?);
    }
    Some(numbers)
}

// A list of numbers, as many as there is room for.
pub(crate) fn numbers_in<const N: usize>(value: &Value) -> Option<ArrayVec<u32, N>>
    ensures { option_map (λ numbers. numbers.items) result ≡ numbers_in N (view value.now) }
{
    each_number(elements(value, 0, N)?)
}

// The legs to each place.
fn row_in(value: &Value) -> Option<LegRow>
    ensures { result ≡ row_in (view value.now) }
{
    numbers_in(value)
}

// One value that is not a row spoils the table.
fn each_row(list: &[Value]) -> Option<Legs>
    requires { length list.now ≤ LEG_ROW_ROOM }
    ensures { option_map (λ legs. legs.items) result ≡ each row_in (map view list.now) }
{
    let mut rows = Legs::new();
    for item in list {
        rows.push(row_in(item)?);
    }
    Some(rows)
}

// The number of rows is tested against the places later, when these are known.
pub(crate) fn legs_in(value: &Value) -> Option<Legs>
    ensures { option_map (λ legs. legs.items) result ≡ legs_in (view value.now) }
{
    each_row(elements(value, 0, LEG_ROW_ROOM)?)
}

// A bid as it is written: numbers, or for fares the number of a place.
fn written_bid(value: &Value, facts: &Facts) -> Option<Bid>
    ensures { result ≡ written_bid facts.now (view value.now) }
{
    match facts {
        Facts::Rent(_) | Facts::Goods(_) => Some(Bid::Values(numbers_in(value)?)),
        Facts::Fares(_) => Some(Bid::Place(place_in(value)?)),
    }
}

// A bid of the right form must also keep the limits that the facts set.
fn bid_in(value: &Value, facts: &Facts) -> Option<Bid>
    requires { IsCheckedFacts facts.now }
    ensures { result ≡ bid_in facts.now (view value.now) }
{
    allowed_bid(facts, written_bid(value, facts)?)
}

// An entry of the bids: null if the member has not bid.
fn entry_in(value: &Value, facts: &Facts) -> Option<Option<Bid>>
    requires { IsCheckedFacts facts.now }
    ensures { result ≡ entry_in facts.now (view value.now) }
{
    if value.is_null() {
        return Some(None);
    }
    Some(Some(bid_in(value, facts)?))
}

// One entry that is neither a bid nor null spoils the list.
fn each_bid(list: &[Value], facts: &Facts) -> Option<ArrayVec<Option<Bid>, MEMBER_ROOM>>
    requires list { length list.now ≤ MEMBER_ROOM }
    requires facts { IsCheckedFacts facts.now }
    ensures { option_map (λ bids. bids.items) result
        ≡ each (entry_in facts.now) (map view list.now) }
{
    let mut bids = ArrayVec::new();
    for item in list {
        bids.push(entry_in(item, facts)?);
    }
    Some(bids)
}

// There must be an entry for each member, null for one who has not bid.
pub(crate) fn bids_in(value: &Value, facts: &Facts) -> Option<ArrayVec<Option<Bid>, MEMBER_ROOM>>
    requires { IsCheckedFacts facts.now }
    ensures { option_map (λ bids. bids.items) result ≡ bids_in facts.now (view value.now) }
{
    let members = member_count(facts);
    each_bid(elements(value, members, members)?, facts)
}
