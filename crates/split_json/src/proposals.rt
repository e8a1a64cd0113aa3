// Reads a case of goods, or a proposed division of them, from the bytes of its JSON text.
ghost use Rattle.std.specs.Prelude.{◌≡◌, ◌≤◌, ◌↔◌, length, map, IfOk, None, option_map};
ghost use Rattle.std.specs.Result.{result_map_both};
ghost use Rattle.bid_rules.specs.declared.limits.TheConstants.{ITEM_ROOM};
ghost use Rattle.serde_json.specs.View.{view};
ghost use Rattle.split_json.specs.Proposals.{IsReadyGoods, IsReadyProposal, goods_alone, goods_case_in, goods_case_of_object, goods_in, has_bid, owner_in, owners_in, proposal_in, proposal_of_object};
ghost use Rattle.split_json.specs.Reading.{field_or_name, case_data_of};
ghost use Rattle.split_json.specs.Rules.{each, json_of};

use crate::bodies::parsed;
use crate::cases::case_of_object;
use crate::held::value_of;
use crate::input::CaseInput;
use crate::rules::{Kind, elements, kind_in, place_in};
use arrayvec::ArrayVec;
use bid_rules::Bid;
use bid_rules::limits::ITEM_ROOM;
use body_fields::{BodyFault, FieldName};
use serde_json::Value;
use split_base::NoMemory;
use std::alloc::Global;

/// The case of goods that a body of JSON holds, or what is wrong with the body.
///
/// The refusals are those of `read_case`, but any kind other than goods breaks `kind`, which comes first. `NoMemory` is returned if memory
/// ran out.
pub fn read_goods(alloc: Global, body: &[u8]) -> Result<Result<CaseInput, BodyFault>, NoMemory>
    ensures case { IfOk result (λ answer.
        result_map_both case_data_of (λ fault. fault) answer ≡ goods_case_in body.now) }
    ensures json { IfOk result (λ answer.
        (answer ≡ Err BodyFault.Json) ↔ (json_of body.now ≡ None)) }
    ensures checked { IfOk result (λ answer.
        IfOk answer (λ input. IsReadyGoods (case_data_of input))) }
{
    let Some(value) = parsed(alloc, body)? else {
        return Ok(Err(BodyFault::Json));
    };
    match goods_case_of_object(&value) {
        Ok(input) => Ok(Ok(input)),
        Err(name) => Ok(Err(BodyFault::Field { name })),
    }
}

/// The case of goods and the proposed owner of each good, by the number of the member, that a body of JSON holds, or what is wrong with
/// the body.
///
/// `Json` if the body isn't a JSON text (RFC 8259) that `serde_json` reads. Otherwise `Field` with the first field whose rule is broken:
/// those of a case, in the order of `FieldName`, in which a kind other than goods breaks `kind`, and then the owners: a list with an entry
/// per good, each the number of a member who has bid.
pub fn read_proposal(
    alloc: Global,
    body: &[u8],
) -> Result<Result<(CaseInput, ArrayVec<u8, ITEM_ROOM>), BodyFault>, NoMemory>
    ensures proposal { IfOk result (λ answer.
        result_map_both (λ proposal. (case_data_of proposal.0, proposal.1.items)) (λ fault. fault)
        answer ≡ proposal_in body.now) }
    ensures json { IfOk result (λ answer.
        (answer ≡ Err BodyFault.Json) ↔ (json_of body.now ≡ None)) }
    ensures checked { IfOk result (λ answer.
        IfOk answer (λ proposal. IsReadyProposal (case_data_of proposal.0) proposal.1.items)) }
{
    let Some(value) = parsed(alloc, body)? else {
        return Ok(Err(BodyFault::Json));
    };
    match proposal_of_object(&value) {
        Ok(proposal) => Ok(Ok(proposal)),
        Err(name) => Ok(Err(BodyFault::Field { name })),
    }
}

// Only goods can be weighed or divided by adjusted winner.
fn goods_alone(kind: Kind) -> Option<Kind>
    ensures { result ≡ goods_alone kind }
{
    match kind {
        Kind::Goods => Some(Kind::Goods),
        Kind::Rent | Kind::Fares => None,
    }
}

// A kind that isn't goods counts as none.
fn goods_in(value: &Value) -> Option<Kind>
    ensures { result ≡ goods_in (view value.now) }
{
    goods_alone(kind_in(value)?)
}

// A body of another kind is refused by the name of the field.
fn goods_of(body: &Value) -> Result<Kind, FieldName>
    ensures { result ≡ field_or_name FieldName.Kind goods_in (view body.now) }
{
    value_of(body, FieldName::Kind)
        .and_then(goods_in)
        .ok_or(FieldName::Kind)
}

// Whether there is a member with this number, and a bid of theirs.
fn has_bid(bids: &[Option<Bid>], member: u8) -> bool
    ensures { result ≡ has_bid bids.now member }
{
    if member == 0 {
        return false;
    }
    match bids.get(member as usize - 1) {
        Some(bid) => bid.is_some(),
        None => false,
    }
}

// A member without a bid has no values to judge a share by, so they can't own anything.
fn owner_in(value: &Value, bids: &[Option<Bid>]) -> Option<u8>
    ensures { result ≡ owner_in bids.now (view value.now) }
{
    let member = place_in(value)?;
    if has_bid(bids, member) {
        Some(member)
    } else {
        None
    }
}

// The owners in the order of the goods; one that is wrong spoils the list.
fn each_owner(list: &[Value], bids: &[Option<Bid>]) -> Option<ArrayVec<u8, ITEM_ROOM>>
    requires { length list.now ≤ ITEM_ROOM }
    ensures { option_map (λ owners. owners.items) result
        ≡ each (owner_in bids.now) (map view list.now) }
{
    let mut owners = ArrayVec::new();
    for item in list {
        owners.push(owner_in(item, bids)?);
    }
    Some(owners)
}

// Each good has just one owner.
fn owners_in(value: &Value, goods: usize, bids: &[Option<Bid>]) -> Option<ArrayVec<u8, ITEM_ROOM>>
    requires { goods ≤ ITEM_ROOM }
    ensures { option_map (λ owners. owners.items) result
        ≡ owners_in goods bids.now (view value.now) }
{
    each_owner(elements(value, goods, goods)?, bids)
}

// A proposal without good owners is refused by the name of the field.
fn owners_of(
    body: &Value,
    goods: usize,
    bids: &[Option<Bid>],
) -> Result<ArrayVec<u8, ITEM_ROOM>, FieldName>
    requires { goods ≤ ITEM_ROOM }
    ensures { result_map_both (λ owners. owners.items) (λ name. name) result
        ≡ field_or_name FieldName.Owners (owners_in goods bids.now) (view body.now) }
{
    value_of(body, FieldName::Owners)
        .and_then(|value| owners_in(value, goods, bids))
        .ok_or(FieldName::Owners)
}

// The kind, and then the case.
#[tactic(auto, unfolding(crate::specs::Proposals::goods_case_of_object))]
fn goods_case_of_object(body: &Value) -> Result<CaseInput, FieldName>
    ensures { result_map_both case_data_of (λ name. name) result
        ≡ goods_case_of_object (view body.now) }
{
    let _kind = goods_of(body)?;
    case_of_object(body)
}

// The case, and then the owners.
#[tactic(auto, unfolding(crate::specs::Proposals::proposal_of_object))]
fn proposal_of_object(body: &Value) -> Result<(CaseInput, ArrayVec<u8, ITEM_ROOM>), FieldName>
    ensures { result_map_both (λ proposal. (case_data_of proposal.0, proposal.1.items))
        (λ name. name) result ≡ proposal_of_object (view body.now) }
{
    let input = goods_case_of_object(body)?;
    let owners = owners_of(body, input.items.len(), input.bids.as_slice())?;
    Ok((input, owners))
}
