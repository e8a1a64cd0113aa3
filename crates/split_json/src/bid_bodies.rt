// Reads the body of a bid or of a withdrawal from the bytes of its JSON text.
ghost use Rattle.std.specs.Prelude.{◌≡◌, ◌↔◌, IfErr, IfOk, None};
ghost use Rattle.serde_json.specs.View.{view};
ghost use Rattle.split_json.specs.Bodies.{bid_body_in, bid_body_of};
ghost use Rattle.split_json.specs.Rules.{json_of};

use crate::bodies::parsed;
use crate::held::value_of;
use crate::rules::{number_in, numbers_in, place_in};
use body_fields::{BidBody, BodyFault, FieldName};
use serde_json::Value;
use split_base::NoMemory;
use std::alloc::Global;

/// The body of a bid or of a withdrawal that a body of JSON holds, or `Json` if it isn't a JSON text (RFC 8259) that `serde_json`
/// reads.
///
/// A field is `None` exactly when it is absent or of another form, so all of them are if the body isn't an object: a turn is a
/// whole number below 2^32, values are at most 24 of these, and a place is a whole number below 2^8.
pub fn read_bid(alloc: Global, body: &[u8]) -> Result<Result<BidBody, BodyFault>, NoMemory>
    ensures bid { IfOk result (λ answer. answer ≡ bid_body_in body.now) }
    ensures json { IfOk result (λ answer.
        (answer ≡ Err BodyFault.Json) ↔ (json_of body.now ≡ None)) }
    ensures no_field { IfOk result (λ answer. IfErr answer (λ fault. fault ≡ BodyFault.Json)) }
{
    match parsed(alloc, body)? {
        Some(value) => Ok(Ok(bid_body_of(&value))),
        None => Ok(Err(BodyFault::Json)),
    }
}

// A field that is missing or breaks its rule is left out here, because only the host knows which ones it needs.
#[tactic(auto, unfolding(crate::specs::Bodies::bid_body_of))]
fn bid_body_of(body: &Value) -> BidBody
    ensures { result ≡ bid_body_of (view body.now) }
{
    BidBody {
        turn: value_of(body, FieldName::Turn).and_then(number_in),
        values: value_of(body, FieldName::Values).and_then(numbers_in),
        place: value_of(body, FieldName::Place).and_then(place_in),
    }
}
