// Reads a case from the bytes of its JSON text.
ghost use Rattle.std.specs.Prelude.{◌≡◌, ◌↔◌, IfOk, None};
ghost use Rattle.std.specs.Result.{result_map_both};
ghost use Rattle.serde_json.specs.View.{view};
ghost use Rattle.split_json.specs.Rules.{json_of};
ghost use Rattle.split_json.specs.Reading.{IsReady, case_in, case_of_object, case_data_of};

use crate::bodies::parsed;
use crate::heads::head_of_object;
use crate::held::bids_of;
use crate::input::CaseInput;
use body_fields::{BodyFault, FieldName};
use serde_json::Value;
use split_base::NoMemory;
use std::alloc::Global;

/// The case that a body of JSON holds, or what is wrong with the body.
///
/// `Json` if the body isn't a JSON text (RFC 8259) that `serde_json` reads: it isn't UTF-8, is nested more than 127 levels deep,
/// or has a number that no `f64` holds. Otherwise `Field` with the first field whose rule is broken, in the order of `FieldName`.
/// Fields of other names are ignored, and if a key is repeated, the last one counts.
pub fn read_case(alloc: Global, body: &[u8]) -> Result<Result<CaseInput, BodyFault>, NoMemory>
    ensures case { IfOk result (λ answer.
        result_map_both case_data_of (λ fault. fault) answer ≡ case_in body.now) }
    ensures json { IfOk result (λ answer.
        (answer ≡ Err BodyFault.Json) ↔ (json_of body.now ≡ None)) }
    ensures checked { IfOk result (λ answer. IfOk answer (λ input. IsReady (case_data_of input))) }
{
    let Some(value) = parsed(alloc, body)? else {
        return Ok(Err(BodyFault::Json));
    };
    match case_of_object(&value) {
        Ok(input) => Ok(Ok(input)),
        Err(name) => Ok(Err(BodyFault::Field { name })),
    }
}

// The head, and then the bids.
#[tactic(auto, unfolding(crate::specs::Reading::case_of_object))]
pub(crate) fn case_of_object(body: &Value) -> Result<CaseInput, FieldName>
    ensures { result_map_both case_data_of (λ name. name) result ≡ case_of_object (view body.now) }
{
    let head = head_of_object(body)?;
    let bids = bids_of(body, &head.facts)?;
    Ok(CaseInput {
        title: head.title,
        members: head.members,
        items: head.items,
        facts: head.facts,
        bids,
    })
}
