// Reads the creation of an instance from the bytes of its JSON text.
ghost use Rattle.std.specs.Prelude.{◌≡◌, ◌≤◌, ◌↔◌, IfOk, IfSome, None, option_map};
ghost use Rattle.std.specs.Result.{result_map_both};
ghost use Rattle.serde_json.specs.View.{view};
ghost use Rattle.body_fields.specs.Creations.{IsCheckedCreation, creation_view};
ghost use Rattle.body_fields.specs.declared.limits.TheConstants.{LAST_DEADLINE};
ghost use Rattle.split_json.specs.Bodies.{creation_in, creation_of_object, deadline_in, tag_in};
ghost use Rattle.split_json.specs.Reading.{field_or_name};
ghost use Rattle.split_json.specs.Rules.{json_of};

use crate::bodies::parsed;
use crate::deadlines::deadline_of;
use crate::heads::head_of_object;
use crate::held::value_of;
use body_fields::{BodyFault, Creation, FieldName, Tag, is_tag};
use serde_json::Value;
use split_base::NoMemory;
use std::alloc::Global;

/// The creation that a body of JSON holds, or what is wrong with the body.
///
/// `Json` if the body is not a JSON text (RFC 8259) that `serde_json` reads. Otherwise `Field` with the first field whose rule is broken:
/// those of a case before the bids, in the order of `FieldName`, then the deadline, a timestamp that `jiff` reads, which is not before
/// 1970 and loses any fraction of a second, and the tag. What is read keeps the rules of a creation.
pub fn read_creation(alloc: Global, body: &[u8]) -> Result<Result<Creation, BodyFault>, NoMemory>
    ensures creation { IfOk result (λ answer.
        result_map_both creation_view (λ fault. fault) answer ≡ creation_in body.now) }
    ensures json { IfOk result (λ answer.
        (answer ≡ Err BodyFault.Json) ↔ (json_of body.now ≡ None)) }
    ensures checked { IfOk result (λ answer.
        IfOk answer (λ creation. IsCheckedCreation (creation_view creation))) }
{
    let Some(value) = parsed(alloc, body)? else {
        return Ok(Err(BodyFault::Json));
    };
    match creation_of_object(&value) {
        Ok(creation) => Ok(Ok(creation)),
        Err(name) => Ok(Err(BodyFault::Field { name })),
    }
}

// The deadline that the value gives, which is a text with a date and not a number.
fn deadline_in(value: &Value) -> Option<u64>
    ensures second { result ≡ deadline_in (view value.now) }
    ensures last { IfSome result (λ second. second ≤ LAST_DEADLINE) }
{
    deadline_of(value.as_str()?)
}

// A tag that breaks the rule counts as none.
fn tag_in(value: &Value) -> Option<Tag>
    ensures { option_map (λ text. text.bytes) result ≡ tag_in (view value.now) }
{
    let text = value.as_str()?;
    if !is_tag(text) {
        return None;
    }
    Tag::from(text).ok()
}

// A creation that has no good deadline is refused by the name of the field.
fn deadline_of_object(body: &Value) -> Result<u64, FieldName>
    ensures second { result ≡ field_or_name FieldName.Deadline deadline_in (view body.now) }
    ensures last { IfOk result (λ second. second ≤ LAST_DEADLINE) }
{
    value_of(body, FieldName::Deadline)
        .and_then(deadline_in)
        .ok_or(FieldName::Deadline)
}

// A creation that has no good tag is refused by the name of the field.
fn tag_of_object(body: &Value) -> Result<Tag, FieldName>
    ensures { result_map_both (λ text. text.bytes) (λ name. name) result
        ≡ field_or_name FieldName.Tag tag_in (view body.now) }
{
    value_of(body, FieldName::Tag)
        .and_then(tag_in)
        .ok_or(FieldName::Tag)
}

// The head, and then the deadline and the tag.
#[tactic(auto, unfolding(crate::specs::Bodies::creation_of_object))]
fn creation_of_object(body: &Value) -> Result<Creation, FieldName>
    ensures creation { result_map_both creation_view (λ name. name) result
        ≡ creation_of_object (view body.now) }
    ensures last { IfOk result (λ creation. creation.deadline ≤ LAST_DEADLINE) }
{
    let head = head_of_object(body)?;
    let deadline = deadline_of_object(body)?;
    let tag = tag_of_object(body)?;
    Ok(Creation {
        title: head.title,
        members: head.members,
        items: head.items,
        facts: head.facts,
        deadline,
        tag,
    })
}
