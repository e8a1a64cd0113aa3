// Lists of numbers and fractions as JSON values.
ghost use Rattle.std.specs.Prelude.{◌≡◌, map, IfOk, false};
ghost use Rattle.serde_json.specs.View.{view};
ghost use Rattle.serde_json.specs.Written.{compact_text, has_float};
ghost use Rattle.split_frac.specs.Frac.{frac_text};
ghost use Rattle.reply_texts.specs.Values.{list_by, of_cents, of_frac, of_number};

use serde_json::Value;
use split_frac::{Frac, text};
use std::alloc::{AllocError, Global};

// The numbers of members, rooms or goods.
pub(crate) fn numbers(alloc: Global, numbers: &[u8]) -> Result<Value, AllocError>
    ensures { IfOk result (λ v. view v ≡ list_by of_number numbers.now) }
{
    let mut list = Vec::new(alloc);
    for number in numbers {
        list.push(Value::from(*number))?;
    }
    Ok(Value::Array(list))
}

// Numbers of cents, which may be below 0.
pub(crate) fn cents(alloc: Global, cents: &[i64]) -> Result<Value, AllocError>
    ensures { IfOk result (λ v. view v ≡ list_by of_cents cents.now) }
{
    let mut list = Vec::new(alloc);
    for amount in cents {
        list.push(Value::from(*amount))?;
    }
    Ok(Value::Array(list))
}

// A fraction, as a text.
pub(crate) fn fraction(alloc: Global, fraction: &Frac) -> Result<Value, AllocError>
    ensures { IfOk result (λ v. view v ≡ of_frac fraction.now) }
{
    match text(alloc, fraction) {
        Ok(text) => Ok(Value::String(text)),
        Err(_) => Err(AllocError),
    }
}

// Exact amounts are texts, since a JSON number would lose digits.
pub(crate) fn fractions(alloc: Global, fractions: &[Frac]) -> Result<Value, AllocError>
    ensures { IfOk result (λ v. view v ≡ list_by of_frac fractions.now) }
{
    let mut list = Vec::new(alloc);
    for one in fractions {
        list.push(fraction(alloc, one)?)?;
    }
    Ok(Value::Array(list))
}

// The text of a value without floats, as `serde_json` writes it.
pub(crate) fn written(alloc: Global, value: &Value) -> Result<Vec<u8>, AllocError>
    requires { has_float (view value.now) ≡ false }
    ensures { IfOk result (λ text. text.items ≡ compact_text (view value.now)) }
{
    value.to_vec(alloc)
}
