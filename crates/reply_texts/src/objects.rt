// Objects of JSON, made of fields that are borrowed from where they stand.
ghost use Rattle.std.specs.Prelude.{map};
ghost use Rattle.serde_json.specs.Written.{compact_text};
ghost use Rattle.reply_texts.specs.Objects.{of_fields, of_part};
ghost use Rattle.reply_texts.specs.Pages.{Puts, PutsValue};
ghost use Rattle.reply_texts.specs.Values.{list_by, of_number, of_text};

use crate::page::{Page, put, put_comma, put_flag, put_number, put_quoted};
use bid_rules::limits::LegRow;
use sealed_core::{Key, Name};

/// What a field holds.
#[derive(Clone, Copy, Drop)]
pub(crate) enum Part<'a> {
    Number(u64),
    Flag(bool),
    Text(&'a [u8]),
    Numbers(&'a [u32]),
    Names(&'a [Name]),
    Keys(&'a [Key]),
    Rows(&'a [LegRow]),
}

/// A field of an object.
#[derive(Clone, Copy, Drop)]
pub(crate) struct Field<'a> {
    pub(crate) name: &'static str,
    pub(crate) part: Part<'a>,
}

// A list of numbers, without blanks, like all JSON of a reply.
fn put_numbers(page: &mut Page, numbers: &[u32])
    ensures { Puts page.old page.new (compact_text (list_by of_number numbers.now)) }
{
    put(page, b"[");
    let mut later = false;
    for number in numbers {
        put_comma(page, later);
        put_number(page, u64::from(*number));
        later = true;
    }
    put(page, b"]");
}

// Names are quoted and escaped, since members choose them freely.
fn put_names(page: &mut Page, names: &[Name])
    ensures { Puts page.old page.new
        (compact_text (list_by of_text (map (λ name. name.bytes) names.now))) }
{
    put(page, b"[");
    let mut later = false;
    for name in names {
        put_comma(page, later);
        put_quoted(page, name.as_str().as_bytes());
        later = true;
    }
    put(page, b"]");
}

// Keys are hexadecimal digits, in quotes like any text.
fn put_keys(page: &mut Page, keys: &[Key])
    ensures { Puts page.old page.new (compact_text (list_by of_text keys.now)) }
{
    put(page, b"[");
    let mut later = false;
    for key in keys {
        put_comma(page, later);
        put_quoted(page, key);
        later = true;
    }
    put(page, b"]");
}

// A table of costs, row by row.
fn put_rows(page: &mut Page, rows: &[LegRow])
    ensures { Puts page.old page.new
        (compact_text (list_by (λ row. list_by of_number row.items) rows.now)) }
{
    put(page, b"[");
    let mut later = false;
    for row in rows {
        put_comma(page, later);
        put_numbers(page, row.as_slice());
        later = true;
    }
    put(page, b"]");
}

// One form for each kind of value that a reply can hold.
fn put_part(page: &mut Page, part: &Part<'_>)
    ensures { Puts page.old page.new (compact_text (of_part part.now)) }
{
    match part {
        Part::Number(number) => put_number(page, *number),
        Part::Flag(flag) => put_flag(page, *flag),
        Part::Text(text) => put_quoted(page, text),
        Part::Numbers(numbers) => put_numbers(page, numbers),
        Part::Names(names) => put_names(page, names),
        Part::Keys(keys) => put_keys(page, keys),
        Part::Rows(rows) => put_rows(page, rows),
    }
}

// An object, with its fields in the order in which they are given.
pub(crate) fn put_fields(page: &mut Page, fields: &[Field<'_>])
    ensures { PutsValue page.old page.new (of_fields fields.now) }
{
    put(page, b"{");
    let mut later = false;
    for field in fields {
        put_comma(page, later);
        put_quoted(page, field.name.as_bytes());
        put(page, b":");
        put_part(page, &field.part);
        later = true;
    }
    put(page, b"}");
}
