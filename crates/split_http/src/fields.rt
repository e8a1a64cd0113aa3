// What the fields of a request's head say about its body and its connection, such as the body's length or the option `close`.
ghost use Rattle.std.specs.Prelude.{◌≡◌, length, All};
ghost use Rattle.std.specs.List.{list_any};
ghost use Rattle.httparse.specs.Grammar.{skip_ows};
ghost use Rattle.httparse.specs.Spans.{IsHeaderWithin, header_bytes};
ghost use Rattle.std.specs.Prelude.{reverse};
ghost use Rattle.http_heads.specs.Fields.{fields_at};
ghost use Rattle.split_http.specs.Fields.{is_named_and, is_listing, number_of, stated_of, is_close, lists_close};

use crate::limits::MAX_BODY;
use http_heads::{count_named, has_name, named_value, same_word, whole_number};
use httparse::is_space_or_tab;
use httparse::spans::HeaderSpan;

// What a head gives of its body's length.
#[derive(Clone, Copy)]
pub(crate) enum Stated {
    // No Content-Length.
    Absent,
    // Two of them or more, or a value that is not one or more digits.
    Bad,
    // This many bytes; any number past the limit counts as one more than it.
    Bytes(u32),
}

// Names and values of fields are compared without regard to case.
fn tells(bytes: &[u8], field: &HeaderSpan, name: &[u8], value: &[u8]) -> bool
    requires { IsHeaderWithin (length bytes.now) field.now }
    ensures { result ≡ is_named_and name.now value.now (header_bytes bytes.now field.now) }
{
    has_name(bytes, field, name) && same_word(field.value.of(bytes), value)
}

// Whether some field has that name and that value, both in any letter case.
pub(crate) fn any_named(bytes: &[u8], fields: &[HeaderSpan], name: &[u8], value: &[u8]) -> bool
    requires { All (IsHeaderWithin (length bytes.now)) fields.now }
    ensures { result
        ≡ list_any (λ f. is_named_and name.now value.now (header_bytes bytes.now f)) fields.now }
{
    fields.iter().any(|field| tells(bytes, field, name, value))
}

// Blanks around a value do not belong to it.
fn trim_start(mut text: &[u8]) -> &[u8]
    ensures { result.now ≡ skip_ows text.now }
{
    while let [first, rest @ ..] = text
        && is_space_or_tab(*first)
    {
        text = rest;
    }
    text
}

// Blanks around a value do not belong to it.
fn trim_end(mut text: &[u8]) -> &[u8]
    ensures { result.now ≡ reverse (skip_ows (reverse text.now)) }
{
    while let [rest @ .., last] = text
        && is_space_or_tab(*last)
    {
        text = rest;
    }
    text
}

// A `Connection` field lists options, and only `close` matters here.
fn option_closes(option: &[u8]) -> bool
    ensures { result ≡ is_close option.now }
{
    same_word(trim_end(trim_start(option)), b"close")
}

// Whether one of the options between the commas is `close`.
fn closes_in(value: &[u8]) -> bool
    ensures { result ≡ lists_close value.now }
{
    let mut start = 0;
    for at in 0..value.len() {
        if value[at] == b',' {
            if option_closes(&value[start..at]) {
                return true;
            }
            start = at + 1;
        }
    }
    option_closes(&value[start..])
}

// A field with other options may still ask for the connection to be closed.
fn lists(bytes: &[u8], field: &HeaderSpan, name: &[u8]) -> bool
    requires { IsHeaderWithin (length bytes.now) field.now }
    ensures { result ≡ is_listing name.now (header_bytes bytes.now field.now) }
{
    has_name(bytes, field, name) && closes_in(field.value.of(bytes))
}

// Whether some field of that name lists the option `close`.
pub(crate) fn any_closes(bytes: &[u8], fields: &[HeaderSpan], name: &[u8]) -> bool
    requires { All (IsHeaderWithin (length bytes.now)) fields.now }
    ensures { result ≡ list_any (λ f. is_listing name.now (header_bytes bytes.now f)) fields.now }
{
    fields.iter().any(|field| lists(bytes, field, name))
}

// The number of bytes that a Content-Length gives.
fn length_told(value: &[u8]) -> Stated
    ensures { result ≡ number_of value.now }
{
    match whole_number(value, u64::from(MAX_BODY) + 1) {
        Some(number) => Stated::Bytes(number as u32),
        None => Stated::Bad,
    }
}

// What the head gives of its body's length.
pub(crate) fn stated_length(bytes: &[u8], fields: &[HeaderSpan]) -> Stated
    requires { All (IsHeaderWithin (length bytes.now)) fields.now }
    ensures { result ≡ stated_of (fields_at bytes.now fields.now) }
{
    if count_named(bytes, fields, b"content-length") > 1 {
        return Stated::Bad;
    }
    match named_value(bytes, fields, b"content-length") {
        Some(value) => length_told(value),
        None => Stated::Absent,
    }
}
