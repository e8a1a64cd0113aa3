// Finds the fields of a head by name.
ghost use Rattle.std.specs.Prelude.{◌≡◌, length, All, option_map, find, IfSome};
ghost use Rattle.std.specs.Str.{str_eq_ignore_ascii_case};
ghost use Rattle.httparse.specs.Spans.{IsHeaderWithin, header_bytes};
ghost use Rattle.http_heads.specs.Fields.{is_named, count_of, value_of, fields_at};

use httparse::spans::HeaderSpan;

/// Whether the words are equal, in any letter case.
pub fn same_word(word: &[u8], other: &[u8]) -> bool
    ensures { result ≡ str_eq_ignore_ascii_case word.now other.now }
{
    word.eq_ignore_ascii_case(other)
}

/// Whether the field has that name, in any letter case.
pub fn has_name(bytes: &[u8], field: &HeaderSpan, name: &[u8]) -> bool
    requires { IsHeaderWithin (length bytes.now) field.now }
    ensures { result ≡ is_named name.now (header_bytes bytes.now field.now) }
{
    same_word(field.name.of(bytes), name)
}

/// How many fields have that name, in any letter case.
pub fn count_named(bytes: &[u8], fields: &[HeaderSpan], name: &[u8]) -> usize
    requires { All (IsHeaderWithin (length bytes.now)) fields.now }
    ensures { result ≡ count_of name.now (fields_at bytes.now fields.now) }
{
    fields
        .iter()
        .filter(|field| has_name(bytes, field, name))
        .count()
}

// The first field of that name.
fn first_named<'f>(bytes: &[u8], fields: &'f [HeaderSpan], name: &[u8]) -> Option<&'f HeaderSpan>
    requires { All (IsHeaderWithin (length bytes.now)) fields.now }
    ensures first { option_map (λ f. f.now) result
        ≡ find (λ f. is_named name.now (header_bytes bytes.now f)) fields.now }
    ensures within { IfSome result (λ f. IsHeaderWithin (length bytes.now) f.now) }
{
    fields.iter().find(|field| has_name(bytes, field, name))
}

/// The value of the first field of that name, without white space around it.
pub fn named_value<'b>(bytes: &'b [u8], fields: &[HeaderSpan], name: &[u8]) -> Option<&'b [u8]>
    requires { All (IsHeaderWithin (length bytes.now)) fields.now }
    ensures { option_map (λ v. v.now) result ≡ value_of name.now (fields_at bytes.now fields.now) }
{
    match first_named(bytes, fields, name) {
        Some(field) => Some(field.value.of(bytes)),
        None => None,
    }
}
