// The length of a fetched certificate, as the fields in the head of its reply tell it.
ghost use Rattle.std.specs.Prelude.{◌≡◌, ◌+◌, ℕ, length, All, min, MatchOption, None, Some};
ghost use Rattle.httparse.specs.Spans.{IsHeaderWithin};
ghost use Rattle.cert_reader.specs.declared.limits.TheConstants.{MOST_BYTES};
ghost use Rattle.http_heads.specs.Fields.{fields_at};
ghost use Rattle.remote_check.specs.Fields.{length_in, told_length};

use crate::limits::MAX_LENGTH_DIGITS;
use cert_reader::limits::MOST_BYTES;
use http_heads::{count_named, named_value, whole_number};
use httparse::spans::HeaderSpan;

// The number that a Content-Length writes; one past the limit of a certificate counts as one more than it.
fn number_in(value: &[u8]) -> Option<usize>
    ensures { MatchOption result (length_in (Some value.now) ≡ None) (λ n.
        (count : ℕ) × (length_in (Some value.now) ≡ Some count)
        × (n ≡ min count (MOST_BYTES + 1))) }
{
    if value.len() > MAX_LENGTH_DIGITS {
        return None;
    }
    match whole_number(value, MOST_BYTES as u64 + 1) {
        Some(number) => Some(number as usize),
        None => None,
    }
}

// The length of the body that the head gives; one past the limit of a certificate counts as one more than it.
pub(crate) fn body_length(bytes: &[u8], fields: &[HeaderSpan]) -> Option<usize>
    requires { All (IsHeaderWithin (length bytes.now)) fields.now }
    ensures { MatchOption result (told_length (fields_at bytes.now fields.now) ≡ None)
        (λ n.
        (count : ℕ) × (told_length (fields_at bytes.now fields.now) ≡ Some count)
        × (n ≡ min count (MOST_BYTES + 1))) }
{
    if count_named(bytes, fields, b"transfer-encoding") > 0 {
        return None;
    }
    if count_named(bytes, fields, b"content-length") != 1 {
        return None;
    }
    match named_value(bytes, fields, b"content-length") {
        Some(value) => number_in(value),
        None => None,
    }
}
