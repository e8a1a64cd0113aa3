// What the head of a reply says of its body.
ghost use Rattle.std.specs.Prelude.{◌≤◌, length, MatchResult, drop};
ghost use Rattle.cert_reader.specs.declared.limits.TheConstants.{MOST_BYTES};
ghost use Rattle.http_heads.specs.declared.limits.TheConstants.{MAX_HEAD};
ghost use Rattle.remote_check.specs.declared.limits.TheConstants.{OK_STATUS};
ghost use Rattle.remote_check.specs.Heads.{IsFoundAt};
ghost use Rattle.remote_check.specs.Taken.{GoesOn, Ends};

use crate::ends::FetchEnd;
use crate::fields::body_length;
use crate::limits::OK_STATUS;
use cert_reader::limits::MOST_BYTES;
use http_heads::ROOM;
use httparse::spans::{HeaderSpan, ResponseSpans};

// The length of the body, or why it isn't judged, whatever follows the bytes.
pub(crate) fn length_of(
    bytes: &[u8],
    fields: &[HeaderSpan; ROOM],
    spans: &ResponseSpans,
) -> Result<usize, FetchEnd>
    requires found { IsFoundAt bytes.now fields.now spans.now }
    requires most { length bytes.now ≤ MAX_HEAD }
    ensures within { spans.now.len ≤ length bytes.now }
    ensures says { MatchResult result (GoesOn bytes.now (drop spans.now.len bytes.now))
        (Ends bytes.now (drop spans.now.len bytes.now)) }
{
    if spans.code != OK_STATUS {
        return Err(FetchEnd::Status { code: spans.code });
    }
    match body_length(bytes, &fields[..spans.headers]) {
        None => Err(FetchEnd::Reply),
        Some(length) if length > MOST_BYTES => Err(FetchEnd::TooLong),
        Some(length) => Ok(length),
    }
}
