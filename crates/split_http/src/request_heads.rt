// Heads of requests, as the search for heads takes them.
ghost use Rattle.split_http.specs.Heads.{IsFoundAt, IsRequestText};
ghost use Rattle.split_http.specs.Turns.{AsksMore};

use http_heads::{HeadKind, ROOM};
use httparse::spans::{HeaderSpan, RequestSpans, parse_request};

// The kind of head that requests have.
pub(crate) struct RequestHeads;

impl HeadKind for RequestHeads {
    type Spans = RequestSpans;

    ghost IsText = { IsRequestText };

    ghost AsksMore = { AsksMore };

    ghost IsFound = { IsFoundAt };

    ghost size = { λ spans. spans.headers };

    fn parse(bytes: &[u8], fields: &mut [HeaderSpan; ROOM]) -> httparse::Result<RequestSpans> {
        parse_request(bytes, fields)
    }

    fn count(spans: &RequestSpans) -> usize {
        spans.headers
    }
}
