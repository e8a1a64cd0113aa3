// Heads of responses, as the search for heads takes them.
ghost use Rattle.remote_check.specs.Heads.{AsksMore, IsFoundAt, IsResponseText};

use http_heads::{HeadKind, ROOM};
use httparse::spans::{HeaderSpan, ResponseSpans, parse_response};

// The kind of head that responses have.
pub(crate) struct ResponseHeads;

impl HeadKind for ResponseHeads {
    type Spans = ResponseSpans;

    ghost IsText = { IsResponseText };

    ghost AsksMore = { AsksMore };

    ghost IsFound = { IsFoundAt };

    ghost size = { λ spans. spans.headers };

    fn parse(bytes: &[u8], fields: &mut [HeaderSpan; ROOM]) -> httparse::Result<ResponseSpans> {
        parse_response(bytes, fields)
    }

    fn count(spans: &ResponseSpans) -> usize {
        spans.headers
    }
}
