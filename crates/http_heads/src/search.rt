// The search for a head at the front of bytes that come in pieces.
ghost use Rattle.std.specs.Prelude.{◌≡◌, ◌<◌, ◌≤◌, ◌++◌, ℕ, List};
ghost use Rattle.std.specs.Io.KnownBytes.{Keeps, prepend_known};
ghost use Rattle.httparse.specs.Outcome.{IfComplete, OnInvalid, OnPartial, OnTooManyHeaders};
ghost use Rattle.httparse.specs.declared.spans.HeaderSpan.{HeaderSpan};
ghost use Rattle.split_base.specs.Faults.{HasRisen};
ghost use Rattle.http_heads.specs.declared.limits.TheConstants.{MAX_FIELDS};
ghost use Rattle.http_heads.specs.Search.{HasNone, NeverHasOne, LookSays, IsAhead, SearchSays, ends_by, faults_by};

use crate::carry::Carry;
use crate::limits::{MAX_FIELDS, MAX_HEAD, ROOM};
use httparse::spans::HeaderSpan;
use httparse::{Error, Status};
use split_base::Source;

/// A kind of head, that of requests or that of responses, as `httparse` reads it.
pub trait HeadKind {
    /// Where the parts of a head are.
    type Spans: Copy;

    /// The bytes are the whole text of a head with at most `MAX_FIELDS` fields.
    ghost IsText: { List ℕ → Type 0 };

    /// The parser asks for more of the bytes, or has no room for all their fields.
    ghost AsksMore: { List ℕ → Type 0 };

    /// A head of this kind is at the front of the bytes, at these spans.
    ghost IsFound: { List ℕ → List HeaderSpan → Self.Spans → Type 0 };

    /// How many fields the head at these spans has.
    ghost size: { Self.Spans → ℕ };

    /// Parses the head at the front of the bytes.
    fn parse(bytes: &[u8], fields: &mut [HeaderSpan; ROOM]) -> httparse::Result<Self::Spans>
        ensures found { IfComplete result (λ spans.
            size spans ≤ MAX_FIELDS → IsFound bytes.now fields.new spans) }
        ensures many { IfComplete result (λ spans.
            MAX_FIELDS < size spans → NeverHasOne IsText bytes.now) }
        ensures partial { OnPartial result (HasNone IsText bytes.now) }
        ensures more { OnPartial result (AsksMore bytes.now) }
        ensures invalid { OnInvalid result (NeverHasOne IsText bytes.now) }
        ensures no_room { OnTooManyHeaders result (HasNone IsText bytes.now) }
        ensures more_room { OnTooManyHeaders result (AsksMore bytes.now) };

    /// The number of its fields.
    fn count(spans: &Self::Spans) -> usize
        ensures { result ≡ size spans.now };
}

/// What the bytes read so far say about a head.
#[derive(Clone, Copy, Debug)]
pub enum Look<T> {
    /// A head is at their front, at these spans.
    Found(T),
    /// They don't begin with a head, whatever follows.
    Never,
    /// They don't begin with a whole head yet, and the parser asks for more of them.
    NotYet,
}

/// What comes next from a source. A head that was found stays in the carry.
#[derive(Clone, Copy, Debug)]
pub enum Ahead<T> {
    /// A head, at these spans of the carry.
    Found(T),
    /// Bytes that begin with no head.
    Bad,
    /// Nothing is left.
    End,
    /// A read failed.
    Fault,
}

/// Looks for a head at the front of the bytes, with at most `MAX_FIELDS` fields. `NotYet` is returned only if the parser asks for more of
/// them, or has no room for all their fields.
pub fn find_head<K: HeadKind>(bytes: &[u8], fields: &mut [HeaderSpan; ROOM]) -> Look<K::Spans>
    ensures { LookSays K.IsText K.AsksMore K.IsFound bytes.now fields.new result }
{
    match K::parse(bytes, fields) {
        Ok(Status::Complete(spans)) => {
            if K::count(&spans) <= MAX_FIELDS {
                Look::Found(spans)
            } else {
                Look::Never
            }
        }
        Ok(Status::Partial) => Look::NotYet,
        Err(Error::TooManyHeaders) => Look::NotYet,
        Err(_) => Look::Never,
    }
}

/// Reads to the end of the next head, which stays in the carry. Once a read has met the end of the
/// input it doesn't read again.
///
/// - `Bad` is returned if bytes are left, and no first part of them is a head of at most `MAX_HEAD` bytes and with at most `MAX_FIELDS`
///   fields.
/// - `End` is returned if nothing is left.
/// - `Fault` is returned for one failed read, which the source's count of faults shows. Each other answer leaves that count as it is. A read
///   is made only while the parser asks for more of what the carry holds, or has no room for all its fields: `Bad` is returned at once if
///   the parser says that no head can come. That a head has more than `MAX_FIELDS` fields, up to `ROOM` of them, is reported at its end.
pub fn look_ahead<K: HeadKind, S: Source>(
    source: &mut S,
    carry: &mut Carry,
    fields: &mut [HeaderSpan; ROOM],
) -> Ahead<K::Spans>
    ensures same { Keeps (prepend_known carry.old (S.left source.old))
        (prepend_known carry.new (S.left source.new)) }
    ensures ahead { IsAhead K.IsText K.AsksMore K.IsFound carry.new fields.new result }
    ensures says { SearchSays K.IsText (prepend_known carry.new (S.left source.new)) result }
    ensures more { (read : List ℕ) × (carry.new ≡ carry.old ++ read) }
    ensures reads { S.faults source.old ≤ S.faults source.new }
    ensures cause { result ≡ Ahead.Fault → HasRisen (S.faults source.old) (S.faults source.new) }
    ensures count { S.faults source.new ≡ faults_by (S.faults source.old) result }
    ensures empty { S.empty_reads source.new ≤ ends_by (S.empty_reads source.old) result }
    ensures beside { S.beside source.new ≡ S.beside source.old }
{
    let mut room = MAX_HEAD - carry.len();
    if carry.len() > 0 {
        match find_head::<K>(carry.as_slice(), fields) {
            Look::Found(spans) => return Ahead::Found(spans),
            Look::Never => return Ahead::Bad,
            Look::NotYet => {}
        }
    }
    while room > 0 {
        match carry.fill(source) {
            Err(_) => return Ahead::Fault,
            Ok(0) => {
                return if carry.len() > 0 {
                    Ahead::Bad
                } else {
                    Ahead::End
                };
            }
            Ok(_) => {}
        }
        room = MAX_HEAD - carry.len();
        match find_head::<K>(carry.as_slice(), fields) {
            Look::Found(spans) => return Ahead::Found(spans),
            Look::Never => return Ahead::Bad,
            Look::NotYet => {}
        }
    }
    // The carry holds as many bytes as a head may have, and no head is among them.
    Ahead::Bad
}
