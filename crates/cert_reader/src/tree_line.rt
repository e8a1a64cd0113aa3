// Reads the line of a tree character by character from a source.
ghost use Rattle.std.specs.Prelude.{◌≡◌, ◌↔◌, ◌≤◌, IsErrOf, IsTrue};
ghost use Rattle.split_base.specs.Faults.{HasRisen};
ghost use Rattle.cert_reader.specs.Stream.{ends_before, faults_after_reading, taken_count};
ghost use Rattle.cert_reader.specs.Text.{IsMark};
ghost use Rattle.cert_reader.specs.TreeLines.{IsFirstMark, IsNextMark, tree_front};
ghost use Rattle.cert_reader.specs.declared.limits.TheConstants.{MOST_BYTES};

use crate::ends::TextEnd;
use crate::marks::{ANSWER_LEAF, INNER_NODE, LEFT_OUT};
use crate::step::refuse;
use crate::stream::{Bytes, Front};
use split_base::Source;

// Whether the byte is a character of a tree.
fn is_mark(byte: u8) -> bool
    ensures { IsTrue result ↔ IsMark byte }
{
    byte == INNER_NODE || byte == LEFT_OUT || byte == ANSWER_LEAF
}

// What comes before the characters of a tree.
fn before_marks() -> &'static [u8]
    ensures { result.now ≡ tree_front }
{
    b"tree "
}

// Takes the next character of a tree or the end of its line. If neither comes, reads on to the
// end of the input.
pub(crate) fn next_mark<S: Source>(
    bytes: &mut Bytes,
    source: &mut S,
    line: u32,
) -> Result<Option<u8>, TextEnd>
    ensures mark { IsNextMark bytes.old bytes.new (S.left source.old) (S.left source.new) line
        result }
    ensures few { taken_count bytes.new ≤ MOST_BYTES }
    ensures faults { S.faults source.new ≡ faults_after_reading (S.faults source.old) result }
    ensures empty { S.empty_reads source.new ≤ ends_before (S.empty_reads source.old) result }
    ensures fault { IsErrOf result TextEnd.ReadFault
        → HasRisen (S.faults source.old) (S.faults source.new) }
    ensures count { S.faults source.old ≤ S.faults source.new }
    ensures beside { S.beside source.new ≡ S.beside source.old }
{
    let Some(byte) = bytes.next_byte(source)? else {
        return Err(TextEnd::NotText { line });
    };
    if is_mark(byte) {
        return Ok(Some(byte));
    }
    if byte == b'\n' {
        return Ok(None);
    }
    Err(refuse(bytes, source, line))
}

// Takes the first character of a tree, with what comes before it. If they don't come, reads on
// to the end of the input.
pub(crate) fn first_mark<S: Source>(
    bytes: &mut Bytes,
    source: &mut S,
    line: u32,
) -> Result<u8, TextEnd>
    ensures mark { IsFirstMark bytes.old bytes.new (S.left source.old) (S.left source.new) line
        result }
    ensures few { taken_count bytes.new ≤ MOST_BYTES }
    ensures faults { S.faults source.new ≡ faults_after_reading (S.faults source.old) result }
    ensures empty { S.empty_reads source.new ≤ ends_before (S.empty_reads source.old) result }
    ensures fault { IsErrOf result TextEnd.ReadFault
        → HasRisen (S.faults source.old) (S.faults source.new) }
    ensures count { S.faults source.old ≤ S.faults source.new }
    ensures beside { S.beside source.new ≡ S.beside source.old }
{
    match bytes.take_front(source, before_marks())? {
        Front::Ended => Err(TextEnd::NotText { line }),
        Front::Other => Err(refuse(bytes, source, line)),
        Front::Whole => match next_mark(bytes, source, line)? {
            Some(mark) => Ok(mark),
            None => Err(refuse(bytes, source, line)),
        },
    }
}
