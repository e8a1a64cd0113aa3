// Makes lines that take no memory.
ghost use Rattle.std.specs.Prelude.{◌≡◌, ◌+◌, ◌≤◌, ◌++◌, [], ◌∷◌, codes, length, map};
ghost use Rattle.std.specs.Fmt.{decimal};
ghost use Rattle.arrayvec.specs.ArrayVec.{array_vec_len};
ghost use Rattle.split_frac.specs.Texts.{word_line};
ghost use Rattle.command_results.specs.declared.limits.TheConstants.{LINE_ROOM, WORD_ROOM};

use crate::limits::LINE_ROOM;
use arrayvec::ArrayVec;
use bid_rules::limits::MemberList;
use itoa::Buffer;

/// A line, which takes no memory.
pub type Line = ArrayVec<u8, LINE_ROOM>;

// The line of `void:` and the members who lack a bid, each after a space.
#[tactic(auto, unfolding(split_frac::specs::Texts::line))]
pub(crate) fn void_line(members: &MemberList) -> Line
    ensures { result.items ≡ word_line (codes "void:") (map decimal members.now.items) }
{
    let mut line = line_of(b"void:");
    for member in members.as_slice() {
        append(&mut line, b" ");
        append_member(&mut line, *member);
    }
    append(&mut line, b"\n");
    line
}

// The line of a word and a number.
#[tactic(auto, unfolding(split_frac::specs::Texts::line))]
pub(crate) fn number_line(word: &[u8], number: u64) -> Line
    requires { length word.now ≤ WORD_ROOM }
    ensures { result.items ≡ word_line word.now (decimal number ∷ []) }
{
    let mut line = line_of(word);
    append(&mut line, b" ");
    let mut buffer = Buffer::new();
    append(&mut line, buffer.format(number).as_bytes());
    append(&mut line, b"\n");
    line
}

// Appends the number of a member, for which there is room.
fn append_member(line: &mut Line, number: u8)
    requires { array_vec_len line.old + 3 ≤ LINE_ROOM }
    ensures text { line.new.items ≡ line.old.items ++ decimal number }
    ensures room { array_vec_len line.new ≤ array_vec_len line.old + 3 }
{
    let mut buffer = Buffer::new();
    append(line, buffer.format(number).as_bytes());
}

// The bytes as a line.
pub(crate) fn line_of(bytes: &[u8]) -> Line
    requires { length bytes.now ≤ LINE_ROOM }
    ensures { result.items ≡ bytes.now }
{
    let mut line = Line::new();
    append(&mut line, bytes);
    line
}

// Appends bytes for which there is room.
pub(crate) fn append(line: &mut Line, bytes: &[u8])
    requires { array_vec_len line.old + length bytes.now ≤ LINE_ROOM }
    ensures { line.new.items ≡ line.old.items ++ bytes.now }
{
    line.try_extend_from_slice(bytes).unwrap();
}
