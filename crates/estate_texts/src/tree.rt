// Reads the line of the tree from the text of an estate.
ghost use Rattle.std.specs.Prelude.{◌≡◌, ◌↔◌, ℕ, ◌+◌, ◌<◌, ◌≤◌, List, All, IsTrue, MatchOption, drop, length};
ghost use Rattle.bid_rules.specs.declared.limits.TheConstants.{MOST_MEMBERS};
ghost use Rattle.estate_texts.specs.Lines.{IsEstateMark, marks_content};
ghost use Rattle.estate_texts.specs.Steps.{BeginsWithMarks};

use crate::marks::{ANSWER_LEAF, CLOSED_LEAF, FIRST_PLAYER, INNER_NODE, NEXT_GIVEN, TWIN_LEAF};
use cert_reader::{behind, front_len};

/// The marks of a tree, and where the line after it begins.
#[derive(Drop)]
pub(crate) struct TakenMarks<'a> {
    /// The marks.
    pub(crate) marks: &'a [u8],
    /// The place behind the line's LF.
    pub(crate) next: usize,
}

// Whether the byte is a character of a tree.
fn is_mark(byte: u8, players: u8) -> bool
    ensures { IsTrue result ↔ IsEstateMark players byte }
{
    match byte {
        INNER_NODE | CLOSED_LEAF | ANSWER_LEAF | NEXT_GIVEN | TWIN_LEAF => true,
        _ => byte >= FIRST_PLAYER && byte - FIRST_PLAYER < players,
    }
}

// Whether all bytes are.
fn are_marks(bytes: &[u8], players: u8) -> bool
    ensures { IsTrue result ↔ All (IsEstateMark players) bytes.now }
{
    for byte in bytes {
        if !is_mark(*byte, players) {
            return false;
        }
    }
    true
}

// The marks of the line, given without its LF, if it is that of a tree.
fn read_marks(line: &[u8], players: u8) -> Option<&[u8]>
    ensures { MatchOption result
        ((marks : List ℕ) → 1 ≤ length marks → All (IsEstateMark players) marks
        → line.now ≡ marks_content marks → ⊥)
        (λ marks.
        (1 ≤ length marks.now) × All (IsEstateMark players) marks.now
        × (line.now ≡ marks_content marks.now)) }
{
    let Some(marks) = behind(line, b"tree ") else {
        return None;
    };
    if marks.len() == 0 {
        return None;
    }
    if !are_marks(marks, players) {
        return None;
    }
    Some(marks)
}

// The marks of the line at a place, if it is that of a tree.
pub(crate) fn next_marks(text: &[u8], at: usize, players: u8) -> Option<TakenMarks<'_>>
    requires at { at ≤ length text.now }
    ensures marks { MatchOption result
        ((marks rest : List ℕ) → BeginsWithMarks players (drop at text.now) marks rest → ⊥)
        (λ taken. BeginsWithMarks players (drop at text.now) taken.marks.now
        (drop taken.next text.now)) }
    ensures next { MatchOption result (Unit {0})
        (λ taken. (at < taken.next) × (taken.next ≤ length text.now)) }
{
    let rest = &text[at..];
    let len = front_len(rest, b'\n');
    if len >= rest.len() {
        return None;
    }
    match read_marks(&rest[..len], players) {
        Some(marks) => Some(TakenMarks {
            marks,
            next: at + len + 1,
        }),
        None => None,
    }
}
