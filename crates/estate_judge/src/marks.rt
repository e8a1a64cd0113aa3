// Takes the nodes of a tree from its marks, one by one.
ghost use Rattle.std.specs.Prelude.{◌≡◌, ◌≢◌, ◌↔◌, ℕ, ◌+◌, ◌-◌, ◌<◌, ◌≤◌, List, ◌∷◌, ◌++◌, All, IsTrue, MatchOption, drop, length, map, slice_index};
ghost use Rattle.bid_rules.specs.declared.limits.TheConstants.{ITEM_ROOM, MEMBER_ROOM};
ghost use Rattle.estate_judge.specs.declared.node.Kind.{Kind};
ghost use Rattle.estate_judge.specs.declared.node.Node.{Node};
ghost use Rattle.estate_judge.specs.Nodes.{IsKind, IsLetter, StandsFirst, kind_marks};
ghost use Rattle.estate_texts.specs.declared.marks.TheConstants.{NEXT_GIVEN, TWIN_LEAF};
ghost use Rattle.estate_texts.specs.Given.{CanGive, GivenLine, given_content};
ghost use Rattle.estate_texts.specs.Lines.{IsEstateMark, lines_text};

use crate::lines::take_lines;
use crate::node::{Kind, Node};
use arrayvec::ArrayVec;
use bid_rules::limits::ITEM_ROOM;
use estate_texts::given_law;
use estate_texts::marks::{
    ANSWER_LEAF, CLOSED_LEAF, FIRST_PLAYER, INNER_NODE, NEXT_GIVEN, TWIN_LEAF,
};

/// A node, and what comes behind it.
#[derive(Drop)]
pub struct TakenNode {
    /// The node.
    pub node: Node,
    /// The place of the next mark.
    pub next: usize,
    /// The place of the next line of weights or prices.
    pub next_given: usize,
}

// A kind of node, and how many marks it has.
#[derive(Drop)]
struct TakenKind {
    // The kind.
    kind: Kind,
    // The number of marks.
    len: usize,
}

// How many marks are `!` before the first other one.
fn given_count(marks: &[u8]) -> usize
    ensures within { result ≤ length marks.now }
    ensures before { (k : ℕ) → k < result → slice_index marks.now k ≡ NEXT_GIVEN }
    ensures behind { result < length marks.now → slice_index marks.now result ≢ NEXT_GIVEN }
{
    for (i, mark) in marks.iter().enumerate() {
        if *mark != NEXT_GIVEN {
            return i;
        }
    }
    marks.len()
}

// Whether the character may be a letter.
fn is_letter(mark: u8) -> bool
    ensures { IsTrue result ↔ IsLetter mark }
{
    mark >= FIRST_PLAYER && mark < TWIN_LEAF
}

// How many marks are letters before the first other one.
fn letter_count(marks: &[u8]) -> usize
    ensures within { result ≤ length marks.now }
    ensures before { (k : ℕ) → k < result → IsLetter (slice_index marks.now k) }
    ensures behind { result < length marks.now → IsLetter (slice_index marks.now result) → ⊥ }
{
    for (i, mark) in marks.iter().enumerate() {
        if !is_letter(*mark) {
            return i;
        }
    }
    marks.len()
}

// The players whose letters these are.
fn players_of(letters: &[u8]) -> ArrayVec<u8, ITEM_ROOM>
    requires few { length letters.now ≤ ITEM_ROOM }
    requires letters { All IsLetter letters.now }
    ensures { result.items ≡ map (λ mark. mark - 64) letters.now }
{
    let mut list = ArrayVec::new();
    for k in 0..letters.len() {
        list.push(letters[k] - (FIRST_PLAYER - 1));
    }
    list
}

// The twin whose letters come first.
fn first_twin(marks: &[u8], players: u8) -> Option<TakenKind>
    requires few { players ≤ MEMBER_ROOM }
    requires marks { All (IsEstateMark players) marks.now }
    ensures kind { MatchOption result
        ((kind : Kind) (rest : List ℕ) → IsKind players kind rest
        → TWIN_LEAF ∷ marks.now ≡ kind_marks kind ++ rest → ⊥)
        (λ taken.
        IsKind players taken.kind (drop taken.len (TWIN_LEAF ∷ marks.now))
        × (TWIN_LEAF ∷ marks.now
        ≡ kind_marks taken.kind ++ drop taken.len (TWIN_LEAF ∷ marks.now))) }
    ensures len { MatchOption result (Unit {0})
        (λ taken. (0 < taken.len) × (taken.len ≤ length marks.now + 1)) }
{
    let count = letter_count(marks);
    if count == 0 {
        return None;
    }
    if count > ITEM_ROOM {
        return None;
    }
    Some(TakenKind {
        kind: Kind::Twin(players_of(&marks[..count])),
        len: count + 1,
    })
}

// What kind of node the first mark begins.
fn first_kind(marks: &[u8], players: u8) -> Option<TakenKind>
    requires few { players ≤ MEMBER_ROOM }
    requires marks { All (IsEstateMark players) marks.now }
    ensures kind { MatchOption result
        ((kind : Kind) (rest : List ℕ) → IsKind players kind rest
        → marks.now ≡ kind_marks kind ++ rest → ⊥)
        (λ taken.
        IsKind players taken.kind (drop taken.len marks.now)
        × (marks.now ≡ kind_marks taken.kind ++ drop taken.len marks.now)) }
    ensures len { MatchOption result (Unit {0})
        (λ taken. (0 < taken.len) × (taken.len ≤ length marks.now)) }
{
    if marks.len() == 0 {
        return None;
    }
    match marks[0] {
        INNER_NODE => Some(TakenKind {
            kind: Kind::Inner,
            len: 1,
        }),
        CLOSED_LEAF => Some(TakenKind {
            kind: Kind::Closed,
            len: 1,
        }),
        ANSWER_LEAF => Some(TakenKind {
            kind: Kind::Answer,
            len: 1,
        }),
        TWIN_LEAF => first_twin(&marks[1..], players),
        _ => None,
    }
}

/// The node that comes first from a place on, with the lines that it takes.
pub fn next_node(
    marks: &[u8],
    at: usize,
    given: &[u8],
    from: usize,
    players: u8,
) -> Option<TakenNode>
    requires few { players ≤ MEMBER_ROOM }
    requires marks { All (IsEstateMark players) marks.now }
    requires at { at ≤ length marks.now }
    requires from { from ≤ length given.now }
    ensures node { MatchOption result
        ((lines more : List GivenLine) (node : Node) (rest : List ℕ)
        → All (CanGive players) lines
        → drop from given.now ≡ lines_text (map given_content lines)
        → StandsFirst players (drop at marks.now) lines node rest more → ⊥)
        (λ taken. (lines : List GivenLine) → All (CanGive players) lines
        → drop from given.now ≡ lines_text (map given_content lines)
        → (more : List GivenLine)
        × StandsFirst players (drop at marks.now) lines taken.node (drop taken.next marks.now) more
        × (drop taken.next_given given.now ≡ lines_text (map given_content more))) }
    ensures next { MatchOption result (Unit {0})
        (λ taken.
        (at < taken.next) × (taken.next ≤ length marks.now)
        × (taken.next_given ≤ length given.now)) }
{
    given_law();
    let rest = &marks[at..];
    let count = given_count(rest);
    let Some(kind) = first_kind(&rest[count..], players) else {
        return None;
    };
    match take_lines(given, from, count, players) {
        Some(lines) => Some(TakenNode {
            node: Node {
                weights: lines.weights,
                prices: lines.prices,
                kind: kind.kind,
            },
            next: at + count + kind.len,
            next_given: lines.next,
        }),
        None => None,
    }
}
