// Reads the text of an estate that the caller holds, in fixed memory.
ghost use Rattle.std.specs.Prelude.{◌≡◌, ℕ, ◌+◌, ◌<◌, ◌≤◌, ◌++◌, MatchResult, drop, length};
ghost use Rattle.bid_rules.specs.declared.limits.TheConstants.{MOST_GOODS, MOST_MEMBERS};
ghost use Rattle.cert_reader.specs.declared.limits.TheConstants.{MOST_BYTES};
ghost use Rattle.estate_texts.specs.Forms.{AreHeld, body_forms, body_lines, rows_numbers};
ghost use Rattle.estate_texts.specs.Lines.{lines_text};
ghost use Rattle.estate_texts.specs.Steps.{IsReadText, IsRefusedText};
ghost use Rattle.estate_texts.specs.Texts.{IsBrokenEstate, head_lines};

use crate::count::{Head, read_head};
use crate::ends::EstateEnd;
use crate::forms::{body_count, body_form, exactly};
use crate::given::skip_given;
use crate::line::next_row;
use crate::text::{BODY_ROOM, EstateText, Row};
use crate::tree::next_marks;
use arrayvec::ArrayVec;
use cert_reader::limits::MOST_BYTES;
use cert_reader::{Word, numbers_law};

// The lines of numbers, and where the line behind them begins.
#[derive(Drop)]
struct Body {
    // The numbers of each line.
    rows: ArrayVec<Row, BODY_ROOM>,
    // The place behind the LF of the last.
    next: usize,
}

// The lines of numbers behind the counts; or the first broken line.
fn read_body(text: &[u8], head: &Head) -> Result<Body, u32>
    requires players { (1 ≤ head.now.players) × (head.now.players ≤ MOST_MEMBERS) }
    requires goods { (1 ≤ head.now.goods) × (head.now.goods ≤ MOST_GOODS) }
    requires next { head.now.next ≤ length text.now }
    requires read { text.now
        ≡ lines_text (head_lines head.now.players head.now.goods)
        ++ drop head.now.next text.now }
    ensures body { MatchResult result
        (λ body.
        AreHeld (body_forms head.now.players head.now.goods)
        (rows_numbers body.rows.items)
        × (body.next ≤ length text.now)
        × (text.now
        ≡ lines_text (head_lines head.now.players head.now.goods
        ++ body_lines (body_forms head.now.players head.now.goods)
        (rows_numbers body.rows.items))
        ++ drop body.next text.now))
        (λ line. IsBrokenEstate text.now line) }
{
    numbers_law();
    let mut rows: ArrayVec<Row, BODY_ROOM> = ArrayVec::new();
    let mut next = head.next;
    for index in 0..body_count(head.players) {
        let form = body_form(head.players, head.goods, index);
        let Some(taken) = next_row(text, next, form) else {
            return Err(index as u32 + 5);
        };
        rows.push(taken.row);
        next = taken.next;
    }
    Ok(Body { rows, next })
}

// The text behind its lines of numbers; or the first broken line.
fn read_late<'a>(text: &'a [u8], head: &Head, body: Body) -> Result<EstateText<'a>, u32>
    requires players { (1 ≤ head.now.players) × (head.now.players ≤ MOST_MEMBERS) }
    requires goods { (1 ≤ head.now.goods) × (head.now.goods ≤ MOST_GOODS) }
    requires short { length text.now ≤ MOST_BYTES }
    requires held { AreHeld (body_forms head.now.players head.now.goods)
        (rows_numbers body.rows.items) }
    requires next { body.next ≤ length text.now }
    requires read { text.now
        ≡ lines_text (head_lines head.now.players head.now.goods
        ++ body_lines (body_forms head.now.players head.now.goods)
        (rows_numbers body.rows.items))
        ++ drop body.next text.now }
    ensures { MatchResult result (IsReadText text.now) (λ line. IsBrokenEstate text.now line) }
{
    numbers_law();
    let given = skip_given(text, body.next, head.players);
    let tree_line = (body_count(head.players) + given.count) as u32 + 5;
    let Some(tree) = next_marks(text, given.next, head.players) else {
        return Err(tree_line);
    };
    let Some(end) = next_row(text, tree.next, exactly(Word::End, 0)) else {
        return Err(tree_line + 1);
    };
    if end.next < text.len() {
        return Err(tree_line + 2);
    }
    Ok(EstateText {
        players: head.players,
        goods: head.goods,
        body: body.rows,
        given: &text[body.next..given.next],
        marks: tree.marks,
    })
}

// The text; or the first broken line.
fn read_lines(text: &[u8]) -> Result<EstateText<'_>, u32>
    requires { length text.now ≤ MOST_BYTES }
    ensures { MatchResult result (IsReadText text.now) (λ line. IsBrokenEstate text.now line) }
{
    let head = match read_head(text) {
        Ok(head) => head,
        Err(line) => return Err(line),
    };
    match read_body(text, &head) {
        Ok(body) => read_late(text, &head, body),
        Err(line) => Err(line),
    }
}

/// What the text of an estate says.
///
/// NotText if the bytes aren't such a text, with the first line with which no text goes on. TooLong if there are more bytes than a text may have.
pub fn read_estate(text: &[u8]) -> Result<EstateText<'_>, EstateEnd>
    ensures { MatchResult result (IsReadText text.now) (IsRefusedText text.now) }
{
    if text.len() > MOST_BYTES {
        return Err(EstateEnd::TooLong);
    }
    match read_lines(text) {
        Ok(read) => Ok(read),
        Err(line) => Err(EstateEnd::NotText { line }),
    }
}
