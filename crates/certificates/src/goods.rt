// Writes the canonical certificate of goods into a buffer.
ghost use Rattle.std.specs.Prelude.{◌≡◌, ◌++◌, [], ◌∷◌, flat_map, map, pos};
ghost use Rattle.bid_rules.specs.Goods.{IsValidGoodsCase};
ghost use Rattle.cert_reader.specs.declared.forms.Word.TheVariants as word;
ghost use Rattle.cert_reader.specs.Forms.{Tree};
ghost use Rattle.cert_reader.specs.Text.{Marks, said_text, wholes};
ghost use Rattle.cert_reader.specs.Views.{OfGoods};
ghost use Rattle.certificates.specs.Canonical.{text_saying};
ghost use Rattle.certificates.specs.Lines.{number_line};
ghost use Rattle.certificates.specs.GoodsLines.{canonical_goods, canonical_tree};
ghost use Rattle.certificates.specs.Puts.{Puts};
ghost use Rattle.nash_search.specs.Division.{IsGoodsDivision};

use crate::lines::{put_amounts, put_rows, put_small};
use crate::marks::put_marks;
use crate::room::put;
use bid_rules::{Goods, GoodsCase};
use cert_reader::Word;
use nash_bounds::players;
use nash_search::GoodsDivision;

// Puts the lines before the players.
fn put_head(text: &mut [u8], used: usize, players: u8, facts: &Goods) -> usize
    ensures { Puts
        (number_line word.Fairsplit (wholes (pos 1 ∷ []))
        ++ (number_line word.KindGoods []
        ++ (number_line word.Players (wholes (pos players ∷ []))
        ++ (number_line word.Goods (wholes (pos facts.now.goods ∷ []))
        ++ number_line word.Limit (wholes (pos facts.now.limit ∷ [])))))) used text.old text.new
        result }
{
    let used = put_small(text, used, Word::Fairsplit, &[1]);
    let used = put_small(text, used, Word::KindGoods, &[]);
    let used = put_small(text, used, Word::Players, &[players]);
    let used = put_small(text, used, Word::Goods, &[facts.goods]);
    put_amounts(text, used, Word::Limit, &[facts.limit])
}

// Puts the line that lists the members who are the players.
fn put_who(text: &mut [u8], used: usize, case: &GoodsCase) -> usize
    ensures { Puts (number_line word.Who (wholes (map pos case.now.who.items))) used text.old
        text.new result }
{
    put_small(text, used, Word::Who, case.who.as_slice())
}

// Puts the lines of their points.
fn put_points(text: &mut [u8], used: usize, case: &GoodsCase) -> usize
    ensures { Puts
        (flat_map (λ row. number_line word.Values (wholes (map pos row.items)))
        case.now.values.items) used text.old text.new result }
{
    put_rows(text, used, Word::Values, case.values.as_slice())
}

// Puts the lines of who has each good, and of the step count.
fn put_division(text: &mut [u8], used: usize, division: &GoodsDivision) -> usize
    ensures { Puts
        (number_line word.Owners (wholes (map pos division.now.owners.items))
        ++ number_line word.Steps (wholes (pos division.now.steps ∷ []))) used text.old text.new
        result }
{
    let used = put_small(text, used, Word::Owners, division.owners.as_slice());
    put_amounts(text, used, Word::Steps, &[division.steps])
}

// Puts the line of the tree.
fn put_tree_line(text: &mut [u8], used: usize, case: &GoodsCase, division: &GoodsDivision) -> usize
    requires case { IsValidGoodsCase case.now }
    requires division { IsGoodsDivision case.now division.now }
    ensures { Puts (said_text Tree (Marks (canonical_tree case.now division.now))) used text.old
        text.new result }
{
    let behind_word = put(text, used, Word::Tree.as_str().as_bytes());
    let behind_space = put(text, behind_word, b" ");
    let behind_marks = put_marks(text, behind_space, case, division);
    put(text, behind_marks, b"\n")
}

// Puts the last line.
fn put_end(text: &mut [u8], used: usize) -> usize
    ensures { Puts (number_line word.End []) used text.old text.new result }
{
    put_small(text, used, Word::End, &[])
}

/// Puts the canonical certificate of goods at the front of the text.
pub fn put_goods(text: &mut [u8], case: &GoodsCase, division: &GoodsDivision) -> usize
    requires case { IsValidGoodsCase case.now }
    requires division { IsGoodsDivision case.now division.now }
    ensures { Puts (text_saying (OfGoods (canonical_goods case.now division.now))) 0 text.old
        text.new result }
{
    let head = put_head(text, 0, players(case), &case.facts);
    let who = put_who(text, head, case);
    let points = put_points(text, who, case);
    let shown = put_division(text, points, division);
    let tree = put_tree_line(text, shown, case, division);
    put_end(text, tree)
}
