// How the judge takes the lines of a certificate of goods: it gathers those before the tree, and hands the marks of the tree to the rules as they come.
ghost use Rattle.std.specs.Prelude.{◌≡◌, ℕ, ◌++◌, ◌∷◌, [], List, map};
ghost use Rattle.cert_checker.specs.FaresLines.{front_said};
ghost use Rattle.cert_checker.specs.GoodsLines.{GoodsGoOn, HasNoTree, IsAtGoods, IsWholeGoods, before_tree};
ghost use Rattle.cert_reader.specs.Gathered.{line_said};
ghost use Rattle.cert_reader.specs.GoodsViews.{GoodsView};
ghost use Rattle.cert_reader.specs.Reading.{with_mark};
ghost use Rattle.cert_reader.specs.Text.{Numbers, Said};
ghost use Rattle.cert_reader.specs.Views.{says};
ghost use Rattle.goods_rules.specs.Rules.{rules_of_goods};
ghost use Rattle.goods_rules.specs.State.{IsState, StandsFor};
ghost use Rattle.split_frac.specs.Frac.{fraction_of};
ghost use Rattle.rule_verdicts.specs.Verdicts.{IsVerdictOf};

use crate::gathering::gather;
use arrayvec::ArrayVec;
use bid_rules::limits::{ITEM_ROOM, MEMBER_ROOM};
use cert_reader::places::{
    GOODS_COUNT, GOODS_LIMIT, GOODS_TREE, GOODS_VALUES, GOODS_WHO, KIND_LINES,
};
use cert_reader::{LineNumbers, number_at, row_at, rows_of};
use goods_rules::{GoodsState, end_goods, start_goods, take_mark};
use rule_verdicts::{PrintedRow, Verdict};

/// The lines before the tree that are not rows of values: `players`, `goods`, `limit`, `who`, `owners` and `steps`.
const FIXED_LINES: usize = GOODS_VALUES - KIND_LINES + GOODS_TREE;
/// The most lines before the tree.
const HEAD_LINES: usize = FIXED_LINES + MEMBER_ROOM;

/// The lines before the tree so far.
type HeadLines = ArrayVec<LineNumbers, HEAD_LINES>;

/// The lines of goods so far, after the two that say the kind.
#[derive(Drop)]
pub(crate) enum GoodsLines {
    /// Some of those before the tree.
    Head(HeadLines),
    /// Those, and some marks of the tree.
    Tree(GoodsState),
}

impl GoodsLines {
    // None so far. Never inlined: it builds a large value, whose stack would otherwise be held for the whole check.
    #[inline(never)]
    pub(crate) fn new() -> GoodsLines
        ensures { IsAtGoods (front_said []) result }
    {
        GoodsLines::Head(HeadLines::new())
    }

    // Takes the numbers of the next line, which is not the last.
    pub(crate) fn take(&mut self, numbers: &LineNumbers)
        requires { (said : List Said) × (next : Said) × (rest : List Said)
            × GoodsGoOn said (Numbers (map fraction_of numbers.now.items) ∷ next ∷ rest)
            × IsAtGoods said self.old }
        ensures { (said : List Said) (next : Said) (rest : List Said)
            → GoodsGoOn said (Numbers (map fraction_of numbers.now.items) ∷ next ∷ rest)
            → IsAtGoods said self.old
            → IsAtGoods (said ++ Numbers (map fraction_of numbers.now.items) ∷ []) self.new }
    {
        match self {
            GoodsLines::Head(lines) => gather(lines, numbers),
            GoodsLines::Tree(_) => unreachable!(),
        }
    }

    // Takes the first mark of the tree. The state of the tree is large, so it is made here rather than where each mark is
    // taken.
    #[inline(never)]
    fn begin_tree(&mut self, mark: u8)
        requires head { HasNoTree self.old }
        requires goes { (said rest : List Said) × GoodsGoOn (with_mark said mark) rest
            × IsAtGoods said self.old }
        ensures { (said rest : List Said) → GoodsGoOn (with_mark said mark) rest
            → IsAtGoods said self.old → IsAtGoods (with_mark said mark) self.new }
    {
        match self {
            GoodsLines::Head(lines) => {
                let mut state = begin(lines.as_slice());
                take_mark(&mut state, mark);
                *self = GoodsLines::Tree(state);
            }
            GoodsLines::Tree(_) => unreachable!(),
        }
    }

    // Takes the next mark of the tree.
    pub(crate) fn take_mark(&mut self, mark: u8)
        requires { (said rest : List Said) × GoodsGoOn (with_mark said mark) rest
            × IsAtGoods said self.old }
        ensures { (said rest : List Said) → GoodsGoOn (with_mark said mark) rest
            → IsAtGoods said self.old → IsAtGoods (with_mark said mark) self.new }
    {
        match self {
            GoodsLines::Head(_) => self.begin_tree(mark),
            GoodsLines::Tree(state) => take_mark(state, mark),
        }
    }

    // The verdict, once all lines before `end` have come.
    pub(crate) fn verdict(&self) -> Verdict
        requires { (said : List Said) × GoodsGoOn said (says [] ∷ []) × IsAtGoods said self.now }
        ensures { (said : List Said) (goes : GoodsGoOn said (says [] ∷ []))
            → IsAtGoods said self.now → IsVerdictOf (rules_of_goods goes.view) result }
    {
        match self {
            GoodsLines::Head(_) => unreachable!(),
            GoodsLines::Tree(state) => end_goods(state),
        }
    }
}

// Begins with the tree, after the lines before it.
fn begin(lines: &[LineNumbers]) -> GoodsState
    requires { (view : GoodsView) × IsWholeGoods view
        × (before_tree view ≡ map line_said lines.now) }
    ensures state { IsState result }
    ensures stands { (view : GoodsView) → IsWholeGoods view
        → before_tree view ≡ map line_said lines.now → StandsFor view [] result }
{
    let last = lines.len() - GOODS_TREE;
    let who: ArrayVec<i128, MEMBER_ROOM> = row_at(lines, GOODS_WHO - KIND_LINES);
    let values: ArrayVec<PrintedRow, MEMBER_ROOM> = rows_of(
        &lines[GOODS_VALUES - KIND_LINES..last],
    );
    let owners: ArrayVec<i128, ITEM_ROOM> = row_at(lines, last);
    start_goods(
        number_at(lines, GOODS_COUNT - KIND_LINES) as u8,
        number_at(lines, GOODS_LIMIT - KIND_LINES),
        who.as_slice(),
        values.as_slice(),
        owners.as_slice(),
    )
}
