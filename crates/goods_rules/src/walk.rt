// A walk through the tree, mark by mark.
ghost use Rattle.std.specs.Prelude.{◌≡◌, ℕ, ◌∷◌, ◌↔◌, List, IsTrue};
ghost use Rattle.bid_rules.specs.declared.goods.GoodsCase.{GoodsCase};
ghost use Rattle.bid_rules.specs.declared.pair.Pair.{Pair};
ghost use Rattle.goods_rules.specs.Ahead.{CanStand, IsLeft, holds_so_far};
ghost use Rattle.goods_rules.specs.Path.{IsGoodsAnswer, IsPath, IsWalk};
ghost use Rattle.goods_rules.specs.Rules.{IsRuledTree, leaf_rule};

use crate::answer::Answer;
use crate::path::Path;
use cert_reader::marks::{ANSWER_LEAF, INNER_NODE, LEFT_OUT};
use nash_bounds::players;

/// Which rules on the tree hold so far.
#[derive(Clone, Copy)]
pub struct Kept {
    /// The marks are those of a tree.
    pub tree: bool,
    /// Each `-` with goods still to give is allowed.
    pub above: bool,
    /// Each `-` with all goods given is allowed.
    pub leaves: bool,
    /// Each `=` is the answer's leaf.
    pub answer: bool,
}

/// How far a walk through the tree has come.
#[derive(Drop)]
pub struct Walk {
    /// The path to the node that comes next.
    pub path: Path,
    /// Whether the whole tree has been read.
    pub whole: bool,
    /// Which rules hold so far.
    pub kept: Kept,
}

impl Kept {
    // Judges a leaf.
    fn judge(&mut self, answer: &Answer, path: &Path, mark: u8)
        requires answer { IsGoodsAnswer answer.now }
        requires path { IsPath answer.now.case answer.now.goal.pair path.now }
        ensures { (number : ℕ) → IsTrue (holds_so_far self.new number)
            ↔ IsTrue (holds_so_far self.old number)
            × leaf_rule answer.now.case answer.now.owners.items number path.now.owners.items mark }
    {
        if mark == ANSWER_LEAF {
            self.answer = self.answer && path.owners.as_slice() == answer.owners.as_slice();
            return;
        }
        if mark != LEFT_OUT {
            return;
        }
        let may_stand = path.may_be_left(answer);
        if path.owners.len() < usize::from(answer.case.facts.goods) {
            self.above = self.above && may_stand;
        } else {
            self.leaves = self.leaves && may_stand;
        }
    }
}

impl Walk {
    // Before the first mark.
    pub(crate) fn new() -> Walk
        ensures walk { (case : GoodsCase) (pair : Pair) → IsWalk case pair result }
        ensures left { (case : GoodsCase) (answer : List ℕ) (number : ℕ) (marks : List ℕ)
            → IsRuledTree case answer number marks ↔ IsLeft case answer result number marks }
    {
        Walk {
            path: Path::new(),
            whole: false,
            kept: Kept {
                tree: true,
                above: true,
                leaves: true,
                answer: true,
            },
        }
    }

    // Whether this mark can come where the walk is.
    fn fits(&self, goods: u8, mark: u8) -> bool
        ensures { IsTrue result ↔ CanStand goods self.now.whole self.now.path.owners.items mark }
    {
        if self.whole {
            return false;
        }
        let is_full = self.path.owners.len() >= usize::from(goods);
        match mark {
            INNER_NODE => !is_full,
            LEFT_OUT => true,
            ANSWER_LEAF => is_full,
            _ => false,
        }
    }

    // The walk after a mark with which no tree can go on.
    fn give_up(&mut self)
        ensures path { self.new.path ≡ self.old.path }
        ensures whole { self.new.whole ≡ self.old.whole }
        ensures kept { (number : ℕ) → IsTrue (holds_so_far self.new.kept number) → ⊥ }
    {
        self.kept = Kept {
            tree: false,
            above: false,
            leaves: false,
            answer: false,
        };
    }

    // Takes any mark.
    fn take_any(&mut self, answer: &Answer, mark: u8)
        requires answer { IsGoodsAnswer answer.now }
        requires walk { IsWalk answer.now.case answer.now.goal.pair self.old }
        ensures walk { IsWalk answer.now.case answer.now.goal.pair self.new }
        ensures left { (number : ℕ) (marks : List ℕ)
            → IsLeft answer.now.case answer.now.owners.items self.old number (mark ∷ marks)
            ↔ IsLeft answer.now.case answer.now.owners.items self.new number marks }
    {
        if !self.fits(answer.case.facts.goods, mark) {
            self.give_up();
            return;
        }
        if mark == INNER_NODE {
            self.path.enter(answer);
            return;
        }
        self.kept.judge(answer, &self.path, mark);
        self.whole = self.path.climb(players(&answer.case));
    }

    // Takes one mark. Most marks are for children that are left out and could not reach the answer's pair, and these change nothing
    // that is kept.
    pub(crate) fn take(&mut self, answer: &Answer, mark: u8)
        requires answer { IsGoodsAnswer answer.now }
        requires walk { IsWalk answer.now.case answer.now.goal.pair self.old }
        ensures walk { IsWalk answer.now.case answer.now.goal.pair self.new }
        ensures left { (number : ℕ) (marks : List ℕ)
            → IsLeft answer.now.case answer.now.owners.items self.old number (mark ∷ marks)
            ↔ IsLeft answer.now.case answer.now.owners.items self.new number marks }
    {
        if mark == LEFT_OUT && self.path.is_far(answer) {
            self.whole = self.path.climb(players(&answer.case));
            return;
        }
        self.take_any(answer, mark);
    }
}
