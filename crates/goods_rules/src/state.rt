// The judge of a certificate of goods, which takes the marks of the tree one at a time, in fixed memory.
ghost use Rattle.std.specs.Prelude.{◌≡◌, ℕ, ℤ, ◌≤◌, List, [], ◌∷◌, ◌++◌, length, map};
ghost use Rattle.bid_rules.specs.declared.limits.TheConstants.{ITEM_ROOM, MEMBER_ROOM};
ghost use Rattle.cert_reader.specs.GoodsViews.{GoodsView};
ghost use Rattle.goods_rules.specs.Rules.{rules_of_goods};
ghost use Rattle.goods_rules.specs.State.{IsState, StandsFor, walk_rule};
ghost use Rattle.rule_verdicts.specs.Verdicts.{IsVerdict, IsVerdictOf};

use crate::answer::{Answer, answer_of};
use crate::case::{case_of, owners_of};
use crate::walk::Walk;
use rule_verdicts::{PrintedRow, Verdict};

/// How far the judge of a certificate of goods has come, after the lines before the tree and some of its marks.
#[derive(Drop)]
pub enum GoodsState {
    /// A rule is broken: the first, because no valid case is printed, or the second, because some good has no owner.
    Broken {
        /// The rule, from 1.
        rule: u8,
    },
    /// Both of these rules hold.
    Walking {
        /// What the leaves are judged by.
        answer: Answer,
        /// How far the walk through the tree has come.
        walk: Walk,
    },
}

/// Begins with what is printed before the tree: how many goods, the step limit, the members by player, the points by player and good, and
/// the owners, players from 1, by good number. The number of steps is not judged.
pub fn start_goods(
    goods: u8,
    limit: i128,
    who: &[i128],
    values: &[PrintedRow],
    owners: &[i128],
) -> GoodsState
    requires who { length who.now ≤ MEMBER_ROOM }
    requires values { length values.now ≤ MEMBER_ROOM }
    requires owners { length owners.now ≤ ITEM_ROOM }
    ensures state { IsState result }
    ensures stands { (steps : ℤ) (marks : List ℕ)
        → StandsFor
        (record {
          goods = goods;
          limit = limit;
          who = who.now;
          values = map (λ row. row.items)
              values.now;
          owners = owners.now;
          steps = steps;
          marks = marks;
        }) [] result }
{
    let Some(case) = case_of(goods, limit, who, values) else {
        return GoodsState::Broken { rule: 1 };
    };
    if owners.len() != usize::from(goods) {
        return GoodsState::Broken { rule: 2 };
    }
    let Some(list) = owners_of(owners, who.len()) else {
        return GoodsState::Broken { rule: 2 };
    };
    GoodsState::Walking {
        answer: answer_of(case, list.as_slice()),
        walk: Walk::new(),
    }
}

/// Takes the next mark of the tree.
pub fn take_mark(state: &mut GoodsState, mark: u8)
    requires { IsState state.old }
    ensures state { IsState state.new }
    ensures stands { (view : GoodsView) (taken : List ℕ) → StandsFor view taken state.old
        → StandsFor view (taken ++ mark ∷ []) state.new }
{
    match state {
        GoodsState::Broken { .. } => {}
        GoodsState::Walking { answer, walk } => walk.take(answer, mark),
    }
}

// The verdict on the tree once no more marks will come.
fn verdict_of(walk: &Walk) -> Verdict
    ensures { IsVerdict (walk_rule walk.now) 6 result }
{
    if !walk.whole || !walk.kept.tree {
        return Verdict::No { rule: 3 };
    }
    if !walk.kept.above {
        return Verdict::No { rule: 4 };
    }
    if !walk.kept.leaves {
        return Verdict::No { rule: 5 };
    }
    if !walk.kept.answer {
        return Verdict::No { rule: 6 };
    }
    Verdict::Yes
}

/// The verdict, once all marks have been taken.
pub fn end_goods(state: &GoodsState) -> Verdict
    ensures { (view : GoodsView) → StandsFor view view.marks state.now
        → IsVerdictOf (rules_of_goods view) result }
{
    match state {
        GoodsState::Broken { rule } => Verdict::No { rule: *rule },
        GoodsState::Walking { walk, .. } => verdict_of(walk),
    }
}
