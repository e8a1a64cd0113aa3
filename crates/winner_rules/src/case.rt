// The first rule of the text of adjusted winner: it prints a valid case of two players, which is read here.
ghost use Rattle.std.specs.Prelude.{◌≡◌, ℤ, ◌≤◌, List, MatchOption, length, map};
ghost use Rattle.bid_rules.specs.declared.limits.TheConstants.{MEMBER_ROOM};
ghost use Rattle.bid_rules.specs.Fractions.{Fraction};
ghost use Rattle.winner_rules.specs.Rules.{HasCase, printed_case};

use bid_rules::GoodsCase;
use bid_rules::limits::{MOST_STEPS, PAIR_ROOM};
use rule_verdicts::{PrintedRow, printed_goods};

// The printed case, if it is a valid one of two players.
pub(crate) fn case_of(goods: u8, who: &[i128], values: &[PrintedRow]) -> Option<GoodsCase>
    requires who { length who.now ≤ MEMBER_ROOM }
    requires values { length values.now ≤ MEMBER_ROOM }
    ensures { (shares : List Fraction) (weights : List ℤ) (total : Fraction)
        → MatchOption result
        (HasCase (record {
          goods = goods;
          who = who.now;
          values = map (λ row. row.items) values.now;
          shares = shares;
          weights = weights;
          total = total;
        }) → ⊥)
        (λ case.
        HasCase (record {
          goods = goods;
          who = who.now;
          values = map (λ row. row.items) values.now;
          shares = shares;
          weights = weights;
          total = total;
        })
        × (case
        ≡ printed_case (record {
          goods = goods;
          who = who.now;
          values = map (λ row. row.items)
              values.now;
          shares = shares;
          weights = weights;
          total = total;
        }))) }
{
    if who.len() != PAIR_ROOM {
        return None;
    }
    let Some(case) = printed_goods(goods, MOST_STEPS, who, values) else {
        return None;
    };
    Some(case)
}
