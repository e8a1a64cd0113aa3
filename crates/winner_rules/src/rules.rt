// Asks the four rules of the text of adjusted winner in order, up to the first that doesn't hold.
ghost use Rattle.std.specs.Prelude.{◌≡◌, ◌≤◌, length, map};
ghost use Rattle.bid_rules.specs.declared.limits.TheConstants.{MEMBER_ROOM};
ghost use Rattle.cert_reader.specs.Numbers.{AreShort, IsSmall};
ghost use Rattle.cert_reader.specs.Pairs.{pair_view};
ghost use Rattle.cert_reader.specs.declared.limits.TheConstants.{MOST_PRINTED_DENOMINATOR};
ghost use Rattle.split_frac.specs.Frac.{fraction_of};
ghost use Rattle.rule_verdicts.specs.Verdicts.{IsVerdictOf};
ghost use Rattle.winner_rules.specs.Rules.{rules_of_winner};

use crate::case::case_of;
use crate::shares::are_proper;
use crate::totals::have_total;
use crate::weights::are_weights;
use cert_reader::PairText;
use rule_verdicts::{PrintedRow, Verdict};
use split_frac::Frac;

// The verdict on what is printed: how many goods, the members who are the players, their points by good, player 1's share of each good, the weights, and what
// each player has.
fn check_lines(
    goods: u8,
    who: &[i128],
    values: &[PrintedRow],
    shares: &[Frac],
    weights: &[i128],
    total: &Frac,
) -> Verdict
    requires who { length who.now ≤ MEMBER_ROOM }
    requires values { length values.now ≤ MEMBER_ROOM }
    requires shares { AreShort shares.now }
    requires num { IsSmall total.now.num }
    requires den { total.now.den ≤ MOST_PRINTED_DENOMINATOR }
    ensures { IsVerdictOf
        (rules_of_winner (record {
          goods = goods;
          who = who.now;
          values = map (λ row. row.items) values.now;
          shares = map
              fraction_of shares.now;
          weights = weights.now;
          total = fraction_of total.now;
        })) result }
{
    let Some(case) = case_of(goods, who, values) else {
        return Verdict::No { rule: 1 };
    };
    if !are_proper(&case, shares) {
        return Verdict::No { rule: 2 };
    }
    if !have_total(&case, shares, total) {
        return Verdict::No { rule: 3 };
    }
    if !are_weights(&case, shares, weights) {
        return Verdict::No { rule: 4 };
    }
    Verdict::Yes
}

/// Whether all rules hold of a text, or else the first that does not.
pub fn check_pair(text: &PairText) -> Verdict
    ensures { IsVerdictOf (rules_of_winner (pair_view text.now)) result }
{
    check_lines(
        text.goods,
        text.who.as_slice(),
        text.values.as_slice(),
        text.shares.as_slice(),
        text.weights.as_slice(),
        &text.total,
    )
}
