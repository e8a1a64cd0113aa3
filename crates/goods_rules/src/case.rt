// Reads the case and the owners that a certificate prints.
ghost use Rattle.std.specs.Prelude.{◌≡◌, ℤ, ℕ, pos, ◌≤◌, ◌≤ℤ◌, List, All, MatchOption, length, map, unsigned_abs};
ghost use Rattle.bid_rules.specs.declared.limits.TheConstants.{ITEM_ROOM, MEMBER_ROOM};
ghost use Rattle.goods_rules.specs.Printed.{printed_case};
ghost use Rattle.goods_rules.specs.Rules.{HasCase};

use arrayvec::ArrayVec;
use bid_rules::GoodsCase;
use bid_rules::limits::{ITEM_ROOM, MOST_STEPS};
use rule_verdicts::{PrintedRow, members_between, printed_goods};

// The printed case, if it is valid.
pub(crate) fn case_of(
    goods: u8,
    limit: i128,
    who: &[i128],
    values: &[PrintedRow],
) -> Option<GoodsCase>
    requires who { length who.now ≤ MEMBER_ROOM }
    requires values { length values.now ≤ MEMBER_ROOM }
    ensures { (owners : List ℤ) (steps : ℤ) (marks : List ℕ)
        → MatchOption result
        (HasCase (record {
          goods = goods;
          limit = limit;
          who = who.now;
          values = map
              (λ row. row.items) values.now;
          owners = owners;
          steps = steps;
          marks = marks;
        }) → ⊥)
        (λ case.
        HasCase (record {
          goods = goods;
          limit = limit;
          who = who.now;
          values = map
              (λ row. row.items) values.now;
          owners = owners;
          steps = steps;
          marks = marks;
        })
        × (case
        ≡ printed_case (record {
          goods = goods;
          limit = limit;
          who = who.now;
          values = map
              (λ row. row.items) values.now;
          owners = owners;
          steps = steps;
          marks = marks;
        }))) }
{
    if limit < 0 || limit > i128::from(MOST_STEPS) {
        return None;
    }
    let Some(case) = printed_goods(goods, limit as u32, who, values) else {
        return None;
    };
    Some(case)
}

// The owner of each good, if each is one of this many players.
pub(crate) fn owners_of(owners: &[i128], players: usize) -> Option<Owners>
    requires goods { length owners.now ≤ ITEM_ROOM }
    requires players { players ≤ MEMBER_ROOM }
    ensures { MatchOption result
        (All (λ owner. (pos 1 ≤ℤ owner) × (owner ≤ℤ pos players)) owners.now → ⊥)
        (λ list.
        All (λ owner. (pos 1 ≤ℤ owner) × (owner ≤ℤ pos players)) owners.now
        × (list.items ≡ map unsigned_abs owners.now)) }
{
    members_between(owners, 1, players as u8)
}

/// A player for each good.
pub(crate) type Owners = ArrayVec<u8, ITEM_ROOM>;
