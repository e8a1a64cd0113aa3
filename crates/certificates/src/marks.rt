// Writes the tree of the canonical certificate of goods into a buffer, mark by mark.
ghost use Rattle.std.specs.Prelude.{◌≡◌, ◌-◌, ◌≤◌, [], ◌∷◌, length, false};
ghost use Rattle.bid_rules.specs.Goods.{IsValidGoodsCase, player_count};
ghost use Rattle.bid_rules.specs.declared.limits.TheConstants.{MEMBER_ROOM};
ghost use Rattle.certificates.specs.GoodsLines.{canonical_tree};
ghost use Rattle.certificates.specs.Marks.{canonical_marks};
ghost use Rattle.certificates.specs.Nodes.{IsAnswer, IsNode};
ghost use Rattle.certificates.specs.Puts.{Puts};
ghost use Rattle.nash_bounds.specs.LeftOut.{may_be_left};
ghost use Rattle.nash_bounds.specs.Lanes.{IsLaneTable};
ghost use Rattle.nash_search.specs.Division.{IsGoodsDivision};

use crate::goods_answer::{Answer, answer_of};
use crate::node::{Node, root_of};
use crate::room::put;
use best_laws::players_law;
use bid_rules::GoodsCase;
use nash_bounds::limits::MOST_SHORTER;
use nash_bounds::{
    LaneTable, bound_law, lane_table, open_prefixes_law, owners_by_good_law, players, point_table,
    search_order,
};
use nash_search::GoodsDivision;

// Puts the tree below a node that may not be left out.
fn put_tree(
    text: &mut [u8],
    used: usize,
    case: &GoodsCase,
    table: &LaneTable,
    answer: &Answer,
    node: &mut Node,
) -> usize
    requires table { IsLaneTable case.now table.now }
    requires answer { IsAnswer case.now answer.now }
    requires node { IsNode case.now node.old }
    requires open { may_be_left case.now answer.now.owners.items node.old.owners.items ≡ false }
    ensures owners { node.new.owners.items ≡ node.old.owners.items }
    ensures marks { Puts
        (canonical_marks case.now answer.now.owners.items
        (case.now.facts.goods - length node.old.owners.items) node.old.owners.items) used text.old
        text.new result }
{
    if node.owners.len() == case.facts.goods as usize {
        return put(text, used, b"=");
    }
    let mut end = put(text, used, b"+");
    let parent = node.parent(case, table, answer);
    for k in 0..players(case) {
        if node.open_child(case, table, answer, &parent, k + 1) {
            end = put_tree(text, end, case, table, answer, node);
            node.ascend();
        } else {
            end = put(text, end, b"-");
        }
    }
    end
}

// How many marks the tree of a division probably has.
pub(crate) fn likely_marks(case: &GoodsCase, division: &GoodsDivision) -> usize {
    usize::from(players(case)) * (division.steps as usize + MOST_SHORTER as usize)
}

// Puts the marks of the canonical tree of a case, from its division.
pub(crate) fn put_marks(
    text: &mut [u8],
    used: usize,
    case: &GoodsCase,
    division: &GoodsDivision,
) -> usize
    requires case { IsValidGoodsCase case.now }
    requires division { IsGoodsDivision case.now division.now }
    ensures { Puts (canonical_tree case.now division.now) used text.old text.new result }
{
    bound_law();
    open_prefixes_law();
    owners_by_good_law();
    players_law();
    let order = search_order(case);
    let table = lane_table(case, order.as_slice(), &point_table(case, order.as_slice()));
    let answer = answer_of(case, order.as_slice(), division);
    let mut root = root_of(case);
    put_tree(text, used, case, &table, &answer, &mut root)
}
