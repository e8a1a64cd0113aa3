// The text of an audit.
ghost use Rattle.std.specs.Prelude.{◌≡◌, ◌≤◌, ◌++◌, length, map, All, None, Ok, OnOk, IfOk, IfSome, string_bytes};
ghost use Rattle.std.specs.Option.{option_map};
ghost use Rattle.bid_rules.specs.declared.cases.Case.TheVariants as kind;
ghost use Rattle.bid_rules.specs.declared.pair.Pair.{Pair};
ghost use Rattle.bid_rules.specs.Facts.{case_of};
ghost use Rattle.bid_rules.specs.Goods.{AreOwners, IsValidGoodsCase};
ghost use Rattle.nash_search.specs.Division.{IsGoodsDivision};
ghost use Rattle.split_reports.specs.Names.{names_of, shown_names};
ghost use Rattle.split_reports.specs.Players.{player_member};
ghost use Rattle.split_json.specs.Reading.{IsReady, case_data_of};
ghost use Rattle.goods_audit.specs.Texts.{IsAuditText, IsDivisionAudit, SaysFair, answers, audit_lines, audit_title, better_line, welfare_line};

use crate::envies::EnvyLines;
use crate::laws::fair_audit_law;
use crate::whole::welfare;
use arrayvec::ArrayVec;
use bid_rules::limits::ITEM_ROOM;
use bid_rules::{GoodsCase, Pair, case_law};
use envy_check::ef1_table;
use nash_search::GoodsDivision;
use split_base::NoMemory;
use split_frac::{Numbers, push_line};
use split_json::CaseInput;
use split_reports::{Names, PlayerLines};
use std::alloc::Global;

// Appends the line of the title.
fn push_title(lines: &mut String, names: &Names<'_>) -> Result<(), NoMemory>
    ensures { OnOk result
        (string_bytes lines.new ≡ string_bytes lines.old ++ audit_title (shown_names names.now)) }
{
    let title = names.title.as_str();
    push_line(lines, format_args!("audit goods {title}"))
}

// Appends the line of the pair.
fn push_welfare(lines: &mut String, pair: Pair) -> Result<(), NoMemory>
    ensures { OnOk result (string_bytes lines.new ≡ string_bytes lines.old ++ welfare_line pair) }
{
    let (count, product) = (pair.count, pair.product);
    push_line(lines, format_args!("positive {count}, product {product}"))
}

// The numbers of the members that some players are.
fn members_of(case: &GoodsCase, players: &[u8]) -> ArrayVec<u8, ITEM_ROOM>
    requires case { IsValidGoodsCase case.now }
    requires few { length players.now ≤ ITEM_ROOM }
    requires players { AreOwners case.now players.now }
    ensures { result.items ≡ map (player_member case.now) players.now }
{
    let mut members = ArrayVec::new();
    for player in players {
        members.push(case.who[*player as usize - 1]);
    }
    members
}

// Appends the line that says whether the owners are dominated.
fn push_better(lines: &mut String, case: &GoodsCase, better: Option<&[u8]>) -> Result<(), NoMemory>
    requires case { IsValidGoodsCase case.now }
    requires better { IfSome better (λ others.
        (length others.now ≡ case.now.facts.goods) × AreOwners case.now others.now) }
    ensures { OnOk result (string_bytes lines.new
        ≡ string_bytes lines.old
        ++ better_line case.now (option_map (λ others. others.now) better.entry)) }
{
    let Some(others) = better else {
        return push_line(lines, format_args!("pareto yes"));
    };
    let members = members_of(case, others);
    let owners = Numbers(members.as_slice());
    push_line(lines, format_args!("dominated by{owners}"))
}

// The audit from the lines of its players and of their envy.
fn audit_of(
    alloc: Global,
    players: &PlayerLines<'_>,
    envies: &EnvyLines<'_>,
    pair: Pair,
    better: Option<&[u8]>,
) -> Result<Vec<u8>, NoMemory>
    requires case { envies.now.case.now ≡ players.now.case.now }
    requires better { IfSome better (λ others.
        (length others.now ≡ players.now.case.now.facts.goods)
        × AreOwners players.now.case.now others.now) }
    ensures { IfOk result (λ text.
        text.items
        ≡ audit_lines (shown_names players.now.names.now) players.now.case.now
        players.now.owners.now (option_map (λ others. others.now) better.entry) pair
        (answers envies.now.table.now)) }
{
    let mut lines = String::new(alloc);
    push_title(&mut lines, players.names)?;
    players.push_players(&mut lines)?;
    push_welfare(&mut lines, pair)?;
    envies.push_all(&mut lines)?;
    push_better(&mut lines, players.case, better)?;
    Ok(lines.into_bytes())
}

/// The audit of a division of goods, the published one or any other: who gets what, the pair of its welfare, who envies whom past one good
/// (Budish 2011), and an allocation that dominates it, if one is given. Lines end with LF.
///
/// The owners are players, in the order of the goods, and so are the better ones. There is a name for each member of the case.
pub fn named_audit(
    alloc: Global,
    names: &Names<'_>,
    case: &GoodsCase,
    owners: &[u8],
    better: Option<&[u8]>,
) -> Result<Vec<u8>, NoMemory>
    requires case { IsValidGoodsCase case.now }
    requires members { length names.now.members.now.items ≡ case.now.facts.members }
    requires each { length owners.now ≡ case.now.facts.goods }
    requires owners { AreOwners case.now owners.now }
    requires better { IfSome better (λ others.
        (length others.now ≡ case.now.facts.goods) × AreOwners case.now others.now) }
    ensures { IfOk result (λ text.
        IsAuditText (shown_names names.now) case.now owners.now
        (option_map (λ others. others.now) better.entry) text.items) }
{
    let table = ef1_table(case, owners);
    let players = PlayerLines {
        names,
        case,
        owners,
    };
    let envies = EnvyLines {
        case,
        table: table.as_slice(),
    };
    audit_of(alloc, &players, &envies, welfare(case, owners), better)
}

/// The audit of a division of the case that an input makes.
///
/// The lists of the input have the counts of its facts, the facts and bids have no fault, and the case is the one that they make. The
/// owners are players, in the order of the goods, and so are the better ones.
pub fn audit_text(
    alloc: Global,
    input: &CaseInput,
    case: &GoodsCase,
    owners: &[u8],
    better: Option<&[u8]>,
) -> Result<Vec<u8>, NoMemory>
    requires input { IsReady (case_data_of input.now) }
    requires case { case_of input.now.facts input.now.bids.items ≡ Ok (kind.Goods case.now) }
    requires each { length owners.now ≡ case.now.facts.goods }
    requires owners { AreOwners case.now owners.now }
    requires better { IfSome better (λ others.
        (length others.now ≡ case.now.facts.goods) × AreOwners case.now others.now) }
    ensures { IfOk result (λ text.
        IsAuditText (names_of (case_data_of input.now)) case.now owners.now
        (option_map (λ others. others.now) better.entry) text.items) }
{
    case_law();
    let names = Names::new(&input.title, &input.members, &input.items);
    named_audit(alloc, &names, case, owners, better)
}

/// The audit of the best division of a case of goods, as it is published: it says that nothing dominates the division, which is true, and
/// that nobody's envy goes past one good.
///
/// There is a name for each member of the case, and the division is the solver's for it.
pub fn division_audit(
    alloc: Global,
    names: &Names<'_>,
    case: &GoodsCase,
    division: &GoodsDivision,
) -> Result<Vec<u8>, NoMemory>
    requires case { IsValidGoodsCase case.now }
    requires members { length names.now.members.now.items ≡ case.now.facts.members }
    requires division { IsGoodsDivision case.now division.now }
    ensures audit { IfOk result (λ text.
        IsDivisionAudit (shown_names names.now) case.now division.now text.items) }
    ensures fair { IfOk result (λ text.
        SaysFair (shown_names names.now) case.now division.now.owners.items text.items) }
{
    fair_audit_law();
    named_audit(alloc, names, case, division.owners.as_slice(), None)
}
