// The report of goods.
ghost use Rattle.std.specs.Prelude.{◌≡◌, ◌≤◌, ◌++◌, ◌∷◌, ◌==◌, [], length, map, Some, IfOk, OnOk, string_bytes};
ghost use Rattle.bid_rules.specs.Goods.{IsValidGoodsCase, player_count};
ghost use Rattle.nash_search.specs.Division.{IsGoodsDivision};
ghost use Rattle.split_reports.specs.Names.{shown_names};
ghost use Rattle.split_reports.specs.Parts.{lines_to};
ghost use Rattle.split_reports.specs.Goods.{IsGoodsReport, goods_head, goods_report, pair_line, player_envy};

use crate::{Names, PlayerLines, lines_law};
use arrayvec::ArrayVec;
use bid_rules::limits::MEMBER_ROOM;
use bid_rules::{GoodsCase, Pair};
use envy_check::points_table;
use nash_search::GoodsDivision;
use split_base::NoMemory;
use split_frac::{Numbers, push_line};
use std::alloc::Global;

// Appends the title and the numbers of players and members.
fn push_head(lines: &mut String, names: &Names<'_>, case: &GoodsCase) -> Result<(), NoMemory>
    ensures { OnOk result (string_bytes lines.new
        ≡ string_bytes lines.old ++ goods_head (shown_names names.now) case.now) }
{
    let title = names.title.as_str();
    let (players, members) = (case.who.len(), names.members.len());
    push_line(lines, format_args!("goods {title}"))?;
    push_line(lines, format_args!("players {players} of {members}"))?;
    Ok(())
}

// Appends the pair of the allocation and the number of steps.
fn push_pair(lines: &mut String, pair: &Pair, steps: u32) -> Result<(), NoMemory>
    ensures { OnOk result
        (string_bytes lines.new ≡ string_bytes lines.old ++ pair_line pair.now steps) }
{
    let (count, product) = (pair.count, pair.product);
    push_line(
        lines,
        format_args!("positive {count}, product {product}, steps {steps}"),
    )
}

// Appends the line of a player in the table of points.
fn push_envy(
    lines: &mut String,
    case: &GoodsCase,
    table: &[ArrayVec<i32, MEMBER_ROOM>],
    player: u8,
) -> Result<(), NoMemory>
    requires low { 1 ≤ player }
    requires who { player ≤ length case.now.who.items }
    requires high { player ≤ length table.now }
    ensures { OnOk result (string_bytes lines.new
        ≡ string_bytes lines.old
        ++ player_envy case.now (map (λ row. row.items) table.now) player) }
{
    let member = case.who[player as usize - 1];
    let row = Numbers(table[player as usize - 1].as_slice());
    push_line(lines, format_args!("envy {member}:{row}"))
}

// Appends the table of points.
fn push_table(
    lines: &mut String,
    case: &GoodsCase,
    table: &[ArrayVec<i32, MEMBER_ROOM>],
) -> Result<(), NoMemory>
    requires case { IsValidGoodsCase case.now }
    requires rows { length table.now ≡ player_count case.now }
    ensures { OnOk result (string_bytes lines.new
        ≡ string_bytes lines.old
        ++ lines_to (player_count case.now)
        (player_envy case.now (map (λ row. row.items) table.now))) }
{
    lines_law();
    for k in 0..case.values.len() as u8 {
        push_envy(lines, case, table, k + 1)?;
    }
    Ok(())
}

// The report of goods, with the lines of the players and a table of points.
fn goods_text(
    alloc: Global,
    players: &PlayerLines<'_>,
    division: &GoodsDivision,
    table: &[ArrayVec<i32, MEMBER_ROOM>],
) -> Result<Vec<u8>, NoMemory>
    requires rows { length table.now ≡ player_count players.now.case.now }
    ensures { IfOk result (λ text.
        text.items
        ≡ goods_report (shown_names players.now.names.now) players.now.case.now
        players.now.owners.now division.now.pair division.now.steps
        (map (λ row. row.items) table.now)) }
{
    let mut lines = String::new(alloc);
    push_head(&mut lines, players.names, players.case)?;
    players.push_players(&mut lines)?;
    push_pair(&mut lines, &division.pair, division.steps)?;
    push_table(&mut lines, players.case, table)?;
    Ok(lines.into_bytes())
}

// The report of goods, from the division that the solver gives for the case.
pub(crate) fn goods_report(
    alloc: Global,
    names: &Names<'_>,
    case: &GoodsCase,
    division: &GoodsDivision,
) -> Result<Vec<u8>, NoMemory>
    requires case { IsValidGoodsCase case.now }
    requires members { length names.now.members.now.items ≡ case.now.facts.members }
    requires division { IsGoodsDivision case.now division.now }
    ensures { IfOk result (λ text.
        IsGoodsReport (shown_names names.now) case.now division.now text.items) }
{
    let players = PlayerLines {
        names,
        case,
        owners: division.owners.as_slice(),
    };
    let table = points_table(case, players.owners);
    goods_text(alloc, &players, division, table.as_slice())
}
