// Writes the lines that say whose envy of whom remains after any one good is taken away.
ghost use Rattle.std.specs.Prelude.{◌≡◌, ◌≤◌, ◌++◌, length, All, OnOk, Some, string_bytes};
ghost use Rattle.std.proofs.Props.{props};
ghost use Rattle.bid_rules.specs.Goods.{IsValidGoodsCase, player_count};
ghost use Rattle.envy_check.specs.declared.goods.Ef1.{Ef1};
ghost use Rattle.split_reports.specs.Parts.{lines_to};
ghost use Rattle.goods_audit.specs.Texts.{answers, ef1_text, envy_line, envy_lines};

use arrayvec::ArrayVec;
use bid_rules::GoodsCase;
use bid_rules::limits::MEMBER_ROOM;
use envy_check::Ef1;
use split_base::NoMemory;
use split_frac::push_line;
use split_reports::lines_law;
use std::fmt;

/// An answer on envy up to one good, as a line says it.
#[derive(Clone, Copy)]
struct Answer(Ef1);

impl fmt::Display for Answer {
    ghost output = { λ answer. Some (ef1_text answer.0) };

    fn fmt<W: fmt::Write>(&self, f: &mut fmt::Formatter<W>) -> fmt::Result {
        match self.0 {
            Ef1::Content => write!(f, "content"),
            Ef1::Without { good } => write!(f, "without {good}"),
            Ef1::Fails => write!(f, "fails"),
        }
    }
}

/// The answers on envy up to one good, with the case whose players they are about.
#[derive(Drop)]
pub(crate) struct EnvyLines<'a> {
    pub(crate) case: &'a GoodsCase,
    pub(crate) table: &'a [ArrayVec<Ef1, MEMBER_ROOM>],
    ghost valid: { IsValidGoodsCase case.now } by { Prim.hlevel props },
    ghost rows: { length table.now ≡ player_count case.now },
    ghost others: { All (λ row. length row.items ≡ player_count case.now) table.now },
}

impl EnvyLines<'_> {
    // Appends the line of a player and another, or none of a player and themselves.
    fn push_pair(&self, lines: &mut String, player: u8, other: u8) -> Result<(), NoMemory>
        requires low { 1 ≤ player }
        requires high { player ≤ player_count self.now.case.now }
        requires other_low { 1 ≤ other }
        requires other_high { other ≤ player_count self.now.case.now }
        ensures { OnOk result (string_bytes lines.new
            ≡ string_bytes lines.old
            ++ envy_line self.now.case.now (answers self.now.table.now) player other) }
    {
        if other == player {
            return Ok(());
        }
        let (envier, envied) = (
            self.case.who[player as usize - 1],
            self.case.who[other as usize - 1],
        );
        let answer = Answer(self.table[player as usize - 1][other as usize - 1]);
        push_line(lines, format_args!("envy {envier} {envied}: {answer}"))
    }

    // Appends a line for a player and each other player.
    fn push_others(&self, lines: &mut String, player: u8) -> Result<(), NoMemory>
        requires low { 1 ≤ player }
        requires high { player ≤ player_count self.now.case.now }
        ensures { OnOk result (string_bytes lines.new
            ≡ string_bytes lines.old
            ++ envy_lines self.now.case.now (answers self.now.table.now) player) }
    {
        lines_law();
        for k in 0..self.case.values.len() as u8 {
            self.push_pair(lines, player, k + 1)?;
        }
        Ok(())
    }

    // Appends a line for each player and each other player.
    pub(crate) fn push_all(&self, lines: &mut String) -> Result<(), NoMemory>
        ensures { OnOk result (string_bytes lines.new
            ≡ string_bytes lines.old
            ++ lines_to (player_count self.now.case.now)
            (envy_lines self.now.case.now (answers self.now.table.now))) }
    {
        lines_law();
        for k in 0..self.case.values.len() as u8 {
            self.push_others(lines, k + 1)?;
        }
        Ok(())
    }
}
