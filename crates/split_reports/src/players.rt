// The lines of the players.
ghost use Rattle.std.specs.Prelude.{◌≡◌, ◌≤◌, ◌++◌, ◌==◌, length, Some, OnOk, string_bytes};
ghost use Rattle.std.proofs.Props.{props};
ghost use Rattle.bid_rules.specs.Goods.{IsValidGoodsCase, player_count};
ghost use Rattle.bid_rules.specs.declared.limits.TheConstants.{ITEM_ROOM};
ghost use Rattle.envy_check.specs.Goods.{goods_of};
ghost use Rattle.split_reports.specs.Parts.{lines_to};
ghost use Rattle.split_reports.specs.Names.{shown_names};
ghost use Rattle.split_reports.specs.Players.{goods_list, player_line};

use crate::names::{Names, named};
use crate::player_laws::lines_law;
use arrayvec::ArrayVec;
use bid_rules::GoodsCase;
use bid_rules::limits::ITEM_ROOM;
use envy_check::points_of;
use split_base::NoMemory;
use split_frac::{Numbers, push_line};
use std::fmt;

/// The numbers of some goods, each after a space, or that there is none.
#[derive(Clone, Copy)]
struct GoodsList<'a>(&'a [u8]);

impl fmt::Display for GoodsList<'_> {
    ghost output = { λ goods. Some (goods_list goods.0.now) };

    fn fmt<W: fmt::Write>(&self, f: &mut fmt::Formatter<W>) -> fmt::Result {
        let numbers = Numbers(self.0);
        if self.0.is_empty() {
            write!(f, " none")
        } else {
            write!(f, "{numbers}")
        }
    }
}

// The goods, by number, that a player has.
fn goods_of(owners: &[u8], player: u8) -> ArrayVec<u8, ITEM_ROOM>
    requires { length owners.now ≤ ITEM_ROOM }
    ensures { result.items ≡ goods_of owners.now player }
{
    let mut goods = ArrayVec::new();
    for (k, owner) in owners.iter().enumerate() {
        if *owner == player {
            goods.push(k as u8 + 1);
        }
    }
    goods
}

/// What the lines of players tell: names, the case, and the owner of each good.
#[derive(Drop)]
pub struct PlayerLines<'a> {
    /// What is called by name.
    pub names: &'a Names<'a>,
    /// The case, with a name for each of its members.
    pub case: &'a GoodsCase,
    /// By good the player, from 1, who owns it.
    pub owners: &'a [u8],
    ghost valid: { IsValidGoodsCase case.now } by { Prim.hlevel props },
    ghost each_member: { length names.now.members.now.items ≡ case.now.facts.members },
    ghost each: { length owners.now ≡ case.now.facts.goods },
}

impl PlayerLines<'_> {
    // Appends the line of a player.
    fn push_player(&self, lines: &mut String, player: u8) -> Result<(), NoMemory>
        requires low { 1 ≤ player }
        requires high { player ≤ player_count self.now.case.now }
        ensures { OnOk result (string_bytes lines.new
            ≡ string_bytes lines.old
            ++ player_line (shown_names self.now.names.now) self.now.case.now self.now.owners.now
            player) }
    {
        let person = named(
            self.names.members.as_slice(),
            self.case.who[player as usize - 1],
        );
        let held = goods_of(self.owners, player);
        let goods = GoodsList(held.as_slice());
        let points = points_of(self.case, self.owners, player, player);
        push_line(
            lines,
            format_args!("{person}: goods{goods}, points {points}"),
        )
    }

    /// Appends the lines of the players.
    pub fn push_players(&self, lines: &mut String) -> Result<(), NoMemory>
        ensures { OnOk result (string_bytes lines.new
            ≡ string_bytes lines.old
            ++ lines_to (player_count self.now.case.now)
            (player_line (shown_names self.now.names.now) self.now.case.now self.now.owners.now)) }
    {
        lines_law();
        for k in 0..self.case.values.len() as u8 {
            self.push_player(lines, k + 1)?;
        }
        Ok(())
    }
}
