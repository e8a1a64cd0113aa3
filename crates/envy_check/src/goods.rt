// Who envies whom over goods, by how much, and whether one good less would end it.
ghost use Rattle.std.specs.Prelude.{◌≡◌, ℕ, ◌-◌, ◌*◌, ◌<◌, ◌≤◌, if◌then◌else◌, length};
ghost use Rattle.bid_rules.specs.Goods.{AreOwners, IsValidGoodsCase, player_count, points};
ghost use Rattle.envy_check.specs.Fairness.{AreBestOwners, HasNoFails};
ghost use Rattle.envy_check.specs.BestGoods.{IsBetter};
ghost use Rattle.envy_check.specs.Goods.{IsEf1, IsEf1Row, IsEf1Table, IsMostValued, IsPointsRow, IsPointsTable, goods_of, is_owner, points_envy, points_for};

use crate::laws::one_good_law;
use arrayvec::ArrayVec;
use best_laws::best_goods_law;
use bid_rules::GoodsCase;
use bid_rules::limits::{MEMBER_ROOM, MOST_GOODS, WHOLE_POINTS};

/// Whether a player envies another, and what would end it (Budish 2011).
#[derive(Clone, Copy, Debug, PartialEq, Eq)]
pub enum Ef1 {
    /// The player does not envy the other.
    Content,
    /// The player envies the other, but would not if the other lost this good, numbered from 1. It is the one to which the
    /// player gives the most points, and ties go to the lower number.
    Without { good: u8 },
    /// The player envies the other, whichever one good is taken away.
    Fails,
}

impl Default for Ef1 {
    ghost use Rattle.envy_check.specs.declared.goods.Ef1.TheVariants.{Content};

    ghost is_default = { λ answer. answer ≡ Content };

    /// No envy.
    fn default() -> Self {
        Ef1::Content
    }
}

/// The points that each player gives each other player's goods, less those that they give their own.
///
/// The owners are players by number of the good. Entry (i, j) is above 0 if player i + 1 envies player j + 1.
pub fn points_table(
    case: &GoodsCase,
    owners: &[u8],
) -> ArrayVec<ArrayVec<i32, MEMBER_ROOM>, MEMBER_ROOM>
    requires case { IsValidGoodsCase case.now }
    requires each { length owners.now ≡ case.now.facts.goods }
    requires owners { AreOwners case.now owners.now }
    ensures { IsPointsTable case.now owners.now result.items }
{
    let mut table = ArrayVec::new();
    for place in 0..case.values.len() {
        table.push(points_row(case, owners, place as u8 + 1));
    }
    table
}

/// For each player and each other player, whether the one envies the other, and whether taking one of the other's goods away
/// ends it.
///
/// The owners are players by number of the good.
pub fn ef1_table(
    case: &GoodsCase,
    owners: &[u8],
) -> ArrayVec<ArrayVec<Ef1, MEMBER_ROOM>, MEMBER_ROOM>
    requires case { IsValidGoodsCase case.now }
    requires each { length owners.now ≡ case.now.facts.goods }
    requires owners { AreOwners case.now owners.now }
    ensures table { IsEf1Table case.now owners.now result.items }
    ensures fair { AreBestOwners case.now owners.now → HasNoFails result.items }
{
    best_goods_law();
    one_good_law();
    let mut table = ArrayVec::new();
    for place in 0..case.values.len() {
        table.push(ef1_row(case, owners, place as u8 + 1));
    }
    table
}

// By how many points a player would gain or lose with each other player's goods.
fn points_row(case: &GoodsCase, owners: &[u8], player: u8) -> ArrayVec<i32, MEMBER_ROOM>
    requires case { IsValidGoodsCase case.now }
    requires each { length owners.now ≡ case.now.facts.goods }
    requires low { 1 ≤ player }
    requires high { player ≤ player_count case.now }
    ensures count { length result.items ≡ player_count case.now }
    ensures entries { IsPointsRow case.now owners.now player result.items }
{
    let mut row = ArrayVec::new();
    for place in 0..case.values.len() {
        row.push(envy_in_points(case, owners, player, place as u8 + 1));
    }
    row
}

// For each other player, whether one player's envy ends once a good is taken away (EF1).
fn ef1_row(case: &GoodsCase, owners: &[u8], player: u8) -> ArrayVec<Ef1, MEMBER_ROOM>
    requires case { IsValidGoodsCase case.now }
    requires each { length owners.now ≡ case.now.facts.goods }
    requires low { 1 ≤ player }
    requires high { player ≤ player_count case.now }
    ensures count { length result.items ≡ player_count case.now }
    ensures entries { IsEf1Row case.now owners.now player result.items }
{
    let mut row = ArrayVec::new();
    for place in 0..case.values.len() {
        row.push(ef1_of(case, owners, player, place as u8 + 1));
    }
    row
}

// A player's points for another's goods less those for their own.
fn envy_in_points(case: &GoodsCase, owners: &[u8], player: u8, other: u8) -> i32
    requires case { IsValidGoodsCase case.now }
    requires each { length owners.now ≡ case.now.facts.goods }
    requires low { 1 ≤ player }
    requires high { player ≤ player_count case.now }
    ensures { result ≡ points_envy case.now owners.now player other }
{
    points_of(case, owners, player, other) as i32 - points_of(case, owners, player, player) as i32
}

// What taking away one of the other's goods does to a player's envy.
fn ef1_of(case: &GoodsCase, owners: &[u8], player: u8, other: u8) -> Ef1
    requires case { IsValidGoodsCase case.now }
    requires each { length owners.now ≡ case.now.facts.goods }
    requires low { 1 ≤ player }
    requires high { player ≤ player_count case.now }
    ensures { IsEf1 case.now owners.now player other result }
{
    let own = points_of(case, owners, player, player);
    let theirs = points_of(case, owners, player, other);
    if theirs <= own {
        return Ef1::Content;
    }
    let good = most_valued(case, owners, player, other);
    if theirs <= own + case.points(player, good) {
        Ef1::Without { good }
    } else {
        Ef1::Fails
    }
}

/// The points that a player gives the goods of an owner together, both players numbered from 1.
///
/// The owners are players by number of the good.
pub fn points_of(case: &GoodsCase, owners: &[u8], player: u8, owner: u8) -> u32
    requires case { IsValidGoodsCase case.now }
    requires each { length owners.now ≡ case.now.facts.goods }
    requires low { 1 ≤ player }
    requires high { player ≤ player_count case.now }
    ensures value { result ≡ points_for case.now player (goods_of owners.now owner) }
    ensures small { result ≤ MOST_GOODS * WHOLE_POINTS }
{
    let mut sum = 0;
    for place in 0..owners.len() {
        sum += points_if(case, owners, player, owner, place as u8 + 1);
    }
    sum
}

// The points that a player gives a good, if the owner has it, otherwise 0.
fn points_if(case: &GoodsCase, owners: &[u8], player: u8, owner: u8, good: u8) -> u32
    requires case { IsValidGoodsCase case.now }
    requires each { length owners.now ≡ case.now.facts.goods }
    requires low { 1 ≤ player }
    requires high { player ≤ player_count case.now }
    requires good_low { 1 ≤ good }
    requires good_high { good ≤ case.now.facts.goods }
    ensures value { result
        ≡ if is_owner owners.now owner good then points case.now player good else 0 }
    ensures small { result ≤ WHOLE_POINTS }
{
    if owners[good as usize - 1] == owner {
        case.points(player, good)
    } else {
        0
    }
}

// The owner's good to which the player gives the most points; ties go to the lower number.
fn most_valued(case: &GoodsCase, owners: &[u8], player: u8, owner: u8) -> u8
    requires case { IsValidGoodsCase case.now }
    requires each { length owners.now ≡ case.now.facts.goods }
    requires low { 1 ≤ player }
    requires high { player ≤ player_count case.now }
    requires some { 0 < points_for case.now player (goods_of owners.now owner) }
    ensures most { IsMostValued case.now player (goods_of owners.now owner) result }
    ensures low { 1 ≤ result }
    ensures high { result ≤ case.now.facts.goods }
{
    let mut best = 0;
    for place in 0..owners.len() {
        best = better(case, owners, player, owner, best, place as u8 + 1);
    }
    best
}

// The next good, if the owner has it and the player gives it more points than the best one before, which is 0 if there is
// none; otherwise that one.
fn better(case: &GoodsCase, owners: &[u8], player: u8, owner: u8, best: u8, good: u8) -> u8
    requires case { IsValidGoodsCase case.now }
    requires each { length owners.now ≡ case.now.facts.goods }
    requires low { 1 ≤ player }
    requires high { player ≤ player_count case.now }
    requires good_low { 1 ≤ good }
    requires good_high { good ≤ case.now.facts.goods }
    requires best { best < good }
    ensures { IsBetter case.now owners.now player owner best good result }
{
    if owners[good as usize - 1] != owner {
        return best;
    }
    if best == 0 || case.points(player, good) > case.points(player, best) {
        return good;
    }
    best
}
