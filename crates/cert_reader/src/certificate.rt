// The types that hold what a certificate says.
ghost use Rattle.std.specs.Prelude.{◌≡◌, ◌+◌, ◌≤◌, All, length};
ghost use Rattle.std.proofs.Props.{props};
ghost use Rattle.bid_rules.specs.declared.limits.TheConstants.{MOST_GOODS, MOST_PLACES};
ghost use Rattle.cert_reader.specs.Numbers.{AreShort, AreSmall, IsSmall, table_size};
ghost use Rattle.cert_reader.specs.Text.{AreMarks};

use crate::table::Table;
use crate::tree::Tree;
use arrayvec::ArrayVec;
use bid_rules::limits::{ITEM_ROOM, LEG_ROW_ROOM, MEMBER_ROOM, PLACE_ROOM, RIDER_ROOM};
use split_frac::Frac;

/// A certificate text that was read: the numbers of its lines. Its rules decide whether they show a best division.
#[derive(Debug, Drop)]
pub enum Certificate {
    Rent(RentText),
    Goods(GoodsText),
    Fares(FaresText),
}

/// What a certificate of a rent says. Lists are by member, except that `right` and `prices` are by room.
///
/// There is at least one member, and as many rooms as members. Numbers have at most `MOST_DIGITS` digits, and denominators are at most
/// `MOST_PRINTED_DENOMINATOR`.
#[derive(Debug, Drop)]
pub struct RentText {
    pub rent: i128,
    pub values: ArrayVec<ArrayVec<i128, MEMBER_ROOM>, MEMBER_ROOM>,
    pub rooms: ArrayVec<i128, MEMBER_ROOM>,
    pub left: ArrayVec<i128, MEMBER_ROOM>,
    pub right: ArrayVec<i128, MEMBER_ROOM>,
    pub walks: ArrayVec<i128, MEMBER_ROOM>,
    pub ranks: ArrayVec<i128, MEMBER_ROOM>,
    pub prices: ArrayVec<Frac, MEMBER_ROOM>,
    pub ghost some: { 1 ≤ length rooms.items },
    pub ghost members: { length values.items ≡ length rooms.items },
    pub ghost columns: { All (λ row. length row.items ≡ length rooms.items) values.items } by { Prim.hlevel props },
    pub ghost lefts: { length left.items ≡ length rooms.items },
    pub ghost rights: { length right.items ≡ length rooms.items },
    pub ghost each_walk: { length walks.items ≡ length rooms.items },
    pub ghost each_rank: { length ranks.items ≡ length rooms.items },
    pub ghost each_price: { length prices.items ≡ length rooms.items },
    pub ghost rent_small: { IsSmall rent },
    pub ghost values_small: { All (λ row. AreSmall row.items) values.items } by { Prim.hlevel props },
    pub ghost rooms_small: { AreSmall rooms.items } by { Prim.hlevel props },
    pub ghost left_small: { AreSmall left.items } by { Prim.hlevel props },
    pub ghost right_small: { AreSmall right.items } by { Prim.hlevel props },
    pub ghost walks_small: { AreSmall walks.items } by { Prim.hlevel props },
    pub ghost ranks_small: { AreSmall ranks.items } by { Prim.hlevel props },
    pub ghost prices_short: { AreShort prices.items } by { Prim.hlevel props },
}

/// What a certificate of goods says: the members who are players, their points by player and good, owners by good, and the tree.
///
/// There is at least one player and one good. Numbers have at most `MOST_DIGITS` digits, and the tree has a mark.
#[derive(Debug, Drop)]
pub struct GoodsText {
    pub goods: u8,
    pub limit: i128,
    pub who: ArrayVec<i128, MEMBER_ROOM>,
    pub values: ArrayVec<ArrayVec<i128, ITEM_ROOM>, MEMBER_ROOM>,
    pub owners: ArrayVec<i128, ITEM_ROOM>,
    pub steps: i128,
    pub tree: Tree,
    pub ghost goods_low: { 1 ≤ goods },
    pub ghost goods_high: { goods ≤ MOST_GOODS },
    pub ghost some: { 1 ≤ length who.items },
    pub ghost players: { length values.items ≡ length who.items },
    pub ghost columns: { All (λ row. length row.items ≡ goods) values.items } by { Prim.hlevel props },
    pub ghost each_good: { length owners.items ≡ goods },
    pub ghost limit_small: { IsSmall limit },
    pub ghost who_small: { AreSmall who.items } by { Prim.hlevel props },
    pub ghost values_small: { All (λ row. AreSmall row.items) values.items } by { Prim.hlevel props },
    pub ghost owners_small: { AreSmall owners.items } by { Prim.hlevel props },
    pub ghost steps_small: { IsSmall steps },
    pub ghost tree_some: { 1 ≤ length tree },
    pub ghost tree_marks: { AreMarks tree } by { Prim.hlevel props },
}

/// What a certificate of fares says: the legs from the origin and from each place, by place, and lists by rider.
///
/// There is at least one place and one rider. Numbers have at most `MOST_DIGITS` digits, and denominators are at most
/// `MOST_PRINTED_DENOMINATOR`.
#[derive(Debug, Drop)]
pub struct FaresText {
    pub places: u8,
    pub flag: i128,
    pub legs: ArrayVec<ArrayVec<i128, PLACE_ROOM>, LEG_ROW_ROOM>,
    pub who: ArrayVec<i128, RIDER_ROOM>,
    pub at: ArrayVec<i128, RIDER_ROOM>,
    pub table: Table,
    pub route: ArrayVec<i128, RIDER_ROOM>,
    pub fares: ArrayVec<Frac, RIDER_ROOM>,
    pub ghost places_low: { 1 ≤ places },
    pub ghost places_high: { places ≤ MOST_PLACES },
    pub ghost rows: { length legs.items ≡ places + 1 },
    pub ghost columns: { All (λ row. length row.items ≡ places) legs.items } by { Prim.hlevel props },
    pub ghost some: { 1 ≤ length who.items },
    pub ghost each_at: { length at.items ≡ length who.items },
    pub ghost table_whole: { length table ≡ table_size (length who.items) },
    pub ghost each_route: { length route.items ≡ length who.items },
    pub ghost each_fare: { length fares.items ≡ length who.items },
    pub ghost flag_small: { IsSmall flag },
    pub ghost legs_small: { All (λ row. AreSmall row.items) legs.items } by { Prim.hlevel props },
    pub ghost who_small: { AreSmall who.items } by { Prim.hlevel props },
    pub ghost at_small: { AreSmall at.items } by { Prim.hlevel props },
    pub ghost table_small: { AreSmall table } by { Prim.hlevel props },
    pub ghost route_small: { AreSmall route.items } by { Prim.hlevel props },
    pub ghost fares_short: { AreShort fares.items } by { Prim.hlevel props },
}
