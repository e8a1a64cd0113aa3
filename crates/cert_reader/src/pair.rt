// What the text of adjusted winner says, once it has been read.
ghost use Rattle.std.specs.Prelude.{◌≡◌, ◌≤◌, [], ◌∷◌, ◌++◌, All, length, map};
ghost use Rattle.std.proofs.Props.{props};
ghost use Rattle.bid_rules.specs.declared.limits.TheConstants.{MOST_GOODS, PAIR};
ghost use Rattle.cert_reader.specs.declared.limits.TheConstants.{MOST_PRINTED_DENOMINATOR};
ghost use Rattle.cert_reader.specs.Numbers.{AreShort, AreSmall, IsSmall};

use arrayvec::ArrayVec;
use bid_rules::limits::{ITEM_ROOM, PAIR_ROOM};
use split_frac::Frac;

/// What the text of a pair says: two players, their points by player and good, how much of each good goes to player 1, the weights of the two, and the points
/// that each gets. Its rules decide whether it shows a fair division.
///
/// There is at least one good, and at most `MOST_GOODS`. Numbers have at most `MOST_DIGITS` digits, and denominators are at most
/// `MOST_PRINTED_DENOMINATOR`.
#[derive(Debug, Drop)]
pub struct PairText {
    pub goods: u8,
    pub who: ArrayVec<i128, PAIR_ROOM>,
    pub values: ArrayVec<ArrayVec<i128, ITEM_ROOM>, PAIR_ROOM>,
    pub shares: ArrayVec<Frac, ITEM_ROOM>,
    pub weights: ArrayVec<i128, PAIR_ROOM>,
    pub total: Frac,
    pub ghost goods_low: { 1 ≤ goods },
    pub ghost goods_high: { goods ≤ MOST_GOODS },
    pub ghost two: { length who.items ≡ PAIR },
    pub ghost rows: { length values.items ≡ PAIR },
    pub ghost columns: { All (λ row. length row.items ≡ goods) values.items } by { Prim.hlevel props },
    pub ghost each_share: { length shares.items ≡ goods },
    pub ghost both: { length weights.items ≡ PAIR },
    pub ghost who_small: { AreSmall who.items } by { Prim.hlevel props },
    pub ghost values_small: { All (λ row. AreSmall row.items) values.items } by { Prim.hlevel props },
    pub ghost shares_short: { AreShort shares.items } by { Prim.hlevel props },
    pub ghost weights_small: { AreSmall weights.items } by { Prim.hlevel props },
    pub ghost total_small: { IsSmall total.num },
    pub ghost total_short: { total.den ≤ MOST_PRINTED_DENOMINATOR },
}
