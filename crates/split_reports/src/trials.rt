// Draws the three cases of a trial from its number.
ghost use Rattle.std.specs.Prelude.{◌≡◌, ◌*◌, ◌≤◌};
ghost use Rattle.std.specs.List.{range_with_len};
ghost use Rattle.bid_rules.specs.declared.limits.TheConstants.{ITEM_ROOM, MEMBER_ROOM};
ghost use Rattle.split_reports.specs.TrialDraws.{after};
ghost use Rattle.split_reports.specs.Trials.{fare_behind, goods_behind, rent_behind, rows_drawn, trial_fare, trial_goods, trial_rent};
ghost use Rattle.split_reports.specs.declared.limits.TheConstants.{GOODS_DRAWS, RENT_DRAWS};

use crate::draws::Draws;
use crate::limits::{
    FARE_MEMBERS, FLAGS, GOODS_MEMBERS, LEAST_FLAG, RENT_MEMBERS, TRIAL_GOODS, TRIAL_PLACES,
    TRIAL_RENT,
};
use crate::spread::spread_by;
use crate::trial_fares::{draw_legs, draw_places};
use arrayvec::ArrayVec;
use bid_rules::limits::{MOST_STEPS, ValueTable, WHOLE_POINTS};
use bid_rules::{FareCase, Fares, Goods, GoodsCase, Rent, RentCase};

/// The cases of a trial: a rent of 12 members, 8 goods of 4 members, and a fare of 4 riders to 10 places, all drawn from the number. It
/// takes no memory.
///
/// Draws begin with the number modulo `DRAW_MODULUS`, and each is the one before times `DRAW_FACTOR`, modulo `DRAW_MODULUS`. On the rent
/// and the goods each member spreads the whole by weights of one draw each. The fare has a draw for the flag fall, one for each leg
/// except those of a place to itself, and one for the place of each rider.
pub fn trial_cases(number: u64) -> (RentCase, GoodsCase, FareCase)
    ensures rent { result.0 ≡ trial_rent number }
    ensures goods { result.1 ≡ trial_goods number }
    ensures fare { result.2 ≡ trial_fare number }
{
    let mut draws = Draws::of(number);
    let rent = draw_rent(&mut draws);
    let goods = draw_goods(&mut draws);
    let fare = draw_fare(&mut draws);
    (rent, goods, fare)
}

// Draws the rent.
fn draw_rent(draws: &mut Draws) -> RentCase
    ensures case { result ≡ rent_behind draws.old.last }
    ensures last { draws.new.last ≡ after RENT_DRAWS draws.old.last }
{
    RentCase {
        facts: Rent {
            members: RENT_MEMBERS,
            rent: TRIAL_RENT,
        },
        values: draw_rows(draws, RENT_MEMBERS, RENT_MEMBERS, TRIAL_RENT),
    }
}

// Draws the goods.
fn draw_goods(draws: &mut Draws) -> GoodsCase
    ensures case { result ≡ goods_behind draws.old.last }
    ensures last { draws.new.last ≡ after GOODS_DRAWS draws.old.last }
{
    GoodsCase {
        facts: Goods {
            members: GOODS_MEMBERS,
            goods: TRIAL_GOODS,
            limit: MOST_STEPS,
        },
        who: all_members(GOODS_MEMBERS),
        values: draw_rows(draws, GOODS_MEMBERS, TRIAL_GOODS, WHOLE_POINTS),
    }
}

// Draws the fare.
fn draw_fare(draws: &mut Draws) -> FareCase
    ensures { result ≡ fare_behind draws.old.last }
{
    let flag = LEAST_FLAG + draws.draw() % FLAGS;
    let legs = draw_legs(draws, TRIAL_PLACES);
    let at = draw_places(draws, FARE_MEMBERS, TRIAL_PLACES);
    FareCase {
        facts: Fares {
            members: FARE_MEMBERS,
            places: TRIAL_PLACES,
            flag,
            legs,
        },
        who: all_members(FARE_MEMBERS),
        at,
    }
}

// Draws rows of as many weights as there are columns, and spreads the whole by each.
fn draw_rows(draws: &mut Draws, rows: u8, columns: u8, whole: u32) -> ValueTable
    requires rows { rows ≤ MEMBER_ROOM }
    requires some { 1 ≤ columns }
    requires columns { columns ≤ ITEM_ROOM }
    ensures rows { result.items ≡ rows_drawn draws.old.last rows columns whole }
    ensures last { draws.new.last ≡ after (columns * rows) draws.old.last }
{
    let mut table = ValueTable::new();
    for _ in 0..rows {
        let weights = draws.weights(columns);
        table.push(spread_by(whole, &weights));
    }
    table
}

// All members, by number from 1.
fn all_members<const ROOM: usize>(members: u8) -> ArrayVec<u8, ROOM>
    requires room { members ≤ ROOM }
    requires few { members ≤ MEMBER_ROOM }
    ensures { result.items ≡ range_with_len 1 members }
{
    let mut who = ArrayVec::new();
    for place in 0..members {
        who.push(place + 1);
    }
    who
}
