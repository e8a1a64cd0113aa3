// For the rules of a certificate of fares: the case that its head prints.
ghost use Rattle.std.specs.Prelude.{◌≡◌, pos, ◌≤◌, ◌≤ℤ◌, All, MatchOption, length, map, unsigned_abs};
ghost use Rattle.fare_rules.specs.Head.{head_of};
ghost use Rattle.fare_rules.specs.Rules.{HasCase};
ghost use Rattle.fare_rules.specs.Printed.{printed_case};
ghost use Rattle.rule_verdicts.specs.Ranges.{AreBetween};

use arrayvec::ArrayVec;
use bid_rules::limits::{
    LEG_ROW_ROOM, MOST_FARE_CENTS, MOST_MEMBERS, MOST_PLACES, MOST_RIDERS, PLACE_ROOM, RIDER_ROOM,
};
use bid_rules::{FareCase, Fares};
use rule_verdicts::{members_between, rows_of_amounts};

/// A row of printed legs.
pub type PrintedRow = ArrayVec<i128, PLACE_ROOM>;

// The facts that the head prints, if each number of cents is one that a case can have.
fn facts_of(places: u8, flag: i128, legs: &[PrintedRow]) -> Option<Fares>
    requires { length legs.now ≤ LEG_ROW_ROOM }
    ensures { MatchOption result
        ((pos 0 ≤ℤ flag) × (flag ≤ℤ pos MOST_FARE_CENTS)
        × All (AreBetween 0 MOST_FARE_CENTS) (map (λ row. row.items) legs.now) → ⊥)
        (λ facts.
        (pos 0 ≤ℤ flag) × All (AreBetween 0 MOST_FARE_CENTS) (map (λ row. row.items) legs.now)
        × (facts
        ≡ record {
          members = MOST_RIDERS;
          places = places;
          flag = unsigned_abs flag;
          legs = record {
            items = map (λ row. record { items = map unsigned_abs row })
                (map (λ row. row.items) legs.now);
          };
        })) }
{
    if flag < 0 || flag > i128::from(MOST_FARE_CENTS) {
        return None;
    }
    let legs = rows_of_amounts(legs, MOST_FARE_CENTS)?;
    Some(Fares {
        members: MOST_RIDERS,
        places,
        flag: flag as u32,
        legs,
    })
}

// The printed case, if it is valid.
pub(crate) fn case_of(
    places: u8,
    flag: i128,
    legs: &[PrintedRow],
    who: &[i128],
    at: &[i128],
) -> Option<FareCase>
    requires legs { length legs.now ≤ LEG_ROW_ROOM }
    requires who { length who.now ≤ RIDER_ROOM }
    requires at { length at.now ≤ RIDER_ROOM }
    ensures { MatchOption result
        (HasCase (head_of places flag (map (λ row. row.items) legs.now) who.now at.now) → ⊥)
        (λ case.
        HasCase (head_of places flag (map (λ row. row.items) legs.now) who.now at.now)
        × (case
        ≡ printed_case (head_of places flag (map (λ row. row.items) legs.now) who.now at.now))) }
{
    let Some(facts) = facts_of(places, flag, legs) else {
        return None;
    };
    let Some(members) = members_between(who, 0, MOST_MEMBERS) else {
        return None;
    };
    let Some(stops) = members_between(at, 0, MOST_PLACES) else {
        return None;
    };
    let case = FareCase {
        facts,
        who: members,
        at: stops,
    };
    if case.is_valid() { Some(case) } else { None }
}
