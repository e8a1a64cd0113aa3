// Draws the legs and the riders' places for the fare of a trial.
ghost use Rattle.std.specs.Prelude.{◌≡◌, ◌==◌, ◌+◌, ◌%◌, ◌≤◌, if◌then◌else◌};
ghost use Rattle.bid_rules.specs.declared.limits.TheConstants.{PLACE_ROOM, RIDER_ROOM};
ghost use Rattle.split_reports.specs.TrialDraws.{after, next};
ghost use Rattle.split_reports.specs.Trials.{leg_draws, leg_table, legs_drawn, others, places_drawn};
ghost use Rattle.split_reports.specs.declared.limits.TheConstants.{LEAST_LEG, LEG_COUNT};

use crate::draws::Draws;
use crate::limits::{LEAST_LEG, LEG_COUNT};
use bid_rules::limits::{LegRow, Legs, RiderList};

// Draws the legs from the origin and from each place, in order.
pub(crate) fn draw_legs(draws: &mut Draws, places: u8) -> Legs
    requires { places ≤ PLACE_ROOM }
    ensures legs { result.items ≡ leg_table draws.old.last places (places + 1) }
    ensures last { draws.new.last ≡ after (leg_draws places (places + 1)) draws.old.last }
{
    let mut legs = Legs::new();
    for from in 0..places + 1 {
        legs.push(draw_row(draws, from, places));
    }
    legs
}

// Draws the legs from the origin, 0, or from a place to each place in order. That of the place to itself is 0 without a draw.
fn draw_row(draws: &mut Draws, from: u8, places: u8) -> LegRow
    requires { places ≤ PLACE_ROOM }
    ensures legs { result.items ≡ legs_drawn draws.old.last from places }
    ensures last { draws.new.last ≡ after (others from places) draws.old.last }
{
    let mut row = LegRow::new();
    for place in 0..places {
        row.push(draw_leg(draws, from, place + 1));
    }
    row
}

// Draws the leg from the origin or a place to a place.
fn draw_leg(draws: &mut Draws, from: u8, place: u8) -> u32
    ensures leg { result
        ≡ (if place == from then 0 else LEAST_LEG + next draws.old.last % LEG_COUNT) }
    ensures last { draws.new.last
        ≡ (if place == from then draws.old.last else next draws.old.last) }
{
    if place == from {
        return 0;
    }
    LEAST_LEG + draws.draw() % LEG_COUNT
}

// Draws a place for each rider.
pub(crate) fn draw_places(draws: &mut Draws, riders: u8, places: u8) -> RiderList
    requires riders { riders ≤ RIDER_ROOM }
    requires places { 1 ≤ places }
    ensures places { result.items ≡ places_drawn draws.old.last riders places }
{
    let mut at = RiderList::new();
    for _ in 0..riders {
        at.push(1 + (draws.draw() % u32::from(places)) as u8);
    }
    at
}
