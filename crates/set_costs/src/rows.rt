// The rows of a table of route costs, in the order of the numbers of their sets, so that each set comes after its subsets.
ghost use Rattle.std.specs.Prelude.{◌≡◌, ◌<◌, ◌^◌, length, map};
ghost use Rattle.bid_rules.specs.Coalitions.{riders_in};
ghost use Rattle.set_costs.specs.Table.{ListsCosts, route_costs};

use crate::recurrence::{cheapest, first_stops, start};
use arrayvec::ArrayVec;
use best_laws::{coalition_law, route_set_law};
use bid_rules::FareCase;
use bid_rules::limits::RIDER_ROOM;

/// Room for an entry for each place of departure: the origin, and the place of each rider.
pub const DEPARTURE_ROOM: usize = RIDER_ROOM + 1;

/// What the riders of a set cost in cents from each place of departure: from the origin, then from each rider's place.
pub type Row = ArrayVec<u32, DEPARTURE_ROOM>;

/// The row of the next set, given the rows of the sets below it: what its route costs from each place of departure.
pub fn next_row(case: &FareCase, rows: &[Row]) -> Row
    requires rows { ListsCosts case.now (map (λ row. row.items) rows.now) }
    requires more { length rows.now < 2 ^ length case.now.at.items }
    ensures { result.items ≡ route_costs case.now (riders_in (length rows.now)) }
{
    coalition_law();
    route_set_law();
    let stops = first_stops(case, rows, rows.len() as u16);
    let mut row = Row::new();
    for at in 0..=case.at.len() as u8 {
        row.push(cheapest(case, start(case, at), stops.as_slice()));
    }
    row
}
