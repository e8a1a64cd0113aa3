// The report of shared fares.
ghost use Rattle.std.specs.Prelude.{◌≡◌, ◌≤◌, ◌++◌, ◌∷◌, [], length, map, All, IfOk, OnOk, string_bytes};
ghost use Rattle.std.proofs.Props.{props};
ghost use Rattle.bid_rules.specs.Facts.{IsValidFareCase};
ghost use Rattle.bid_rules.specs.Fares.{coalition_cost};
ghost use Rattle.bid_rules.specs.declared.limits.TheConstants.{MOST_RIDERS, RIDER_ROOM};
ghost use Rattle.shapley_core.specs.Division.{IsFareDivision};
ghost use Rattle.split_reports.specs.Names.{shown_names};
ghost use Rattle.split_reports.specs.Parts.{lines_to};
ghost use Rattle.split_reports.specs.Fares.{AreRiders, IsFaresReport, fares_head, fares_report, member_of, rider_line, total_line};

use crate::text::{amount_at, fraction_at};
use crate::{Names, lines_law, named};
use arrayvec::ArrayVec;
use best_laws::{coalition_law, orders_law};
use bid_rules::FareCase;
use bid_rules::limits::RIDER_ROOM;
use envy_check::cent_plan;
use fare_routes::Costs;
use shapley_core::FareDivision;
use split_base::NoMemory;
use split_frac::{Frac, Numbers, push_line};
use std::alloc::Global;

// Appends the title and the numbers of riders and members.
fn push_head(lines: &mut String, names: &Names<'_>, case: &FareCase) -> Result<(), NoMemory>
    ensures { OnOk result (string_bytes lines.new
        ≡ string_bytes lines.old ++ fares_head (shown_names names.now) case.now) }
{
    let title = names.title.as_str();
    let (riders, members) = (case.who.len(), names.members.len());
    push_line(lines, format_args!("fares {title}"))?;
    push_line(lines, format_args!("riders {riders} of {members}"))?;
    Ok(())
}

// The numbers of members of the riders of a route, in its order.
fn members_along(case: &FareCase, route: &[u8]) -> ArrayVec<u8, RIDER_ROOM>
    requires few { length route.now ≤ RIDER_ROOM }
    requires riders { All (λ rider. (1 ≤ rider) × (rider ≤ length case.now.who.items)) route.now }
    ensures { result.items ≡ map (member_of case.now) route.now }
{
    let mut members = ArrayVec::new();
    for rider in route {
        members.push(case.who[*rider as usize - 1]);
    }
    members
}

// Appends the cost of all and the route, in the numbers of members.
fn push_total(lines: &mut String, case: &FareCase, total: u32, route: &[u8]) -> Result<(), NoMemory>
    requires few { length route.now ≤ RIDER_ROOM }
    requires riders { All (λ rider. (1 ≤ rider) × (rider ≤ length case.now.who.items)) route.now }
    ensures { OnOk result
        (string_bytes lines.new ≡ string_bytes lines.old ++ total_line case.now total route.now) }
{
    let members = members_along(case, route);
    let route = Numbers(members.as_slice());
    push_line(lines, format_args!("total {total}, route{route}"))
}

/// What the lines of riders tell. Each rider is a member who has a name, has a place that has one, and has a fare and cents to pay.
#[derive(Drop)]
pub(crate) struct RiderLines<'a> {
    pub(crate) names: &'a Names<'a>,
    pub(crate) case: &'a FareCase,
    /// The exact fares.
    pub(crate) fares: &'a [Frac],
    /// Whole cents.
    pub(crate) pays: &'a [i64],
    ghost riders: { AreRiders (shown_names names.now) case.now } by { Prim.hlevel props },
    ghost each_fare: { length fares.now ≡ length case.now.who.items },
    ghost each_pays: { length pays.now ≡ length case.now.who.items },
}

impl RiderLines<'_> {
    // Appends the line of a rider, whose cost alone is given.
    fn push_rider(&self, lines: &mut String, alone: u32, rider: u8) -> Result<(), NoMemory>
        requires low { 1 ≤ rider }
        requires high { rider ≤ length self.now.case.now.who.items }
        requires alone { alone ≡ coalition_cost self.now.case.now (rider ∷ []) }
        ensures { OnOk result (string_bytes lines.new
            ≡ string_bytes lines.old
            ++ rider_line (shown_names self.now.names.now) self.now.case.now self.now.fares.now
            self.now.pays.now rider) }
    {
        let person = named(
            self.names.members.as_slice(),
            self.case.who[rider as usize - 1],
        );
        let place = named(
            self.names.items.as_slice(),
            self.case.at[rider as usize - 1],
        );
        let fare = fraction_at(self.fares, rider);
        let pays = amount_at(self.pays, rider);
        push_line(
            lines,
            format_args!("{person}: place {place}, fare {fare}, pays {pays}, alone {alone}"),
        )
    }

    // Appends the lines of the riders.
    fn push_riders(&self, lines: &mut String, costs: &Costs) -> Result<(), NoMemory>
        requires costs { costs.now ≡ self.now.case.now }
        ensures { OnOk result (string_bytes lines.new
            ≡ string_bytes lines.old
            ++ lines_to (length self.now.case.now.who.items)
            (rider_line (shown_names self.now.names.now) self.now.case.now self.now.fares.now
            self.now.pays.now)) }
    {
        lines_law();
        for k in 0..self.case.who.len() as u8 {
            let rider = k + 1;
            self.push_rider(lines, cost_alone(costs, rider), rider)?;
        }
        Ok(())
    }
}

// What a rider would cost alone.
fn cost_alone(costs: &Costs, rider: u8) -> u32
    requires low { 1 ≤ rider }
    requires few { rider ≤ MOST_RIDERS }
    requires high { rider ≤ length costs.now.at.items }
    ensures { result ≡ coalition_cost costs.now (rider ∷ []) }
{
    coalition_law();
    costs.cost_of(1 << (rider - 1))
}

// The report of shared fares, in which the riders pay this.
fn fares_text(
    alloc: Global,
    riders: &RiderLines<'_>,
    division: &FareDivision,
) -> Result<Vec<u8>, NoMemory>
    requires route { All (λ rider. (1 ≤ rider) × (rider ≤ length riders.now.case.now.who.items))
        division.now.route.items }
    requires costs { division.now.costs ≡ riders.now.case.now }
    ensures { IfOk result (λ text.
        text.items
        ≡ fares_report (shown_names riders.now.names.now) riders.now.case.now division.now.total
        division.now.route.items riders.now.fares.now riders.now.pays.now) }
{
    let mut lines = String::new(alloc);
    push_head(&mut lines, riders.names, riders.case)?;
    push_total(
        &mut lines,
        riders.case,
        division.total,
        division.route.as_slice(),
    )?;
    riders.push_riders(&mut lines, &division.costs)?;
    Ok(lines.into_bytes())
}

// The report of shared fares, from the division that the solver gives for the case.
pub(crate) fn fares_report(
    alloc: Global,
    names: &Names<'_>,
    case: &FareCase,
    division: &FareDivision,
) -> Result<Vec<u8>, NoMemory>
    requires case { IsValidFareCase case.now }
    requires members { length names.now.members.now.items ≡ case.now.facts.members }
    requires places { length names.now.items.now.items ≡ case.now.facts.places }
    requires division { IsFareDivision case.now division.now }
    ensures { IfOk result (λ text.
        IsFaresReport (shown_names names.now) case.now division.now text.items) }
{
    orders_law();
    let pays = cent_plan(division.fares.as_slice(), i64::from(division.total));
    let riders = RiderLines {
        names,
        case,
        fares: division.fares.as_slice(),
        pays: pays.as_slice(),
    };
    fares_text(alloc, &riders, division)
}
