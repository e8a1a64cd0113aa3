// The report of a rent.
ghost use Rattle.std.specs.Prelude.{◌≡◌, ◌≤◌, ◌++◌, ◌∷◌, length, map, slice_index, All, IfOk, OnOk, string_bytes};
ghost use Rattle.bid_rules.specs.Rent.{IsValidRentCase, room_count};
ghost use Rattle.bid_rules.specs.declared.limits.TheConstants.{MEMBER_ROOM};
ghost use Rattle.envy_check.specs.Envy.{ArePrices};
ghost use Rattle.rent_maximin.specs.Division.{IsRentDivision};
ghost use Rattle.split_frac.specs.Frac.{fraction_of};
ghost use Rattle.split_reports.specs.Names.{shown_names};
ghost use Rattle.split_reports.specs.Parts.{lines_to};
ghost use Rattle.split_reports.specs.Rent.{AreFigures, AreFiguresOf, AreUtilities, IsRentReport, figures_shown, least_line, member_envy, member_line, rent_head, rent_report};

use crate::text::{amount_at, fraction_at};
use crate::{Names, lines_law, named};
use arrayvec::ArrayVec;
use bid_rules::RentCase;
use bid_rules::limits::MEMBER_ROOM;
use certificates::rent_pays;
use envy_check::{envy_table, utility_at};
use rent_maximin::{RentDivision, division_range_law};
use split_base::NoMemory;
use split_frac::{Frac, Numbers, push_line};
use std::alloc::Global;

/// What the report of a rent tells beside the names and the rent.
#[derive(Drop)]
pub(crate) struct RentFigures<'a> {
    /// The rooms by member, the prices by room and the least utility.
    pub(crate) division: &'a RentDivision,
    /// What each member pays in whole cents.
    pub(crate) pays: ArrayVec<i64, MEMBER_ROOM>,
    /// The utility of each member.
    pub(crate) utilities: ArrayVec<Frac, MEMBER_ROOM>,
    /// The envy table, by member.
    pub(crate) envy: ArrayVec<ArrayVec<Frac, MEMBER_ROOM>, MEMBER_ROOM>,
}

// Appends the title, the number of members and the rent.
fn push_head(lines: &mut String, title: &str, members: u8, rent: u32) -> Result<(), NoMemory>
    ensures { OnOk result
        (string_bytes lines.new ≡ string_bytes lines.old ++ rent_head title.now members rent) }
{
    push_line(lines, format_args!("rent {title}"))?;
    push_line(lines, format_args!("members {members}"))?;
    push_line(lines, format_args!("total {rent}"))?;
    Ok(())
}

// Appends the line of a member.
fn push_member(
    lines: &mut String,
    names: &Names<'_>,
    figures: &RentFigures<'_>,
    member: u8,
) -> Result<(), NoMemory>
    requires low { 1 ≤ member }
    requires high { member ≤ length names.now.members.now.items }
    requires figures { AreFigures (shown_names names.now) (figures_shown figures.now) }
    ensures { OnOk result (string_bytes lines.new
        ≡ string_bytes lines.old
        ++ member_line (shown_names names.now) (figures_shown figures.now) member) }
{
    let division = figures.division;
    let number = division.best.rooms[member as usize - 1];
    let person = named(names.members.as_slice(), member);
    let room = named(names.items.as_slice(), number);
    let price = fraction_at(division.prices.as_slice(), number);
    let pays = amount_at(figures.pays.as_slice(), member);
    let utility = fraction_at(figures.utilities.as_slice(), member);
    push_line(
        lines,
        format_args!("{person}: room {room}, price {price}, pays {pays}, utility {utility}"),
    )
}

// Appends the lines of the members.
fn push_members(
    lines: &mut String,
    names: &Names<'_>,
    figures: &RentFigures<'_>,
) -> Result<(), NoMemory>
    requires figures { AreFigures (shown_names names.now) (figures_shown figures.now) }
    ensures { OnOk result (string_bytes lines.new
        ≡ string_bytes lines.old
        ++ lines_to (length names.now.members.now.items)
        (member_line (shown_names names.now) (figures_shown figures.now))) }
{
    lines_law();
    for k in 0..names.members.len() as u8 {
        push_member(lines, names, figures, k + 1)?;
    }
    Ok(())
}

// Appends the line of the least utility.
fn push_least(lines: &mut String, least: &Frac) -> Result<(), NoMemory>
    ensures { OnOk result
        (string_bytes lines.new ≡ string_bytes lines.old ++ least_line least.now) }
{
    push_line(lines, format_args!("least utility {least}"))
}

// Appends the line of a member in the envy table.
fn push_envy(lines: &mut String, figures: &RentFigures<'_>, member: u8) -> Result<(), NoMemory>
    requires low { 1 ≤ member }
    requires high { member ≤ length figures.now.envy.items }
    ensures { OnOk result (string_bytes lines.new
        ≡ string_bytes lines.old ++ member_envy (figures_shown figures.now) member) }
{
    let row = Numbers(figures.envy[member as usize - 1].as_slice());
    push_line(lines, format_args!("envy {member}:{row}"))
}

// Appends the envy table.
fn push_table(lines: &mut String, figures: &RentFigures<'_>) -> Result<(), NoMemory>
    ensures { OnOk result (string_bytes lines.new
        ≡ string_bytes lines.old
        ++ lines_to (length figures.now.envy.items) (member_envy (figures_shown figures.now))) }
{
    lines_law();
    for k in 0..figures.envy.len() as u8 {
        push_envy(lines, figures, k + 1)?;
    }
    Ok(())
}

// The report of a rent, from the figures that it tells.
fn rent_text(
    alloc: Global,
    names: &Names<'_>,
    rent: u32,
    figures: &RentFigures<'_>,
) -> Result<Vec<u8>, NoMemory>
    requires { AreFigures (shown_names names.now) (figures_shown figures.now) }
    ensures { IfOk result (λ text.
        text.items ≡ rent_report (shown_names names.now) rent (figures_shown figures.now)) }
{
    let mut lines = String::new(alloc);
    push_head(
        &mut lines,
        names.title.as_str(),
        names.members.len() as u8,
        rent,
    )?;
    push_members(&mut lines, names, figures)?;
    push_least(&mut lines, &figures.division.least)?;
    push_table(&mut lines, figures)?;
    Ok(lines.into_bytes())
}

// The utility of each member with their own room.
fn utilities_of(case: &RentCase, rooms: &[u8], prices: &[Frac]) -> ArrayVec<Frac, MEMBER_ROOM>
    requires case { IsValidRentCase case.now }
    requires count { length rooms.now ≡ room_count case.now }
    requires rooms { All (λ room. (1 ≤ room) × (room ≤ room_count case.now)) rooms.now }
    requires prices { ArePrices case.now prices.now }
    ensures { AreUtilities case.now rooms.now (map fraction_of prices.now)
        (map fraction_of result.items) }
{
    let mut utilities = ArrayVec::new();
    for member in 0..case.facts.members as usize {
        utilities.push(utility_at(case, prices, member, rooms[member]));
    }
    utilities
}

// What the report tells of a division.
fn figures_of<'a>(case: &RentCase, division: &'a RentDivision) -> RentFigures<'a>
    requires case { IsValidRentCase case.now }
    requires division { IsRentDivision case.now division.now }
    ensures { AreFiguresOf case.now division.now (figures_shown result) }
{
    division_range_law();
    let rooms = division.best.rooms.as_slice();
    let prices = division.prices.as_slice();
    RentFigures {
        division,
        pays: rent_pays(case, division),
        utilities: utilities_of(case, rooms, prices),
        envy: envy_table(case, rooms, prices),
    }
}

// The report of a rent, from the division that the solver gives for the case.
pub(crate) fn rent_report(
    alloc: Global,
    names: &Names<'_>,
    case: &RentCase,
    division: &RentDivision,
) -> Result<Vec<u8>, NoMemory>
    requires case { IsValidRentCase case.now }
    requires members { length names.now.members.now.items ≡ room_count case.now }
    requires rooms { length names.now.items.now.items ≡ room_count case.now }
    requires division { IsRentDivision case.now division.now }
    ensures { IfOk result (λ text.
        IsRentReport (shown_names names.now) case.now division.now text.items) }
{
    let figures = figures_of(case, division);
    rent_text(alloc, names, case.facts.rent, &figures)
}
