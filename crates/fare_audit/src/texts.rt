// Writes what the audit of shared fares finds, as text.
ghost use Rattle.std.specs.Prelude.{◌≡◌, ◌<◌, ◌≤◌, ◌^◌, ◌++◌, length, map, IfOk, OnOk, string_bytes};
ghost use Rattle.std.specs.Option.{ForSome};
ghost use Rattle.bid_rules.specs.Facts.{IsValidFareCase};
ghost use Rattle.shapley_core.specs.Division.{IsFareDivision};
ghost use Rattle.fare_audit.specs.Texts.{IsFareAuditText, groups_line, members_in, worst_line};

use crate::audit::{Worst, audit_fares};
use arrayvec::ArrayVec;
use best_laws::coalition_law;
use bid_rules::FareCase;
use bid_rules::limits::{MOST_RIDERS, RIDER_ROOM};
use set_costs::{all_riders, riders_of_set};
use shapley_core::FareDivision;
use split_base::NoMemory;
use split_frac::{Numbers, push_line};
use std::alloc::Global;

// The numbers of the members who are the riders of a group.
fn members_of(who: &[u8], set: u16) -> ArrayVec<u8, RIDER_ROOM>
    requires few { length who.now ≤ MOST_RIDERS }
    requires set { set < 2 ^ length who.now }
    ensures { result.items ≡ members_in who.now set }
{
    coalition_law();
    let riders = riders_of_set(who.len() as u8, set);
    let mut members = ArrayVec::new();
    for rider in riders.as_slice() {
        members.push(who[usize::from(*rider) - 1]);
    }
    members
}

// Appends the line of the worst group, in the numbers of members.
fn push_worst(lines: &mut String, who: &[u8], worst: Option<Worst>) -> Result<(), NoMemory>
    requires few { length who.now ≤ MOST_RIDERS }
    requires group { ForSome worst (λ worst. worst.set < 2 ^ length who.now) }
    ensures { OnOk result
        (string_bytes lines.new ≡ string_bytes lines.old ++ worst_line who.now worst) }
{
    match worst {
        None => push_line(lines, "worst none"),
        Some(worst) => {
            let members = members_of(who, worst.set);
            let members = Numbers(members.as_slice());
            let excess = worst.excess;
            push_line(lines, format_args!("worst{members}, excess {excess}"))
        }
    }
}

// Appends the line of the numbers of groups.
fn push_groups(lines: &mut String, groups: u32, all: u16) -> Result<(), NoMemory>
    ensures { OnOk result
        (string_bytes lines.new ≡ string_bytes lines.old ++ groups_line groups all) }
{
    push_line(lines, format_args!("groups {groups} of {all}"))
}

/// The audit of a shared fare under its title, in three lines that each end with LF: how many groups of riders pay more than a ride of
/// their own would cost, and which overpays most, in the numbers of members, and by how many cents.
///
/// The division is the solver's for the case.
pub fn fare_audit_text(
    alloc: Global,
    title: &str,
    case: &FareCase,
    division: &FareDivision,
) -> Result<Vec<u8>, NoMemory>
    requires case { IsValidFareCase case.now }
    requires division { IsFareDivision case.now division.now }
    ensures { IfOk result (λ text. IsFareAuditText title.now case.now division.now text.items) }
{
    let audit = audit_fares(case, division);
    let mut lines = String::new(alloc);
    push_line(&mut lines, format_args!("audit fares {title}"))?;
    push_groups(&mut lines, audit.groups, all_riders(case.at.len() as u8))?;
    push_worst(&mut lines, case.who.as_slice(), audit.worst)?;
    Ok(lines.into_bytes())
}
